//! Components that few entities have, and room that is made ahead.

use crate::entity_acts::{entities_over, give, spawn};
use crate::expected::{assert_prints, assert_same, given};
use crate::fresh::{Scene, play_both};
use entity_table::{AttachError, ComponentTable, PairError, SparseTable, Stale};
use example_libraries::entities::{
    exchanged, gone_with_rare, has_room_for, rare_within, rare_within_limits,
};
use generational_box::Storage;
use std::alloc::Global;
use std::process::Abort;

/// Three entities, of which two have a component that few have.
struct FewHaveOne;

impl Scene<u64> for FewHaveOne {
    fn play<R: Abort, S: Storage<u64> + Drop>(&self, rt: &R, alloc: Global, store: S) {
        let mut table = entities_over(rt, alloc, store);
        let mut names = ComponentTable::new(alloc, &table);
        let mut rare: SparseTable<u64, u64> = SparseTable::new(alloc);
        assert!(rt; rare.is_empty());
        let first = spawn(rt, &mut table, 0);
        let second = spawn(rt, &mut table, 1);
        let third = spawn(rt, &mut table, 2);
        give(rt, &mut names, first, 1);
        give(rt, &mut names, third, 3);
        assert_same(rt, &given(rt, rare.attach(&table, third, 30)), &None);
        assert_same(rt, &given(rt, rare.insert(first, 9)), &None);
        assert_same(rt, &given(rt, rare.insert(first, 10)), &Some(9));
        assert!(rt; rare.iter().eq([(third, &30), (first, &10)].iter().copied()));
        assert_same(rt, &rare.get(third).copied(), &Some(30));
        assert!(rt; rare.contains(first) && !rare.contains(second));
        let joined = rare.join_with(&names).map(|(_, name, _)| *name);
        assert!(rt; joined.eq([3, 1].iter().copied()));
        assert!(rt; !rare_within(&rare, &names));
        // Each element is 0.
        assert!(rt; !rare_within_limits(&table, &rare));
        given(rt, table.despawn(third));
        let joined = rare.join(&table).map(|(_, _, component)| *component);
        assert!(rt; joined.eq([10].iter().copied()));
        // A later entity of the same slot has none.
        let fourth = spawn(rt, &mut table, 3);
        assert!(rt; !rare.contains(fourth) && rare.contains(third));
        let before = gone_with_rare(&mut table, &mut rare, fourth, 40);
        assert_same(rt, &before, &Some(40));
        let refusal = rare.attach(&table, third, 31).err();
        let created_at = table.created_at(third);
        let stale = AttachError::Stale(Stale { created_at });
        assert_same(rt, &refusal.map(|refusal| refusal.cause), &Some(stale));
        assert_same(rt, &rare.remove(third), &Some(30));
        assert_same(rt, &rare.remove(third), &None);
        assert_same(rt, &rare.len(), &1);
        rare.clear();
        assert!(rt; rare.is_empty());
        assert!(rt; has_room_for(&mut table, &mut names, 100) && table.len() == 2);
    }
}

#[test]
fn few_entities_have_a_component(rt: HostRuntime) {
    play_both::<u64, FewHaveOne>(&rt, rt.alloc(), &FewHaveOne);
}

/// Three entities, of which two have a component, which change at once.
struct TwoChange;

impl Scene<u64> for TwoChange {
    fn play<R: Abort, S: Storage<u64> + Drop>(&self, rt: &R, alloc: Global, store: S) {
        let mut table = entities_over(rt, alloc, store);
        let mut names = ComponentTable::new(alloc, &table);
        let first = spawn(rt, &mut table, 0);
        let second = spawn(rt, &mut table, 1);
        let third = spawn(rt, &mut table, 2);
        give(rt, &mut names, first, 1);
        give(rt, &mut names, third, 3);
        given(rt, exchanged(&mut names, first, third));
        assert_same(rt, &names.get(first).copied(), &Some(3));
        assert_same(rt, &names.get(third).copied(), &Some(1));
        assert_same(rt, &names.len(), &2);
        let same = exchanged(&mut names, first, first);
        assert_same(rt, &same, &Err(PairError::SameEntity));
        assert_same(
            rt,
            &exchanged(&mut names, second, second),
            &Err(PairError::NoFirst),
        );
        assert_same(
            rt,
            &exchanged(&mut names, third, second),
            &Err(PairError::NoSecond),
        );
        assert_same(rt, &names.get(third).copied(), &Some(1));
        assert_prints(
            rt,
            alloc,
            &PairError::SameEntity,
            "both are the same entity",
        );
    }
}

#[test]
fn two_components_change_at_once(rt: HostRuntime) {
    play_both::<u64, TwoChange>(&rt, rt.alloc(), &TwoChange);
}

//! A box, and an owner, in a user's own structs.

ghost use Rattle.std.specs.Prelude.{◌≡◌, IfOk, OnErr, Some};
ghost use Rattle.generational_core.specs.Answers.{pointer_of};
ghost use Rattle.generational_core.specs.Machine.Action.{Make, NewOwner};
ghost use Rattle.generational_core.specs.Seeing.{value_in};
ghost use Rattle.generational_core.specs.Steps.{Meets};
ghost use Rattle.generational_laws.specs.Wrapping.{wrapped_answer, wrapped_owner_answer};

use generational_box::{GenerationalBox, Location, Owner, Refusal, Storage, StoreError};

/// A number in a store.
#[derive(Clone, Copy)]
pub struct Counter {
    raw: GenerationalBox<u64>,
}

/// An owner of such numbers. It has no `Drop`: its owner must be consumed.
pub struct Group {
    owner: Owner,
}

impl Group {
    /// A group without numbers. Fails like a new owner.
    pub fn new<S: Storage<u64>>(store: &mut S) -> Result<Group, StoreError>
        ensures { Meets (S.state store.old) NewOwner (wrapped_owner_answer (λ g. g.owner) result)
            (S.state store.new) }
    {
        let owner = store.owner()?;
        Ok(Group { owner })
    }

    /// A number of the group, at this count. If it fails, nothing changes.
    pub fn count_from<S: Storage<u64>>(
        &self,
        store: &mut S,
        count: u64,
        here: Location,
    ) -> Result<Counter, Refusal<u64>>
        ensures step { Meets (S.state store.old) (Make (Some self.now.owner) count here)
            (wrapped_answer (λ c. pointer_of c.raw) result) (S.state store.new) }
        ensures seen { IfOk result (λ c.
            value_in (S.state store.new) (pointer_of c.raw) ≡ Some count) }
        ensures refused { OnErr result (S.state store.new ≡ S.state store.old) }
    {
        let raw = self.owner.insert(store, count, here)?;
        Ok(Counter { raw })
    }

    /// The group's owner, which must be consumed.
    pub fn into_owner(self) -> Owner
        ensures { result ≡ self.owner }
    {
        let Group { owner } = self;
        owner
    }
}

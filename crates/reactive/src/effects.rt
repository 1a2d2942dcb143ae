//! Effects: nodes that are watched, and whose changes are reported.

ghost use Rattle.std.specs.Prelude.{◌≡◌, ◌≢◌, ◌<◌, ℕ, List, [], ◌∷◌, ◌++◌, true, length, IsTrue, IfErr, IfOk, IfSome, IfNone, OnOk, OnErr, Ok, Err, None, Some};
ghost use Rattle.reactive.specs.declared.effects.Told.{Told};
ghost use Rattle.reactive.specs.declared.fault.Fault.TheVariants as fault;
ghost use Rattle.reactive.specs.Hearing.{Hears, IsNoShortage, WasTold, is_old, effect_named, telling};
ghost use Rattle.dirty_slots.specs.Blocks.{AreSameSlots, HasFlagged, clean_at};
ghost use Rattle.reactive.specs.Watching.{effect_at};
ghost use Rattle.reactive.specs.Refreshing.{HasRunOut};

use crate::fault::Fault;
use crate::key::Key;
use dirty_slots::DirtySlots;
use generational_core::StoreError;
use reactive_values::Value;
use std::alloc::{AllocError, Global};

/// A node that is watched, its number, and what was last reported of it: its value, or why it means nothing.
#[derive(Drop)]
pub struct Effect<T> {
    pub(crate) key: Key,
    pub(crate) tag: u64,
    pub(crate) told: Option<Result<T, Fault>>,
}

/// A report of a flush: a node that is watched, its number, and what it means now, or why it means nothing.
#[derive(Drop)]
pub struct Told<T> {
    pub key: Key,
    pub tag: u64,
    pub answer: Result<T, Fault>,
}

/// The effects, by the slots of their nodes. A slot is clean if what was last reported is right.
#[derive(Drop)]
pub(crate) struct Effects<T> {
    pub(crate) rows: Vec<Option<Effect<T>>>,
    pub(crate) dirty: DirtySlots,
}

impl<T: Value + Drop> Effect<T> {
    // Whether a value is the one that was last reported.
    fn has_heard(&self, value: &T) -> bool
        ensures old { result ≡ is_old T.is_same self.now.told (Ok value.now) }
        ensures told { IsTrue result → WasTold self.now.told (Ok value.now) }
    {
        match &self.told {
            Some(Ok(last)) => last.same(value),
            _ => false,
        }
    }

    // Reports a value or a fault, and records that it was reported.
    fn tell(
        &mut self,
        noted: Result<T, Fault>,
        answer: Result<T, Fault>,
        told: &mut Vec<Told<T>>,
    ) -> Result<(), StoreError>
        ensures noted { OnOk result (self.new ≡ record {
          key = self.old.key;
          tag = self.old.tag;
          told = Some noted;
        }) }
        ensures told { OnOk result (told.new.items ≡ told.old.items ++ telling self.old answer ∷ []) }
        ensures cause { IfErr result HasRunOut }
        ensures kept { OnErr result (self.new ≡ self.old) }
        ensures untold { OnErr result (told.new.items ≡ told.old.items) }
    {
        let key = self.key;
        let tag = self.tag;
        match told.push(Told { key, tag, answer }) {
            Ok(()) => {}
            Err(_) => return Err(StoreError::OutOfMemory),
        }
        self.told = Some(noted);
        Ok(())
    }

    // Reports a value, unless it is the one that was last reported.
    fn hear_value(&mut self, value: &T, told: &mut Vec<Told<T>>) -> Result<(), StoreError>
        ensures heard { OnOk result ((news : List (Told T)) × (told.new.items ≡ told.old.items ++ news)
            × Hears T.is_same self.old (Ok value.now) self.new news) }
        ensures noted { OnOk result (self.new.told ≡ Some (Ok value.now)) }
        ensures key { self.new.key ≡ self.old.key }
        ensures cause { IfErr result HasRunOut }
        ensures kept { OnErr result (self.new ≡ self.old) }
        ensures untold { OnErr result (told.new.items ≡ told.old.items) }
    {
        if self.has_heard(value) {
            return Ok(());
        }
        let Ok(noted) = value.copy() else {
            return Err(StoreError::OutOfMemory);
        };
        let Ok(answer) = value.copy() else {
            return Err(StoreError::OutOfMemory);
        };
        self.tell(Ok(noted), Ok(answer), told)
    }

    // Reports that there is no value, unless that was last reported.
    fn hear_fault(&mut self, fault: Fault, told: &mut Vec<Told<T>>) -> Result<(), StoreError>
        ensures heard { OnOk result ((news : List (Told T)) × (told.new.items ≡ told.old.items ++ news)
            × Hears T.is_same self.old (Err fault) self.new news) }
        ensures key { self.new.key ≡ self.old.key }
        ensures cause { IfErr result HasRunOut }
        ensures kept { OnErr result (self.new ≡ self.old) }
        ensures untold { OnErr result (told.new.items ≡ told.old.items) }
    {
        if let Some(Err(_)) = &self.told {
            return Ok(());
        }
        let answer = Err(fault);
        self.tell(Err(fault), answer, told)
    }
}

// Removes an effect.
pub(crate) fn remove<T: Drop>(row: &mut Option<Effect<T>>)
    ensures { row.new ≡ None }
{
    *row = None;
}

// The lack of memory or of numbers that a fault reports.
pub(crate) fn shortage(told: Fault) -> Option<StoreError>
    ensures some { IfSome result (λ e. told ≡ fault.Store e) }
    ensures none { IfNone result (IsNoShortage told) }
{
    match told {
        Fault::Store(cause) => Some(cause),
        Fault::Gone(_) => None,
        Fault::Cycle(_) => None,
        Fault::NoValue(_) => None,
        Fault::NoSource(_) => None,
    }
}

// Reports a value of a row's node, unless it is the one that was last reported.
pub(crate) fn hear_value<T: Value + Drop>(
    row: &mut Option<Effect<T>>,
    value: &T,
    told: &mut Vec<Told<T>>,
) -> Result<(), StoreError>
    ensures heard { OnOk result ((e : Effect T) → row.old ≡ Some e → (f : Effect T) × (news : List (Told T))
        × (row.new ≡ Some f) × (told.new.items ≡ told.old.items ++ news) × Hears T.is_same e (Ok value.now) f news
        × (f.key ≡ e.key) × (f.told ≡ Some (Ok value.now))) }
    ensures cause { IfErr result HasRunOut }
    ensures kept { OnErr result (row.new ≡ row.old) }
    ensures untold { OnErr result (told.new.items ≡ told.old.items) }
{
    match row {
        Some(effect) => effect.hear_value(value, told),
        None => Ok(()),
    }
}

// Reports that a row's node has no value, unless that was last reported.
pub(crate) fn hear_fault<T: Value + Drop>(
    row: &mut Option<Effect<T>>,
    fault: Fault,
    told: &mut Vec<Told<T>>,
) -> Result<(), StoreError>
    ensures heard { OnOk result ((e : Effect T) → row.old ≡ Some e → (f : Effect T) × (news : List (Told T))
        × (row.new ≡ Some f) × (told.new.items ≡ told.old.items ++ news) × Hears T.is_same e (Err fault) f news
        × (f.key ≡ e.key)) }
    ensures cause { IfErr result HasRunOut }
    ensures kept { OnErr result (row.new ≡ row.old) }
    ensures untold { OnErr result (told.new.items ≡ told.old.items) }
{
    match row {
        Some(effect) => effect.hear_fault(fault, told),
        None => Ok(()),
    }
}

// Reports that a row's node was removed, and removes the effect.
pub(crate) fn hear_end<T: Value + Drop>(
    row: &mut Option<Effect<T>>,
    told: &mut Vec<Told<T>>,
) -> Result<(), StoreError>
    ensures ended { OnOk result (row.new ≡ None) }
    ensures told { OnOk result ((e : Effect T) → row.old ≡ Some e →
        told.new.items ≡ told.old.items ++ telling e (Err (fault.Gone e.key)) ∷ []) }
    ensures cause { IfErr result HasRunOut }
    ensures kept { OnErr result (row.new ≡ row.old) }
    ensures untold { OnErr result (told.new.items ≡ told.old.items) }
{
    let Some(effect) = row else {
        return Ok(());
    };
    let key = effect.key;
    let tag = effect.tag;
    let answer = Err(Fault::Gone(key));
    match told.push(Told { key, tag, answer }) {
        Ok(()) => {}
        Err(_) => return Err(StoreError::OutOfMemory),
    }
    *row = None;
    Ok(())
}

impl<T: Drop> Effects<T> {
    // No effects.
    pub(crate) fn new(alloc: Global) -> Self
        ensures { result.rows.items ≡ [] }
    {
        Effects {
            rows: Vec::new(alloc),
            dirty: DirtySlots::new(alloc),
        }
    }

    // Makes room for a slot's effect. False if memory runs out.
    pub(crate) fn reserve(&mut self, slot: usize) -> bool
        ensures effects { (s : ℕ) → effect_at self.new.rows.items s ≡ effect_at self.old.rows.items s }
        ensures dirty { self.new.dirty ≡ self.old.dirty }
        ensures room { IsTrue result → slot < length self.new.rows.items }
    {
        while self.rows.len() <= slot {
            if self.rows.push(None).is_err() {
                return false;
            }
        }
        true
    }

    // The node and the number of a slot's effect.
    pub(crate) fn at(&self, slot: usize) -> Option<(Key, u64)>
        ensures { result ≡ effect_named (effect_at self.now.rows.items slot) }
    {
        match self.rows.get(slot) {
            Some(Some(effect)) => Some((effect.key, effect.tag)),
            _ => None,
        }
    }

    // Whether what was reported of a slot's node is right, or it has no effect.
    pub(crate) fn is_settled(&self, slot: usize) -> bool
        ensures { IsTrue result → (e : Effect T) → effect_at self.now.rows.items slot ≡ Some e →
            clean_at self.now.dirty.clean.items slot ≡ true }
    {
        match self.rows.get(slot) {
            Some(Some(_)) => self.dirty.is_clean(slot),
            _ => true,
        }
    }

    // Replaces the effect of a node's slot, whose node and number are returned. Fails if memory runs out.
    pub(crate) fn put(&mut self, key: Key, tag: u64) -> Result<Option<(Key, u64)>, AllocError>
        ensures here { OnOk result (effect_at self.new.rows.items key.id.slot ≡ Some (record {
          key = key;
          tag = tag;
          told = None;
        })) }
        ensures before { IfOk result (λ before. before ≡ effect_named (effect_at self.old.rows.items key.id.slot)) }
        ensures others { (s : ℕ) → s ≢ key.id.slot → effect_at self.new.rows.items s ≡ effect_at self.old.rows.items s }
        ensures refused { OnErr result ((s : ℕ) → effect_at self.new.rows.items s ≡ effect_at self.old.rows.items s) }
        ensures flagged { OnOk result (HasFlagged self.old.dirty key.id.slot self.new.dirty) }
        ensures alike { OnErr result (AreSameSlots self.old.dirty self.new.dirty) }
    {
        let slot = key.id.slot;
        if !self.reserve(slot) {
            return Err(AllocError);
        }
        if !self.dirty.reserve(slot) {
            return Err(AllocError);
        }
        let before = self.at(slot);
        let told = None;
        self.dirty.flag(slot);
        self.rows[slot] = Some(Effect { key, tag, told });
        Ok(before)
    }
}

//! Images of slots.

ghost use Rattle.std.specs.Prelude.{◌≡◌, ◌≢◌, ◌<◌, ◌≤◌, [], ℕ, true, None, IfOk, IfSome, IfNone};
ghost use Rattle.std.specs.Prelude.{is_some, length, slice_get, vec_capacity};
ghost use Rattle.std.specs.FinMap as map;
ghost use Rattle.generational_core.specs.Borrowing.{write_refusal};
ghost use Rattle.generational_core.specs.Conditions.{IsLinked};
ghost use Rattle.generational_core.specs.Names.{Name};
ghost use Rattle.generational_core.specs.Slots.{slots};
ghost use Rattle.generational_core.specs.State.{content_at};
ghost use Rattle.store_cells.specs.Entry.{content_in};
ghost use Rattle.store_images.specs.Images.{told, IsWholeImage};
ghost use Rattle.store_images.specs.Saving.{IsStateCopy};
ghost use Rattle.store_slots.specs.ImageSlots.{AreSlotImages, AreUnborrowed, IsCellImage};
ghost use Rattle.store_slots.specs.ImageSlots.{kept_told};
ghost use Rattle.store_slots.specs.SlotsState.{with_records};

use crate::slots::Slots;
use generational_core::parts::Borrow;
use std::alloc::{AllocError, Global};
use store_cells::entries::Entries;
use store_cells::entry::CellKind;
use store_images::{CellImage, Image, SlotImage};
use store_parts::names::CellName;
use store_parts::pool::SlotPool;

impl<T: Drop, P: SlotPool> Slots<T, P> {
    /// The first slot whose value is borrowed.
    pub fn find_borrowed(&self) -> Option<usize>
        ensures some { IfSome result (λ k. (g : ℕ) × (is_some (write_refusal
            (content_at self.now.state (record { slot = k; generation = g }))) ≡ true)) }
        ensures none { IfNone result ((n : Name)
            → write_refusal (content_at self.now.state n) ≡ None) }
    {
        borrowed_slot(&self.entries)
    }

    /// The image of a store with this number and this next ticket, which has no owners. `images` has room
    /// for each slot, and nothing is borrowed. Doesn't allocate.
    pub fn into_image(self, number: u64, next: u64, images: Vec<SlotImage<T>>) -> Image<T>
        requires linked { IsLinked self.state.cells }
        requires free { (n : Name) → write_refusal (content_at self.state n) ≡ None }
        requires none { images.items ≡ [] }
        requires room { slots self.state ≤ vec_capacity images }
        ensures state { told result ≡ with_records self.state number map.empty next }
        ensures whole { IsWholeImage result }
    {
        let made = self.entries.len();
        let Slots {
            start,
            counts,
            entries,
            pool,
        } = self;
        let peak = counts.peak(made);
        drop(counts);
        drop(pool);
        Image {
            number,
            start,
            next,
            peak,
            slots: take_cells(entries, images),
        }
    }

    /// Such an image with a copy of each value. Allocates for each slot, and what the copies allocate.
    pub fn image(&self, alloc: Global, number: u64, next: u64) -> Result<Image<T>, AllocError>
    where
        T: Clone,
        requires linked { IsLinked self.now.state.cells }
        requires free { (n : Name) → write_refusal (content_at self.now.state n) ≡ None }
        ensures copy { IfOk result (λ image. IsStateCopy T.is_clone
            (with_records self.now.state number map.empty next) (told image)) }
        ensures whole { IfOk result IsWholeImage }
    {
        let slots = copy_cells(&self.entries, alloc)?;
        Ok(Image {
            number,
            start: self.start,
            next,
            peak: self.counts.peak(self.entries.len()),
            slots,
        })
    }
}

// The first slot whose value is borrowed.
fn borrowed_slot<T: Drop>(entries: &Entries<T>) -> Option<usize>
    ensures some { IfSome result (λ k. IfSome (slice_get entries.now.slots k)
        (λ e. is_some (write_refusal (content_in e.kept)) ≡ true)) }
    ensures within { IfSome result (λ k. k < length entries.now.slots) }
    ensures none { IfNone result (AreUnborrowed entries.now.slots) }
{
    for slot in 0..entries.len() {
        if !entries.is_unborrowed(slot) {
            return Some(slot);
        }
    }
    None
}

// The images of slots without borrows, each with its value.
fn take_cells<T: Drop>(mut entries: Entries<T>, mut images: Vec<SlotImage<T>>) -> Vec<SlotImage<T>>
    requires free { AreUnborrowed entries.slots }
    requires none { images.items ≡ [] }
    requires room { length entries.slots ≤ vec_capacity images }
    ensures { AreSlotImages (λ v w. w ≡ v) entries.slots result.items }
{
    for slot in 0..entries.len() {
        let generation = entries.generation(slot);
        let cell = take_cell(&mut entries, CellName { slot, generation });
        images.push_reserved(SlotImage { generation, cell });
    }
    images
}

// The image of a slot without borrows, with its value. The slot is empty then.
fn take_cell<T: Drop>(entries: &mut Entries<T>, name: CellName) -> CellImage<T>
    requires within { name.slot < length entries.old.slots }
    requires free { IfSome (slice_get entries.old.slots name.slot)
        (λ e. (name.generation ≡ e.generation) × (write_refusal (content_in e.kept) ≡ None)) }
    ensures image { IfSome (slice_get entries.old.slots name.slot)
        (λ e. IsCellImage (λ v w. w ≡ v) e.kept result) }
    ensures others { (k : ℕ) → k ≢ name.slot
        → slice_get entries.new.slots k ≡ slice_get entries.old.slots k }
    ensures long { length entries.new.slots ≡ length entries.old.slots }
{
    let Some(kind) = entries.kind(name) else {
        return bare_image(entries, name);
    };
    let location = entries.details(name.slot).created_at;
    let value = entries.begin_write(
        name,
        Borrow {
            ticket: 0,
            location,
        },
    );
    entries.end(name.slot, false);
    match kind {
        CellKind::Value => CellImage::Value(value, location),
        CellKind::Shared => CellImage::Shared(value, location),
    }
}

// The image of a slot without a value.
fn bare_image<T: Drop>(entries: &Entries<T>, name: CellName) -> CellImage<T>
    requires within { name.slot < length entries.now.slots }
    requires bare { IfSome (slice_get entries.now.slots name.slot)
        (λ e. (name.generation ≡ e.generation) × (content_in e.kept ≡ None)) }
    ensures { IfSome (slice_get entries.now.slots name.slot)
        (λ e. kept_told result ≡ e.kept) }
{
    match entries.target(name) {
        Some(target) => CellImage::Reference(
            target.slot,
            target.generation,
            entries.details(name.slot).created_at,
        ),
        None => CellImage::Empty,
    }
}

// The images of slots without borrows, each with a copy of its value.
fn copy_cells<T: Drop + Clone>(
    entries: &Entries<T>,
    alloc: Global,
) -> Result<Vec<SlotImage<T>>, AllocError>
    requires { AreUnborrowed entries.now.slots }
    ensures { IfOk result (λ images. AreSlotImages T.is_clone entries.now.slots images.items) }
{
    let mut images = Vec::with_capacity(alloc, entries.len())?;
    for slot in 0..entries.len() {
        let generation = entries.generation(slot);
        let cell = copy_cell(entries, CellName { slot, generation })?;
        images.push_reserved(SlotImage { generation, cell });
    }
    Ok(images)
}

// The image of a slot without borrows, with a copy of its value.
fn copy_cell<T: Drop + Clone>(
    entries: &Entries<T>,
    name: CellName,
) -> Result<CellImage<T>, AllocError>
    requires within { name.slot < length entries.now.slots }
    requires free { IfSome (slice_get entries.now.slots name.slot)
        (λ e. (name.generation ≡ e.generation) × (write_refusal (content_in e.kept) ≡ None)) }
    ensures { IfOk result (λ image. IfSome (slice_get entries.now.slots name.slot)
        (λ e. IsCellImage T.is_clone e.kept image)) }
{
    let Some(value) = entries.peek(name.slot) else {
        return Ok(bare_image(entries, name));
    };
    let value = value.clone()?;
    let location = entries.details(name.slot).created_at;
    match entries.kind(name) {
        Some(CellKind::Shared) => Ok(CellImage::Shared(value, location)),
        _ => Ok(CellImage::Value(value, location)),
    }
}

//! Whether a store can have an image.

ghost use Rattle.std.specs.Prelude.{◌≡◌, ◌<◌, ℕ, false, Some, IfSome, IfNone, IfErr, OnOk};
ghost use Rattle.std.specs.Prelude.{length, slice_get};
ghost use Rattle.store_parts.specs.Lists.{how_many};
ghost use Rattle.store_images.specs.Images.{HasBegun, HasTarget, IsLoadError, IsReferredTo, IsWholeImage};
ghost use Rattle.store_images.specs.Images.{has_shared, is_referred_to, is_shared_in, is_usable};

use crate::image::{CellImage, Image, ImageFault, LoadError, SlotImage};
use std::alloc::Global;

/// Checks whether a store can have the image, in O(n) for n slots. Allocates a byte for each slot.
///
/// # Errors
///
/// The image's first fault, in the order of `ImageFault`'s variants except for the peak, which is checked
/// before references; or `OutOfMemory`.
pub fn check_image<T>(alloc: Global, image: &Image<T>) -> Result<(), LoadError>
    ensures ok { OnOk result (IsWholeImage image.now) }
    ensures err { IfErr result (λ e. IsLoadError image.now e) }
{
    let slots = image.slots.as_slice();
    if let Some(slot) = find_early(slots, image.start) {
        return Err(LoadError::Unsound(ImageFault::EarlyGeneration(slot)));
    }
    if image.peak < usable(slots) {
        return Err(LoadError::Unsound(ImageFault::LowPeak));
    }
    if slots.len() < image.peak {
        return Err(LoadError::Unsound(ImageFault::HighPeak));
    }
    let Ok(mut named) = Vec::with_capacity(alloc, slots.len()) else {
        return Err(LoadError::OutOfMemory);
    };
    if named.resize(slots.len(), false).is_err() {
        return Err(LoadError::OutOfMemory);
    }
    if let Some(slot) = find_dangling(slots, named.as_mut_slice()) {
        return Err(LoadError::Unsound(ImageFault::DanglingReference(slot)));
    }
    match find_unreferenced(slots, named.as_slice()) {
        Some(slot) => Err(LoadError::Unsound(ImageFault::UnreferencedValue(slot))),
        None => Ok(()),
    }
}

// The first slot whose generation is below the first one.
fn find_early<T>(slots: &[SlotImage<T>], start: u64) -> Option<usize>
    ensures some { IfSome result (λ k. ¬ HasBegun start (slice_get slots.now k)) }
    ensures none { IfNone result ((k : ℕ) → HasBegun start (slice_get slots.now k)) }
{
    for (slot, image) in slots.iter().enumerate() {
        if image.generation < start {
            return Some(slot);
        }
    }
    None
}

// How many slots are live or free.
fn usable<T>(slots: &[SlotImage<T>]) -> usize
    ensures { result ≡ how_many is_usable slots.now }
{
    let mut count = 0;
    for image in slots {
        if is_live_or_free(image) {
            count += 1;
        }
    }
    count
}

fn is_live_or_free<T>(image: &SlotImage<T>) -> bool
    ensures { result ≡ is_usable image.now }
{
    match &image.cell {
        CellImage::Empty => image.generation < u64::MAX,
        _ => true,
    }
}

fn is_shared<T>(image: &SlotImage<T>) -> bool
    ensures { result ≡ has_shared image.now.cell }
{
    matches!(&image.cell, CellImage::Shared(_, _))
}

// Whether the slot has a shared value under this generation.
fn is_shared_at<T>(slots: &[SlotImage<T>], slot: usize, generation: u64) -> bool
    ensures { result ≡ is_shared_in (slice_get slots.now slot) generation }
{
    match slots.get(slot) {
        Some(image) => is_shared(image) && image.generation == generation,
        None => false,
    }
}

// The first slot with a reference to no shared value. If there is none, `named` says of each slot
// whether a reference refers to it.
fn find_dangling<T>(slots: &[SlotImage<T>], named: &mut [bool]) -> Option<usize>
    requires long { length named.old ≡ length slots.now }
    requires none { (k : ℕ) → k < length named.old → slice_get named.old k ≡ Some false }
    ensures some { IfSome result (λ k. ¬ HasTarget slots.now (slice_get slots.now k)) }
    ensures none { IfNone result ((k : ℕ) → HasTarget slots.now (slice_get slots.now k)) }
    ensures named { IfNone result ((k : ℕ) → k < length slots.now
        → slice_get named.new k ≡ Some (is_referred_to slots.now k)) }
{
    for (slot, image) in slots.iter().enumerate() {
        if let CellImage::Reference(target, generation, _) = &image.cell {
            if !is_shared_at(slots, *target, *generation) {
                return Some(slot);
            }
            named[*target] = true;
        }
    }
    None
}

// The first slot with a shared value to which no reference refers.
fn find_unreferenced<T>(slots: &[SlotImage<T>], named: &[bool]) -> Option<usize>
    requires long { length named.now ≡ length slots.now }
    requires named { (k : ℕ) → k < length slots.now
        → slice_get named.now k ≡ Some (is_referred_to slots.now k) }
    ensures some { IfSome result (λ k. ¬ IsReferredTo slots.now k (slice_get slots.now k)) }
    ensures none { IfNone result ((k : ℕ) → IsReferredTo slots.now k (slice_get slots.now k)) }
{
    for (slot, image) in slots.iter().enumerate() {
        if is_shared(image) && !named[slot] {
            return Some(slot);
        }
    }
    None
}

//! Documents that are taken apart and made again.

ghost use Rattle.std.specs.Prelude.{◌≡◌, ◌↔◌, IfErr, IfOk};
ghost use Rattle.document_tree.specs.Documents.{Place, WasPlaced, part_in, shown_in};
ghost use Rattle.document_tree.specs.declared.parts.PartsFault.TheVariants.{Cell};
ghost use Rattle.live_cells.specs.declared.cells.CellFault.TheVariants.{OutOfMemory};

use document_tree::{CellFault, Document, PartsFault};
use generational_box::Storage;
use std::alloc::Global;

/// Takes a document apart, and makes it again. Each place has the same content, and the same children in
/// the same order. Two places refer to one part exactly if they did so before.
///
/// # Errors
///
/// Only `Cell` of `OutOfMemory`.
pub fn document_again<S: Storage<u32> + Drop>(
    alloc: Global,
    document: Document<u64, S>,
) -> Result<Document<u64, S>, PartsFault>
    ensures shown { IfOk result (λ again. (p : Place) → shown_in again p ≡ shown_in document p) }
    ensures same { IfOk result (λ again. (p q : Place) →
        part_in again p ≡ part_in again q ↔ part_in document p ≡ part_in document q) }
    ensures made { IfOk result (λ again. (p : Place) → WasPlaced document p → WasPlaced again p) }
    ensures short { IfErr result (λ fault. fault ≡ Cell OutOfMemory) }
{
    let Ok(parts) = document.into_parts() else {
        return Err(PartsFault::Cell(CellFault::OutOfMemory));
    };
    match Document::from_parts(alloc, parts) {
        Ok(document) => Ok(document),
        Err(refusal) => Err(refusal.cause),
    }
}

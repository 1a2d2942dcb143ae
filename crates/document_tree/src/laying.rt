//! The parts of a document as a list.

ghost use Rattle.std.specs.Prelude.{◌≡◌, ◌≤◌, ◌<◌, ℕ, [], IfSome, None, Some, length, slice_get, slice_index_or, vec_capacity};
ghost use Rattle.handles.specs.Sites.{told_in};
ghost use Rattle.slab.specs.Slab.{get};
ghost use Rattle.document_tree.specs.Keeping.{IsTold};
ghost use Rattle.document_tree.specs.Taking.{IsLaid};

use crate::part::Part;
use crate::parts::DocumentPart;
use handles::Sites;
use slab::Slab;

/// The first key from which on there are no parts. None if it is too high.
pub(crate) fn end_of<T>(parts: &Slab<Part<T>>) -> Option<usize>
    ensures { IfSome result (λ end. (key : ℕ) → end ≤ key → get parts.now key ≡ None) }
{
    let Some((key, _)) = parts.iter().next_back() else {
        return Some(0);
    };
    if key == usize::MAX {
        return None;
    }
    Some(key + 1)
}

/// Moves the parts under the keys below an end into a list, which has capacity.
pub(crate) fn lay_all<T: Drop>(
    rows: &mut Vec<Option<DocumentPart<T>>>,
    parts: &mut Slab<Part<T>>,
    sites: &Sites,
    end: usize,
)
    requires none { rows.old.items ≡ [] }
    requires room { end ≤ vec_capacity rows.old }
    requires told { (key : ℕ) → IsTold (told_in sites.now) (get parts.old key) }
    ensures laid { (key : ℕ) → key < end →
        IsLaid (told_in sites.now) (get parts.old key) (slice_index_or rows.new.items key None) }
    ensures length { length rows.new.items ≡ end }
{
    for key in 0..end {
        rows.push_reserved(lay(parts.try_remove(key), sites));
    }
}

// A part as a row.
fn lay<T: Drop>(part: Option<Part<T>>, sites: &Sites) -> Option<DocumentPart<T>>
    requires { IsTold (told_in sites.now) part }
    ensures { IsLaid (told_in sites.now) part result }
{
    match part {
        Some(part) => Some(laid(part, sites)),
        None => None,
    }
}

// A part, with the location where it was added.
fn laid<T>(part: Part<T>, sites: &Sites) -> DocumentPart<T>
    requires { part.site < length (told_in sites.now) }
    ensures content { result.content ≡ part.content }
    ensures children { result.children ≡ part.children }
    ensures here { slice_get (told_in sites.now) part.site ≡ Some result.created_at }
{
    let Part {
        content,
        children,
        site,
        ..
    } = part;
    match sites.get(site) {
        Some(created_at) => DocumentPart {
            content,
            children,
            created_at,
        },
        None => unreachable!(),
    }
}

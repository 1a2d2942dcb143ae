//! Mutated files of documents: each is an error, or is loaded as its own image and rows say.

use crate::mutating::Outcome;
use crate::reloaded::{
    Cell, Files, Kind, SavedId, adopted, assert_refused_or_loaded, cells_in, files_of, given,
    image_in, made_at, outcome_of, rows_in, saved_id, shared_indexes, store_of,
};
use document_tree::{Document, DocumentPart, DocumentParts, PartsFault, Place, Sites, place_of};
use generational_box::{AnyStorage, GenerationalBoxId, Loaded, UnsyncStorage};
use std::alloc::Global;
use std::process::Abort;

type Kept = UnsyncStorage<u32>;

type Pages = Document<u64, Kept>;

type Part = DocumentPart<u64>;

/// The content of a part and the line where it was added, and the ids of its children.
type Row = ((u64, u32), Vec<SavedId>);

/// A document with two pages that share a heading, at a place each. The second page has the first below
/// it. A slot and an index are free, and another slot is that of a place that is gone.
fn document(rt: &impl Abort, alloc: Global) -> Pages {
    let mut pages = Document::new(alloc, Kept::new(alloc, 3));
    let gone = given(rt, pages.add(9, made_at(9)));
    let first = given(rt, pages.add(1, made_at(1)));
    let free = given(rt, pages.add(7, made_at(7)));
    let second = given(rt, pages.add(2, made_at(2)));
    given(rt, pages.remove(gone));
    let heading = given(rt, pages.add(10, made_at(10)));
    let again = given(rt, pages.repeat(heading));
    given(rt, pages.append(first, heading));
    given(rt, pages.append(second, again));
    given(rt, pages.append(second, first));
    given(rt, pages.remove(free));
    pages
}

/// The row of a part.
fn row_of(rt: &impl Abort, alloc: Global, part: &Option<Part>) -> Option<Row> {
    let part = part.as_ref()?;
    let children = part.children.iter().map(|child| saved_id(child.id()));
    let children: Vec<SavedId> = given(rt, children.collect(alloc));
    Some(((part.content, part.created_at.line()), children))
}

/// The files of the document.
fn saved(rt: &impl Abort, alloc: Global) -> Files {
    let parts = given(rt, document(rt, alloc).into_parts());
    let mut rows = Vec::new(alloc);
    for part in parts.parts.iter() {
        given(rt, rows.push(row_of(rt, alloc, part)));
    }
    files_of(rt, alloc, &parts.store, &rows)
}

/// The place that a saved child has become.
fn child_of(ids: &Loaded, number: u64, child: SavedId) -> Result<Place, Outcome> {
    place_of(adopted(ids, number, child)?).ok_or(Outcome::Ids)
}

/// The part that a row describes.
fn part_of(
    rt: &impl Abort,
    alloc: Global,
    ids: &Loaded,
    number: u64,
    row: &Option<Row>,
) -> Result<Option<Part>, Outcome> {
    let Some(((content, line), saved)) = row else {
        return Ok(None);
    };
    let mut children = Vec::new(alloc);
    for child in saved {
        given(rt, children.push(child_of(ids, number, *child)?));
    }
    Ok(Some(DocumentPart {
        content: *content,
        children,
        created_at: made_at(*line),
    }))
}

/// The place with the id of a cell.
fn place_at(rt: &impl Abort, pages: &Pages, id: GenerationalBoxId) -> Place {
    pages.find(id).expect(rt, "a place")
}

/// Asserts that a place has the content and the children of a row.
fn assert_has(rt: &impl Abort, pages: &Pages, place: Place, row: &Row) {
    let ((content, line), saved) = row;
    assert!(rt; pages.get(place).ok() == Some(content));
    assert!(rt; pages.created_at(place) == Some(made_at(*line)));
    let children = given(rt, pages.children(place));
    assert!(rt; children.len() == saved.len());
    for (child, saved) in children.iter().zip(saved.iter()) {
        assert!(rt; child.id().store == pages.number() && saved_id(child.id()) == *saved);
    }
}

/// Asserts that a document has exactly these cells, each with the row of its index.
fn assert_loaded(rt: &impl Abort, pages: &Pages, cells: &[Cell<u32>], rows: &[Option<Row>]) {
    assert!(rt; pages.store().len() == cells.len());
    for (id, index, _) in cells {
        match rows.get(*index as usize) {
            Some(Some(row)) => assert_has(rt, pages, place_at(rt, pages, *id), row),
            _ => panic!(rt; "no row"),
        }
    }
}

/// The last cell that has an index.
fn last_with(cells: &[Cell<u32>], index: u32) -> Option<u64> {
    let mut last = None;
    for (at, cell) in cells.iter().enumerate() {
        if cell.1 == index {
            last = Some(at as u64);
        }
    }
    last
}

/// Asserts that two places refer to one part exactly if their indexes are equal. Changes the content of
/// each part.
fn assert_shared(rt: &impl Abort, pages: &mut Pages, cells: &[Cell<u32>]) {
    for (at, (id, _, _)) in cells.iter().enumerate() {
        let place = place_at(rt, pages, *id);
        given(rt, pages.set(place, at as u64));
    }
    for (id, index, _) in cells {
        let place = place_at(rt, pages, *id);
        assert!(rt; pages.get(place).ok().copied() == last_with(cells, *index));
    }
}

/// Loads files. What was loaded is what they say.
fn loaded(rt: &impl Abort, alloc: Global, files: &Files) -> Result<(), Outcome> {
    let image = image_in(rt, alloc, files.image.as_slice())?;
    let rows: Vec<Option<Row>> = rows_in(rt, alloc, files.rows.as_slice())?;
    let (number, cells) = (image.number, cells_in(rt, alloc, &image));
    let (store, ids) = store_of(rt, alloc, image)?;
    let mut parts = Vec::new(alloc);
    for row in rows.iter() {
        given(rt, parts.push(part_of(rt, alloc, &ids, number, row)?));
    }
    let sites = Sites::new(alloc);
    match Document::from_parts(
        alloc,
        DocumentParts {
            store,
            sites,
            parts,
        },
    ) {
        Ok(mut pages) => {
            assert_loaded(rt, &pages, cells.as_slice(), rows.as_slice());
            assert_shared(rt, &mut pages, cells.as_slice());
            Ok(())
        }
        Err(refusal) => match refusal.cause {
            PartsFault::Cell(fault) => Err(outcome_of(rt, fault)),
            PartsFault::NoPart(_) | PartsFault::Unused(_) => Err(Outcome::Ids),
        },
    }
}

struct Documents;

impl Kind for Documents {
    fn load<R: Abort>(&self, rt: &R, alloc: Global, files: &Files) -> Result<(), Outcome> {
        loaded(rt, alloc, files)
    }
}

#[test]
fn mutated_documents_are_refused_or_loaded(rt: HostRuntime) {
    let alloc = rt.alloc();
    let (files, shared) = (saved(&rt, alloc), shared_indexes(&rt, alloc));
    assert_refused_or_loaded(&rt, &Documents, &files, &shared);
}

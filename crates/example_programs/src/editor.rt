//! An editor: a book is saved, edited on, and loaded again as it was saved.

use crate::saving::SavedStorage;
use anyhow::{Result, bail};
use document_tree::{Document, DocumentPart, DocumentParts, Place, Sites, place_of};
use generational_box::{GenerationalBoxId, Image, Loaded, Location, Storage, UnsyncStorage};
use std::alloc::Global;

// How many places are shown at most.
const MOST: usize = 100;

/// A book: its title, with all parts below it.
#[derive(Drop)]
struct Book<S: Storage<u32>> {
    parts: Document<String, S>,
    title: Place,
}

pub fn main(rt: &HostRuntime) -> Result<()> {
    let alloc = rt.alloc();
    run(
        rt,
        alloc,
        Document::new(alloc, UnsyncStorage::new(alloc, 3)),
    )
}

fn run<R: Print, S: SavedStorage>(rt: &R, alloc: Global, parts: Document<String, S>) -> Result<()> {
    let (book, warning) = write(alloc, parts)?;
    let (mut book, save) = save_book(alloc, book)?;
    edit(rt, alloc, &mut book, warning)?;
    let (mut book, loaded): (Book<S>, Loaded) = load_book(alloc, 4, save)?;
    undo(rt, alloc, &mut book, loaded.adopt(warning.id()))
}

// A book of two chapters that have a warning in common. Returns the warning's first place.
fn write<S: Storage<u32> + Drop>(
    alloc: Global,
    mut parts: Document<String, S>,
) -> Result<(Book<S>, Place)> {
    let here = Location::new("editor.rt", 41, 16);
    let title = parts.add("Pears".to_string(alloc)?, here)?;
    let mut book = Book { parts, title };
    let picking = book.add(alloc, title, "Picking")?;
    let warning = book.add(alloc, picking, "Wear gloves.")?;
    let storing = book.add(alloc, title, "Storing")?;
    let again = book.parts.repeat(warning)?;
    book.parts.append(storing, again)?;
    Ok((book, warning))
}

// The edits after the save: a chapter is removed, and the warning is rewritten.
fn edit<R: Print, S: Storage<u32>>(
    rt: &R,
    alloc: Global,
    book: &mut Book<S>,
    warning: Place,
) -> Result<()> {
    book.show(rt, "saved")?;
    book.parts.set(warning, "No gloves.".to_string(alloc)?)?;
    let picking = book.parts.take_child(book.title, 0)?;
    book.parts.remove(picking)?;
    book.show(rt, "edited")
}

// The book is as it was saved. The warning is found by its id: it is one part at two places again.
fn undo<R: Print, S: Storage<u32>>(
    rt: &R,
    alloc: Global,
    book: &mut Book<S>,
    warning: Option<GenerationalBoxId>,
) -> Result<()> {
    book.show(rt, "loaded")?;
    if let Some(warning) = warning.and_then(|id| book.parts.find(id)) {
        book.parts.set(warning, "Wear boots.".to_string(alloc)?)?;
    }
    book.show(rt, "edited")
}

impl<S: Storage<u32>> Book<S> {
    // Adds a part below another, as its last.
    fn add(&mut self, alloc: Global, above: Place, text: &str) -> Result<Place> {
        let here = Location::new("editor.rt", 83, 20);
        let part = self.parts.add(text.to_string(alloc)?, here)?;
        self.parts.append(above, part)?;
        Ok(part)
    }

    fn show<R: Print>(&self, rt: &R, when: &str) -> Result<()> {
        for (depth, place) in self.parts.outline_with_depth(self.title, MOST)? {
            println!(rt; "{when} {depth} {}", self.parts.get(place)?)?;
        }
        Ok(())
    }
}

type Parts = Vec<Option<DocumentPart<String>>>;

/// A copy of a book that goes on: its title, the image of its places, and its parts.
#[derive(Drop)]
struct Save {
    title: Place,
    places: Image<u32>,
    parts: Parts,
}

// Takes a book apart to copy it, and makes it again.
fn save_book<S: SavedStorage>(alloc: Global, book: Book<S>) -> Result<(Book<S>, Save)> {
    let Book { parts, title } = book;
    let Ok(taken) = parts.into_parts() else {
        bail!("out of memory");
    };
    let save = Save {
        title,
        places: taken.store.save()?,
        parts: copy_all(alloc, &taken.parts)?,
    };
    let parts = document_of(alloc, taken)?;
    Ok((Book { parts, title }, save))
}

fn copy_all(alloc: Global, parts: &[Option<DocumentPart<String>>]) -> Result<Parts> {
    let mut copies = Vec::with_capacity(alloc, parts.len())?;
    for part in parts {
        copies.push(match part {
            Some(part) => Some(copy_of(alloc, part)?),
            None => None,
        })?;
    }
    Ok(copies)
}

fn copy_of(alloc: Global, part: &DocumentPart<String>) -> Result<DocumentPart<String>> {
    Ok(DocumentPart {
        content: part.content.clone()?,
        children: part.children.to_vec(alloc)?,
        created_at: part.created_at,
    })
}

// Loads a book under a number that no store had.
fn load_book<S: SavedStorage>(alloc: Global, number: u64, save: Save) -> Result<(Book<S>, Loaded)> {
    let Save {
        title,
        places,
        parts,
    } = save;
    let (store, loaded) = S::load(alloc, number, places)?;
    let book = book_of(alloc, store, &loaded, title, parts)?;
    Ok((book, loaded))
}

// The book of a store that was loaded.
fn book_of<S: Storage<u32> + Drop>(
    alloc: Global,
    store: S,
    loaded: &Loaded,
    title: Place,
    mut parts: Parts,
) -> Result<Book<S>> {
    adopt_all(loaded, &mut parts);
    let sites = Sites::new(alloc);
    let parts = document_of(
        alloc,
        DocumentParts {
            store,
            sites,
            parts,
        },
    )?;
    match loaded.adopt(title.id()).and_then(|id| parts.find(id)) {
        Some(title) => Ok(Book { parts, title }),
        None => bail!("the book has no title"),
    }
}

fn document_of<S: Storage<u32> + Drop>(
    alloc: Global,
    parts: DocumentParts<String, S>,
) -> Result<Document<String, S>> {
    Ok(Document::from_parts(alloc, parts)?)
}

fn adopt_all(loaded: &Loaded, parts: &mut Parts) {
    for part in parts.iter_mut() {
        if let Some(part) = part {
            adopt(loaded, &mut part.children);
        }
    }
}

// Makes places those of the loaded document. One that was removed before the save stays removed.
fn adopt(loaded: &Loaded, places: &mut Vec<Place>) {
    for place in places.iter_mut() {
        if let Some(adopted) = loaded.adopt(place.id()).and_then(|id| place_of(id)) {
            *place = adopted;
        }
    }
}

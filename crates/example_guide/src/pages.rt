//! Documents: two pages show one heading.

use anyhow::Result;
use document_tree::{Document, Place};
use generational_box::{Location, Storage, UnsyncStorage};

pub fn main(rt: HostRuntime) -> Result<()> {
    let store = UnsyncStorage::<u32>::new(rt.alloc(), 1);
    write(&rt, &mut Document::new(rt.alloc(), store))
}

fn write<R: Print, S: Storage<u32>>(rt: &R, document: &mut Document<u64, S>) -> Result<()> {
    let here = Location::new("pages.rt", 13, 16);
    let first = document.add(1, here)?;
    let second = document.add(2, here)?;
    let heading = document.add(10, here)?;
    document.append(first, heading)?;
    document.append(second, heading)?;

    change(document, heading)?;
    show(rt, document, second)?;
    document.remove(heading)?;
    if let Err(gone) = document.get(heading) {
        println!(rt; "{gone}")?;
    }
    Ok(())
}

// Makes the heading refer to another part, on both pages.
fn change<S: Storage<u32>>(document: &mut Document<u64, S>, heading: Place) -> Result<()> {
    let next = document.add(20, Location::new("pages.rt", 31, 16))?;
    document.exchange(heading, next)?;
    document.remove(next)?;
    Ok(())
}

fn show<R: Print, S: Storage<u32>>(rt: &R, document: &Document<u64, S>, page: Place) -> Result<()> {
    for place in document.outline(page, 10)?.iter() {
        println!(rt; "{}", document.get(*place)?)?;
    }
    Ok(())
}

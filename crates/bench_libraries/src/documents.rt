//! Documents.

use crate::laps::{Laps, mix};
use document_tree::{Document, Place};
use generational_box::{Location, Storage};
use std::alloc::Global;
use std::time::Clock;

/// Makes the operations over n places of a document, ten of a part, and returns a sum of what was seen.
/// None if a call wasn't carried out.
pub(crate) fn run<R: Clock, S: Storage<u32>>(
    rt: &R,
    alloc: Global,
    laps: &mut Laps,
    document: &mut Document<u64, S>,
    order: &Vec<usize>,
) -> Option<u64> {
    let mut places = Vec::new(alloc);
    let mut seen: u64 = 0;
    let parts = order.len() / 10;
    laps.begin(rt)?;
    add(document, &mut places, parts)?;
    laps.end(rt, "add")?;
    repeat(document, &mut places, parts, order.len())?;
    laps.end(rt, "repeat")?;
    for _ in 0..10 {
        seen = get(document, &places, order, seen)?;
    }
    laps.end(rt, "get")?;
    set(document, &places, order)?;
    laps.end(rt, "set")?;
    exchange(document, &places, order)?;
    laps.end(rt, "exchange")?;
    remove(document, &places, order)?;
    laps.end(rt, "remove")?;
    Some(seen)
}

#[inline(never)]
fn add<S: Storage<u32>>(
    document: &mut Document<u64, S>,
    places: &mut Vec<Place>,
    parts: usize,
) -> Option<()> {
    let here = Location::new("documents.rt", 9, 9);
    for i in 0..parts {
        places.push(document.add(i as u64, here).ok()?).ok()?;
    }
    Some(())
}

#[inline(never)]
fn repeat<S: Storage<u32>>(
    document: &mut Document<u64, S>,
    places: &mut Vec<Place>,
    parts: usize,
    n: usize,
) -> Option<()> {
    for i in parts..n {
        let first = *places.get(i.checked_rem(parts)?)?;
        places.push(document.repeat(first).ok()?).ok()?;
    }
    Some(())
}

#[inline(never)]
fn get<S: Storage<u32>>(
    document: &Document<u64, S>,
    places: &Vec<Place>,
    order: &Vec<usize>,
    start: u64,
) -> Option<u64> {
    let mut seen = start;
    for i in order {
        seen = mix(seen, *document.get(*places.get(*i)?).ok()?);
    }
    Some(seen)
}

#[inline(never)]
fn set<S: Storage<u32>>(
    document: &mut Document<u64, S>,
    places: &Vec<Place>,
    order: &Vec<usize>,
) -> Option<()> {
    for i in order {
        document.set(*places.get(*i)?, *i as u64).ok()?;
    }
    Some(())
}

#[inline(never)]
fn exchange<S: Storage<u32>>(
    document: &mut Document<u64, S>,
    places: &Vec<Place>,
    order: &Vec<usize>,
) -> Option<()> {
    for (i, j) in order.iter().zip(order.iter().rev()) {
        document.exchange(*places.get(*i)?, *places.get(*j)?).ok()?;
    }
    Some(())
}

#[inline(never)]
fn remove<S: Storage<u32>>(
    document: &mut Document<u64, S>,
    places: &Vec<Place>,
    order: &Vec<usize>,
) -> Option<()> {
    for i in order {
        document.remove(*places.get(*i)?).ok()?;
    }
    Some(())
}

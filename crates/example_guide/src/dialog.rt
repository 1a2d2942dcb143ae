//! Signals: a page keeps what was counted in a dialog.

use anyhow::Result;
use generational_box::{Location, Storage, UnsyncStorage};
use signals::{Scope, Signal};

pub fn main(rt: HostRuntime) -> Result<()> {
    let mut store = UnsyncStorage::<u64>::new(rt.alloc(), 1);
    visit(&rt, &mut store)
}

// Creates the scope of a page, passes a reference to it, and ends it with its signals.
fn visit<R: Print, S: Storage<u64>>(rt: &R, store: &mut S) -> Result<()> {
    let page = Scope::new(store)?;
    let key = page.id().key;
    let shown = show(rt, store, &page);
    if let Err((page, _)) = page.end(store) {
        page.leak();
    }
    let kept = shown?;
    let is_live = kept.as_box().is_live(store);
    println!(rt; "after scope {key}: live {is_live}")?;
    Ok(())
}

// A dialog has its own scope, which ends first.
fn show<R: Print, S: Storage<u64>>(rt: &R, store: &mut S, page: &Scope) -> Result<Signal<u64>> {
    let dialog = Scope::new(store)?;
    let kept = count(store, page, &dialog);
    if let Err((dialog, _)) = dialog.end(store) {
        dialog.leak();
    }
    let kept = kept?;
    tell(rt, store, kept)?;
    Ok(kept)
}

fn tell<R: Print, S: Storage<u64>>(rt: &R, store: &S, kept: Signal<u64>) -> Result<()> {
    let id = kept.id();
    if kept.is_readable(store) {
        let twice = kept.with(store, |count| count.wrapping_mul(2));
        println!(rt; "{id:?} has {:?}, twice {twice:?}", kept.peek(store))?;
    }
    Ok(())
}

// Counts in a signal of the dialog, and returns an alias of it that the page keeps.
fn count<S: Storage<u64>>(store: &mut S, page: &Scope, dialog: &Scope) -> Result<Signal<u64>> {
    let here = Location::new("dialog.rt", 49, 16);
    let clicks = dialog.signal(store, 6, here)?;
    let kept = page.alias(store, clicks)?;
    clicks.update(store, here, |count| *count = count.wrapping_add(1))?;
    Ok(kept)
}

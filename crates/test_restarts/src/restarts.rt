//! Shared stores that are saved and go on, with ample memory, and images from which none does.

ghost use Rattle.shared_state.specs.Shared.{IsBlank};

use crate::going_on::{go_on, save_again};
use crate::saving::{Saved, save};
use generational_box::{Image, ImageFault, LoadError};
use generational_sync::{BeginError, BeginRefusal, Count, SyncState, SyncStorage, Unbegun};
use std::alloc::Global;
use std::marker::Brand;
use std::process::Abort;
use std::sync::Wait;
use std::sync::ledger::Blank;
use std::test::*;

// A new store is used and saved.
fn saved<A: Count, B: Count, C: Count, D: Count>(
    rt: &(impl Abort + Wait),
    alloc: Global,
    made: Blank,
    lent: Blank,
    changed: Blank,
    refused: Blank,
) -> Saved
    requires made { IsBlank 1 made A.name A.parts A.workers }
    requires lent { IsBlank 1 lent B.name B.parts B.workers }
    requires changed { IsBlank 1 changed C.name C.parts C.workers }
    requires refused { IsBlank 1 refused D.name D.parts D.workers }
{
    let store = SyncStorage::<u64, 7, A, B, C, D>::new(alloc, 1, made, lent, changed, refused);
    let (store, mut tallies) = store.expect(rt, "a store");
    let mut tally = tallies.pop().expect(rt, "a tally");
    save(rt, &store, &mut tally)
}

// The image that comes back, and why no store went on from it.
fn come_back(rt: &impl Abort, refusal: BeginRefusal<u64>) -> (Image<u64>, BeginError) {
    let BeginRefusal { back, cause } = refusal;
    match back {
        Unbegun::Image(image) => (image, cause),
        Unbegun::Store(_) => panic!(rt; "no memory"),
    }
}

// A store goes on from an image, and is used. If none does, the image comes back, and why.
fn gone_on<A: Count, B: Count, C: Count, D: Count>(
    rt: &(impl Abort + Wait),
    alloc: Global,
    saved: Saved,
    made: Blank,
    lent: Blank,
    changed: Blank,
    refused: Blank,
) -> Option<(Image<u64>, BeginError)>
    requires made { IsBlank 1 made A.name A.parts A.workers }
    requires lent { IsBlank 1 lent B.name B.parts B.workers }
    requires changed { IsBlank 1 changed C.name C.parts C.workers }
    requires refused { IsBlank 1 refused D.name D.parts D.workers }
{
    let Saved { image, kept, gone } = saved;
    let begun = SyncStorage::<u64, 7, A, B, C, D>::from_image(
        alloc, 1, image, made, lent, changed, refused,
    );
    match begun {
        Ok((store, mut tallies)) => {
            let mut tally = tallies.pop().expect(rt, "a tally");
            go_on(rt, &store, &mut tally, kept, gone);
            None
        }
        Err(refusal) => Some(come_back(rt, refusal)),
    }
}

// A state goes on from an image, and is saved again.
fn saved_again<A: Count, B: Count, C: Count, D: Count>(
    rt: &impl Abort,
    alloc: Global,
    saved: Saved,
    made: Blank,
    lent: Blank,
    changed: Blank,
    refused: Blank,
) -> Saved
    requires made { IsBlank 1 made A.name A.parts A.workers }
    requires lent { IsBlank 1 lent B.name B.parts B.workers }
    requires changed { IsBlank 1 changed C.name C.parts C.workers }
    requires refused { IsBlank 1 refused D.name D.parts D.workers }
{
    let Saved { image, kept, gone } = saved;
    let begun = SyncState::<u64, 7, A, B, C, D>::from_image(
        alloc, 1, image, made, lent, changed, refused,
    );
    match begun {
        Ok((mut state, mut tallies)) => {
            let mut tally = tallies.pop().expect(rt, "a tally");
            save_again(rt, &mut state, &mut tally, kept, gone)
        }
        Err(_) => panic!(rt; "no state"),
    }
}

// The same with ledgers that are named here.
fn saved_here(rt: &(impl Abort + Wait), alloc: Global) -> Saved {
    saved::<Brand, Brand, Brand, Brand>(
        rt,
        alloc,
        Blank::new(1),
        Blank::new(1),
        Blank::new(1),
        Blank::new(1),
    )
}

fn gone_on_here(
    rt: &(impl Abort + Wait),
    alloc: Global,
    saved: Saved,
) -> Option<(Image<u64>, BeginError)> {
    gone_on::<Brand, Brand, Brand, Brand>(
        rt,
        alloc,
        saved,
        Blank::new(1),
        Blank::new(1),
        Blank::new(1),
        Blank::new(1),
    )
}

fn saved_again_here(rt: &impl Abort, alloc: Global, saved: Saved) -> Saved {
    saved_again::<Brand, Brand, Brand, Brand>(
        rt,
        alloc,
        saved,
        Blank::new(1),
        Blank::new(1),
        Blank::new(1),
        Blank::new(1),
    )
}

#[test]
fn a_shared_store_goes_on(rt: HostRuntime) {
    let saved = saved_here(&rt, rt.alloc());
    assert!(&rt; gone_on_here(&rt, rt.alloc(), saved).is_none());
}

#[test]
fn a_shared_state_goes_on(rt: HostRuntime) {
    let saved = saved_here(&rt, rt.alloc());
    let saved = saved_again_here(&rt, rt.alloc(), saved);
    assert!(&rt; gone_on_here(&rt, rt.alloc(), saved).is_none());
}

// Asserts why no store goes on from what was saved, and gives it back.
fn refused_for(rt: &(impl Abort + Wait), alloc: Global, saved: Saved, wanted: BeginError) -> Saved {
    let (kept, gone) = (saved.kept, saved.gone);
    let answer = gone_on_here(rt, alloc, saved);
    let (image, cause) = answer.expect(rt, "a refusal");
    assert_eq!(rt; cause, wanted);
    Saved { image, kept, gone }
}

#[test]
fn other_images_come_back(rt: HostRuntime) {
    let mut saved = saved_here(&rt, rt.alloc());
    saved.image.number = 8;
    saved.image.start = 0;
    saved.image.peak = 3;
    let mut saved = refused_for(&rt, rt.alloc(), saved, BeginError::OtherNumber);
    saved.image.number = 7;
    let mut saved = refused_for(&rt, rt.alloc(), saved, BeginError::OtherStart);
    saved.image.start = 1;
    let fault = LoadError::Unsound(ImageFault::HighPeak);
    let mut saved = refused_for(&rt, rt.alloc(), saved, BeginError::Load(fault));
    saved.image.peak = 2;
    assert!(&rt; gone_on_here(&rt, rt.alloc(), saved).is_none());
}

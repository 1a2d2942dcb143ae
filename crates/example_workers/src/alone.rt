//! A service that is tested without threads, and one whose calls would wait for ever.

use crate::counted::fill_alone;
use crate::workers::Server;
use generational_box::{GenerationalBox, Location, Owner, StepCall, StoreError};
use generational_workers::{Job, Service, Worker, run_alone};
use std::test::*;

/// A worker that writes a value, and meanwhile makes a call that waits for the write's end: which one, its
/// number says.
#[derive(Drop)]
struct Tangled {
    call: u32,
}

impl Job<u64> for Tangled {
    type Shared = ();

    type Answer = bool;

    // Returns whether the call was carried out, or another one that waits for the same write.
    fn serve<W: Worker<u64>>(&self, worker: &mut W, _shared: ()) -> bool {
        let here = Location::new("alone.rt", 23, 20);
        let Ok(owner) = worker.owner() else {
            return true;
        };
        let Ok(held) = worker.insert_rc(&owner, 7, here) else {
            owner.leak();
            return true;
        };
        let Ok(writer) = worker.try_write(held, here) else {
            owner.leak();
            return true;
        };
        let carried_out = call(worker, self.call, held, owner) || worker.set(held, 8).is_ok();
        let is_known = worker.release_write(writer).is_ok();
        carried_out || !is_known
    }
}

impl Service<u64> for Tangled {
    type End = ();

    type Error = StoreError;

    fn begin<W: Worker<u64>>(&self, _worker: &mut W) -> Result<(), StoreError> {
        Ok(())
    }

    fn end<W: Worker<u64>>(&self, _worker: &mut W, _shared: ()) -> Result<(), StoreError> {
        Ok(())
    }
}

// Makes the call with this number on a box whose value has a writer, and returns whether it was carried
// out.
fn call<W: Worker<u64>>(
    worker: &mut W,
    number: u32,
    held: GenerationalBox<u64>,
    owner: Owner,
) -> bool {
    if number == 7 {
        return release(worker, owner);
    }
    let here = Location::new("alone.rt", 66, 16);
    let carried_out = match number {
        0 => worker.leak_reference(held).is_ok(),
        1 => worker.insert_reference(&owner, held).is_ok(),
        2 => read(worker, held, here),
        3 => write(worker, held, here),
        4 => worker.set(held, 8).is_ok(),
        5 => worker.manually_drop(held).is_ok(),
        _ => point(worker, held, here),
    };
    owner.leak();
    carried_out
}

fn read<W: Worker<u64>>(worker: &mut W, held: GenerationalBox<u64>, here: Location) -> bool {
    let Ok(reader) = worker.try_read(held, here) else {
        return false;
    };
    worker.release_read(reader)
}

fn write<W: Worker<u64>>(worker: &mut W, held: GenerationalBox<u64>, here: Location) -> bool {
    let Ok(writer) = worker.try_write(held, here) else {
        return false;
    };
    worker.release_write(writer).is_ok()
}

fn point<W: Worker<u64>>(worker: &mut W, held: GenerationalBox<u64>, here: Location) -> bool {
    let Ok(other) = worker.leak_rc(9, here) else {
        return true;
    };
    worker.point_to(other, held).is_ok()
}

fn release<W: Worker<u64>>(worker: &mut W, owner: Owner) -> bool {
    match worker.release_owner(owner) {
        Ok(()) => true,
        Err((owner, _)) => {
            owner.leak();
            false
        }
    }
}

// The number of a call that may wait.
fn number_of(call: &StepCall) -> Option<u32> {
    match call {
        StepCall::LeakReference(_) => Some(0),
        StepCall::InsertReference(_, _) => Some(1),
        StepCall::Read(_, _) => Some(2),
        StepCall::Write(_, _) => Some(3),
        StepCall::Set(_) => Some(4),
        StepCall::ManuallyDrop(_) => Some(5),
        StepCall::PointTo(_, _) => Some(6),
        StepCall::ReleaseOwner(_) => Some(7),
        _ => None,
    }
}

#[test]
fn a_server_adds_up_without_threads(rt: HostRuntime) {
    let run = run_alone::<u64, Server>(rt.alloc(), 4, &Server);
    assert!(rt; run.stuck.is_none());
    let Ok(served) = run.outcome else {
        panic!(rt; "no run");
    };
    assert_eq!(rt; served.end, 1200);
    assert_eq!(rt; served.answers.len(), 4);
    assert_eq!(rt; served.steps.len(), 703);
}

#[test]
fn the_first_call_that_would_wait_comes_back(rt: HostRuntime) {
    for call in 0..8u32 {
        let run = run_alone::<u64, Tangled>(rt.alloc(), 2, &Tangled { call });
        assert_eq!(rt; run.stuck.as_ref().and_then(number_of), Some(call));
        let Ok(served) = run.outcome else {
            panic!(rt; "no run");
        };
        assert_eq!(rt; served.answers.as_slice(), [false, false].as_slice());
    }
}

#[test]
fn calls_that_would_wait_are_no_steps(rt: HostRuntime) {
    let run = run_alone::<u64, Tangled>(rt.alloc(), 3, &Tangled { call: 4 });
    let Ok(served) = run.outcome else {
        panic!(rt; "no run");
    };
    assert_eq!(rt; served.steps.len(), 12);
}

#[test]
fn numbers_are_counted_without_threads(rt: HostRuntime) {
    let Ok((stored, _, steps)) = fill_alone(rt.alloc(), 3, 10) else {
        panic!(rt; "no run");
    };
    assert_eq!(rt; stored, 30);
    assert_eq!(rt; steps.len(), 30);
}

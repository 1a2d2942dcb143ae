//! Shared stores that are saved, and go on.

ghost use Rattle.std.specs.Prelude.{◌≡◌, [], IfSome};
ghost use Rattle.generational_laws.specs.History.{plain};
ghost use Rattle.shared_history.specs.Bases.{IsTallied, all_trimmed, plain_of};
ghost use Rattle.shared_state.specs.Beginning.{LeadsToImage};
ghost use Rattle.shared_state.specs.Shared.{IsBlank};

use generational_box::Image;
use generational_sync::{Base, Count, Step, SyncState, SyncStorage, Tally};
use std::alloc::Global;
use std::sync::Wait;
use std::sync::ledger::Blank;

/// Another shared state that goes on where this one is: each value is its clone, and that is equal. Its
/// history begins there.
pub fn gone_on<M: Count, L: Count, C: Count, R: Count, A: Count, B: Count, D: Count, E: Count>(
    alloc: Global,
    state: &SyncState<u64, 7, M, L, C, R>,
    made: Blank,
    lent: Blank,
    changed: Blank,
    refused: Blank,
) -> Option<SyncState<u64, 7, A, B, D, E>>
    requires made { IsBlank 1 made A.name A.parts A.workers }
    requires lent { IsBlank 1 lent B.name B.parts B.workers }
    requires changed { IsBlank 1 changed D.name D.parts D.workers }
    requires refused { IsBlank 1 refused E.name E.parts E.workers }
    ensures same { IfSome result (λ again. again.state ≡ state.now.state) }
    ensures base { IfSome result (λ again. plain_of again.base ≡ plain state.now.state) }
    ensures none { IfSome result (λ again. again.history ≡ []) }
    ensures trimmed { IfSome result (λ again. all_trimmed again.base ≡ 0) }
{
    let Ok(image) = state.image() else {
        return None;
    };
    match SyncState::from_image(alloc, 1, image, made, lent, changed, refused) {
        Ok((again, _)) => Some(again),
        Err(_) => None,
    }
}

/// Saves a shared store, if no tally is missing: the history that comes back leads to the image, and has
/// as many steps as were counted.
pub fn saved<M: Count, L: Count, C: Count, R: Count>(
    rt: &impl Wait,
    store: &SyncStorage<u64, 7, M, L, C, R>,
    whole: &mut Tally<M, L, C, R>,
) -> Option<(Image<u64>, Base, Vec<Step>)>
    ensures leads { IfSome result (λ saved. LeadsToImage saved.1 saved.2.items saved.0) }
    ensures counted { IfSome result (λ saved. IsTallied whole.old saved.1 saved.2.items) }
{
    if !whole.is_whole() {
        return None;
    }
    match store.audited_image(rt, whole) {
        Ok(saved) => Some(saved),
        Err(_) => None,
    }
}

//! A proved caller of an audit.

ghost use Rattle.std.specs.Prelude.{◌≡◌, IfOk, Some};
ghost use Rattle.generational_core.specs.State.{IsSound};
ghost use Rattle.shared_history.specs.Bases.{plain_of};
ghost use Rattle.shared_history.specs.History.{Plain, replay_from};

use generational_box::StoreError;
use generational_sync::laws::histories_lead_to_sound_states;
use generational_sync::{Base, Count, Step, SyncStorage, Tally};
use std::sync::Wait;

/// The base and the history of a store, asked for with a whole tally. From the base the history
/// leads to a sound state of this store.
pub fn audited<T: Drop + Send, const NUMBER: u64, M: Count, L: Count, C: Count, R: Count>(
    store: &SyncStorage<T, NUMBER, M, L, C, R>,
    rt: &impl Wait,
    whole: &mut Tally<M, L, C, R>,
) -> Result<(Base, Vec<Step>), StoreError>
    requires { whole.old.parts ≡ M.workers }
    ensures { IfOk result (λ r. (reached : Plain) ×
        (replay_from (plain_of r.0) r.1.items ≡ Some reached) × IsSound reached ×
        (reached.number ≡ NUMBER)) }
{
    histories_lead_to_sound_states();
    store.audit(rt, whole)
}

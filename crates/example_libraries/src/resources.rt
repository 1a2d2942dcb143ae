//! Sources that a job sets when it is done.

ghost use Rattle.std.specs.Prelude.{◌≡◌, ◌≢◌, ℕ, true, false, ◌*◌, ◌%◌, ◌^◌, IfOk};
ghost use Rattle.example_libraries.specs.Resources.{load_plan};
ghost use Rattle.reactive.specs.Graphs.{plans_in};
ghost use Rattle.reactive.specs.Plans.{Ask, Give};

use generational_box::{Location, Storage};
use reactive::laws::{nodes_mean_one_value, sets_show_in_memos};
use reactive::{Fault, Key, Node, Reactive, Reads, Rule};

/// What a job has computed: a number, and whether it is there. Until then the number is 0.
pub type Loaded = (u64, bool);

/// What a memo computes from what a job computes.
#[derive(Clone, Copy)]
pub enum Load {
    /// Twice the number, which wraps at 2^64, if it is there.
    Twice(Key),
}

impl Rule<Loaded> for Load {
    ghost plan = { load_plan };

    fn compute<D: Reads<Loaded>>(&self, reader: &mut D) -> Option<Loaded> {
        match *self {
            Load::Twice(a) => {
                let (number, is_there) = reader.get(a)?;
                Some((number.wrapping_mul(2), is_there))
            }
        }
    }
}

/// Begins a job, whose result is read by nobody yet: its source has no number.
pub fn begun<S: Storage<Node<Loaded, Load>>>(
    graph: &mut Reactive<Loaded, Load, S>,
    here: Location,
) -> Result<Loaded, Fault>
    ensures { IfOk result (λ loaded. loaded.1 ≡ false) }
{
    nodes_mean_one_value::<Loaded>();
    let job = graph.source((0, false), here)?;
    let loaded = graph.get(job)?;
    Ok(loaded)
}

/// Ends a job: its source gets the number, and a memo of it has twice the number from then on.
pub fn done<S: Storage<Node<Loaded, Load>>>(
    graph: &mut Reactive<Loaded, Load, S>,
    job: Key,
    twice: Key,
    number: u64,
) -> Result<Loaded, Fault>
    requires memo { plans_in load_plan graph.old twice ≡ Ask job (λ loaded. Give ((loaded.0 * 2) % 2 ^ 64, loaded.1)) }
    requires apart { twice ≢ job }
    ensures { IfOk result (λ loaded. loaded ≡ ((number * 2) % 2 ^ 64, true)) }
{
    sets_show_in_memos::<Loaded, Load>();
    graph.set(job, (number, true))?;
    let loaded = graph.get(twice)?;
    Ok(loaded)
}

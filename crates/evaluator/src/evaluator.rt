// An evaluator over a store.
ghost use Rattle.std.specs.Prelude.{◌≤◌};
ghost use Rattle.terms.specs.Limits.{step_limit};

use engine::Machine;
use sentences::Question;

/// The store and the machine over it, the question held, and the steps granted and taken for it.
// Kept: question, grants and steps stay three fields, since clauses and definitions speak of each, and steps are shown while no question is held too.
#[derive(Drop)]
pub struct Evaluator<S> {
    store: S,
    machine: Machine,
    question: Option<Question>,
    granted: u32,
    steps: u32,
    ghost limited: { granted ≤ step_limit },
    ghost within: { steps ≤ granted },
}

mod calls;
mod first;
mod made;
pub mod runs;
mod shown;
mod work;

// A list of calls, and what holds of all such lists.
ghost use Rattle.std.specs.Prelude.{◌≡◌, List, ◌++◌};
ghost use Rattle.evaluator.specs.Calls.{Act, acts_of, GrantsAddUp};
ghost use Rattle.evaluator.specs.Holds.{CameBy};
ghost use Rattle.evaluator.specs.Promise.{Evaluated, ShowsAlike};

use super::Evaluator;
use crate::answers::Call;
use engine::Machine;
use stores::Store;

impl<S: Store> Evaluator<S> {
    /// One call after the other; a refused one alters nothing.
    pub fn run(&mut self, calls: &[Call])
        ensures store { self.new.store ≡ self.old.store }
        ensures came { (before : List Act) → CameBy S.Store.means before self.old → CameBy S.Store.means (before ++ acts_of calls.now) self.new }
    {
        for call in calls {
            let _ = self.call(*call);
        }
    }
}

/// A new evaluator over a store, after a list of calls.
pub fn evaluate<S: Store>(machine: Machine, store: S, calls: &[Call]) -> Evaluator<S>
    ensures { Evaluated S.Store.means store (acts_of calls.now) result }
{
    let mut evaluator = Evaluator::over(machine, store);
    evaluator.run(calls);
    evaluator
}

/// After the same calls two evaluators over stores of the same map show the same.
pub fn answered_alike<S: Store, R: Store>(one: &Evaluator<S>, other: &Evaluator<R>)
    ensures { ShowsAlike S.Store.means R.Store.means one.now other.now }
{}

/// Granting m steps and then n is granting m + n.
pub fn grants_add_up()
    ensures { GrantsAddUp }
{}

// Work, which alone asks the store.
ghost use Rattle.std.specs.Prelude.{◌-◌, ◌*◌, ◌≤◌, IfOk};
ghost use Rattle.machine.specs.Bounds.{asked_limit};
ghost use Rattle.evaluator.specs.Calls.{works, act_of, numbered};
ghost use Rattle.evaluator.specs.Promise.{Called, Requests};

use super::Evaluator;
use crate::answers::{Call, Refusal};
use stores::Store;
use terms::limits::STEPS;

impl<S: Store> Evaluator<S> {
    /// Takes so many steps more, up to the outcome and to 1,000,000 for one question; and says how often the store was asked for them.
    pub fn work_counting(&mut self, number: u32) -> Result<u64, Refusal>
        ensures does { Called S.Store.means self.old (works number) (numbered result) self.new }
        ensures bounded { IfOk result (λ n. n ≤ asked_limit * (self.new.steps - self.old.steps)) }
        ensures requests { IfOk result (λ n. Requests S.Store.means self.old n self.new) }
    {
        let Some(_) = self.question else {
            return Err(Refusal::Idle);
        };
        let more = number.min(STEPS.saturating_sub(self.granted));
        let worked = self.machine.work(&self.store, more);
        self.granted += more;
        self.steps += worked.steps;
        Ok(worked.requests)
    }

    /// Takes so many steps more, up to the outcome and to 1,000,000 for one question.
    pub fn work(&mut self, number: u32) -> Result<(), Refusal>
        ensures { Called S.Store.means self.old (works number) (numbered result) self.new }
    {
        self.work_counting(number).map(|_| ())
    }

    /// A call that is given as a value.
    pub fn call(&mut self, call: Call) -> Result<(), Refusal>
        ensures { Called S.Store.means self.old (act_of call.entry) (numbered result) self.new }
    {
        match call {
            Call::Begin(node, path) => self.begin(node, path),
            Call::Work(number) => self.work(number),
            Call::GiveUp => self.give_up(),
        }
    }
}

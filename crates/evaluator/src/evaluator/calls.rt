// Begin and give up. They hold for whatever the store means: without a bound on its type they cannot ask it.
ghost use Rattle.evaluator.specs.Calls.{begins, gives_up, numbered};
ghost use Rattle.evaluator.specs.Promise.{CalledOverAnyStore};

use super::{Evaluator, first};
use crate::answers::{Outcome, Refusal};
use terms::{Atom, Node};

impl<S> Evaluator<S> {
    /// Sets a first question, which is its own context.
    pub fn begin(&mut self, node: Node, path: &[Atom]) -> Result<(), Refusal>
        ensures { CalledOverAnyStore self.old (begins node path.now) (numbered result) self.new }
    {
        let Some(question) = first::first_question(node, path) else {
            return Err(Refusal::OutOfRange);
        };
        if let Outcome::Unfinished = self.outcome() {
            return Err(Refusal::Unfinished);
        }
        self.machine.restart(question);
        self.question = Some(question);
        self.steps = 0;
        self.granted = 0;
        Ok(())
    }

    /// Gives the question up.
    pub fn give_up(&mut self) -> Result<(), Refusal>
        ensures { CalledOverAnyStore self.old gives_up (numbered result) self.new }
    {
        let Some(_) = self.question else {
            return Err(Refusal::Idle);
        };
        self.question = None;
        self.steps = 0;
        self.granted = 0;
        Ok(())
    }
}

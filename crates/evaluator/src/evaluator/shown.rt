// What an evaluator shows, for whatever its store means.
ghost use Rattle.std.specs.Prelude.{◌≡◌};
ghost use Rattle.evaluator.specs.Shown.{outcome_of, value_of, atom_of};
ghost use Rattle.evaluator.specs.Holds.{holding_of, question_lent, question_in, shown_by};
ghost use Rattle.evaluator.specs.Promise.{ShownOverAnyStore};

use super::Evaluator;
use crate::answers::Outcome;
use engine::Phase;
use sentences::Question;
use terms::Atom;

// Kept: each call that shows something promises by itself that what is shown is right.
impl<S> Evaluator<S> {
    /// Idle, unfinished, or the outcome of the question held.
    pub fn outcome(&self) -> Outcome
        ensures shown { result ≡ outcome_of (shown_by self.now) }
        ensures right { ShownOverAnyStore self.now }
    {
        let Some(_) = self.question else {
            return Outcome::Idle;
        };
        match self.machine.phase() {
            Phase::Asks | Phase::Works => Outcome::Unfinished,
            Phase::Has => Outcome::Value,
            Phase::Stops(stop) => Outcome::Stopped(stop),
        }
    }

    /// The question held, or none while idle.
    pub fn question(&self) -> Option<&Question>
        ensures shown { question_lent result ≡ question_in (holding_of self.now) }
        ensures right { ShownOverAnyStore self.now }
    {
        self.question.as_ref()
    }

    /// The steps taken for the question held.
    pub fn steps(&self) -> u32
        ensures shown { result ≡ self.now.steps }
        ensures right { ShownOverAnyStore self.now }
    {
        self.steps
    }

    /// The atoms of the value; without a value none.
    pub fn value(&self) -> &[Atom]
        ensures shown { result.now ≡ value_of (shown_by self.now) }
        ensures right { ShownOverAnyStore self.now }
    {
        let Some(_) = self.question else {
            return &[];
        };
        let Phase::Has = self.machine.phase() else {
            return &[];
        };
        self.machine.value()
    }

    /// The atom at a place of the value, or none past its end; without a value none.
    pub fn atom(&self, place: usize) -> Option<Atom>
        ensures shown { result ≡ atom_of (shown_by self.now) place }
        ensures right { ShownOverAnyStore self.now }
    {
        self.value().get(place).copied()
    }
}

// What an evaluator is called to do, and what it answers.
ghost use Rattle.std.specs.Prelude.{◌≡◌};
ghost use Rattle.evaluator.specs.Calls.{number};

use engine::Stop;
use terms::{Atom, Node};

/// What is shown.
#[derive(Clone, Copy, PartialEq, Eq, Debug)]
pub enum Outcome {
    Idle,
    Unfinished,
    Value,
    Stopped(Stop),
}

/// Why a call is refused.
#[derive(Clone, Copy, PartialEq, Eq, Debug)]
pub enum Refusal {
    /// A number out of range, or over 32 atoms.
    OutOfRange = 12,
    /// The question held is unfinished.
    Unfinished = 13,
    /// No question is held.
    Idle = 14,
}

impl Refusal {
    pub fn number(self) -> u8
        ensures { result ≡ number self }
    {
        self as u8
    }
}

/// A call, as a value.
#[derive(Clone, Copy, PartialEq, Eq, Debug)]
pub enum Call<'a> {
    Begin(Node, &'a [Atom]),
    Work(u32),
    GiveUp,
}

// The faults of a line, and those below it that it carries.
ghost use Rattle.std.specs.Prelude.{◌≡◌};
ghost use Rattle.questions.specs.declared.line_fault.LineFault.TheVariants as fault;
ghost use Rattle.questions.specs.Refusals.{number, place};

use faults::NameFault;
use words::WordFault;

#[derive(Clone, Copy, PartialEq, Eq, Debug)]
pub enum LineFault {
    /// More bytes than a line may have.
    LineTooLong,
    Word(WordFault),
    /// A word that no line has there, or the line's end too early.
    Misplaced(usize),
    Name(NameFault),
    /// More atoms than a path may have.
    PathTooLong,
}

// Kept: both conversions are written by hand, since derived ones would not say which fault `?` makes.
impl From<WordFault> for LineFault {
    ghost from_gives = { λ e r. r ≡ fault.Word e };

    fn from(e: WordFault) -> LineFault {
        LineFault::Word(e)
    }
}

impl From<NameFault> for LineFault {
    ghost from_gives = { λ e r. r ≡ fault.Name e };

    fn from(e: NameFault) -> LineFault {
        LineFault::Name(e)
    }
}

impl LineFault {
    // Kept: a fault of words has a number of its own, so that no discriminants serve.
    pub fn number(self) -> u8
        ensures { result ≡ number self }
    {
        match self {
            LineFault::LineTooLong => 11,
            LineFault::Word(fault) => fault.refusal.number(),
            LineFault::Misplaced(_) => 4,
            LineFault::Name(_) => 10,
            LineFault::PathTooLong => 12,
        }
    }

    pub fn place(self) -> usize
        ensures { result ≡ place self }
    {
        match self {
            LineFault::LineTooLong => LINE_BYTES,
            LineFault::Word(fault) => fault.place,
            LineFault::Misplaced(place) => place,
            LineFault::Name(fault) => fault.place,
            LineFault::PathTooLong => 0,
        }
    }
}

pub const LINE_BYTES: usize = 1024;

// Why a keeper refuses a sentence.
ghost use Rattle.std.specs.Prelude.{◌≡◌};
ghost use Rattle.stores.specs.Refusals.{number};

#[derive(Clone, Copy, PartialEq, Eq, Debug)]
pub enum Refusal {
    /// Items that are not balanced, or a number out of range.
    Malformed = 4,
    /// A path nested a fifth time.
    TooDeep = 5,
    /// A left path of over 32 atoms.
    LeftTooLong = 6,
    /// A right side of over 64 items.
    RightTooLong = 7,
    /// The node and the left path have a sentence.
    AlreadyKept = 8,
    /// One of the keeper's limits would be passed.
    Full = 9,
}

impl Refusal {
    pub fn number(self) -> u8
        ensures { result ≡ number self }
    {
        self as u8
    }
}

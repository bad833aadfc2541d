// Why a line is refused.
ghost use Rattle.std.specs.Prelude.{◌≡◌};
ghost use Rattle.lines.specs.Refusals.{number};

#[derive(Clone, Copy, PartialEq, Eq, Debug)]
pub enum LineRefusal {
    /// No question is held.
    Idle = 14,
    /// A number that the line would spell has no name.
    NoName = 12,
    /// The line does not fit the rest of the page.
    NoRoom = 15,
}

impl LineRefusal {
    pub fn number(self) -> u8
        ensures { result ≡ number self }
    {
        self as u8
    }
}

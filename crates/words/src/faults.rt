// The faults of words.
ghost use Rattle.std.specs.Prelude.{◌≡◌};
ghost use Rattle.words.specs.Words.{number};

#[derive(Clone, Copy, Debug, PartialEq, Eq)]
pub enum WordRefusal {
    /// A byte that may stand only in a comment.
    BadByte = 1,
    /// A quoted run without its end.
    OpenQuote = 2,
    /// A name that is empty or too long.
    NameLength = 3,
}

impl WordRefusal {
    pub fn number(self) -> u8
        ensures { result ≡ number self }
    {
        self as u8
    }
}

#[derive(Clone, Copy, Debug, PartialEq, Eq)]
pub struct WordFault {
    pub refusal: WordRefusal,
    pub place: usize,
}

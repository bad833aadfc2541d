// A word, and where it stands.
ghost use Rattle.std.specs.Prelude.{◌≡◌};

#[derive(Clone, Copy, Debug, PartialEq, Eq)]
pub enum Word<'a> {
    Less,
    Greater,
    Colon,
    /// The word `==`.
    Equals,
    Stop,
    Quote,
    Open,
    Close,
    Node(&'a [u8]),
    Atom(&'a [u8]),
    /// A mark that stands in no theory: # $ { } or a single =.
    Stray,
    /// The text's end.
    End,
}

impl Word<'_> {
    ghost use Rattle.words.specs.Words.{token};
    ghost use Rattle.words.specs.Tallies.{is_end_lem};

    pub(crate) fn is_end(self) -> bool
        ensures { result ≡ is_end_lem (token self.entry) }
    {
        matches!(self, Word::End)
    }
}

#[derive(Clone, Copy, Debug, PartialEq, Eq)]
pub struct Placed<'a> {
    pub place: usize,
    pub word: Word<'a>,
}

// A text's words, one ahead, with the names that they meet.
use faults::GrammarFault;
use lookahead::{Parser, Word};
use names::Names;

/// The words ahead, and the names as they are known by then.
#[derive(Drop)]
pub struct Reader<'r, 'a> {
    pub(crate) parser: Parser<'a>,
    pub(crate) names: &'r mut Names,
}

impl Reader<'_, '_> {
    ghost use Rattle.std.specs.Prelude.{◌≡◌};
    ghost use Rattle.lookahead.specs.Ahead.{later, final, rest, size, Moves, names_of, fault_number};
    ghost use Rattle.loader.specs.Onward.{Onward, Passes};
    ghost use Rattle.faults.specs.Grammar.{number, place};

    /// On to the next word.
    pub(crate) fn advance(&mut self)
        ensures moves { Moves (later (names_of self.old.names.now) self.old.parser) (final (names_of self.old.names.now) self.old.parser) (rest (names_of self.new.names.now) self.new.parser) (final (names_of self.new.names.now) self.new.parser) }
        ensures onward { Onward self.old self.new }
        ensures size { size (rest (names_of self.new.names.now) self.new.parser) ≡ size (later (names_of self.old.names.now) self.old.parser) }
    {
        self.parser.advance(self.names);
    }

    /// On behind the word, which must be the one ahead.
    pub(crate) fn pass(&mut self, word: Word) -> Result<(), GrammarFault>
        ensures passes { Passes word self.old result self.new }
        ensures onward { Onward self.old self.new }
    {
        if self.parser.word != Ok(word) {
            return Err(self.misplaced());
        }
        self.advance();
        Ok(())
    }

    /// The fault of the word ahead where no theory has it.
    pub(crate) fn misplaced(&self) -> GrammarFault
        ensures number { number result ≡ fault_number self.now.parser.word }
        ensures place { place result ≡ self.now.parser.place }
    {
        self.parser.misplaced()
    }
}

// The left path of an equation, from its < through its ==.
ghost use Rattle.std.specs.Prelude.{◌≡◌, ◌<◌, ◌≤◌, true, is_ok, vec_capacity};
ghost use Rattle.loader.specs.Onward.{Onward};
ghost use Rattle.loader.specs.Readings.{is_less_lem, words_left};
ghost use Rattle.loader.specs.Equations.{ReadsLeft};

use crate::reader::Reader;
use crate::reading::no_number;
use faults::GrammarFault;
use lookahead::Word;
use terms::Atom;

impl Reader<'_, '_> {
    pub(crate) fn left_path(&mut self, left: &mut Vec<Atom>) -> Result<(), GrammarFault>
        requires room { words_left self.old ≤ vec_capacity left.old }
        requires starts { is_less_lem self.old.parser.word ≡ true }
        ensures goes { ReadsLeft self.old result self.new left.new.items }
        ensures onward { Onward self.old self.new }
        ensures less { is_ok result ≡ true → words_left self.new < words_left self.old }
        ensures capacity { vec_capacity left.new ≡ vec_capacity left.old }
    {
        left.clear();
        self.advance();
        while let Ok(Word::Atom(a)) = self.parser.word {
            left.push_reserved(a);
            self.advance();
        }
        if let Ok(Word::UnnumberedAtom) = self.parser.word {
            return Err(no_number(self.parser.place));
        }
        self.pass(Word::Greater)?;
        self.pass(Word::Equals)?;
        Ok(())
    }
}

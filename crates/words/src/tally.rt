// How many words a text has.
ghost use Rattle.std.specs.Prelude.{◌≡◌, ◌+◌, ◌^◌, ◌<◌, ◌≤◌, false};
ghost use Rattle.words.specs.Words.{token};
ghost use Rattle.words.specs.Texts.{words_of, WordsAreExact};
ghost use Rattle.words.specs.Tallies.{is_end_lem, counted, none, tallied};

use crate::faults::WordFault;
use crate::reader::WordReader;
use crate::word::Word;

/// The words of a text, and how many of them are names of nodes and of atoms.
#[derive(Clone, Copy, Debug, Default, PartialEq, Eq)]
pub struct Tally {
    pub words: usize,
    pub nodes: usize,
    pub atoms: usize,
}

impl Tally {
    // One word more, which is not the text's end.
    fn count(&mut self, word: Word<'_>)
        requires room { self.old.words + 1 < 2 ^ 64 }
        requires nodes { self.old.nodes ≤ self.old.words }
        requires atoms { self.old.atoms ≤ self.old.words }
        requires some { is_end_lem (token word) ≡ false }
        ensures { self.new ≡ counted self.old (token word.entry) }
    {
        self.words += 1;
        match word {
            Word::Node(_) => self.nodes += 1,
            Word::Atom(_) => self.atoms += 1,
            _ => {}
        }
    }
}

/// Reads a text to its end and counts its words, or gives the first fault.
pub fn tally_words(text: &[u8]) -> Result<Tally, WordFault>
    ensures counts { result ≡ tallied none (words_of text.now) }
    ensures exact { WordsAreExact text.now }
{
    let mut reader = WordReader::new(text);
    let mut tally = Tally::default();
    loop {
        let word = reader.next()?.word;
        if word.is_end() {
            return Ok(tally);
        }
        tally.count(word);
    }
}

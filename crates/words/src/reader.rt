// A reader of words: a text, and how far it is read.
ghost use Rattle.std.specs.Prelude.{◌≡◌, ◌≤◌, length};
ghost use Rattle.words.specs.Words.{word_at, reading_of, place_after};

use crate::faults::WordFault;
use crate::scan::{gap_len, word_at};
use crate::word::Placed;

#[derive(Clone, Copy, Debug, PartialEq, Eq)]
pub struct WordReader<'a> {
    text: &'a [u8],
    at: usize,
    ghost within: { at ≤ length text.now },
}

impl<'a> WordReader<'a> {
    /// A reader at the text's beginning.
    pub fn new(text: &'a [u8]) -> WordReader<'a>
        ensures { (result.text.now ≡ text.now) × (result.at ≡ 0) }
    {
        WordReader { text, at: 0 }
    }

    /// The next word, after which the reader stands; a fault leaves the reader as it was.
    pub fn next(&mut self) -> Result<Placed<'a>, WordFault>
        ensures value { reading_of result self.new.at ≡ word_at self.old.text.now self.old.at }
        ensures after { self.new.at ≡ place_after (word_at self.old.text.now self.old.at) self.old.at }
        ensures same { self.new.text ≡ self.old.text }
    {
        let text = self.text;
        let place = self.at + gap_len(&text[self.at..]);
        let (word, after) = word_at(text, place).map_err(|refusal| WordFault { refusal, place })?;
        self.at = after;
        Ok(Placed { place, word })
    }
}

// The words of a text, one ahead.
ghost use Rattle.std.specs.Prelude.{◌≡◌, true};
ghost use Rattle.words.specs.Texts.{words_from};
ghost use Rattle.lookahead.specs.Ended.{nothing_behind, number_in_range};

use crate::word::Word;
use words::{WordReader, WordRefusal};

/// Behind the text's end there are no words. `word` is the word ahead, or why there is none.
#[derive(Clone, Copy, Debug, PartialEq, Eq)]
pub struct Parser<'a> {
    pub(crate) reader: WordReader<'a>,
    pub place: usize,
    pub word: Result<Word, WordRefusal>,
    ghost ended: { nothing_behind word (words_from reader.text.now reader.at) ≡ true },
    ghost numbered: { number_in_range word ≡ true },
}

// Reading the word ahead.
ghost use Rattle.std.specs.Prelude.{◌≡◌, true};
ghost use Rattle.words.specs.Words.{token};
ghost use Rattle.words.specs.Texts.{words_of};
ghost use Rattle.grammar.specs.Texts.{token_word, token_names, numbering, all_names};
ghost use Rattle.grammar.specs.Loading.{numbered};
ghost use Rattle.faults.specs.Grammar.{number, place};
ghost use Rattle.lookahead.specs.Ahead.{Short, Grown, word_for, names_of, fault_number, rest, later, final, size, Moves};

use crate::parser::Parser;
use crate::word::Word;
use faults::{GrammarFault, GrammarRefusal};
use names::Names;
use words::{WordFault, WordReader};

// A word with its name numbered.
fn numbered(names: &mut Names, word: words::Word<'_>) -> Word
    requires { Short (token word) }
    ensures word { result ≡ word_for (names_of names.old) (token word.entry) }
    ensures grows { Grown (names_of names.old) (names_of names.new) }
    ensures names { numbered (token_word (names_of names.old) (token word.entry)) ≡ true → names_of names.new ≡ token_names (names_of names.old) (token word.entry) }
{
    match word {
        words::Word::Node(name) => match names.node(name) {
            Ok(n) => Word::Node(n),
            Err(_) => Word::UnnumberedNode,
        },
        words::Word::Atom(name) => match names.atom(name) {
            Ok(a) => Word::Atom(a),
            Err(_) => Word::UnnumberedAtom,
        },
        words::Word::Less => Word::Less,
        words::Word::Greater => Word::Greater,
        words::Word::Colon => Word::Colon,
        words::Word::Equals => Word::Equals,
        words::Word::Stop => Word::Stop,
        words::Word::Quote => Word::Quote,
        words::Word::Open => Word::Open,
        words::Word::Close => Word::Close,
        words::Word::Stray => Word::Stray,
        words::Word::End => Word::End,
    }
}

// Kept: that names only grow is said of two states of the names, which no type holds.
impl<'a> Parser<'a> {
    /// A parser at the text's first word.
    pub fn new(text: &'a [u8], names: &mut Names) -> Parser<'a>
        ensures moves { Moves (numbering (names_of names.old) (words_of text.now)) (all_names (names_of names.old) (words_of text.now)) (rest (names_of names.new) result) (final (names_of names.new) result) }
        ensures grows { Grown (names_of names.old) (names_of names.new) }
        ensures size { size (rest (names_of names.new) result) ≡ size (numbering (names_of names.old) (words_of text.now)) }
    {
        let mut parser = Parser {
            reader: WordReader::new(text),
            place: 0,
            word: Ok(Word::Stray),
        };
        parser.advance(names);
        parser
    }

    /// On to the next word.
    pub fn advance(&mut self, names: &mut Names)
        ensures moves { Moves (later (names_of names.old) self.old) (final (names_of names.old) self.old) (rest (names_of names.new) self.new) (final (names_of names.new) self.new) }
        ensures grows { Grown (names_of names.old) (names_of names.new) }
        ensures size { size (rest (names_of names.new) self.new) ≡ size (later (names_of names.old) self.old) }
    {
        match self.reader.next() {
            Ok(placed) => {
                self.place = placed.place;
                self.word = Ok(numbered(names, placed.word));
            }
            Err(fault) => {
                self.place = fault.place;
                self.word = Err(fault.refusal);
            }
        }
    }

    /// The fault of the word ahead where no theory has it.
    pub fn misplaced(&self) -> GrammarFault
        ensures number { number result ≡ fault_number self.now.word }
        ensures place { place result ≡ self.now.place }
    {
        match self.word {
            Err(refusal) => GrammarFault::from(WordFault {
                refusal,
                place: self.place,
            }),
            Ok(_) => GrammarFault::Own(GrammarRefusal::Misplaced, self.place),
        }
    }
}

// Term list, term and path: readers that call one another, with the nesting that is left falling.
ghost use Rattle.std.specs.Prelude.{◌≡◌, ◌+◌, ◌<◌, ◌≤◌, true, false, [], ◌∷◌, ◌++◌, is_ok, Ok, Some, None, vec_len, vec_capacity};
ghost use Rattle.terms.specs.declared.items.Quoting.TheVariants.{Plain};
ghost use Rattle.terms.specs.declared.items.Item.TheVariants as item;
ghost use Rattle.terms.specs.Maps.{node_in_range, item_in_range};
ghost use Rattle.grammar.specs.Parsing.{ready, noded, coloned, quoting, quoted_node};
ghost use Rattle.faults.specs.declared.kinds.GrammarFault.TheVariants as fault;
ghost use Rattle.lookahead.specs.declared.word.Word.TheVariants as w;
ghost use Rattle.loader.specs.Readings.{is_less_lem, starts, is_next, words_left, HasRoom, TakesWords, ReadsTerms, ReadsPath, ReadsSide, Stops};

use crate::ends::NextEquation;
use crate::reader::Reader;
use faults::{GrammarFault, GrammarRefusal, NameFault};
use lookahead::Word;
use terms::limits::NESTING;
use terms::{Item, Node, Quoting};
use words::WordRefusal;

fn starts_term(word: Result<Word, WordRefusal>) -> bool
    ensures { result ≡ starts word }
{
    matches!(
        word,
        Ok(
            Word::Atom(_)
                | Word::UnnumberedAtom
                | Word::Node(_)
                | Word::UnnumberedNode
                | Word::Less
                | Word::Quote
        )
    )
}

pub(crate) fn no_number(place: usize) -> GrammarFault
    ensures { result ≡ fault.Name (record { place = place }) }
{
    GrammarFault::from(NameFault { place })
}

// Kept here and in right_side: that a right side stands in ( ) is a fact of two values, and the definitions have it as one.
fn begins_next(round: bool, word: Result<Word, WordRefusal>) -> bool
    ensures { result ≡ is_next round word }
{
    !round && matches!(word, Ok(Word::Equals))
}

// Kept: that there is room is no fact of a reader whose word is a fault, behind which its type does not say what stands; the items are filled by one reader after
// the other, and the nesting left falls from call to call.
impl Reader<'_, '_> {
    // A path from its < on, the node and the quote mark before it being read.
    #[cycle(term_readers)]
    fn path(
        &mut self,
        items: &mut Vec<Item>,
        left: usize,
        quoting: Quoting,
        node: Option<Node>,
    ) -> Result<(), GrammarFault>
        requires room { HasRoom 0 self.old items.old }
        requires starts { is_less_lem self.old.parser.word ≡ true }
        requires depth { left ≤ 4 }
        requires named { item_in_range (item.Open «quoting» «node») ≡ true }
        ensures goes { ReadsPath left «quoting» «node» self.old items.old.items result self.new items.new.items }
        ensures less { is_ok result ≡ true → words_left self.new < words_left self.old }
        ensures takes { TakesWords 0 self.old items.old (is_ok result) self.new items.new }
    {
        if left == 0 {
            return Err(GrammarFault::Own(GrammarRefusal::TooDeep, self.parser.place));
        }
        items.push_reserved(Item::Open(quoting, node));
        self.advance();
        self.terms(items, left - 1)?;
        self.pass(Word::Greater)?;
        items.push_reserved(Item::Close);
        match quoting {
            Quoting::Plain => Ok(()),
            Quoting::Quoted => self.pass(Word::Quote),
        }
    }

    #[cycle(term_readers)]
    fn terms(&mut self, items: &mut Vec<Item>, left: usize) -> Result<(), GrammarFault>
        requires room { HasRoom 0 self.old items.old }
        requires inside { left ≤ 3 }
        ensures goes { ReadsTerms left ready self.old items.old.items result self.new items.new.items }
        ensures stops { is_ok result ≡ true → starts self.new.parser.word ≡ false }
        ensures less { is_ok result ≡ true → words_left self.new ≤ words_left self.old }
        ensures takes { TakesWords 0 self.old items.old (is_ok result) self.new items.new }
    {
        while starts_term(self.parser.word) {
            self.term(items, left)?;
        }
        Ok(())
    }

    #[cycle(term_readers)]
    fn term(&mut self, items: &mut Vec<Item>, left: usize) -> Result<(), GrammarFault>
        requires room { HasRoom 0 self.old items.old }
        requires inside { left ≤ 3 }
        requires starts { starts self.old.parser.word ≡ true }
        ensures goes { ReadsTerms left ready self.old items.old.items result self.new items.new.items }
        ensures less { is_ok result ≡ true → words_left self.new < words_left self.old }
        ensures takes { TakesWords 0 self.old items.old (is_ok result) self.new items.new }
    {
        match self.parser.word {
            Ok(Word::Less) => self.path(items, left, Quoting::Plain, None),
            _ => self.unopened(items, left),
        }
    }

    // A term that does not begin with <.
    #[cycle(term_readers)]
    fn unopened(&mut self, items: &mut Vec<Item>, left: usize) -> Result<(), GrammarFault>
        requires room { HasRoom 0 self.old items.old }
        requires starts { starts self.old.parser.word ≡ true }
        requires unopened { self.old.parser.word ≡ Ok w.Less → ⊥ }
        requires depth { left ≤ 4 }
        ensures goes { ReadsTerms left ready self.old items.old.items result self.new items.new.items }
        ensures less { is_ok result ≡ true → words_left self.new < words_left self.old }
        ensures takes { TakesWords 0 self.old items.old (is_ok result) self.new items.new }
    {
        match self.parser.word {
            Ok(Word::Atom(a)) => {
                items.push_reserved(Item::Atom(a));
                self.advance();
                Ok(())
            }
            Ok(Word::Node(n)) => {
                self.advance();
                self.after_node(items, left, n)
            }
            Ok(Word::UnnumberedAtom | Word::UnnumberedNode) => Err(no_number(self.parser.place)),
            _ => {
                self.advance();
                self.after_quote(items, left)
            }
        }
    }

    #[cycle(term_readers)]
    fn after_node(
        &mut self,
        items: &mut Vec<Item>,
        left: usize,
        node: Node,
    ) -> Result<(), GrammarFault>
        requires room { HasRoom 1 self.old items.old }
        requires depth { left ≤ 4 }
        requires named { node_in_range «node» ≡ true }
        ensures goes { ReadsTerms left (noded «node») self.old items.old.items result self.new items.new.items }
        ensures less { is_ok result ≡ true → words_left self.new ≤ words_left self.old }
        ensures takes { TakesWords 1 self.old items.old (is_ok result) self.new items.new }
    {
        match self.parser.word {
            Ok(Word::Colon) => {
                self.advance();
                self.named_path(items, left, Quoting::Plain, node)
            }
            _ => {
                items.push_reserved(Item::Node(Quoting::Plain, node));
                Ok(())
            }
        }
    }

    #[cycle(term_readers)]
    fn after_quote(&mut self, items: &mut Vec<Item>, left: usize) -> Result<(), GrammarFault>
        requires room { HasRoom 0 self.old items.old }
        requires depth { left ≤ 4 }
        ensures goes { ReadsTerms left quoting self.old items.old.items result self.new items.new.items }
        ensures less { is_ok result ≡ true → words_left self.new ≤ words_left self.old }
        ensures takes { TakesWords 0 self.old items.old (is_ok result) self.new items.new }
    {
        match self.parser.word {
            Ok(Word::Less) => self.path(items, left, Quoting::Quoted, None),
            Ok(Word::Node(n)) => {
                self.advance();
                self.after_quoted_node(items, left, n)
            }
            Ok(Word::UnnumberedNode) => Err(no_number(self.parser.place)),
            _ => Err(self.misplaced()),
        }
    }

    #[cycle(term_readers)]
    fn after_quoted_node(
        &mut self,
        items: &mut Vec<Item>,
        left: usize,
        node: Node,
    ) -> Result<(), GrammarFault>
        requires room { HasRoom 1 self.old items.old }
        requires depth { left ≤ 4 }
        requires named { node_in_range «node» ≡ true }
        ensures goes { ReadsTerms left (quoted_node «node») self.old items.old.items result self.new items.new.items }
        ensures less { is_ok result ≡ true → words_left self.new ≤ words_left self.old }
        ensures takes { TakesWords 0 self.old items.old (is_ok result) self.new items.new }
    {
        match self.parser.word {
            Ok(Word::Colon) => {
                self.advance();
                self.named_path(items, left, Quoting::Quoted, node)
            }
            Ok(Word::Quote) => {
                items.push_reserved(Item::Node(Quoting::Quoted, node));
                self.advance();
                Ok(())
            }
            _ => Err(self.misplaced()),
        }
    }

    // The path behind a node and its colon.
    #[cycle(term_readers)]
    fn named_path(
        &mut self,
        items: &mut Vec<Item>,
        left: usize,
        quoting: Quoting,
        node: Node,
    ) -> Result<(), GrammarFault>
        requires room { HasRoom 0 self.old items.old }
        requires depth { left ≤ 4 }
        requires named { node_in_range «node» ≡ true }
        ensures goes { ReadsTerms left (coloned «quoting» «node») self.old items.old.items result self.new items.new.items }
        ensures less { is_ok result ≡ true → words_left self.new ≤ words_left self.old }
        ensures takes { TakesWords 0 self.old items.old (is_ok result) self.new items.new }
    {
        match self.parser.word {
            Ok(Word::Less) => self.path(items, left, quoting, Some(node)),
            _ => Err(self.misplaced()),
        }
    }

    /// The terms of a right side, in ( ) where `round` is true, up to the word that ends them, or through a path that begins the next
    /// equation.
    pub(crate) fn right_side(
        &mut self,
        items: &mut Vec<Item>,
        round: bool,
    ) -> Result<Option<NextEquation>, GrammarFault>
        requires room { HasRoom 0 self.old items.old }
        ensures goes { ReadsSide round self.old items.old.items result self.new items.new.items }
        ensures stops { Stops round result self.new.parser.word }
        ensures less { is_ok result ≡ true → words_left self.new ≤ words_left self.old }
        ensures takes { TakesWords 0 self.old items.old (is_ok result) self.new items.new }
    {
        while starts_term(self.parser.word) {
            match self.parser.word {
                Ok(Word::Less) => {
                    let mark = items.len();
                    let place = self.parser.place;
                    self.path(items, NESTING, Quoting::Plain, None)?;
                    if begins_next(round, self.parser.word) {
                        return Ok(Some(NextEquation { mark, place }));
                    }
                }
                _ => self.unopened(items, NESTING)?,
            }
        }
        Ok(None)
    }
}

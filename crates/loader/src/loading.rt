// Loading a text into a keeper.
ghost use Rattle.std.specs.Prelude.{◌≡◌, ◌≤◌, [], length, IfOk};
ghost use Rattle.words.specs.Texts.{words_of};
ghost use Rattle.grammar.specs.Parsing.{between};
ghost use Rattle.grammar.specs.Texts.{numbering, all_names};
ghost use Rattle.lookahead.specs.Ahead.{Grown, names_of, gives};
ghost use Rattle.loader.specs.Blocks.{GoesText, Leaves};
ghost use Rattle.loader.specs.Loads.{Loads, KeepsTheTheorySpelt};

use crate::loader::Loader;
use crate::reader::Reader;
use crate::reading::no_number;
use faults::{GrammarFault, LoadFault, TEXT_BYTES};
use lookahead::{Parser, Word};
use names::Names;
use std::alloc::{AllocError, Global};
use stores::Keeper;

// Kept: a text, names and a keeper stay three parameters, since callers have them apart.
impl Loader {
    /// A loader with all the memory that it will want.
    pub fn new(heap: Global) -> Result<Loader, AllocError>
        ensures { IfOk result (λ l. (l.left.items ≡ []) × ((l.next.items ≡ []) × (l.items.items ≡ []))) }
    {
        let left = Vec::with_capacity(heap, TEXT_BYTES)?;
        let next = Vec::with_capacity(heap, TEXT_BYTES)?;
        let items = Vec::with_capacity(heap, TEXT_BYTES)?;
        Ok(Loader { left, next, items })
    }

    // All blocks of a text.
    fn theory<K: Keeper>(
        &mut self,
        text: &[u8],
        names: &mut Names,
        keeper: &mut K,
    ) -> Result<(), GrammarFault>
        requires few { length text.now ≤ 65536 }
        requires empty { K.Keeper.kept keeper.old ≡ [] }
        ensures goes { GoesText (gives K.Keeper.limits (numbering (names_of names.old) (words_of text.now)) (all_names (names_of names.old) (words_of text.now)) (between [])) result (names_of names.new) (K.Keeper.kept keeper.new) }
        ensures grows { Grown (names_of names.old) (names_of names.new) }
    {
        let parser = Parser::new(text, names);
        let mut reader = Reader { parser, names };
        while let Ok(Word::Node(node)) = reader.parser.word {
            self.block(&mut reader, keeper, node)?;
        }
        match reader.parser.word {
            Ok(Word::End) => Ok(()),
            Ok(Word::UnnumberedNode) => Err(no_number(reader.parser.place)),
            _ => Err(reader.misplaced()),
        }
    }

    // The same; a text that is refused leaves no sentence and no name.
    fn theory_or_nothing<K: Keeper>(
        &mut self,
        text: &[u8],
        names: &mut Names,
        keeper: &mut K,
    ) -> Result<(), GrammarFault>
        requires few { length text.now ≤ 65536 }
        requires empty { K.Keeper.kept keeper.old ≡ [] }
        ensures goes { GoesText (gives K.Keeper.limits (numbering (names_of names.old) (words_of text.now)) (all_names (names_of names.old) (words_of text.now)) (between [])) result (names_of names.new) (K.Keeper.kept keeper.new) }
        ensures leaves { Leaves result (names_of names.old) (names_of names.new) (K.Keeper.kept keeper.new) }
    {
        let nodes = names.node_count();
        let atoms = names.atom_count();
        let read = self.theory(text, names, keeper);
        if read.is_err() {
            keeper.clear();
            names.truncate(nodes, atoms);
        }
        read
    }

    /// Empties the keeper and keeps the sentences of a text, its names being numbered as met. A text that is refused leaves the
    /// keeper empty and the names as they were.
    pub fn load<K: Keeper>(
        &mut self,
        text: &[u8],
        names: &mut Names,
        keeper: &mut K,
    ) -> Result<(), LoadFault>
        ensures loads { Loads K.Keeper.limits (names_of names.old) text.now result (K.Keeper.kept keeper.new) (names_of names.new) }
        ensures right { KeepsTheTheorySpelt K.Keeper.limits (names_of names.old) text.now result (K.Keeper.kept keeper.new) (names_of names.new) }
    {
        keeper.clear();
        if text.len() > TEXT_BYTES {
            return Err(LoadFault::TooLong);
        }
        self.theory_or_nothing(text, names, keeper)?;
        Ok(())
    }
}

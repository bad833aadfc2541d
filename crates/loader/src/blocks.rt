// Blocks, by what is due in them: an equation's left path, its right side, or the full stop.
ghost use Rattle.std.specs.Prelude.{◌≡◌, ◌<◌, ◌≤◌, true, false, List, is_ok, Some, Ok};
ghost use Rattle.terms.specs.Maps.{every, node_in_range, atom_in_range};
ghost use Rattle.stores.specs.Sentences.{Sentence};
ghost use Rattle.stores.specs.Refusals.{Limits};
ghost use Rattle.grammar.specs.Parsing.{body};
ghost use Rattle.lookahead.specs.declared.word.Word.TheVariants as w;
ghost use Rattle.loader.specs.declared.ends.Due.TheVariants as due;
ghost use Rattle.loader.specs.Onward.{Onward};
ghost use Rattle.loader.specs.Readings.{words_left};
ghost use Rattle.loader.specs.Blocks.{state_at, at_side, ReadsOn, ReadsBlock};

use crate::collecting::collect_atoms;
use crate::ends::Due;
use crate::keeping::keep;
use crate::loader::Loader;
use crate::reader::Reader;
use faults::GrammarFault;
use lookahead::Word;
use std::mem::swap;
use stores::Keeper;
use terms::Node;

// Kept: that few words are left is no fact of a reader whose word is a fault, behind which its type does not say what stands; that the atoms of `left` are in range would,
// as a fact of the loader, have to be promised of a refused path too. Keeper and node are the caller's and stay apart.
impl Loader {
    // The left path of an equation; or the full stop that ends the block.
    fn equation(&mut self, reader: &mut Reader<'_, '_>) -> Result<Option<Due>, GrammarFault>
        requires few { words_left reader.old ≤ 65536 }
        requires left { every atom_in_range self.old.left.items ≡ true }
        ensures goes { (l : Limits) (n : Node) (kept : List Sentence) → ReadsOn l n body reader.old kept result reader.new self.new.left.items kept }
        ensures onward { Onward reader.old reader.new }
        ensures less { is_ok result ≡ true → words_left reader.new < words_left reader.old }
    {
        match reader.parser.word {
            Ok(Word::Less) => {
                let place = reader.parser.place;
                reader.left_path(&mut self.left)?;
                Ok(Some(Due::RightSide(place)))
            }
            Ok(Word::Stop) => {
                reader.advance();
                Ok(None)
            }
            _ => Err(reader.misplaced()),
        }
    }

    // A right side in ( ), from its first term through its ).
    fn round_side<K: Keeper>(
        &mut self,
        reader: &mut Reader<'_, '_>,
        keeper: &mut K,
        node: Node,
        place: usize,
    ) -> Result<Option<Due>, GrammarFault>
        requires few { words_left reader.old ≤ 65536 }
        requires named { node_in_range node ≡ true }
        requires left { every atom_in_range self.old.left.items ≡ true }
        ensures goes { ReadsOn K.Keeper.limits node (at_side true place self.old.left.items) reader.old (K.Keeper.kept keeper.old) result reader.new self.new.left.items (K.Keeper.kept keeper.new) }
        ensures onward { Onward reader.old reader.new }
        ensures less { is_ok result ≡ true → words_left reader.new < words_left reader.old }
    {
        self.items.clear();
        let _ = reader.right_side(&mut self.items, true)?;
        match reader.parser.word {
            Ok(Word::Close) => {
                keep(
                    keeper,
                    node,
                    self.left.as_slice(),
                    self.items.as_slice(),
                    place,
                )?;
                reader.advance();
                Ok(Some(Due::Equation))
            }
            _ => Err(reader.misplaced()),
        }
    }

    // A right side without ( ), through the full stop or the == of the next equation.
    fn bare_side<K: Keeper>(
        &mut self,
        reader: &mut Reader<'_, '_>,
        keeper: &mut K,
        node: Node,
        place: usize,
    ) -> Result<Option<Due>, GrammarFault>
        requires few { words_left reader.old ≤ 65536 }
        requires named { node_in_range node ≡ true }
        requires left { every atom_in_range self.old.left.items ≡ true }
        ensures goes { ReadsOn K.Keeper.limits node (at_side false place self.old.left.items) reader.old (K.Keeper.kept keeper.old) result reader.new self.new.left.items (K.Keeper.kept keeper.new) }
        ensures onward { Onward reader.old reader.new }
        ensures less { is_ok result ≡ true → words_left reader.new < words_left reader.old }
    {
        self.items.clear();
        match reader.right_side(&mut self.items, false)? {
            None => match reader.parser.word {
                Ok(Word::Stop) => {
                    keep(
                        keeper,
                        node,
                        self.left.as_slice(),
                        self.items.as_slice(),
                        place,
                    )?;
                    reader.advance();
                    Ok(None)
                }
                _ => Err(reader.misplaced()),
            },
            Some(next) => {
                let end = self.items.len() - 1;
                let path = &self.items.as_slice()[next.mark + 1..end];
                let Ok(()) = collect_atoms(path, &mut self.next) else {
                    return Err(reader.misplaced());
                };
                keep(
                    keeper,
                    node,
                    self.left.as_slice(),
                    &self.items.as_slice()[0..next.mark],
                    place,
                )?;
                swap(&mut self.left, &mut self.next);
                reader.advance();
                Ok(Some(Due::RightSide(next.place)))
            }
        }
    }

    // What is due, and what is due then: nothing behind the full stop.
    fn next_part<K: Keeper>(
        &mut self,
        reader: &mut Reader<'_, '_>,
        keeper: &mut K,
        node: Node,
        due: Due,
    ) -> Result<Option<Due>, GrammarFault>
        requires few { words_left reader.old ≤ 65536 }
        requires named { node_in_range node ≡ true }
        requires left { every atom_in_range self.old.left.items ≡ true }
        ensures goes { ReadsOn K.Keeper.limits node (state_at (Some «due») self.old.left.items) reader.old (K.Keeper.kept keeper.old) result reader.new self.new.left.items (K.Keeper.kept keeper.new) }
        ensures onward { Onward reader.old reader.new }
        ensures less { is_ok result ≡ true → words_left reader.new < words_left reader.old }
    {
        match due {
            Due::Equation => self.equation(reader),
            Due::RightSide(place) => match reader.parser.word {
                Ok(Word::Open) => {
                    reader.advance();
                    self.round_side(reader, keeper, node, place)
                }
                _ => self.bare_side(reader, keeper, node, place),
            },
        }
    }

    // A block from its node on.
    pub(crate) fn block<K: Keeper>(
        &mut self,
        reader: &mut Reader<'_, '_>,
        keeper: &mut K,
        node: Node,
    ) -> Result<(), GrammarFault>
        requires few { words_left reader.old ≤ 65536 }
        requires starts { reader.old.parser.word ≡ Ok (w.Node node) }
        ensures goes { ReadsBlock K.Keeper.limits reader.old (K.Keeper.kept keeper.old) result reader.new (K.Keeper.kept keeper.new) }
        ensures onward { Onward reader.old reader.new }
        ensures less { is_ok result ≡ true → words_left reader.new < words_left reader.old }
    {
        reader.advance();
        reader.pass(Word::Colon)?;
        self.left.clear();
        let mut next = Some(Due::Equation);
        while let Some(due) = next {
            next = self.next_part(reader, keeper, node, due)?;
        }
        Ok(())
    }
}

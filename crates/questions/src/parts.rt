// The parts of a line in turn: a node, a colon, a path of atoms.
ghost use Rattle.std.specs.Prelude.{◌≡◌, ◌≤◌, Bool, length, IfOk};
ghost use Rattle.words.specs.Words.{Sign, token};
ghost use Rattle.words.specs.Texts.{words_of};
ghost use Rattle.questions.specs.Lines.{line_from, line_of, names_of};
ghost use Rattle.questions.specs.Steps.{Grown, words_left, read_as, Short, TestsSign, Passes, node_or_fault, names_with_node, atom_or_fault, names_with_atom, ReadsAtoms, ReadsPath, Unnamed};

use crate::asked::Asked;
use crate::line_fault::LineFault;
use faults::NameFault;
use names::Names;
use path::Path;
use terms::{Atom, Node};
use words::{Placed, Word, WordFault, WordReader};

fn next_word<'a>(reader: &mut WordReader<'a>) -> Result<Placed<'a>, WordFault>
    ensures words { words_left reader.old ≡ read_as result reader.new }
    ensures short { IfOk result (λ p. Short (token p.word)) }
{
    reader.next()
}

// Passes the next word, which has to be the expected sign.
fn pass<'a, F: Fn(Word<'a>) -> bool>(
    reader: &mut WordReader<'a>,
    is_expected: F,
) -> Result<(), LineFault>
    requires { F.IsAlwaysCallable is_expected }
    ensures { (sign : Sign → Bool) → TestsSign (F.post is_expected) sign → Passes sign (words_left reader.old) result (words_left reader.new) }
{
    let next = next_word(reader)?;
    if is_expected(next.word) {
        Ok(())
    } else {
        Err(LineFault::Misplaced(next.place))
    }
}

// Kept: the two tables' calls differ in all but the fault, and a trait for a line each would be longer.
fn numbered_node(names: &mut Names, name: &[u8], place: usize) -> Result<Node, NameFault>
    requires { length name.now ≤ 32 }
    ensures gives { result ≡ node_or_fault (names_of names.old) name.now place }
    ensures names { names_of names.new ≡ names_with_node (names_of names.old) name.now }
{
    names.node(name).or(Err(NameFault { place }))
}

fn numbered_atom(names: &mut Names, name: &[u8], place: usize) -> Result<Atom, NameFault>
    requires { length name.now ≤ 32 }
    ensures gives { result ≡ atom_or_fault (names_of names.old) name.now place }
    ensures names { names_of names.new ≡ names_with_atom (names_of names.old) name.now }
{
    names.atom(name).or(Err(NameFault { place }))
}

// The atoms of a path and its >; none where they are more than a path may have.
// Kept here and below: that names only grow is said of two states of a table, which no type holds.
fn path_atoms(reader: &mut WordReader<'_>, names: &mut Names) -> Result<Option<Path>, LineFault>
    ensures reads { ReadsAtoms (names_of names.old) (words_left reader.old) result (names_of names.new) (words_left reader.new) }
    ensures grows { Grown (names_of names.old) (names_of names.new) }
{
    let mut path = Path::new();
    let mut held = Ok(());
    loop {
        let next = next_word(reader)?;
        match next.word {
            Word::Atom(name) => {
                let atom = numbered_atom(names, name, next.place)?;
                held = path.push(atom);
            }
            Word::Greater => return Ok(held.ok().map(|()| path)),
            _ => return Err(LineFault::Misplaced(next.place)),
        }
    }
}

// All behind the node: a colon and a path, and then the line's end.
fn path_to_end(reader: &mut WordReader<'_>, names: &mut Names) -> Result<Path, LineFault>
    ensures reads { ReadsPath (names_of names.old) (words_left reader.old) result (names_of names.new) }
    ensures grows { Grown (names_of names.old) (names_of names.new) }
{
    pass(reader, |word| matches!(word, Word::Colon))?;
    pass(reader, |word| matches!(word, Word::Less))?;
    let path = path_atoms(reader, names)?;
    let last = next_word(reader)?;
    if !matches!(last.word, Word::End) {
        return Err(LineFault::Misplaced(last.place));
    }
    path.ok_or(LineFault::PathTooLong)
}

// What the words of a line ask; names that are numbered on the way stay, also where the line has a fault.
pub(crate) fn question(line: &[u8], names: &mut Names) -> Result<Option<Asked>, LineFault>
    ensures reads { line_of result (names_of names.new) ≡ line_from (names_of names.old) (words_of line.now) }
    ensures unnamed { Unnamed result (names_of names.old) (names_of names.new) }
    ensures grows { Grown (names_of names.old) (names_of names.new) }
{
    let mut reader = WordReader::new(line);
    let first = next_word(&mut reader)?;
    match first.word {
        Word::End => Ok(None),
        Word::Node(name) => {
            let node = numbered_node(names, name, first.place)?;
            let path = path_to_end(&mut reader, names)?;
            Ok(Some(Asked { node, path }))
        }
        _ => Err(LineFault::Misplaced(first.place)),
    }
}

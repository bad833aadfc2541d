// Questions: lines of input, each a node, a colon and a path of atoms.
#![tactic(auto)]

ghost use Rattle.std.specs.Prelude.{◌≡◌};
ghost use Rattle.questions.specs.Lines.{read_line, names_left, line_of, names_of};
ghost use Rattle.questions.specs.Questions.{IsReadRightly};
ghost use Rattle.questions.specs.FirstFaults.{IsRefusedRightly};

use names::Names;
use parts::question;

mod asked;
mod line_fault;
mod parts;

pub use asked::Asked;
pub use faults::NameFault;
pub use line_fault::{LINE_BYTES, LineFault};

/// Reads a line: what it asks, nothing where it has no words, or its first fault. The names of a question are numbered as first met;
/// any other line leaves the names as they were.
pub fn read_question(line: &[u8], names: &mut Names) -> Result<Option<Asked>, LineFault>
    ensures reads { line_of result (names_of names.new) ≡ read_line (names_of names.old) line.now }
    ensures names { names_of names.new ≡ names_left (names_of names.old) (read_line (names_of names.old) line.now) }
    ensures rightly { IsReadRightly (names_of names.old) line.now }
    ensures refused { IsRefusedRightly (names_of names.old) line.now }
{
    if line.len() > LINE_BYTES {
        return Err(LineFault::LineTooLong);
    }
    let nodes = names.node_count();
    let atoms = names.atom_count();
    let read = question(line, names);
    if read.is_err() {
        names.truncate(nodes, atoms);
    }
    read
}

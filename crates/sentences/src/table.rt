// What is kept of a question and of an open sentence.
ghost use Rattle.std.specs.Prelude.{ℕ, ◌≤◌, length};
ghost use Rattle.path.specs.Atoms.{atoms_of};

use path::Path;
use terms::{Node, Quoting};

/// A question, with its context. The nodes are compared first: they differ most often, and cost least.
#[derive(Clone, Copy, PartialEq, Eq, Debug)]
pub struct Question {
    pub node: Node,
    pub global_node: Node,
    pub path: Path,
    pub global_path: Path,
}

/// An open sentence: its question, the length of its left path, and how many items of its right side are worked.
#[derive(Clone, Copy, Debug)]
pub struct Open {
    pub at: Question,
    pub left: usize,
    pub place: usize,
    ghost within: { left ≤ length (atoms_of at.path) },
}

/// The inside of a path that is being built.
#[derive(Clone, Copy, Debug)]
pub struct Inside {
    pub quoting: Quoting,
    pub node: Option<Node>,
    pub atoms: Path,
}

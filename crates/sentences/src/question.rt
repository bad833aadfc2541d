// Questions: a first one, and one in the same context.
ghost use Rattle.std.specs.Prelude.{◌≡◌};
ghost use Rattle.rules.specs.Questions.{own, same};
ghost use Rattle.rules.specs.Evaluation.{same_question};
ghost use Rattle.path.specs.Atoms.{atoms_of};
ghost use Rattle.sentences.specs.Kept.{question_of};

use crate::table::Question;
use path::Path;
use terms::{Atom, Node};

impl Question {
    /// A question that is its own context.
    pub fn first(node: Node, path: Path) -> Question
        ensures { question_of result ≡ own node (atoms_of path) }
    {
        Question {
            node,
            path,
            global_node: node,
            global_path: path,
        }
    }

    /// A question in the same context.
    pub fn in_context(&self, node: Node, path: Path) -> Question
        ensures { question_of result ≡ same (question_of self.now).context node (atoms_of path) }
    {
        Question {
            node,
            path,
            global_node: self.global_node,
            global_path: self.global_path,
        }
    }

    pub fn node(&self) -> Node
        ensures { result ≡ (question_of self.now).node }
    {
        self.node
    }

    pub fn path(&self) -> &[Atom]
        ensures { result.now ≡ (question_of self.now).path }
    {
        self.path.as_slice()
    }

    /// Whether `==` holds: equal in node, path and context.
    // Kept: its clause says it by the word of the definitions, which that of a derived `==` does not have.
    #[tactic(auto, using(crate::proofs::Same::compared))]
    pub fn same(&self, other: &Question) -> bool
        ensures { result ≡ same_question (question_of self.now) (question_of other.now) }
    {
        *self == *other
    }
}

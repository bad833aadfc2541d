// An open sentence: how it goes on, and the questions that its terms ask.
ghost use Rattle.std.specs.Prelude.{◌≡◌, ◌+◌, ◌<◌};
ghost use Rattle.terms.specs.Limits.{item_limit};
ghost use Rattle.rules.specs.Evaluation.{same_question};
ghost use Rattle.rules.specs.Table.{node_asks_lem, path_asks_lem};
ghost use Rattle.machine.specs.Items.{onward};
ghost use Rattle.path.specs.Atoms.{atoms_of};
ghost use Rattle.sentences.specs.Kept.{question_of, position_of, site_of, Extended, Asks};

use crate::table::{Inside, Open, Question};
use path::Path;
use terms::{Atom, Node, Quoting};

impl Open {
    /// Whether it is open for this question: for the same node and path, in the same context.
    pub fn is_for(&self, question: &Question) -> bool
        ensures { result ≡ same_question (question_of question.now) (question_of self.now.at) }
    {
        question.same(&self.at)
    }

    /// What the left path leaves of the question's path.
    fn extension(&self) -> &[Atom]
        ensures { result.now ≡ (site_of self.now).extension }
    {
        let path = self.at.path.as_slice();
        &path[self.left..]
    }

    /// A path with the extension behind it, or none where both have over 32 atoms.
    fn extended(&self, front: Path) -> Option<Path>
        ensures { Extended result (atoms_of front) (site_of self.now).extension }
    {
        let mut path = front;
        path.extend(self.extension()).ok()?;
        Some(path)
    }

    /// The question that a node asks, or none if its path has over 32 atoms.
    pub fn node_asks(&self, quoting: Quoting, node: Node) -> Option<Question>
        ensures { Asks result (node_asks_lem (site_of self.now) quoting node) }
    {
        match quoting {
            Quoting::Plain => Some(self.at.in_context(node, self.at.path)),
            Quoting::Quoted => self
                .extended(self.at.global_path)
                .map(|path| Question::first(node, path)),
        }
    }

    /// The question that a path asks, or none if its path has over 32 atoms.
    pub fn path_asks(&self, inside: Inside) -> Option<Question>
        ensures { Asks result (path_asks_lem (site_of self.now) inside.quoting inside.node (atoms_of inside.atoms)) }
    {
        let path = self.extended(inside.atoms)?;
        Some(match (inside.quoting, inside.node) {
            (Quoting::Plain, Some(node)) => self.at.in_context(node, path),
            (Quoting::Plain, None) => self.at.in_context(self.at.node, path),
            (Quoting::Quoted, Some(node)) => Question::first(node, path),
            (Quoting::Quoted, None) => Question::first(self.at.global_node, path),
        })
    }
}

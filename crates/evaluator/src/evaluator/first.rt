// The first question that a node and a path make.
ghost use Rattle.std.specs.Prelude.{◌≡◌};
ghost use Rattle.evaluator.specs.Holds.{First};

use path::Path;
use sentences::Question;
use terms::{Atom, Node};

/// A question that is its own context, if its numbers are in range and it has no more than 32 atoms.
pub fn first_question(node: Node, path: &[Atom]) -> Option<Question>
    ensures { First result node path.now }
{
    if !node.is_in_range() || !Atom::are_in_range(path) {
        return None;
    }
    let mut kept = Path::new();
    kept.extend(path).ok()?;
    Some(Question::first(node, kept))
}

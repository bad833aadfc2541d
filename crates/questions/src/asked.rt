// A question: the value of a path at a node.
use path::Path;
use terms::Node;

#[derive(Clone, Copy, PartialEq, Eq, Debug)]
pub struct Asked {
    pub node: Node,
    pub path: Path,
}

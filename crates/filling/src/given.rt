// A sentence, as it is given to a keeper.
use terms::{Atom, Item, Node};

#[derive(Clone, Copy, Debug, PartialEq, Eq)]
pub struct Given<'a> {
    pub node: Node,
    pub left: &'a [Atom],
    pub right: &'a [Item],
}

// Sentences at the limits of open sentences and of a value.
use stores::{Keeper, Refusal};
use terms::{Atom, Item, Node, Quoting};

/// 97 nodes, each inheriting from the next.
pub(crate) fn add_chain<K: Keeper>(keeper: &mut K) -> Result<(), Refusal> {
    for n in 0u16..96 {
        keeper.add(Node(n), &[], &[Item::Node(Quoting::Plain, Node(n + 1))])?;
    }
    keeper.add(Node(96), &[], &[Item::Atom(Atom(7))])
}

/// Node 200 has 256 atoms, by nine nodes of which each has the next twice. Node 199 has one atom more.
pub(crate) fn add_doubles<K: Keeper>(keeper: &mut K) -> Result<(), Refusal> {
    for n in 200u16..208 {
        let next = Item::Node(Quoting::Plain, Node(n + 1));
        keeper.add(Node(n), &[], &[next, next])?;
    }
    keeper.add(Node(208), &[], &[Item::Atom(Atom(7))])?;
    keeper.add(
        Node(199),
        &[],
        &[Item::Node(Quoting::Plain, Node(200)), Item::Atom(Atom(7))],
    )
}

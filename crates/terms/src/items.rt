// Nodes, atoms, and the items that a right side is kept as.
ghost use Rattle.std.specs.Prelude.{◌≡◌};
ghost use Rattle.terms.specs.Maps.{every, node_in_range, atom_in_range, item_in_range};

use crate::limits::{ATOMS, NODES};

#[derive(Clone, Copy, Debug, PartialEq, Eq)]
pub struct Node(pub u16);

impl Node {
    /// Whether a node may have this number.
    pub fn is_in_range(self) -> bool
        ensures { result ≡ node_in_range self }
    {
        self.0 < NODES
    }
}

#[derive(Clone, Copy, Debug, Eq, PartialEq)]
pub struct Atom(pub u16);

impl Atom {
    /// Whether an atom may have this number.
    pub fn is_in_range(self) -> bool
        ensures { result ≡ atom_in_range self }
    {
        self.0 < ATOMS
    }

    /// Whether all atoms of a list may have their numbers.
    pub fn are_in_range(atoms: &[Atom]) -> bool
        ensures { result ≡ every atom_in_range atoms.now }
    {
        atoms.iter().all(|atom| atom.is_in_range())
    }
}

#[derive(Clone, Copy, PartialEq, Eq, Debug)]
pub enum Quoting {
    Plain,
    Quoted,
}

/// One place of a right side. A path is its opening, what it holds, and a close; an opening may have a node in front.
#[derive(Clone, Copy, PartialEq, Eq, Debug)]
pub enum Item {
    Atom(Atom),
    Node(Quoting, Node),
    Open(Quoting, Option<Node>),
    Close,
}

impl Item {
    /// Whether its node or atom may have its number.
    pub fn is_in_range(self) -> bool
        ensures { result ≡ item_in_range self }
    {
        match self {
            Item::Atom(atom) => atom.is_in_range(),
            Item::Node(_, node) | Item::Open(_, Some(node)) => node.is_in_range(),
            Item::Open(_, None) | Item::Close => true,
        }
    }
}

// A word with its name numbered. Kept apart from the word of `words`: there a name is its bytes, and here it may lack a number.
use terms::{Atom, Node};

// Kept: a name without a number is a word of its own and no Result in a word, since there is but one reason why it has none.
#[derive(Clone, Copy, Debug, PartialEq, Eq)]
pub enum Word {
    Atom(Atom),
    /// The name of an atom for which no number is left.
    UnnumberedAtom,
    Node(Node),
    /// The name of a node for which no number is left.
    UnnumberedNode,
    Less,
    Greater,
    Quote,
    Colon,
    Equals,
    Stop,
    Open,
    Close,
    Stray,
    End,
}

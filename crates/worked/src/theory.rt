// The worked theory as sentences, an addendum that changes one form, and the questions that are asked.
use filling::Given;
use terms::{Atom, Item, Node, Quoting};

pub const NODES: &[&str; 10] = &[
    "Word", "Lamp", "Child", "Echo", "Twice", "Loop", "Grow", "Relay", "Here", "There",
];

const WORD: Node = Node(0);

const LAMP: Node = Node(1);

const CHILD: Node = Node(2);

const ECHO: Node = Node(3);

const TWICE: Node = Node(4);

const LOOP: Node = Node(5);

const GROW: Node = Node(6);

const RELAY: Node = Node(7);

const HERE: Node = Node(8);

const THERE: Node = Node(9);

pub const ATOMS: &[&str; 20] = &[
    "class", "noun", "many", "stem", "ending", "one", "en", "lamp", "kind", "er", "old", "a", "b",
    "x", "t", "s", "u", "done", "c", "q",
];

const CLASS: Atom = Atom(0);

const NOUN: Atom = Atom(1);

const MANY: Atom = Atom(2);

const STEM: Atom = Atom(3);

const ENDING: Atom = Atom(4);

const ONE: Atom = Atom(5);

const EN: Atom = Atom(6);

const LAMP_STEM: Atom = Atom(7);

const KIND: Atom = Atom(8);

const ER: Atom = Atom(9);

const OLD: Atom = Atom(10);

const A: Atom = Atom(11);

const B: Atom = Atom(12);

const X: Atom = Atom(13);

const T: Atom = Atom(14);

const S: Atom = Atom(15);

const U: Atom = Atom(16);

const DONE: Atom = Atom(17);

const C: Atom = Atom(18);

const Q: Atom = Atom(19);

const OPEN: Item = Item::Open(Quoting::Plain, None);

const QUOTED_OPEN: Item = Item::Open(Quoting::Quoted, None);

const CLOSE: Item = Item::Close;

pub const THEORY: &[Given<'static>; 21] = &[
    Given {
        node: WORD,
        left: &[CLASS],
        right: &[Item::Atom(NOUN)],
    },
    Given {
        node: WORD,
        left: &[MANY],
        right: &[
            QUOTED_OPEN,
            Item::Atom(STEM),
            CLOSE,
            OPEN,
            Item::Atom(ENDING),
            CLOSE,
        ],
    },
    Given {
        node: WORD,
        left: &[ONE],
        right: &[QUOTED_OPEN, Item::Atom(STEM), CLOSE],
    },
    Given {
        node: WORD,
        left: &[ENDING],
        right: &[Item::Atom(EN)],
    },
    Given {
        node: LAMP,
        left: &[],
        right: &[Item::Node(Quoting::Plain, WORD)],
    },
    Given {
        node: LAMP,
        left: &[STEM],
        right: &[Item::Atom(LAMP_STEM)],
    },
    Given {
        node: CHILD,
        left: &[],
        right: &[Item::Node(Quoting::Plain, WORD)],
    },
    Given {
        node: CHILD,
        left: &[STEM],
        right: &[Item::Atom(KIND)],
    },
    Given {
        node: CHILD,
        left: &[ENDING],
        right: &[Item::Atom(ER)],
    },
    Given {
        node: CHILD,
        left: &[MANY, OLD],
        right: &[Item::Node(Quoting::Quoted, LAMP)],
    },
    Given {
        node: ECHO,
        left: &[],
        right: &[],
    },
    Given {
        node: ECHO,
        left: &[A],
        right: &[Item::Atom(A), OPEN, CLOSE],
    },
    Given {
        node: ECHO,
        left: &[B],
        right: &[Item::Atom(B), OPEN, CLOSE],
    },
    Given {
        node: TWICE,
        left: &[],
        right: &[Item::Node(Quoting::Quoted, ECHO)],
    },
    Given {
        node: LOOP,
        left: &[],
        right: &[Item::Node(Quoting::Plain, LOOP)],
    },
    Given {
        node: GROW,
        left: &[],
        right: &[OPEN, Item::Atom(X), CLOSE],
    },
    Given {
        node: RELAY,
        left: &[],
        right: &[QUOTED_OPEN, Item::Atom(T), CLOSE],
    },
    Given {
        node: HERE,
        left: &[S],
        right: &[Item::Open(Quoting::Plain, Some(RELAY)), CLOSE],
    },
    Given {
        node: HERE,
        left: &[T],
        right: &[
            Item::Open(Quoting::Quoted, Some(THERE)),
            Item::Atom(U),
            CLOSE,
        ],
    },
    Given {
        node: THERE,
        left: &[U],
        right: &[Item::Open(Quoting::Plain, Some(RELAY)), CLOSE],
    },
    Given {
        node: THERE,
        left: &[T],
        right: &[Item::Atom(DONE)],
    },
];

/// Child: <many> == "<stem>" er.
pub const CHANGE: &[Given<'static>; 1] = &[Given {
    node: CHILD,
    left: &[MANY],
    right: &[QUOTED_OPEN, Item::Atom(STEM), CLOSE, Item::Atom(ER)],
}];

pub struct Asked {
    pub node: Node,
    pub path: &'static [Atom],
}

pub const QUESTIONS: &[Asked; 11] = &[
    Asked {
        node: LAMP,
        path: &[MANY],
    },
    Asked {
        node: CHILD,
        path: &[MANY],
    },
    Asked {
        node: CHILD,
        path: &[MANY, OLD],
    },
    Asked {
        node: TWICE,
        path: &[A, B],
    },
    Asked {
        node: ECHO,
        path: &[],
    },
    Asked {
        node: ECHO,
        path: &[C],
    },
    Asked {
        node: WORD,
        path: &[STEM],
    },
    Asked {
        node: WORD,
        path: &[MANY],
    },
    Asked {
        node: LOOP,
        path: &[Q],
    },
    Asked {
        node: GROW,
        path: &[],
    },
    Asked {
        node: HERE,
        path: &[S],
    },
];

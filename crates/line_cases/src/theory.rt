// Names, sentences and questions.
use names::Names;
use stores::Keeper;
use terms::{Atom, Item, Node, Quoting};

const NODES: &[&[u8]; 4] = &[b"Lamp", b"Echo", b"Word", b"Loop"];

const LAMP: Node = Node(0);

const ECHO: Node = Node(1);

const WORD: Node = Node(2);

const LOOP: Node = Node(3);

const NODE_WITHOUT_NAME: Node = Node(4);

const ATOMS: &[&[u8]; 8] = &[
    b"many", b"lamp", b"en", b"stem", b"B", b"c d", b"e.f", b"gH",
];

const MANY: Atom = Atom(0);

const EN: Atom = Atom(2);

const STEM: Atom = Atom(3);

const ATOM_WITHOUT_NAME: Atom = Atom(8);

pub(crate) fn name_all(names: &mut Names) {
    for name in NODES {
        let _ = names.node(name);
    }
    for name in ATOMS {
        let _ = names.atom(name);
    }
}

/// Lamp:<many> == Lamp:<> en and the like.
pub(crate) fn add_all<K: Keeper>(keeper: &mut K) {
    let lamp = Item::Open(Quoting::Plain, Some(LAMP));
    let itself = Item::Open(Quoting::Plain, Some(LOOP));
    let _ = keeper.add(LAMP, &[], &[Item::Atom(Atom(1))]);
    let _ = keeper.add(LAMP, &[MANY], &[lamp, Item::Close, Item::Atom(EN)]);
    let _ = keeper.add(
        LAMP,
        &[STEM],
        &[
            Item::Atom(Atom(4)),
            Item::Atom(Atom(5)),
            Item::Atom(Atom(6)),
            Item::Atom(Atom(7)),
        ],
    );
    let _ = keeper.add(ECHO, &[], &[]);
    let _ = keeper.add(ECHO, &[EN], &[Item::Atom(ATOM_WITHOUT_NAME)]);
    let _ = keeper.add(LOOP, &[], &[itself, Item::Close]);
}

/// Questions, the steps granted for each, and how far the page is filled.
pub const QUESTIONS: &[(Node, &[Atom], u32, usize)] = &[
    (LAMP, &[MANY], 0, 0),
    (LAMP, &[MANY], 9, 0),
    (LAMP, &[STEM], 9, 0),
    (ECHO, &[Atom(4), Atom(5), Atom(6), Atom(7)], 9, 0),
    (ECHO, &[], 9, 0),
    (WORD, &[STEM], 9, 0),
    (LOOP, &[], 9, 0),
    (NODE_WITHOUT_NAME, &[], 9, 0),
    (WORD, &[ATOM_WITHOUT_NAME], 9, 0),
    (ECHO, &[EN], 0, 0),
    (ECHO, &[EN], 9, 0),
    (ECHO, &[], 9, 26),
    (ECHO, &[], 9, 27),
    (ECHO, &[], 9, 41),
    (ECHO, &[], 9, 18_446_744_073_709_551_615),
];

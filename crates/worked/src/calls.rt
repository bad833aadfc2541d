// Calls of which some are refused.
use evaluator::Call;
use terms::{Atom, Node};

pub struct Titled {
    pub title: &'static str,
    pub call: Call<'static>,
}

pub const CALLS: &[Titled; 11] = &[
    Titled {
        title: "work while idle",
        call: Call::Work(1),
    },
    Titled {
        title: "give up while idle",
        call: Call::GiveUp,
    },
    Titled {
        title: "begin at node 1024",
        call: Call::Begin(Node(1024), &[]),
    },
    Titled {
        title: "begin with atom 4096",
        call: Call::Begin(Node(0), &[Atom(4096)]),
    },
    Titled {
        title: "begin with 33 atoms",
        call: Call::Begin(Node(0), &[Atom(2); 33]),
    },
    Titled {
        title: "begin with 32 atoms",
        call: Call::Begin(Node(0), &[Atom(2); 32]),
    },
    Titled {
        title: "begin while unfinished",
        call: Call::Begin(Node(1), &[]),
    },
    Titled {
        title: "begin at node 1024 while unfinished",
        call: Call::Begin(Node(1024), &[]),
    },
    Titled {
        title: "work 0",
        call: Call::Work(0),
    },
    Titled {
        title: "give up",
        call: Call::GiveUp,
    },
    Titled {
        title: "begin at Lamp",
        call: Call::Begin(Node(1), &[Atom(2)]),
    },
];

// What every keeper keeps: sentence records, and the atoms and items of which each record tells its part.
#![tactic(auto)]

use std::marker::Model;
use terms::{Atom, Item, Node};

/// A part of a list: where it starts, and how long it is.
#[derive(Clone, Copy, Debug, PartialEq, Eq)]
struct Span {
    start: usize,
    len: usize,
}

#[derive(Clone, Copy, Debug, PartialEq, Eq)]
struct Record {
    node: Node,
    left: Span,
    right: Span,
}

/// So many sentences, atoms in left paths, and items.
#[derive(Clone, Copy, Debug, PartialEq, Eq)]
pub struct Room {
    pub sentences: usize,
    pub atoms: usize,
    pub items: usize,
}

/// Sentences in the order of their adding.
// Kept: all memory is got at creation, so atoms and items stand one behind the other and not in lists of each sentence.
#[derive(Drop)]
pub struct Kept {
    room: Room,
    records: Vec<Record>,
    atoms: Vec<Atom>,
    items: Vec<Item>,
}

impl Model for Kept {
    ghost use Rattle.kept.specs.Contents.{Contents};

    ghost Value = { Contents };

    ghost use Rattle.kept.specs.Parts.{contents_of, Stored};

    ghost view = { contents_of };

    ghost invariant = { Stored };
}

pub mod keep;

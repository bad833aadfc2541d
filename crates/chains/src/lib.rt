// Entries that are numbered from 0 and stand in buckets, those of one bucket chained from the last back to the first.
#![tactic(auto)]

ghost use Rattle.std.specs.Prelude.{◌≡◌, ℕ, Bool};

use std::marker::Model;

/// An entry: its bucket, and the entry before it there.
#[derive(Clone, Copy, Debug, PartialEq, Eq)]
struct Link {
    bucket: usize,
    before: Option<usize>,
}

/// `heads` has the last entry of each bucket. There is memory for `room` entries.
// Kept: all memory is got at creation, so entries are named by their numbers.
#[derive(Drop)]
pub struct Chains {
    room: usize,
    heads: Vec<Option<usize>>,
    links: Vec<Link>,
}

impl Model for Chains {
    ghost use Rattle.chains.specs.Entries.{Entries};

    ghost Value = { Entries };

    ghost use Rattle.chains.specs.Linked.{entries_of, Linked};

    ghost view = { entries_of };

    ghost invariant = { Linked };
}

/// A test of entries, which answers for every number.
pub trait Test {
    /// What it answers.
    ghost answers: { Self → ℕ → Bool };

    fn passes(&self, entry: usize) -> bool
        ensures { result ≡ answers self.now entry };
}

/// Why there is no entry more.
#[derive(Clone, Copy, PartialEq, Eq, Debug)]
pub enum PushError {
    /// There is no such bucket.
    NoBucket,
    /// There is no memory for another entry.
    Full,
}

pub mod bucket;
pub mod links;

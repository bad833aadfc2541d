// The calls of a list with limits.
ghost use Rattle.std.specs.Prelude.{◌≡◌, [], is_some, IfOk};
ghost use Rattle.std.proofs.Common.{refl};
ghost use Rattle.stores.specs.Sentences.{map_of};
ghost use Rattle.listed.specs.Bounded.{kept_in, meaning_in, limits_of};

use super::{Bounded, Listed};
use kept::Room;
use std::alloc::{AllocError, Global};
use stores::{Keeper, Refusal, Store};
use terms::{Atom, Item, Node};

impl<const SENTENCES: usize, const ATOMS: usize, const ITEMS: usize, const MASK: u16> Bounded<
    SENTENCES,
    ATOMS,
    ITEMS,
    MASK,
> {
    /// What it keeps at most.
    pub fn most() -> Room
        ensures { result ≡ record { sentences = SENTENCES; atoms = ATOMS; items = ITEMS } }
    {
        Room {
            sentences: Self::SENTENCES,
            atoms: Self::ATOMS,
            items: Self::ITEMS,
        }
    }

    /// Nothing kept, with all the memory that it will ever take.
    pub fn new(heap: Global) -> Result<Self, AllocError>
        ensures { IfOk result (λ s. kept_in s ≡ []) }
    {
        let list = Listed::new(heap, Self::most(), MASK)?;
        Ok(Bounded { list })
    }

    /// Whether a node and a left path have a sentence.
    pub fn has(&self, node: Node, left: &[Atom]) -> bool
        ensures { result ≡ is_some (map_of (kept_in self.now) node left.now) }
    {
        self.list.has(node, left)
    }
}

impl<const SENTENCES: usize, const ATOMS: usize, const ITEMS: usize, const MASK: u16> Store
    for Bounded<SENTENCES, ATOMS, ITEMS, MASK> {
    ghost means = { meaning_in };

    fn find(&self, node: Node, path: &[Atom]) -> Option<usize> {
        self.list.find(node, path)
    }

    fn item(&self, node: Node, left: &[Atom], k: usize) -> Option<Item> {
        self.list.item(node, left, k)
    }
}

impl<const SENTENCES: usize, const ATOMS: usize, const ITEMS: usize, const MASK: u16> Keeper
    for Bounded<SENTENCES, ATOMS, ITEMS, MASK> {
    const SENTENCES: usize = SENTENCES;

    ghost SENTENCES = { SENTENCES };

    const ATOMS: usize = ATOMS;

    ghost ATOMS = { ATOMS };

    const ITEMS: usize = ITEMS;

    ghost ITEMS = { ITEMS };

    ghost limits = { limits_of SENTENCES ATOMS ITEMS };

    ghost limited = { refl };

    ghost kept = { kept_in };

    ghost meant = { λ _. refl };

    fn clear(&mut self) {
        self.list.clear();
    }

    fn add(&mut self, node: Node, left: &[Atom], right: &[Item]) -> Result<(), Refusal> {
        self.list.add(Self::most(), node, left, right)
    }
}

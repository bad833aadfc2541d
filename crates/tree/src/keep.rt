// The calls.
ghost use Rattle.std.specs.Prelude.{◌≡◌, true, false, [], ◌∷◌, ◌++◌, length, is_some, is_ok, IfOk, Ok, Err, if◌then◌else◌, Some};
ghost use Rattle.stores.specs.Sentences.{map_of, sentence};
ghost use Rattle.stores.specs.Refusals.{fits};
ghost use Rattle.stores.specs.declared.refusals.Refusal.{Refusal as Refused};
ghost use Rattle.kept.specs.Held.{room_in, passes, smaller};
ghost use Rattle.trie.specs.Ways.{mark_at_lem};
ghost use Rattle.trie.specs.Held.{marks_in};
ghost use Rattle.tree.specs.Held.{kept_in, meaning_in, limits_of};
ghost use Rattle.std.proofs.Common.{refl};

use super::PrefixTree;
use kept::{Kept, Room};
use std::alloc::{AllocError, Global};
use stores::fitness::check_fitness;
use stores::{Keeper, Refusal, Store};
use terms::{Atom, Item, Node};
use trie::Trie;

impl PrefixTree {
    // What it keeps at most.
    // Kept beside the list's: one function for all keepers was tried, and its call in `add` leads back to the proof of `add`.
    fn most() -> Room
        ensures { result ≡ record { sentences = 2048; atoms = 8192; items = 32768 } }
    {
        Room {
            sentences: Self::SENTENCES,
            atoms: Self::ATOMS,
            items: Self::ITEMS,
        }
    }

    /// Nothing kept, with all the memory that it will ever take: an edge for each sentence's node and each atom.
    pub fn new(heap: Global) -> Result<PrefixTree, AllocError>
        ensures { IfOk result (λ s. kept_in s ≡ []) }
    {
        let kept = Kept::new(heap, Self::most())?;
        let trie = Trie::new(heap, 10240)?;
        Ok(PrefixTree { kept, trie })
    }

    // A new length where a place has a sentence, else the one so far.
    fn better(&self, best: Option<usize>, at: Option<usize>, len: usize) -> Option<usize>
        ensures { result ≡ (if is_some (mark_at_lem (marks_in self.now.trie) at) then Some len else best) }
    {
        self.trie.mark_at(at).map(|_| len).or(best)
    }

    // Whether a node and a left path have a sentence.
    fn has(&self, node: Node, left: &[Atom]) -> bool
        ensures { result ≡ is_some (map_of (kept_in self.now) node left.now) }
    {
        self.trie.mark_of(node, left).is_some()
    }

    // Keeps one sentence more, unless one of the limits given would be passed.
    // Kept beside the list's: what finds a pair and what is added to it differ, and a trait over both is longer than these four lines.
    fn put(&mut self, most: Room, node: Node, left: &[Atom], right: &[Item]) -> Result<(), Refusal>
        requires fit { fits (sentence node left.now right.now) ≡ true }
        requires fresh { is_some (map_of (kept_in self.old) node left.now) ≡ false }
        ensures gives { result ≡ (if passes (smaller most (room_in self.old.kept)) (kept_in self.old) (length left.now) (length right.now) then Err Refused.Full else Ok tt) }
        ensures kept { kept_in self.new ≡ (if is_ok result then kept_in self.old ++ sentence node left.now right.now ∷ [] else kept_in self.old) }
    {
        let number = self.kept.sentences();
        self.kept.put(most, node, left, right)?;
        self.trie
            .insert(node, left, number)
            .map_err(|_| Refusal::Full)
    }
}

impl Store for PrefixTree {
    ghost means = { meaning_in };

    fn find(&self, node: Node, path: &[Atom]) -> Option<usize> {
        let mut at = self.trie.step(Some(0), node.0);
        let mut best = self.better(None, at, 0);
        for (i, atom) in path.iter().enumerate() {
            at = self.trie.step(at, atom.0);
            if at.is_none() {
                return best;
            }
            best = self.better(best, at, i + 1);
        }
        best
    }

    fn item(&self, node: Node, left: &[Atom], k: usize) -> Option<Item> {
        let number = self.trie.mark_of(node, left)?;
        self.kept.item_of(number, k)
    }
}

impl Keeper for PrefixTree {
    const SENTENCES: usize = 2048;

    ghost SENTENCES = { 2048 };

    const ATOMS: usize = 8192;

    ghost ATOMS = { 8192 };

    const ITEMS: usize = 32768;

    ghost ITEMS = { 32768 };

    ghost limits = { limits_of };

    ghost limited = { refl };

    ghost kept = { kept_in };

    ghost meant = { λ _. refl };

    fn clear(&mut self) {
        self.kept.clear();
        self.trie.clear();
    }

    fn add(&mut self, node: Node, left: &[Atom], right: &[Item]) -> Result<(), Refusal> {
        check_fitness(node, left, right)?;
        if self.has(node, left) {
            return Err(Refusal::AlreadyKept);
        }
        self.put(Self::most(), node, left, right)
    }
}

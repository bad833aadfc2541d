// What a store is: it means a map, and answers by it; and what a keeper is: a store that takes sentences.
#![tactic(auto)]

ghost use Rattle.std.specs.Prelude.{◌≡◌, ℕ, List, []};
ghost use Rattle.terms.specs.Maps.{Meaning};
ghost use Rattle.terms.specs.LookUp.{look_up, length_found};
ghost use Rattle.stores.specs.Items.{item_at, items_of};
ghost use Rattle.stores.specs.Sentences.{Sentence, sentence, map_of};
ghost use Rattle.stores.specs.Refusals.{Limits, refusal, answer, kept_after};
ghost use Rattle.stores.specs.Refusals.{PairedItemsAreTermLists, ShallowItemsNestFourDeep};

use terms::{Atom, Item, Node};

pub mod fitness;
mod refusals;

pub use refusals::Refusal;

// Kept: a node and a left path stay two parameters, since callers have them apart: a struct would be made and taken apart at each call.
pub trait Store {
    /// The map, and that every sentence in it is within the limits.
    ghost means: { Self → Meaning };

    /// The length of the longest left path at the node with which the path begins.
    fn find(&self, node: Node, path: &[Atom]) -> Option<usize>
        ensures { result ≡ length_found (look_up ((means self.now).map node) path.now) };

    /// Item k, counted from 0, of the right side of a node and a left path.
    fn item(&self, node: Node, left: &[Atom], k: usize) -> Option<Item>
        ensures { result ≡ item_at (items_of ((means self.now).map node left.now)) k };
}

/// A store that is lent is a store, so that several can use one.
impl<'a, S: Store> Store for &'a S {
    ghost means = { λ s. S.Store.means s.now };

    fn find(&self, node: Node, path: &[Atom]) -> Option<usize> {
        S::find(*self, node, path)
    }

    fn item(&self, node: Node, left: &[Atom], k: usize) -> Option<Item> {
        S::item(*self, node, left, k)
    }
}

pub trait Keeper: Store {
    /// How many sentences it keeps at most.
    const SENTENCES: usize;

    ghost SENTENCES: { ℕ };

    /// How many atoms there are at most in all left paths together.
    const ATOMS: usize;

    ghost ATOMS: { ℕ };

    /// How many items there are at most in all right sides together.
    const ITEMS: usize;

    ghost ITEMS: { ℕ };

    /// These three, for contracts to name.
    ghost limits: { Limits };

    ghost limited: { limits ≡ record { sentences = SENTENCES; atoms = ATOMS; items = ITEMS } };

    /// The sentences in the order of adding.
    ghost kept: { Self → List Sentence };

    fn clear(&mut self)
        ensures { kept self.new ≡ [] };

    /// Keeps one sentence more, unless it is refused; then nothing is altered.
    fn add(&mut self, node: Node, left: &[Atom], right: &[Item]) -> Result<(), Refusal>
        ensures gives { result ≡ answer (refusal limits (kept self.old) (sentence node left.now right.now)) }
        ensures keeps { kept self.new ≡ kept_after (refusal limits (kept self.old) (sentence node left.now right.now)) (kept self.old) (sentence node left.now right.now) };

    ghost meant: { (s : Self) → (Self.Store.means s).map ≡ map_of (kept s) };
}

/// The items that are not refused as unbalanced are those of a list of terms, and of these the ones that are not refused as
/// nested too deep are those of a list nested at most four deep.
pub fn refused_items_are_no_terms()
    ensures { (PairedItemsAreTermLists) × (ShallowItemsNestFourDeep) }
{}

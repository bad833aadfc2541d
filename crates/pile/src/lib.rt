// A pile: an addendum over any store. It is a store again, so that piles can be piled.
#![tactic(auto)]

ghost use Rattle.stores.specs.Piles.{pile_meaning};
ghost use Rattle.addendum.specs.Held.{meaning_in};

use addendum::Addendum;
use stores::Store;
use terms::{Atom, Item, Node};

/// It has the addendum's right side where the addendum has one for the node and the left path, and otherwise the one below.
#[derive(Drop)]
pub struct Pile<S> {
    pub addendum: Addendum,
    pub below: S,
}

impl<S: Store> Store for Pile<S> {
    ghost means = { λ s. pile_meaning (meaning_in s.addendum) (S.Store.means s.below) };

    fn find(&self, node: Node, path: &[Atom]) -> Option<usize> {
        let upper = self.addendum.find(node, path);
        let lower = self.below.find(node, path);
        // The longer of the two: none is less than any.
        upper.max(lower)
    }

    #[tactic(auto, using(stores::proofs::Longest::either_upper, stores::proofs::Longest::either_lower))]
    fn item(&self, node: Node, left: &[Atom], k: usize) -> Option<Item> {
        if self.addendum.has(node, left) {
            self.addendum.item(node, left, k)
        } else {
            self.below.item(node, left, k)
        }
    }
}

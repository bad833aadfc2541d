// The terms of DATR and what a store means.
#![tactic(auto)]

ghost use Rattle.terms.specs.Terms.{BalancedItemsAreTermLists, ItemsReadBack};
ghost use Rattle.terms.specs.LookUp.{LookUpFindsTheLongest};
ghost use Rattle.terms.specs.Boundaries.{SentencesEndAtTheLimits};

mod items;
pub mod limits;

pub use items::{Atom, Item, Node, Quoting};

/// Balanced items are exactly the term lists nested at most four deep, each read back as the one it was kept for.
pub fn balanced_items_are_term_lists()
    ensures { (BalancedItemsAreTermLists) × (ItemsReadBack) }
{}

/// A look-up finds the longest left path with which a path begins, and nothing exactly where there is none.
pub fn look_up_finds_the_longest()
    ensures { LookUpFindsTheLongest }
{}

/// Sentences within the limits fit, and one past any of them does not.
pub fn sentences_end_at_the_limits()
    ensures { SentencesEndAtTheLimits }
{}

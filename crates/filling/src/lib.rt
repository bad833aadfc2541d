// What can be done with any keeper and any store: filling one from a list of sentences, and reading a right side.
#![tactic(auto)]

ghost use Rattle.std.specs.Prelude.{◌≡◌, ◌+◌, ◌<◌, [], length, take, Ok};
ghost use Rattle.stores.specs.Items.{items_of};
ghost use Rattle.stores.specs.Refusals.{answer, or_else};
ghost use Rattle.filling.specs.Fills.{sentences_of, first_refusal, kept_from, unless, Acceptable, Filled};
ghost use Rattle.filling.specs.Answers.{Alike};

use stores::{Keeper, Refusal, Store};
use terms::{Atom, Item, Node};

mod given;

pub use given::Given;

/// Empties a keeper and adds the sentences one by one, up to the first that is refused.
pub fn fill<K: Keeper>(keeper: &mut K, sentences: &[Given]) -> Result<(), Refusal>
    ensures gives { result ≡ answer (first_refusal K.Keeper.limits [] (sentences_of sentences.now)) }
    ensures keeps { K.Keeper.kept keeper.new ≡ kept_from K.Keeper.limits [] (sentences_of sentences.now) }
    ensures takes { (Acceptable K.Keeper.limits (sentences_of sentences.now) → result ≡ Ok tt) × (result ≡ Ok tt → Acceptable K.Keeper.limits (sentences_of sentences.now)) }
    ensures means { result ≡ Ok tt → Filled (K.Store.means keeper.new).map (sentences_of sentences.now) }
{
    keeper.clear();
    for s in sentences {
        keeper.add(s.node, s.left, s.right)?;
    }
    Ok(())
}

/// Fills two keepers, of whatever kinds, with the same sentences. Where both take them all, they answer alike.
pub fn fill_both<K: Keeper, L: Keeper>(
    first: &mut K,
    second: &mut L,
    sentences: &[Given],
) -> Result<(), Refusal>
    ensures gives { result ≡ answer (or_else (first_refusal K.Keeper.limits [] (sentences_of sentences.now)) (first_refusal L.Keeper.limits [] (sentences_of sentences.now))) }
    ensures first { K.Keeper.kept first.new ≡ kept_from K.Keeper.limits [] (sentences_of sentences.now) }
    ensures second { L.Keeper.kept second.new ≡ unless (first_refusal K.Keeper.limits [] (sentences_of sentences.now)) (L.Keeper.kept second.old) (kept_from L.Keeper.limits [] (sentences_of sentences.now)) }
    ensures alike { result ≡ Ok tt → Alike (K.Store.means first.new).map (L.Store.means second.new).map }
{
    fill(first, sentences)?;
    fill(second, sentences)
}

/// Copies a right side, and answers how many items it has: none where there is no such right side.
// Kept: the caller's array, since an `ArrayVec` is filled from a default item, and no item is one.
pub fn read<S: Store>(store: &S, node: Node, left: &[Atom], into: &mut [Item; 64]) -> usize
    ensures len { result ≡ length (items_of ((S.Store.means store.now).map node left.now)) }
    ensures items { take result into.new ≡ items_of ((S.Store.means store.now).map node left.now) }
{
    for (n, place) in into.iter_mut().enumerate() {
        match store.item(node, left, n) {
            Some(item) => *place = item,
            None => return n,
        }
    }
    into.len()
}

// Refusals 4 to 7, which a sentence alone decides.
ghost use Rattle.std.specs.Prelude.{◌≡◌, Some};
ghost use Rattle.terms.specs.Maps.{every, item_in_range};
ghost use Rattle.stores.specs.Sentences.{sentence};
ghost use Rattle.stores.specs.Refusals.{open_after, closes, unfit, answer};

use crate::Refusal;
use terms::limits::{NESTING, PATH_ATOMS, RIGHT_ITEMS};
use terms::{Atom, Item, Node};

fn are_items_in_range(right: &[Item]) -> bool
    ensures { result ≡ every item_in_range right.now }
{
    right.iter().all(|item| item.is_in_range())
}

// How many paths are open after an item, where most may be open at a time.
fn open_after(most: usize, open: usize, item: Item) -> Option<usize>
    ensures { result ≡ open_after most «open» item }
{
    match item {
        Item::Atom(_) | Item::Node(..) => Some(open),
        Item::Open(..) => (open < most).then(|| open + 1),
        Item::Close => open.checked_sub(1),
    }
}

#[tactic(auto, using(crate::proofs::Loops::closes_more))]
fn all_close(most: usize, right: &[Item]) -> bool
    ensures { result ≡ closes most (Some 0) right.now }
{
    let mut open = 0;
    for item in right {
        match open_after(most, open, *item) {
            Some(after) => open = after,
            None => return false,
        }
    }
    open == 0
}

/// Refuses a sentence that any keeper would refuse, by the first of the refusals 4 to 7.
pub fn check_fitness(node: Node, left: &[Atom], right: &[Item]) -> Result<(), Refusal>
    ensures { result ≡ answer (unfit (sentence node left.now right.now)) }
{
    let in_range = node.is_in_range() && Atom::are_in_range(left) && are_items_in_range(right);
    if !(in_range && all_close(right.len(), right)) {
        Err(Refusal::Malformed)
    } else if !all_close(NESTING, right) {
        Err(Refusal::TooDeep)
    } else if left.len() > PATH_ATOMS {
        Err(Refusal::LeftTooLong)
    } else if right.len() > RIGHT_ITEMS {
        Err(Refusal::RightTooLong)
    } else {
        Ok(())
    }
}

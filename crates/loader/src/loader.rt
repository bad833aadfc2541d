// The memory of a load.
ghost use Rattle.std.specs.Prelude.{◌≤◌, vec_capacity};

use terms::{Atom, Item};

/// Room for a left path, the next one and a right side, each of all words that a text can have.
// Kept: all memory is got at creation, so the three lists stand here and not where they are filled.
#[derive(Drop)]
pub struct Loader {
    pub(crate) left: Vec<Atom>,
    pub(crate) next: Vec<Atom>,
    pub(crate) items: Vec<Item>,
    ghost left_room: { 65536 ≤ vec_capacity left },
    ghost next_room: { 65536 ≤ vec_capacity next },
    ghost item_room: { 65536 ≤ vec_capacity items },
}

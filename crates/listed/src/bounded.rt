// A list of sentences with limits that its type tells.
ghost use Rattle.std.specs.Prelude.{◌≡◌};
ghost use Rattle.listed.specs.Held.{room_in};

use super::Listed;

/// It keeps at most so many sentences, atoms in left paths and items, and finds them by a bucket for each number that the mask
/// leaves.
#[derive(Drop)]
pub struct Bounded<
    const SENTENCES: usize,
    const ATOMS: usize,
    const ITEMS: usize,
    const MASK: u16,
> {
    pub(crate) list: Listed,
    ghost room: { room_in list ≡ record { sentences = SENTENCES; atoms = ATOMS; items = ITEMS } },
}

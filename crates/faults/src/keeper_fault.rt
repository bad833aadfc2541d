// What a keeper refuses of a sentence that the grammar lets pass.
ghost use Rattle.std.specs.Prelude.{◌≡◌, true, nat_le};
ghost use Rattle.stores.specs.Refusals.{number};

use stores::Refusal;

/// A refusal of 6 to 9, beside the place of the sentence's left path.
#[derive(Clone, Copy, Debug, PartialEq, Eq)]
pub struct KeeperFault {
    pub refusal: Refusal,
    pub place: usize,
    ghost late: { nat_le 6 (number refusal) ≡ true },
}

// A sentence that ends goes to the keeper.
ghost use Rattle.stores.specs.Sentences.{sentence};
ghost use Rattle.loader.specs.Equations.{Spelt, Keeps};

use faults::{GrammarFault, KeeperFault};
use stores::Keeper;
use terms::{Atom, Item, Node};

// A fault has the place of the sentence's left path.
pub(crate) fn keep<K: Keeper>(
    keeper: &mut K,
    node: Node,
    left: &[Atom],
    right: &[Item],
    place: usize,
) -> Result<(), GrammarFault>
    requires { Spelt (sentence node left.now right.now) }
    ensures goes { Keeps K.Keeper.limits (K.Keeper.kept keeper.old) (sentence node left.now right.now) place result (K.Keeper.kept keeper.new) }
{
    // Kept: by match; the closure for map_err would need clauses that say that the refusal is a late one and what the fault is, and be no plainer.
    match keeper.add(node, left, right) {
        Ok(()) => Ok(()),
        Err(refusal) => Err(GrammarFault::from(KeeperFault { refusal, place })),
    }
}

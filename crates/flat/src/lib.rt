// The flat list: the sentences of a theory, one after the other.
#![tactic(auto)]

ghost use Rattle.std.specs.Prelude.{◌≡◌};
ghost use Rattle.kept.specs.Held.{limits_of as limits_of_room};
ghost use Rattle.flat.specs.Held.{limits_of};

use kept::Room;
use listed::Bounded;
use stores::Keeper;

/// It keeps at most 4,096 sentences with 16,384 atoms in left paths and 32,768 items.
pub type FlatList = Bounded<4096, 16384, 32768, 4095>;

/// What it keeps at most.
pub fn limits() -> Room
    ensures room { limits_of_room result ≡ limits_of }
    ensures keeper { ⟦<FlatList as Keeper>⟧.limits ≡ limits_of }
{
    FlatList::most()
}

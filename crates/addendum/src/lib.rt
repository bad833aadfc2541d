// The addendum table: few sentences, which can stand over another store.
#![tactic(auto)]

ghost use Rattle.std.specs.Prelude.{◌≡◌};
ghost use Rattle.kept.specs.Held.{limits_of as limits_of_room};
ghost use Rattle.addendum.specs.Held.{limits_of};

use kept::Room;
use listed::Bounded;
use stores::Keeper;

/// It keeps at most 256 sentences with 1,024 atoms in left paths and 2,048 items.
pub type Addendum = Bounded<256, 1024, 2048, 255>;

/// What it keeps at most.
pub fn limits() -> Room
    ensures room { limits_of_room result ≡ limits_of }
    ensures keeper { ⟦<Addendum as Keeper>⟧.limits ≡ limits_of }
{
    Addendum::most()
}

// Where a machine stands, and what its work takes.
ghost use Rattle.std.specs.Prelude.{◌≡◌};
ghost use Rattle.engine.specs.declared.table.Stop.TheVariants as stop;

use path::PathFull;

/// Why a question has no value.
#[derive(Clone, Copy, PartialEq, Eq, Debug)]
pub enum Stop {
    Undefined,
    Path,
    Circular,
    Depth,
    Length,
}

// Kept: written by hand, since a derived conversion would not say which stop `?` makes of a full path.
impl From<PathFull> for Stop {
    ghost from_gives = { λ _ s. s ≡ stop.Path };

    fn from(_full: PathFull) -> Stop {
        Stop::Path
    }
}

/// Where an evaluation stands: a question is to be looked up, or a step is being worked, or it is at its end.
#[derive(Clone, Copy, PartialEq, Eq, Debug)]
pub enum Phase {
    Asks,
    Works,
    Has,
    Stops(Stop),
}

/// What work has taken: so many steps, and for them so many requests to the store.
#[derive(Clone, Copy, PartialEq, Eq, Debug)]
pub struct Worked {
    pub steps: u32,
    pub requests: u64,
}

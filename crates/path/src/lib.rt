// A path of at most 32 atoms, held in place.
#![tactic(auto)]

ghost use Rattle.std.specs.Prelude.{◌≡◌, ◌≤◌, length};
ghost use Rattle.terms.specs.Limits.{path_limit};

use terms::Atom;
use terms::limits::PATH_ATOMS;

/// The atoms and how many there are. A ghost field tells each clause that they are at most 32, which a list as the model would not.
// Kept: a path is Copy and its memory is fixed, so that it is a buffer with a length and neither a Vec nor an ArrayVec.
#[derive(Clone, Copy, Debug)]
pub struct Path {
    atoms: [Atom; PATH_ATOMS],
    len: usize,
    ghost fits: { len ≤ path_limit },
    ghost whole: { length atoms ≡ path_limit },
}

/// A path has no room for one atom more.
#[derive(Clone, Copy, PartialEq, Eq, Debug)]
pub struct PathFull;

mod atoms;

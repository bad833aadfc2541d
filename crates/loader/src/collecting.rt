// The atoms of a path, which are the next equation's left path.
ghost use Rattle.std.specs.Prelude.{◌≡◌, ◌≤◌, length, vec_capacity};
ghost use Rattle.loader.specs.Equations.{Collects};

use terms::{Atom, Item};

/// An item of a path is no atom, so that the path is no left path.
#[derive(Clone, Copy, Debug, PartialEq, Eq)]
pub struct NotAnAtom;

// Puts the items into the buffer, if all are atoms.
pub(crate) fn collect_atoms(items: &[Item], into: &mut Vec<Atom>) -> Result<(), NotAnAtom>
    requires { length items.now ≤ vec_capacity into.old }
    ensures goes { Collects items.now result into.new.items }
    ensures room { vec_capacity into.new ≡ vec_capacity into.old }
{
    into.clear();
    for i in items {
        match *i {
            Item::Atom(a) => into.push_reserved(a),
            _ => return Err(NotAnAtom),
        }
    }
    Ok(())
}

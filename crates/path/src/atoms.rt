// What is done with a path: atoms are put behind it, and it is read and compared.
ghost use Rattle.std.specs.Prelude.{◌≡◌, ◌+◌, ◌<◌, ◌↔◌, [], ◌∷◌, ◌++◌, length, nat_eq, IsOk, OnOk, OnErr};
ghost use Rattle.std.proofs.Common.{rules};
ghost use Rattle.std.specs.Ordering.{on};
ghost use Rattle.std.specs.Cmp as Keys;
ghost use Rattle.std.specs.Cmp.Rules.{comparing};
ghost use Rattle.std.specs.Cmp.Lexicographic.{pointwise};
ghost use Rattle.terms.specs.Limits.{path_limit};
ghost use Rattle.terms.specs.Maps.{same_atoms};
ghost use Rattle.path.specs.Atoms.{atoms_of, Joined};

use crate::{Path, PathFull};
use terms::Atom;
use terms::limits::PATH_ATOMS;

impl Path {
    /// The path of no atoms.
    pub fn new() -> Path
        ensures { atoms_of result ≡ [] }
    {
        Path {
            atoms: [Atom(0); PATH_ATOMS],
            len: 0,
        }
    }

    pub fn as_slice(&self) -> &[Atom]
        ensures { result.now ≡ atoms_of self.now }
    {
        &self.atoms[0..self.len]
    }

    /// Takes an atom, where there is room.
    pub fn push(&mut self, atom: Atom) -> Result<(), PathFull>
        ensures room { IsOk result ↔ (length (atoms_of self.old) < path_limit) }
        ensures ok { OnOk result (atoms_of self.new ≡ atoms_of self.old ++ atom ∷ []) }
        ensures err { OnErr result (atoms_of self.new ≡ atoms_of self.old) }
    {
        if self.len < PATH_ATOMS {
            self.atoms[self.len] = atom;
            self.len += 1;
            Ok(())
        } else {
            Err(PathFull)
        }
    }

    /// Takes as many atoms as there is room for; it fails where not all had room.
    pub fn extend(&mut self, more: &[Atom]) -> Result<(), PathFull>
        ensures { Joined result (atoms_of self.old) more.now (atoms_of self.new) }
    {
        for atom in more {
            self.push(*atom)?;
        }
        Ok(())
    }

    /// Whether `==` holds.
    // Kept: its clause says it by the word of the definitions, which that of `==` does not have.
    #[tactic(auto, using(crate::proofs::Paths::pointwise_same))]
    pub fn same(&self, other: &Path) -> bool
        ensures { result ≡ same_atoms (atoms_of self.now) (atoms_of other.now) }
    {
        *self == *other
    }
}

// Written by hand: equal are paths of the same atoms, whatever stands behind these.
impl PartialEq for Path {
    ghost eq = { on atoms_of (pointwise (on (λ a. a.0) nat_eq)) };

    ghost laws = { Keys.partial_equiv_from_equiv (Prim.search (comparing, rules)) };

    fn eq(&self, other: &Path) -> bool {
        self.as_slice() == other.as_slice()
    }
}

impl Eq for Path {
    ghost laws = { Prim.search (comparing, rules) };
}

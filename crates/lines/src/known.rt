// The names by their numbers.
ghost use Rattle.std.specs.Prelude.{◌≡◌};
ghost use Rattle.terms.specs.Maps.{every};
ghost use Rattle.names.specs.Tables.{nodes_in, atoms_in};
ghost use Rattle.lines.specs.Names.{name_or_none, named, all_named};

use names::Names;
use terms::{Atom, Node};

// Kept: names and atoms stay two parameters, since names are lent to a line and atoms are parts of it.

/// The name of an atom, or no bytes.
pub(crate) fn atom_name(names: &Names, atom: Atom) -> &[u8]
    ensures { result.now ≡ name_or_none (atoms_in names.now) atom.0 }
{
    names.atom_name(atom).unwrap_or(&[])
}

fn is_named(names: &Names, atom: Atom) -> bool
    ensures { result ≡ named (atoms_in names.now) atom }
{
    names.atom_name(atom).is_some()
}

fn are_named(names: &Names, atoms: &[Atom]) -> bool
    ensures { result ≡ every (named (atoms_in names.now)) atoms.now }
{
    atoms.iter().all(|atom| is_named(names, *atom))
}

/// Whether a node, the atoms of its path and those of a value have names.
pub(crate) fn all_named(names: &Names, node: Node, path: &[Atom], value: &[Atom]) -> bool
    ensures { result ≡ all_named (nodes_in names.now) (atoms_in names.now) node path.now value.now }
{
    names.node_name(node).is_some() && are_named(names, path) && are_named(names, value)
}

// Numbers for names of nodes and of atoms.
ghost use Rattle.std.specs.Prelude.{◌≡◌, ◌≤◌, [], length, take, IfOk};
ghost use Rattle.std.specs.Option.{option_map};
ghost use Rattle.names.specs.Numbers.{name_at, names_after};
ghost use Rattle.names.specs.Tables.{nodes_in, atoms_in, node_or_none, atom_or_none};

use crate::part::NoNumber;
use crate::table::NameTable;
use crate::tables::Names;
use std::alloc::{AllocError, Global};
use terms::limits::{ATOMS, NODES};
use terms::{Atom, Node};

impl Names {
    /// No name, with memory for all that there may be.
    pub fn new(heap: Global) -> Result<Names, AllocError>
        ensures { IfOk result (λ n. (nodes_in n ≡ []) × (atoms_in n ≡ [])) }
    {
        let nodes = NameTable::new(heap, NODES)?;
        let atoms = NameTable::new(heap, ATOMS)?;
        Ok(Names { nodes, atoms })
    }

    // Kept: a node and an atom are named and numbered by one table each, and a line hands on to it; a type parameter would want a trait with laws.

    /// The node of a name, which is numbered where it is new.
    pub fn node(&mut self, name: &[u8]) -> Result<Node, NoNumber>
        ensures gives { result ≡ node_or_none (nodes_in self.old) name.now }
        ensures nodes { nodes_in self.new ≡ names_after 1024 (nodes_in self.old) name.now }
        ensures atoms { atoms_in self.new ≡ atoms_in self.old }
    {
        let n = self.nodes.intern(name)?;
        Ok(Node(n as u16))
    }

    /// The atom of a name, which is numbered where it is new.
    pub fn atom(&mut self, name: &[u8]) -> Result<Atom, NoNumber>
        ensures gives { result ≡ atom_or_none (atoms_in self.old) name.now }
        ensures nodes { nodes_in self.new ≡ nodes_in self.old }
        ensures atoms { atoms_in self.new ≡ names_after 4096 (atoms_in self.old) name.now }
    {
        let n = self.atoms.intern(name)?;
        Ok(Atom(n as u16))
    }

    pub fn node_name(&self, node: Node) -> Option<&[u8]>
        ensures { option_map (λ x. x.now) result ≡ name_at (nodes_in self.now) node.0 }
    {
        self.nodes.name(node.0 as usize)
    }

    pub fn atom_name(&self, atom: Atom) -> Option<&[u8]>
        ensures { option_map (λ x. x.now) result ≡ name_at (atoms_in self.now) atom.0 }
    {
        self.atoms.name(atom.0 as usize)
    }

    pub fn node_count(&self) -> usize
        ensures { result ≡ length (nodes_in self.now) }
    {
        self.nodes.len()
    }

    pub fn atom_count(&self) -> usize
        ensures { result ≡ length (atoms_in self.now) }
    {
        self.atoms.len()
    }

    /// The names as they were when there were so many.
    pub fn truncate(&mut self, nodes: usize, atoms: usize)
        ensures nodes { nodes_in self.new ≡ take nodes (nodes_in self.old) }
        ensures atoms { atoms_in self.new ≡ take atoms (atoms_in self.old) }
    {
        self.nodes.truncate(nodes);
        self.atoms.truncate(atoms);
    }
}

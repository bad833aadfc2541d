// The names of nodes and of atoms, numbered apart.
ghost use Rattle.std.specs.Prelude.{◌≡◌};
ghost use Rattle.names.specs.Held.{limit_of};

use crate::table::NameTable;

#[derive(Drop)]
pub struct Names {
    pub(crate) nodes: NameTable,
    pub(crate) atoms: NameTable,
    ghost node_limit: { limit_of nodes ≡ 1024 },
    ghost atom_limit: { limit_of atoms ≡ 4096 },
}

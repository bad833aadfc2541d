// The limits, each in one place. `specs/Limits.antt` has the same for the definitions, but for the length of names, which those of words and names have.
ghost use Rattle.std.specs.Prelude.{◌≡◌, [], ◌∷◌};
ghost use Rattle.terms.specs.Limits.{node_limit, atom_limit, path_limit, item_limit, nesting_limit, open_limit, value_limit, step_limit};

pub const NODES: u16 = 1024;

pub const ATOMS: u16 = 4096;

pub const NAME_BYTES: usize = 32;

pub const PATH_ATOMS: usize = 32;

pub const RIGHT_ITEMS: usize = 64;

pub const NESTING: usize = 4;

pub const OPEN_SENTENCES: usize = 96;

pub const VALUE_ATOMS: usize = 256;

pub const STEPS: u32 = 1_000_000;

/// All but the length of names: the limits of the code are those of the definitions.
pub fn limits() -> [usize; 8]
    ensures { result ≡ node_limit ∷ atom_limit ∷ path_limit ∷ item_limit ∷ nesting_limit ∷ open_limit ∷ value_limit ∷ step_limit ∷ [] }
{
    [
        NODES as usize,
        ATOMS as usize,
        PATH_ATOMS,
        RIGHT_ITEMS,
        NESTING,
        OPEN_SENTENCES,
        VALUE_ATOMS,
        STEPS as usize,
    ]
}

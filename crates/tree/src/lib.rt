// The prefix tree: left paths that begin alike share their beginning.
#![tactic(auto)]

ghost use Rattle.std.specs.Prelude.{◌≡◌, ◌+◌, ◌≤◌, true, List, length};
ghost use Rattle.terms.specs.declared.items.Node.{Node as NodeOf};
ghost use Rattle.terms.specs.declared.items.Atom.{Atom as AtomOf};
ghost use Rattle.terms.specs.Maps.{every};
ghost use Rattle.stores.specs.Sentences.{is_pair, atoms_in};
ghost use Rattle.stores.specs.Refusals.{fits};
ghost use Rattle.kept.specs.Held.{kept_in, room_in};
ghost use Rattle.kept.specs.Firsts.{first_by};
ghost use Rattle.chains.specs.Last.{up_to};
ghost use Rattle.trie.specs.Ways.{word_of};
ghost use Rattle.trie.specs.Held.{edges_in, mark_in, room_in as room_of_trie};

use kept::Kept;
use trie::Trie;

/// It keeps at most 2,048 sentences with 8,192 atoms in left paths and 32,768 items. The mark at the place of a node and a
/// left path is the number of their sentence.
#[derive(Drop)]
pub struct PrefixTree {
    kept: Kept,
    trie: Trie,
    ghost fit: { every fits (kept_in kept) ≡ true },
    ghost room: { room_in kept ≡ record { sentences = 2048; atoms = 8192; items = 32768 } },
    ghost trie_room: { room_of_trie trie ≡ 10240 },
    ghost places: { length (edges_in trie) ≤ length (kept_in kept) + atoms_in (kept_in kept) },
    ghost tied: { (n : NodeOf) (l : List AtomOf) → up_to (mark_in trie (word_of n l)) ≡ up_to (first_by (is_pair n l) (kept_in kept)) },
}

pub mod keep;

// Sentences in the order of adding, found by a table of their pairs: what flat list and addendum share.
#![tactic(auto)]

ghost use Rattle.std.specs.Prelude.{◌≡◌, ◌<◌, ◌≤◌, true, List, map};
ghost use Rattle.terms.specs.declared.items.Node.{Node as NodeOf};
ghost use Rattle.terms.specs.declared.items.Atom.{Atom as AtomOf};
ghost use Rattle.terms.specs.Maps.{every};
ghost use Rattle.stores.specs.Sentences.{is_pair};
ghost use Rattle.stores.specs.Refusals.{fits};
ghost use Rattle.kept.specs.Held.{kept_in, room_in};
ghost use Rattle.kept.specs.Firsts.{first_by};
ghost use Rattle.chains.specs.Held.{buckets_in, width_in, room_in as room_of_chains};
ghost use Rattle.chains.specs.Last.{last_by, up_to};
ghost use Rattle.listed.specs.Hash.{bucket_of_lem};

use chains::Chains;
use kept::Kept;

/// Entry k of the chains is sentence k; no pair has two sentences.
#[derive(Drop)]
pub struct Listed {
    kept: Kept,
    mask: u16,
    chains: Chains,
    ghost fit: { every fits (kept_in kept) ≡ true },
    ghost wide: { mask < width_in chains },
    ghost chains_room: { (room_in kept).sentences ≤ room_of_chains chains },
    ghost chained: { buckets_in chains ≡ map (bucket_of_lem mask) (kept_in kept) },
    ghost once: { (n : NodeOf) (l : List AtomOf) → up_to (last_by (is_pair n l) (kept_in kept)) ≡ up_to (first_by (is_pair n l) (kept_in kept)) },
}

mod bounded;
pub mod keep;
pub mod list;

pub use bounded::Bounded;

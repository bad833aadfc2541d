// A table of names: their bytes one behind the other, where each name stands, and chains to find it by.
ghost use Rattle.std.specs.Prelude.{◌≡◌, ◌*◌, ◌≤◌, true, map, vec_len, vec_capacity};
ghost use Rattle.chains.specs.Held.{buckets_in, width_in, room_in};
ghost use Rattle.names.specs.Hash.{bucket_of_lem};
ghost use Rattle.names.specs.Distinct.{distinct};
ghost use Rattle.names.specs.Parts.{parts_of, in_order};

use crate::part::Part;
use chains::Chains;

/// Entry k of the chains is name k; no name stands twice.
// Kept: all memory is got at creation, so the bytes of all names stand in one list, of which each name has a part.
#[derive(Drop)]
pub struct NameTable {
    pub(crate) limit: usize,
    pub(crate) bytes: Vec<u8>,
    pub(crate) parts: Vec<Part>,
    pub(crate) chains: Chains,
    ghost ordered: { in_order 0 parts.items (vec_len bytes) ≡ true },
    ghost few: { vec_len parts ≤ limit },
    ghost small: { limit ≤ 65535 },
    ghost parts_room: { limit ≤ vec_capacity parts },
    ghost bytes_room: { 32 * limit ≤ vec_capacity bytes },
    ghost chains_room: { limit ≤ room_in chains },
    ghost wide: { width_in chains ≡ 4096 },
    ghost chained: { buckets_in chains ≡ map bucket_of_lem (parts_of bytes.items parts.items) },
    ghost apart: { distinct (parts_of bytes.items parts.items) ≡ true },
}

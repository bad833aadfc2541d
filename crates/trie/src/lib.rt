// A tree of edges with labels, and marks at its places. Place 0 is the top, and place i + 1 is where edge i leads.
#![tactic(auto)]

ghost use Rattle.std.specs.Prelude.{◌≡◌, ◌+◌, ◌<◌, ◌≤◌, map, length, vec_capacity};
ghost use Rattle.chains.specs.Held.{buckets_in, width_in, room_in as room_of_chains};
ghost use Rattle.trie.specs.Ways.{edge_of, bucket_of_lem, Rising};

use chains::Chains;

#[derive(Clone, Copy, Debug, PartialEq, Eq)]
pub struct Edge {
    pub parent: usize,
    pub label: u16,
}

/// A place other than the top: the edge to it, and its mark.
#[derive(Clone, Copy, Debug, PartialEq, Eq)]
struct Place {
    edge: Edge,
    mark: Option<usize>,
}

// Kept: all memory is got at creation, so the places stand in one list and are named by their numbers.
// Kept without a model: clauses speak of edges, marks and room apart, and most of one of them alone.
#[derive(Drop)]
pub struct Trie {
    room: usize,
    places: Vec<Place>,
    chains: Chains,
    ghost places_room: { room ≤ vec_capacity places },
    ghost chains_room: { room ≤ room_of_chains chains },
    ghost width: { width_in chains ≡ 8192 },
    ghost chained: { buckets_in chains ≡ map bucket_of_lem (map edge_of places.items) },
    ghost rising: { Rising (map edge_of places.items) },
}

/// Why a place is not marked.
#[derive(Clone, Copy, PartialEq, Eq, Debug)]
pub enum InsertError {
    /// There is no memory for the edges.
    Full,
}

pub mod places;

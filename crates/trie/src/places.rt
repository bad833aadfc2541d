// Walking down the tree, and marking the place of a node and a left path.
ghost use Rattle.std.specs.Prelude.{◌≡◌, ℕ, ◌+◌, ◌-◌, ◌<◌, ◌≤◌, List, [], ◌∷◌, ◌++◌, map, length, IfOk, OnOk, OnErr, Ok, Err, Some, None, ◌≢◌, if◌then◌else◌, nat_lt, slice_set};
ghost use Rattle.std.specs.List.{slice_get};
ghost use Rattle.trie.specs.Ways.{bucket_of_lem, child_of, go, mark_at_lem, is_the_edge, num, word_of};
ghost use Rattle.trie.specs.declared.InsertError.{InsertError};
ghost use Rattle.trie.specs.Held.{edges_in, marks_in, room_in, place_in, mark_in, Grows};

use super::{Edge, InsertError, Place, Trie};
use chains::{Chains, Test};
use std::alloc::{AllocError, Global};
use terms::{Atom, Node};

fn bucket_of(edge: Edge) -> usize
    ensures small { result < 8192 }
    ensures is { result ≡ bucket_of_lem edge }
{
    ((((edge.parent % 32768) * 65536 + edge.label as usize) * 2_654_435_769) % 2_147_483_648)
        / 262_144
}

/// Whether an entry is an edge.
#[derive(Drop)]
struct IsEdge<'a> {
    trie: &'a Trie,
    edge: Edge,
}

impl Test for IsEdge<'_> {
    ghost answers = { λ s k. is_the_edge s.edge (slice_get (edges_in s.trie.now) k) };

    fn passes(&self, entry: usize) -> bool {
        match self.trie.places.get(entry) {
            Some(place) => self.edge == place.edge,
            None => false,
        }
    }
}

impl Trie {
    /// The top alone, with memory for so many edges.
    pub fn new(heap: Global, room: usize) -> Result<Trie, AllocError>
        ensures { IfOk result (λ t. (edges_in t ≡ []) × (marks_in t ≡ []) × (room_in t ≡ room)) }
    {
        let places = Vec::with_capacity(heap, room)?;
        let chains = Chains::new(heap, 8192, room)?;
        Ok(Trie {
            room,
            places,
            chains,
        })
    }

    pub fn clear(&mut self)
        ensures edges { edges_in self.new ≡ [] }
        ensures marks { marks_in self.new ≡ [] }
        ensures room { room_in self.new ≡ room_in self.old }
    {
        self.places.clear();
        self.chains.clear();
    }

    // The place to which an edge leads.
    fn child(&self, edge: Edge) -> Option<usize>
        ensures { result ≡ child_of (edges_in self.now) edge.parent edge.label }
    {
        let test = IsEdge { trie: self, edge };
        let last = self.chains.find(bucket_of(edge), &test)?;
        Some(last + 1)
    }

    /// One step down from a place, if there is one.
    pub fn step(&self, at: Option<usize>, label: u16) -> Option<usize>
        ensures { result ≡ go (edges_in self.now) at label }
    {
        at.and_then(|parent| self.child(Edge { parent, label }))
    }

    /// The mark at a place, if there is one.
    pub fn mark_at(&self, at: Option<usize>) -> Option<usize>
        ensures { result ≡ mark_at_lem (marks_in self.now) at }
    {
        let edge = at?.checked_sub(1)?;
        self.places.get(edge)?.mark
    }

    // The place of a node and a left path.
    fn place_of(&self, node: Node, left: &[Atom]) -> Option<usize>
        ensures { result ≡ place_in self.now (word_of node left.now) }
    {
        left.iter().fold(self.step(Some(0), node.0), |at, atom| self.step(at, atom.0))
    }

    /// The mark at the place of a node and a left path.
    pub fn mark_of(&self, node: Node, left: &[Atom]) -> Option<usize>
        ensures { result ≡ mark_in self.now (word_of node left.now) }
    {
        self.mark_at(self.place_of(node, left))
    }

    // The place to which an edge leads, made where it is not there.
    fn make_child(&mut self, edge: Edge) -> usize
        requires there { edge.parent ≤ length (edges_in self.old) }
        requires room { length (edges_in self.old) < room_in self.old }
        ensures leads { (w : List ℕ) → place_in self.old w ≡ Some edge.parent → place_in self.new (w ++ edge.label ∷ []) ≡ Some result }
        ensures low { 0 < result }
        ensures within { result ≤ length (edges_in self.new) }
        ensures grows { Grows self.old self.new 1 }
    {
        if let Some(place) = self.child(edge) {
            return place;
        }
        self.places.push_reserved(Place { edge, mark: None });
        let _ = self.chains.push(bucket_of(edge));
        self.places.len()
    }

    // The place that atoms lead to from another, made where it is not there.
    fn follow(&mut self, from: usize, left: &[Atom]) -> usize
        requires low { 0 < from }
        requires there { from ≤ length (edges_in self.old) }
        requires room { length (edges_in self.old) + length left.now ≤ room_in self.old }
        ensures leads { (w : List ℕ) → place_in self.old w ≡ Some from → place_in self.new (w ++ map num left.now) ≡ Some result }
        ensures low { 0 < result }
        ensures within { result ≤ length (edges_in self.new) }
        ensures grows { Grows self.old self.new (length left.now) }
    {
        let mut at = from;
        for atom in left {
            at = self.make_child(Edge {
                parent: at,
                label: atom.0,
            });
        }
        at
    }

    // Marks a place other than the top.
    fn mark(&mut self, place: usize, number: usize)
        requires low { 0 < place }
        requires high { place ≤ length (edges_in self.old) }
        ensures edges { edges_in self.new ≡ edges_in self.old }
        ensures marks { marks_in self.new ≡ slice_set (marks_in self.old) (place - 1) (Some number) }
        ensures room { room_in self.new ≡ room_in self.old }
    {
        self.places[place - 1].mark = Some(number);
    }

    /// Marks the place of a node and a left path. Where there is no memory for as many edges as lead there nothing is altered.
    pub fn insert(&mut self, node: Node, left: &[Atom], number: usize) -> Result<(), InsertError>
        ensures gives { result ≡ (if nat_lt (length (edges_in self.old) + length left.now) (room_in self.old) then Ok tt else Err InsertError.Full) }
        ensures there { OnOk result (mark_in self.new (word_of node left.now) ≡ Some number) }
        ensures elsewhere { (w : List ℕ) → (word_of node left.now ≢ w) → mark_in self.new w ≡ mark_in self.old w }
        ensures refused { OnErr result ((edges_in self.new ≡ edges_in self.old) × (marks_in self.new ≡ marks_in self.old)) }
        ensures more { length (edges_in self.new) ≤ length (edges_in self.old) + (length left.now + 1) }
        ensures room { room_in self.new ≡ room_in self.old }
    {
        if left.len() >= self.room || self.places.len() >= self.room - left.len() {
            return Err(InsertError::Full);
        }
        let root = self.make_child(Edge {
            parent: 0,
            label: node.0,
        });
        let place = self.follow(root, left);
        self.mark(place, number);
        Ok(())
    }
}

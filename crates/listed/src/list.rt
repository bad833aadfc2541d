// Finding by the table, and adding to it.
ghost use Rattle.std.specs.Prelude.{◌≡◌, true, false, [], ◌∷◌, ◌++◌, length, is_some, is_ok, IfOk, Ok, Err, if◌then◌else◌, Some, None};
ghost use Rattle.stores.specs.declared.refusals.Refusal.{Refusal as Refused};
ghost use Rattle.terms.specs.LookUp.{look_up, length_found};
ghost use Rattle.stores.specs.Items.{item_at, items_of};
ghost use Rattle.stores.specs.Sentences.{map_of, is_pair, sentence};
ghost use Rattle.stores.specs.Refusals.{fits, refusal, answer, kept_after};
ghost use Rattle.std.specs.List.{slice_get};
ghost use Rattle.kept.specs.Held.{kept_in, limits_of, smaller, passes, of_pair};
ghost use Rattle.kept.specs.Firsts.{first_by};
ghost use Rattle.listed.specs.Hash.{mix, hash_of_lem, bucket};
ghost use Rattle.kept.specs.Contents.{with_sentences};
ghost use Rattle.listed.specs.Held.{held_in, room_in, contents_in};

use super::Listed;
use chains::{Chains, Test};
use kept::{Kept, Room};
use std::alloc::{AllocError, Global};
use stores::Refusal;
use stores::fitness::check_fitness;
use terms::{Atom, Item, Node};

fn mixed_with(hash: u32, number: u16) -> u32
    ensures { result ≡ mix hash number }
{
    ((u64::from(hash) + u64::from(number) + 1) * 2_654_435_769 % 2_147_483_648) as u32
}

// The hash of a node and a left path.
fn hash_of(node: Node, left: &[Atom]) -> u32
    ensures { result ≡ hash_of_lem node left.now }
{
    left.iter().fold(mixed_with(0, node.0), |hash, atom| mixed_with(hash, atom.0))
}

/// Whether an entry is the sentence of a pair.
#[derive(Drop)]
struct IsOfPair<'a> {
    kept: &'a Kept,
    node: Node,
    left: &'a [Atom],
}

impl Test for IsOfPair<'_> {
    ghost answers = { λ s k. of_pair (slice_get (kept_in s.kept.now) k) s.node s.left.now };

    fn passes(&self, entry: usize) -> bool {
        self.kept.is_at(entry, self.node, self.left)
    }
}

impl Listed {
    /// No sentence, with memory for so many, and a bucket for each number that the mask leaves.
    pub fn new(heap: Global, room: Room, mask: u16) -> Result<Listed, AllocError>
        ensures { IfOk result (λ s. contents_in s ≡ record { room = room; sentences = [] }) }
    {
        let kept = Kept::new(heap, room)?;
        let chains = Chains::new(heap, mask as usize + 1, room.sentences)?;
        Ok(Listed { kept, mask, chains })
    }

    pub fn clear(&mut self)
        ensures { contents_in self.new ≡ with_sentences (contents_in self.old) [] }
    {
        self.kept.clear();
        self.chains.clear();
    }

    fn bucket_of(&self, hash: u32) -> usize
        ensures { result ≡ bucket self.now.mask hash }
    {
        (hash / 32768) as usize & self.mask as usize
    }

    // The number of the sentence of a pair, by the pair's hash.
    fn number_of(&self, hash: u32, node: Node, left: &[Atom]) -> Option<usize>
        requires { hash ≡ hash_of_lem node left.now }
        ensures { result ≡ first_by (is_pair node left.now) (held_in self.now) }
    {
        let test = IsOfPair {
            kept: &self.kept,
            node,
            left,
        };
        self.chains.find(self.bucket_of(hash), &test)
    }

    // A new length where a pair has a sentence, else the one so far.
    fn better(&self, best: Option<usize>, hash: u32, node: Node, left: &[Atom]) -> Option<usize>
        requires { hash ≡ hash_of_lem node left.now }
        ensures { result ≡ (if is_some (first_by (is_pair node left.now) (held_in self.now)) then Some (length left.now) else best) }
    {
        self.number_of(hash, node, left)
            .map(|_| left.len())
            .or(best)
    }

    /// The length of the longest left path at the node with which the path begins.
    pub fn find(&self, node: Node, path: &[Atom]) -> Option<usize>
        ensures { result ≡ length_found (look_up (map_of (held_in self.now) node) path.now) }
    {
        let mut hash = mixed_with(0, node.0);
        let mut best = self.better(None, hash, node, &[]);
        for (i, atom) in path.iter().enumerate() {
            hash = mixed_with(hash, atom.0);
            best = self.better(best, hash, node, &path[..=i]);
        }
        best
    }

    /// Item k of the right side of a node and a left path.
    pub fn item(&self, node: Node, left: &[Atom], k: usize) -> Option<Item>
        ensures { result ≡ item_at (items_of (map_of (held_in self.now) node left.now)) k }
    {
        let number = self.number_of(hash_of(node, left), node, left)?;
        self.kept.item_of(number, k)
    }

    /// Whether a node and a left path have a sentence.
    #[tactic(auto, using(kept::proofs::Firsts::some_first))]
    pub fn has(&self, node: Node, left: &[Atom]) -> bool
        ensures { result ≡ is_some (map_of (held_in self.now) node left.now) }
    {
        self.number_of(hash_of(node, left), node, left).is_some()
    }

    // Keeps one sentence more, unless one of the limits given would be passed.
    fn put(&mut self, most: Room, node: Node, left: &[Atom], right: &[Item]) -> Result<(), Refusal>
        requires fit { fits (sentence node left.now right.now) ≡ true }
        requires fresh { is_some (map_of (held_in self.old) node left.now) ≡ false }
        ensures gives { result ≡ (if passes (smaller most (room_in self.old)) (held_in self.old) (length left.now) (length right.now) then Err Refused.Full else Ok tt) }
        ensures keeps { contents_in self.new ≡ with_sentences (contents_in self.old) (if is_ok result then held_in self.old ++ sentence node left.now right.now ∷ [] else held_in self.old) }
    {
        let bucket = self.bucket_of(hash_of(node, left));
        self.kept.put(most, node, left, right)?;
        self.chains.push(bucket).map_err(|_| Refusal::Full)
    }

    /// Keeps one sentence more, unless it is refused. The limits are the smaller of those given and of those that memory is there for.
    pub fn add(
        &mut self,
        most: Room,
        node: Node,
        left: &[Atom],
        right: &[Item],
    ) -> Result<(), Refusal>
        ensures gives { result ≡ answer (refusal (limits_of (smaller most (room_in self.old))) (held_in self.old) (sentence node left.now right.now)) }
        ensures keeps { contents_in self.new ≡ with_sentences (contents_in self.old) (kept_after (refusal (limits_of (smaller most (room_in self.old))) (held_in self.old) (sentence node left.now right.now)) (held_in self.old) (sentence node left.now right.now)) }
    {
        check_fitness(node, left, right)?;
        if self.has(node, left) {
            return Err(Refusal::AlreadyKept);
        }
        self.put(most, node, left, right)
    }
}

// Reading of what is kept, and keeping one sentence more.
ghost use Rattle.std.specs.Prelude.{◌≡◌, ◌+◌, ◌≤◌, false, [], ◌∷◌, ◌++◌, length, Ok, Err, is_ok, IfOk, if◌then◌else◌, nat_lt};
ghost use Rattle.std.specs.List.{slice_get};
ghost use Rattle.stores.specs.Items.{item_at};
ghost use Rattle.stores.specs.Sentences.{sentence};
ghost use Rattle.stores.specs.declared.refusals.Refusal.{Refusal};
ghost use Rattle.kept.specs.Contents.{with_sentences};
ghost use Rattle.kept.specs.Parts.{part_of, end_of};
ghost use Rattle.kept.specs.Held.{kept_in, room_in, smaller, passes, right_of, of_pair};

use super::{Kept, Record, Room, Span};
use std::alloc::{AllocError, Global};
use stores::Refusal;
use terms::{Atom, Item, Node};

impl Room {
    /// The smaller of two, each number for itself.
    pub fn at_most(self, other: Room) -> Room
        ensures { result ≡ smaller self other }
    {
        Room {
            sentences: self.sentences.min(other.sentences),
            atoms: self.atoms.min(other.atoms),
            items: self.items.min(other.items),
        }
    }
}

impl Span {
    // The part of a list.
    fn of<T>(self, all: &[T]) -> &[T]
        requires { end_of self ≤ length all.now }
        ensures { result.now ≡ part_of all.now self }
    {
        &all[self.start..][..self.len]
    }
}

// Whether more on top of what is used would pass a limit.
fn is_over(used: usize, more: usize, limit: usize) -> bool
    ensures { result ≡ nat_lt limit (used + more) }
{
    more > limit || used > limit - more
}

impl Kept {
    /// Nothing kept, with all the memory that it will ever take.
    pub fn new(heap: Global, room: Room) -> Result<Kept, AllocError>
        ensures { IfOk result (λ k. k ≡ record { room = room; sentences = [] }) }
    {
        let records = Vec::with_capacity(heap, room.sentences)?;
        let atoms = Vec::with_capacity(heap, room.atoms)?;
        let items = Vec::with_capacity(heap, room.items)?;
        Ok(Kept {
            room,
            records,
            atoms,
            items,
        })
    }

    pub fn clear(&mut self)
        ensures { self.new ≡ with_sentences self.old [] }
    {
        self.records.clear();
        self.atoms.clear();
        self.items.clear();
    }

    /// How many sentences are kept.
    pub fn sentences(&self) -> usize
        ensures { result ≡ length (kept_in self.now) }
    {
        self.records.len()
    }

    /// Item k of the right side of the sentence of a number.
    pub fn item_of(&self, number: usize, k: usize) -> Option<Item>
        ensures { result ≡ item_at (right_of (slice_get (kept_in self.now) number)) k }
    {
        let record = self.records.get(number)?;
        record.right.of(&self.items).get(k).copied()
    }

    /// Whether the sentence of a number is that of a node and a left path.
    pub fn is_at(&self, number: usize, node: Node, left: &[Atom]) -> bool
        ensures { result ≡ of_pair (slice_get (kept_in self.now) number) node left.now }
    {
        if number >= self.records.len() {
            return false;
        }
        let record = self.records[number];
        node == record.node && left == record.left.of(&self.atoms)
    }

    // Whether one sentence more, of so many atoms and items, would pass one of the limits.
    fn is_passed(&self, most: Room, atoms: usize, items: usize) -> bool
        ensures { result ≡ passes most (kept_in self.now) atoms items }
    {
        is_over(self.records.len(), 1, most.sentences)
            || is_over(self.atoms.len(), atoms, most.atoms)
            || is_over(self.items.len(), items, most.items)
    }

    // Keeps one sentence more, for which there is memory.
    fn write(&mut self, node: Node, left: &[Atom], right: &[Item])
        requires { passes (room_in self.old) (kept_in self.old) (length left.now) (length right.now) ≡ false }
        ensures { self.new ≡ with_sentences self.old (kept_in self.old ++ sentence node left.now right.now ∷ []) }
    {
        let record = Record {
            node,
            left: Span {
                start: self.atoms.len(),
                len: left.len(),
            },
            right: Span {
                start: self.items.len(),
                len: right.len(),
            },
        };
        let _ = self.atoms.extend_from_slice(left);
        let _ = self.items.extend_from_slice(right);
        self.records.push_reserved(record);
    }

    /// Keeps one sentence more, unless one of the limits given, or the memory, would be passed; then nothing is altered.
    pub fn put(
        &mut self,
        most: Room,
        node: Node,
        left: &[Atom],
        right: &[Item],
    ) -> Result<(), Refusal>
        ensures gives { result ≡ (if passes (smaller most (room_in self.old)) (kept_in self.old) (length left.now) (length right.now) then Err Refusal.Full else Ok tt) }
        ensures keeps { self.new ≡ with_sentences self.old (if is_ok result then kept_in self.old ++ sentence node left.now right.now ∷ [] else kept_in self.old) }
    {
        let most = most.at_most(self.room);
        if self.is_passed(most, left.len(), right.len()) {
            return Err(Refusal::Full);
        }
        self.write(node, left, right);
        Ok(())
    }
}

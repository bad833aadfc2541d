// Names and their numbers.
#![tactic(auto)]

ghost use Rattle.std.specs.Prelude.{◌≡◌, ℕ, ◌<◌, true, List, [], length, take, IfOk, slice_index_or};
ghost use Rattle.std.specs.Option.{option_map};
ghost use Rattle.names.specs.Numbers.{number, name_at, number_or_none, names_after, is_at};
ghost use Rattle.names.specs.Held.{names_in, limit_of};
ghost use Rattle.names.specs.Distinct.{distinct};
ghost use Rattle.names.specs.Hash.{mix, bucket_of_lem};

use chains::{Chains, Test};
use part::Part;
use std::alloc::{AllocError, Global};
use terms::limits::NAME_BYTES;

pub mod numbering;
mod part;
mod table;
mod tables;

pub use part::NoNumber;
pub use table::NameTable;
pub use tables::Names;

const BUCKETS: usize = 4096;

fn mixed_with(hash: usize, byte: u8) -> usize
    requires { hash < 4096 }
    ensures small { result < 4096 }
    ensures is { result ≡ mix hash byte }
{
    (hash * 31 + byte as usize) % BUCKETS
}

// The bucket of a name.
fn bucket_of(name: &[u8]) -> usize
    ensures small { result < 4096 }
    ensures is { result ≡ bucket_of_lem name.now }
{
    let mut hash: usize = 0;
    for b in name {
        hash = mixed_with(hash, *b);
    }
    hash
}

/// Whether an entry has a name.
#[derive(Drop)]
struct HasName<'a> {
    table: &'a NameTable,
    name: &'a [u8],
}

impl Test for HasName<'_> {
    ghost answers = { λ s k. is_at (names_in s.table.now) k s.name.now };

    fn passes(&self, entry: usize) -> bool {
        self.table.is_name(entry, self.name)
    }
}

impl NameTable {
    /// No name, with memory for as many as there may be.
    pub fn new(heap: Global, limit: u16) -> Result<NameTable, AllocError>
        ensures { IfOk result (λ t. (names_in t ≡ []) × (limit_of t ≡ limit)) }
    {
        let limit = limit as usize;
        let bytes = Vec::with_capacity(heap, NAME_BYTES * limit)?;
        let parts = Vec::with_capacity(heap, limit)?;
        let chains = Chains::new(heap, BUCKETS, limit)?;
        Ok(NameTable {
            limit,
            bytes,
            parts,
            chains,
        })
    }

    /// How many names there are; none stands twice.
    pub fn len(&self) -> usize
        ensures count { result ≡ length (names_in self.now) }
        ensures apart { distinct (names_in self.now) ≡ true }
    {
        self.parts.len()
    }

    fn part(&self, k: usize) -> &[u8]
        requires { k < length (names_in self.now) }
        ensures { result.now ≡ slice_index_or (names_in self.now) k [] }
    {
        let p = self.parts[k];
        let start = p.start;
        let end = p.start + p.len;
        &self.bytes.as_slice()[start..end]
    }

    /// The name with a number.
    #[tactic(auto, using(crate::proofs::Laws::unnamed))]
    pub fn name(&self, k: usize) -> Option<&[u8]>
        ensures { option_map (λ x. x.now) result ≡ name_at (names_in self.now) k }
    {
        if k < self.len() {
            Some(self.part(k))
        } else {
            None
        }
    }

    fn is_name(&self, k: usize, name: &[u8]) -> bool
        ensures { result ≡ is_at (names_in self.now) k name.now }
    {
        k < self.len() && self.part(k) == name
    }

    /// The number of a name, or the one that it would get.
    // Kept: a number also where the name is new, since that is the one which it gets next.
    pub fn number(&self, name: &[u8]) -> usize
        ensures { result ≡ number (names_in self.now) name.now }
    {
        let test = HasName { table: self, name };
        self.chains
            .find(bucket_of(name), &test)
            .unwrap_or(self.len())
    }

    /// The number of a name, which is added where it is new.
    pub fn intern(&mut self, name: &[u8]) -> Result<usize, NoNumber>
        ensures gives { result ≡ number_or_none (limit_of self.old) (names_in self.old) name.now }
        ensures names { names_in self.new ≡ names_after (limit_of self.old) (names_in self.old) name.now }
        ensures limit { limit_of self.new ≡ limit_of self.old }
    {
        if name.len() > NAME_BYTES {
            return Err(NoNumber::Full);
        }
        let n = self.number(name);
        if n < self.len() {
            return Ok(n);
        }
        if n >= self.limit {
            return Err(NoNumber::Full);
        }
        let start = self.bytes.len();
        let len = name.len();
        let _ = self.bytes.extend_from_slice(name);
        self.parts.push_reserved(Part { start, len });
        let _ = self.chains.push(bucket_of(name));
        Ok(n)
    }

    /// The table as it was when it had so many names.
    pub fn truncate(&mut self, n: usize)
        ensures names { names_in self.new ≡ take n (names_in self.old) }
        ensures limit { limit_of self.new ≡ limit_of self.old }
    {
        if n < self.len() {
            let start = self.parts[n].start;
            self.bytes.truncate(start);
            self.parts.truncate(n);
            self.chains.truncate(n);
        }
    }
}

// The entries of one bucket, for whoever searches them with the methods of iterators.
ghost use Rattle.std.specs.Prelude.{◌≡◌, length};
ghost use Rattle.std.specs.Iterator.{YieldsFirst, item_count};
ghost use Rattle.chains.specs.Below.{entries_below};
ghost use Rattle.chains.specs.Held.{buckets_in};

use super::Chains;
use std::marker::Model;

/// The entries of a bucket that are still to come, from the last back to the first.
#[derive(Drop)]
pub struct Bucket<'a> {
    chains: &'a Chains,
    bucket: usize,
    next: Option<usize>,
}

impl<'a> Model for Bucket<'a> {
    ghost use Rattle.std.specs.Prelude.{ℕ, List};

    ghost Value = { List ℕ };

    ghost use Rattle.chains.specs.Bucket.{entries_left, IsInBucket};

    ghost view = { entries_left };

    ghost invariant = { IsInBucket };
}

impl Iterator for Bucket<'_> {
    type Item = usize;

    ghost next_gives = { YieldsFirst (λ left. left) };

    ghost remaining = { item_count (λ left. left) };

    fn next(&mut self) -> Option<usize> {
        let entry = self.next?;
        self.next = self.chains.before(entry);
        Some(entry)
    }
}

impl Chains {
    /// The entries of a bucket, from the last back to the first.
    pub fn bucket(&self, bucket: usize) -> Bucket<'_>
        ensures { result ≡ entries_below (buckets_in self.now) bucket (length (buckets_in self.now)) }
    {
        Bucket {
            chains: self,
            bucket,
            next: self.last(bucket),
        }
    }
}

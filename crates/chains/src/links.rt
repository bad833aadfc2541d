// Reading along the chains, and adding to them.
ghost use Rattle.std.specs.Prelude.{◌≡◌, ℕ, ◌-◌, ◌<◌, [], ◌∷◌, ◌++◌, length, take, Ok, Err, is_ok, IfOk, IfSome, IfNone, if◌then◌else◌, nat_eq, nat_lt};
ghost use Rattle.chains.specs.Last.{last_by, earlier};
ghost use Rattle.chains.specs.Entries.{with_buckets};
ghost use Rattle.chains.specs.Held.{buckets_in, width_in, room_in};
ghost use Rattle.chains.specs.Found.{AnswersBy, IsLastPassing, AllFailFrom};
ghost use Rattle.chains.specs.Linked.{Small};
ghost use Rattle.chains.specs.declared.PushError.{PushError};

use super::{Chains, Link, PushError, Test};
use std::alloc::{AllocError, Global};

impl Chains {
    /// No entry, so many buckets, and memory for so many entries.
    pub fn new(heap: Global, width: usize, room: usize) -> Result<Chains, AllocError>
        ensures { IfOk result (λ c. c ≡ record { width = width; room = room; buckets = [] }) }
    {
        let heads = vec![in heap; None; width]?;
        let links = Vec::with_capacity(heap, room)?;
        Ok(Chains { room, heads, links })
    }

    /// The last entry of a bucket.
    #[tactic(auto, using(crate::proofs::Lasts::none_wide))]
    pub fn last(&self, bucket: usize) -> Option<usize>
        ensures value { result ≡ last_by (nat_eq bucket) (buckets_in self.now) }
        ensures small { Small (width_in self.now) (buckets_in self.now) }
    {
        self.heads.get(bucket).copied().flatten()
    }

    /// The last entry before another that is in the same bucket.
    pub fn before(&self, entry: usize) -> Option<usize>
        ensures { result ≡ earlier (buckets_in self.now) entry }
    {
        self.links.get(entry).and_then(|link| link.before)
    }

    /// The last entry of a bucket for which the test answers true.
    // Kept: a walk, since `successors` asks for a proof that a chain ends, which four goals did not give.
    pub fn find<T: Test>(&self, bucket: usize, test: &T) -> Option<usize>
        ensures found { IfSome result (IsLastPassing (buckets_in self.now) bucket (AnswersBy (T.Test.answers test.now))) }
        ensures none { IfNone result (AllFailFrom (buckets_in self.now) bucket (AnswersBy (T.Test.answers test.now)) 0) }
    {
        let mut at = self.last(bucket);
        while let Some(entry) = at {
            if test.passes(entry) {
                return at;
            }
            at = self.before(entry);
        }
        None
    }

    /// One entry more, in a bucket; where there is none more, nothing is altered.
    pub fn push(&mut self, bucket: usize) -> Result<(), PushError>
        ensures gives { result ≡ (if nat_lt bucket (width_in self.old) then (if nat_lt (length (buckets_in self.old)) (room_in self.old) then Ok tt else Err PushError.Full) else Err PushError.NoBucket) }
        ensures entries { self.new ≡ with_buckets self.old (if is_ok result then buckets_in self.old ++ bucket ∷ [] else buckets_in self.old) }
    {
        if bucket >= self.heads.len() {
            return Err(PushError::NoBucket);
        }
        let entry = self.links.len();
        if entry >= self.room {
            return Err(PushError::Full);
        }
        let before = self.heads[bucket];
        self.heads[bucket] = Some(entry);
        self.links.push_reserved(Link { bucket, before });
        Ok(())
    }

    // The entries without the last.
    fn pop(&mut self)
        requires { 0 < length (buckets_in self.old) }
        ensures { self.new ≡ with_buckets self.old (take (length (buckets_in self.old) - 1) (buckets_in self.old)) }
    {
        let last = self.links.len() - 1;
        let link = self.links[last];
        self.heads[link.bucket] = link.before;
        self.links.truncate(last);
    }

    /// The first entries, as many as are wanted.
    pub fn truncate(&mut self, entries: usize)
        ensures { self.new ≡ with_buckets self.old (take entries (buckets_in self.old)) }
    {
        while self.links.len() > entries {
            self.pop();
        }
    }

    pub fn clear(&mut self)
        ensures { self.new ≡ with_buckets self.old [] }
    {
        let width = self.heads.len();
        self.heads.clear();
        let _ = self.heads.resize(width, None);
        self.links.clear();
    }
}

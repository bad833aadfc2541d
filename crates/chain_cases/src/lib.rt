// Searches of a bucket by closures, written as any other crate can write them.
#![tactic(auto)]

ghost use Rattle.std.specs.Prelude.{ℕ, ◌<◌, length, IfSome, IfNone};
ghost use Rattle.chains.specs.Held.{buckets_in};
ghost use Rattle.chains.specs.Found.{IsLastPassing, AllFailFrom};

#[cfg(test)]
mod cases;

use chains::Chains;

/// The last entry of a bucket that passes a test, which need not be callable but at the entries.
fn find<F: Fn(usize) -> bool>(chains: &Chains, bucket: usize, test: F) -> Option<usize>
    requires { (i : ℕ) → i < length (buckets_in chains.now) → F.pre test i }
    ensures found { IfSome result (IsLastPassing (buckets_in chains.now) bucket (F.post test)) }
    ensures none { IfNone result (AllFailFrom (buckets_in chains.now) bucket (F.post test) 0) }
{
    chains.bucket(bucket).find(
        |entry: &usize| -> bool
            requires { F.pre test entry.now }
            ensures { F.post test entry.now result }
        { test(*entry) },
    )
}

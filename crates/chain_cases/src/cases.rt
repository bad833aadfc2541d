// What is found, by hand: buckets of entries, a mark of each, and the last entry of a bucket that has a mark.
ghost use Rattle.std.specs.Prelude.{◌≤◌, length, IfOk};
ghost use Rattle.chains.specs.Held.{buckets_in};

use super::find;
use chains::Chains;
use std::alloc::{AllocError, Global};
use std::test::Fail;

// The bucket of each entry, and its mark.
const BUCKETS: [usize; 6] = [0, 1, 0, 0, 1, 0];

const MARKS: [u8; 6] = *b"aabcbb";

fn filled(heap: Global) -> Result<Chains, AllocError>
    ensures { IfOk result (λ c. length (buckets_in c) ≤ 6) }
{
    let mut chains = Chains::new(heap, 3, BUCKETS.len())?;
    for bucket in BUCKETS {
        let _ = chains.push(bucket);
    }
    Ok(chains)
}

#[test]
fn last_of_a_mark(rt: HostRuntime) -> Result<(), Fail> {
    let chains = filled(rt.alloc())?;
    for (bucket, mark, want) in [
        (0, b'a', Some(0)),
        (0, b'b', Some(5)),
        (0, b'c', Some(3)),
        (1, b'a', Some(1)),
        (1, b'b', Some(4)),
        (1, b'c', None),
        (2, b'a', None),
        (3, b'a', None),
    ] {
        let found = find(&chains, bucket, |entry| MARKS[entry] == mark);
        assert_eq!(rt; found, want, "{mark} in bucket {bucket}");
    }
    Ok(())
}

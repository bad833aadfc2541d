// Input, line by line.
ghost use Rattle.std.specs.Prelude.{◌≡◌, ◌+◌, ◌≤◌, [], ◌++◌, length, take, drop, IfOk};
ghost use Rattle.std.specs.List.{prefix_len};
ghost use Rattle.answers.specs.Input.{kept_bytes, bytes_in, no_feed_lem, to_feed, behind_feed, LongLinesNeedNotBeKept};

use crate::line::Line;
use questions::LINE_BYTES;
use std::alloc::{AllocError, Global};

const KEPT_BYTES: usize = LINE_BYTES + 1;

// How many bytes stand in front of the next line feed.
fn line_len(bytes: &[u8]) -> usize
    ensures within { result ≤ length bytes.now }
    ensures value { result ≡ prefix_len no_feed_lem bytes.now }
{
    bytes.iter().take_while(|b| **b != b'\n').count()
}

impl Line {
    /// No bytes yet.
    pub fn new(heap: Global) -> Result<Line, AllocError>
        ensures { IfOk result (λ l. bytes_in l ≡ []) }
    {
        let bytes = Vec::with_capacity(heap, KEPT_BYTES)?;
        Ok(Line { bytes })
    }

    pub fn as_slice(&self) -> &[u8]
        ensures { result.now ≡ bytes_in self.now }
    {
        self.bytes.as_slice()
    }

    pub fn clear(&mut self)
        ensures { bytes_in self.new ≡ [] }
    {
        self.bytes.clear();
    }

    // More bytes, of which those past the last that is kept are left out.
    fn extend(&mut self, part: &[u8])
        ensures { bytes_in self.new ≡ take kept_bytes (bytes_in self.old ++ part.now) }
    {
        let n = part.len().min(KEPT_BYTES - self.bytes.len());
        let _ = self.bytes.extend_from_slice(&part[..n]);
    }

    /// Takes the bytes of a block up to the next line feed; answers the place behind that, or none where the block ends first.
    pub fn read(&mut self, block: &[u8], from: usize) -> Option<usize>
        ensures bytes { bytes_in self.new ≡ take kept_bytes (bytes_in self.old ++ to_feed block.now from) }
        ensures behind { result ≡ behind_feed block.now from }
    {
        let rest = block.get(from..)?;
        let len = line_len(rest);
        self.extend(&rest[..len]);
        if len == rest.len() {
            return None;
        }
        Some(from + len + 1)
    }
}

/// A line reads as its first 1,025 bytes do, so that no more need be kept of it.
pub fn long_lines_need_not_be_kept()
    ensures { LongLinesNeedNotBeKept }
{}

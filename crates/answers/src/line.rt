// A line of input that is being read.
ghost use Rattle.std.specs.Prelude.{◌≤◌, vec_len, vec_capacity};

/// Its first bytes: one more than a line may have, so that a longer one shows without being kept.
#[derive(Drop)]
pub struct Line {
    pub(crate) bytes: Vec<u8>,
    ghost room: { 1025 ≤ vec_capacity bytes },
    ghost few: { vec_len bytes ≤ 1025 },
}

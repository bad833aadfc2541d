// Where a name stands in the table's bytes, and the refusal of a name.

// Kept beside the span of kept: a crate for a struct of two numbers, on which both would stand, is no plainer.
#[derive(Clone, Copy, Debug, PartialEq, Eq)]
pub struct Part {
    pub start: usize,
    pub len: usize,
}

/// Why a name has no number.
#[derive(Clone, Copy, Debug, PartialEq, Eq)]
pub enum NoNumber {
    /// The table has as many names as it may have.
    Full,
}

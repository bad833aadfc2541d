// What a right side may end with, and what comes next in a block.

/// The next equation, whose left path is a right side's items from item `mark` on, with its < at `place`.
#[derive(Clone, Copy, Debug, PartialEq, Eq)]
pub struct NextEquation {
    pub mark: usize,
    pub place: usize,
}

/// What comes next in a block that goes on: an equation or the full stop; or the right side of the left path with its < at a place.
#[derive(Clone, Copy, Debug, PartialEq, Eq)]
pub enum Due {
    Equation,
    RightSide(usize),
}

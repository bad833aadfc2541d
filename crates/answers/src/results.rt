// What is left when a line is answered.
use engine::Machine;
use lines::LineRefusal;

/// The machine to be used again; and how far the page is filled, or why it could not be written.
#[derive(Drop)]
pub struct Answered {
    pub machine: Machine,
    pub end: Result<usize, LineRefusal>,
}

// The lines that the program writes.
#![tactic(auto)]

mod content;
mod known;
mod parts;
mod pen;
mod quoting;
mod refusals;
mod spelling;
mod writing;

pub use refusals::LineRefusal;
pub use writing::{write_answer, write_refused, write_text_refused};

// The words of theory text.
#![tactic(auto)]

mod faults;
mod reader;
mod scan;
mod tally;
mod word;

pub use faults::{WordFault, WordRefusal};
pub use reader::WordReader;
pub use scan::is_of_bare_name;
pub use tally::{Tally, tally_words};
pub use word::{Placed, Word};

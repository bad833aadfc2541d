// The words of a text, one ahead, with their names numbered.
#![tactic(auto)]

mod ahead;
mod parser;
mod word;

pub use parser::Parser;
pub use word::Word;

// The machine that works a question over a store, item by item: the table of open sentences, and what is being built.
#![tactic(auto)]

mod inner;
mod shown;
mod steps;
mod table;
mod works;

pub use inner::Machine;
pub use table::{Phase, Stop, Worked};

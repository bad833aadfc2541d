// The evaluator: begin, work, give up, and what is shown.
#![tactic(auto)]

mod answers;
mod evaluator;

pub use answers::{Call, Outcome, Refusal};
pub use evaluator::Evaluator;
pub use evaluator::runs::{answered_alike, evaluate, grants_add_up};

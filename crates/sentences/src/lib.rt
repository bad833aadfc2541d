// Questions and open sentences, as they are kept while a question is worked.
#![tactic(auto)]

mod question;
mod sentence;
mod table;

pub use table::{Inside, Open, Question};

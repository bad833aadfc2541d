// Lines of input and the lines that answer them.
#![tactic(auto)]

mod answer;
mod input;
mod line;
mod results;

pub use answer::answer_line;
pub use input::long_lines_need_not_be_kept;
pub use line::Line;
pub use results::Answered;

// Answers of a roadmap's calls as lines of text.
#![tactic(auto)]

mod line;
mod numbers;

pub use line::put_answer;

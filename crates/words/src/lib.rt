// The words of a line, one after another, and the numbers that they write.
#![tactic(auto)]

mod cursor;
mod cutting;
mod digits;
mod reading;
mod token;

pub use cursor::{Misplaced, Words};
pub use cutting::cut;
pub use token::Token;

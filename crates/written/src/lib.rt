// Kinds of element that a level file can have.
#![tactic(auto)]

mod arms;
mod cards;
mod numbers;
mod written;

pub use written::Written;

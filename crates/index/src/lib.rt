// What every index of samples means and owes, and what its calls refuse.
#![tactic(auto)]

pub mod index;
pub mod refusal;

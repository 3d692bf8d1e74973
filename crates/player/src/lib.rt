// The calls of a level, made on a roadmap of its own, each answered by a line.
#![tactic(auto)]

pub mod calls;
pub mod indexes;

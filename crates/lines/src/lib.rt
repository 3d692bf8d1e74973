// The lines of a level file: what each says, and what is wrong with it.
#![tactic(auto)]

pub mod calls;
pub mod counts;
pub mod fault;
pub mod first;
pub mod header;
pub mod settings;

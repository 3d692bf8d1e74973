// Filing, splitting and dropping in a GNAT that lies in lent rows.
#![tactic(auto)]

mod choosing;
pub mod dropping;
pub mod filing;
mod first;
pub mod settings;
mod splitting;
mod widening;

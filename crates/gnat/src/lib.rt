// The GNAT: an index over a tree of samples that lies in lent rows.
#![tactic(auto)]

pub mod chosen;
pub mod gnat;
mod listing;
mod refile;

pub use gnat_filing::settings;

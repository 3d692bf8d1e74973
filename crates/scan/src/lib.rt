// The scan: an index that measures every standing sample.
#![tactic(auto)]

pub mod rows;
pub mod scan;

// Walls for arms: an arc for each joint.
#![tactic(auto)]

mod arc;
mod wall;

pub use arc::Arc;
pub use wall::Wall;

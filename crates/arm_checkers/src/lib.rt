// Two checkers of arms over walls: Box looks at the arcs that a motion's joints sweep, Step asks each
// wall that comes near them when the motion first is in it.
#![tactic(auto)]

mod joint;
mod meeting;
mod outside;
mod step;
mod sweep;
mod verdicts;
mod way;

pub use meeting::{first_in_wall, first_in_walls};
pub use step::StepChecker;
pub use sweep::BoxChecker;
pub use verdicts::both;

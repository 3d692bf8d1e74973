// Level files: reading one into a level, or naming its first fault.
#![tactic(auto)]

mod level;
mod reader;
mod reading;
mod stage;

pub use level::{AnyLevel, Level};
pub use reading::read;

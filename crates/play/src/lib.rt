// A level file, played: read whole, then its calls made on a roadmap, each answered by a line.
#![tactic(auto)]

mod fault;
mod kinds;
mod playing;
mod report;
mod showing;

pub use fault::{PlayFault, put_fault};
pub use playing::play;
pub use report::printed;
pub use showing::show;

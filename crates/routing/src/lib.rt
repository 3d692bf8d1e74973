// Shortest chains and islands over a list of edges, whose ends are places from 0 on.
#![tactic(auto)]

mod cost;
mod islands;
mod knockout;
mod neighbours;
mod settling;
mod walking;

pub use cost::Cost;
pub use islands::island_of;
pub use knockout::Waiting;
pub use neighbours::{Neighbour, Neighbours, lay_out};
pub use settling::settle;
pub use walking::walk;

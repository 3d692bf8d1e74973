// A tour of the library: each action with its answer in plain words.
#![tactic(auto)]

mod indexes;
mod kinds;
mod moves;
mod poses;

use indexes::{arms, cards, numbers};
use kinds::distances;
use moves::past_walls;
use std::io;

fn main(rt: HostRuntime) -> io::Result<()> {
    distances(&rt)?;
    arms(&rt)?;
    cards(&rt)?;
    numbers(&rt)?;
    past_walls(&rt)
}

// Roadmaps beside a plain model: the same random calls, and every answer, refusal and list compared.
#![tactic(auto)]

#[cfg(test)]
mod beside;
pub mod kind;
#[cfg(test)]
mod large;
#[cfg(test)]
mod model;
#[cfg(test)]
mod sweeps;
#[cfg(test)]
mod tests;
#[cfg(test)]
mod unplayed;

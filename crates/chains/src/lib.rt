// Edges between samples, and the theory of the chains that they make.
#![tactic(auto)]

// An edge joins a sample to an elder one and is as long as their distance.
#[derive(Clone, Copy, Debug, PartialEq)]
pub struct Edge {
    pub elder: u16,
    pub younger: u16,
    pub length: u32,
}

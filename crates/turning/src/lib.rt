// Arms in motion, the theory: where a pose stands on its way, and which arcs a joint sweeps.
// The definitions are in specs/, the proofs in proofs/; there is no code.
#![tactic(auto)]

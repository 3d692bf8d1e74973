// The theory of histories: which pairs of samples a history admits, what it gives to a call, and that a
// roadmap which a history has reached tells what the history gives.
#![tactic(auto)]

// Indexes beside a plain model: the same random calls, and every answer, refusal and list compared.
#![tactic(auto)]

#[cfg(test)]
mod beside;
#[cfg(test)]
mod model;
#[cfg(test)]
mod tests;

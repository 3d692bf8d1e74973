// The GNAT beside the scan: the same calls on both, and every answer, refusal and list compared.
#![tactic(auto)]

#[cfg(test)]
mod beside;
#[cfg(test)]
mod script;
#[cfg(test)]
mod tests;

// Level files with faults, each beside the fault that reading names, files at the limits, and levels played into too little
// output.
#![tactic(auto)]

#[cfg(test)]
mod faults;
#[cfg(test)]
mod limits;
#[cfg(test)]
mod outputs;
#[cfg(test)]
mod said;

// Edge cases of the instructions, their answers computed apart from the crate.
#![tactic(auto)]

#[cfg(test)]
mod accesses;
#[cfg(test)]
mod computations;
#[cfg(test)]
mod jumps;
#[cfg(test)]
mod stops;

//! Tests of the cells that the next step may store, of the operator's script as it is read, of runs and single turns of small
//! programs under a script, and of texts that are not scripts.
#![tactic(auto)]

#[cfg(test)]
mod machines;
#[cfg(test)]
mod readings;
#[cfg(test)]
mod refusals;
#[cfg(test)]
mod stores;
#[cfg(test)]
mod turns;

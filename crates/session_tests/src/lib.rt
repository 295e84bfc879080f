//! Tests of the debugger: commands as they are read, sessions over small programs, and texts that are not commands.
#![tactic(auto)]

#[cfg(test)]
mod readings;
#[cfg(test)]
mod refusals;
#[cfg(test)]
mod sessions;

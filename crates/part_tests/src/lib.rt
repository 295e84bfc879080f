//! Tests of the parts that the machine is made of: hosts, core and moves by two ways, and lines over a host that cuts them.
#![tactic(auto)]

#[cfg(test)]
mod hosts;
#[cfg(test)]
mod in_core;
#[cfg(test)]
mod units;

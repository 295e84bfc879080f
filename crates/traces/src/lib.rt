//! The effects of an instruction, one after another: only definitions, for the contracts of the crates above.
#![tactic(auto)]

//! The operations and the rules of the assembler.
//!
//! An operation is an instruction or a declarative. An instruction has a mnemonic (`TF`), an opcode in two digits (`26`), or a
//! unique mnemonic that also gives its whole Q (`BNH`). A statement with an error breaks a [`Rule`].
#![tactic(auto)]

mod operation;
mod rule;
mod table;

pub use operation::{Declarative, Operation};
pub use rule::{Rule, Sentence};
pub use table::{lookup, operation_law};

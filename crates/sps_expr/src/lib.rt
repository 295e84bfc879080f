//! Symbols and expressions of the assembler.
//!
//! An expression is numbers, names, which may have a head, and the location `*`, joined by `+`, `-` and `*`. `Symbols` is the
//! list of the symbols that statements have defined. `value` evaluates a part of a statement as an expression, or gives the rule
//! that the part breaks. `Scope` holds all that the value depends on, except the part itself.
#![tactic(auto)]

mod arithmetic;
mod by_name;
mod expression;
mod scope;
mod symbols;
mod word;

pub use expression::value;
pub use scope::Scope;
pub use symbols::Symbols;
pub use word::is_name;

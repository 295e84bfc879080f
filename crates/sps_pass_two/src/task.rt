// A statement with its context, before the assembler checks its rules.
use sps_expr::Symbols;
use sps_pass_one::{LookedUp, Place};

/// A statement of the second pass, with all that determines its digits and the rules that it breaks.
///
/// Source: this project's own.
#[derive(Clone, Copy)]
pub(crate) struct Task<'s> {
    /// The statement with its operation.
    pub statement: &'s LookedUp<'s>,
    /// Its place.
    pub place: Place,
    /// Its number; the first statement has 1.
    pub number: u32,
    /// Whether a DEND that counts is before it.
    pub ended: bool,
    /// The head in force.
    pub head: Option<u8>,
    /// The symbols of the source.
    pub symbols: &'s Symbols,
    /// How many positions core has.
    pub positions: u64,
}

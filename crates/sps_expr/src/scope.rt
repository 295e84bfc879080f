// The scope in which an expression is evaluated.
use crate::symbols::Symbols;

/// The scope of an expression: the meaning of its names and of `*`, and the statement before which names must have been defined.
///
/// Source: SPS manual, symbols, HEAD and the location counter.
#[derive(Clone, Copy)]
pub struct Scope<'s> {
    /// The head in force, a letter or digit, or `None` if no head is in force.
    pub head: Option<u8>,
    /// The symbols that are known.
    pub symbols: &'s Symbols,
    /// The location that is the value of `*`, in core positions.
    pub here: i64,
    /// The number of the statement before which names must have been defined; `None` if a name may be any statement's label.
    pub before: Option<u32>,
}

// The lines of a text; each line is read as an item.
// Source: this project's own.
ghost use Rattle.std.specs.Prelude.{◌≡◌, ℕ, List, Option, All, IfOk, IfSome};
ghost use Rattle.operator_script.specs.Lines.{ReadsLines};
ghost use Rattle.operator_script.specs.declared.lines.LineFault.TheVariants.{Memory};

use outside_io::split_line;
use std::alloc::{AllocError, Global};
use std::vec::Vec;
use thiserror::Error;

/// How a line is read.
pub trait LineGrammar {
    /// The type of the item that a line is read as.
    type Item: Drop;

    /// The item in the text of a line.
    ghost item_of: { Self → List ℕ → Option Self.Item };

    /// What holds for each item, for example the ranges of its numbers.
    ghost IsItem: { Self → Self.Item → Type 0 };

    /// The item in the text of a line; `None` for a text outside the grammar.
    fn read_line(&self, text: &[u8]) -> Option<Self::Item>
        ensures value { result ≡ item_of self.now text.now }
        ensures fits { IfSome result (IsItem self.now) };
}

/// Why lines were not read.
#[derive(Debug, Drop, Error)]
pub enum LineFault {
    /// The first line outside the grammar, by its number; all lines are counted, from 1.
    #[error("bad line {0}")]
    BadLine(u64),
    /// There was no memory for the items.
    #[error("out of memory")]
    Memory,
}

impl From<AllocError> for LineFault {
    ghost from_gives = { λ _ e. e ≡ Memory };

    fn from(_: AllocError) -> Self {
        LineFault::Memory
    }
}

/// Reads the lines of some bytes as items, in their order.
///
/// A line ends with a LF; a last line without LF counts if it has a byte. One CR at a line's end is dropped. Empty lines are
/// passed over; each other line is read by the grammar.
///
/// The errors are the first line outside the grammar, by its number, and want of memory for the items.
pub fn read_lines<G: LineGrammar>(
    alloc: Global,
    grammar: &G,
    bytes: &[u8],
) -> Result<Vec<G::Item>, LineFault>
    ensures lines { ReadsLines (G.item_of grammar.now) bytes.now result }
    ensures fits { IfOk result (λ items. All (G.IsItem grammar.now) items.items) }
{
    let mut items = Vec::new(alloc);
    let mut number = 0;
    let mut rest = bytes;
    while let Some((text, behind)) = split_line(rest) {
        number += 1;
        rest = behind;
        if text.is_empty() {
            continue;
        }
        let Some(item) = grammar.read_line(text) else {
            return Err(LineFault::BadLine(number));
        };
        items.push(item).map_err(AllocError::from)?;
    }
    Ok(items)
}

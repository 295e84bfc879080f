// The result of assembling a source.
// Source: this project's own.
ghost use Rattle.std.specs.Prelude.{◌≡◌, ◌≤◌, length};
ghost use Rattle.sps_pass_two.specs.Kept.{IsProgram};
ghost use Rattle.sps_pass_two.specs.declared.assembled.AsmFault.TheVariants.{Memory};
ghost use Rattle.sps_pass_one.specs.Layout.{most_statements};

use crate::image::{Digits, Image};
use sps_ops::Rule;
use std::alloc::AllocError;
use std::marker::Model;
use thiserror::Error;

/// A placed statement of the source.
#[derive(Drop)]
pub struct Placed {
    /// The address that the listing shows; the location for a comment or a blank line.
    pub address: i64,
    /// Whether the operation is an instruction.
    pub instruction: bool,
    /// The digits that the statement declares, rising by address.
    pub digits: Digits,
}

/// Placed statements in their order.
///
/// Contracts see the list of the statements.
#[derive(Drop)]
pub struct PlacedList(Vec<Placed>);

impl Model for PlacedList {
    ghost use Rattle.std.specs.Prelude.{List};
    ghost use Rattle.sps_pass_two.specs.declared.assembled.Placed.{Placed};

    ghost Value = { List Placed };

    ghost view = { λ p. p.0.items };
}

impl PlacedList {
    /// These statements.
    pub fn from_vec(placed: Vec<Placed>) -> PlacedList
        ensures { result ≡ placed.items }
    {
        PlacedList(placed)
    }

    /// The statements.
    pub fn as_slice(&self) -> &[Placed]
        ensures { result.now ≡ self.now }
    {
        self.0.as_slice()
    }
}

/// The result of assembling a source that breaks no rule.
///
/// No address below 00100 is declared, and the image has a gap between any two pieces. The start is even, 00400 to 59988. There
/// are at most 20,000 statements.
#[derive(Drop)]
pub struct Assembled {
    /// The digits that the statements declare.
    pub image: Image,
    /// The address of the first instruction that is executed.
    pub start: u32,
    /// One entry for each statement.
    pub placed: PlacedList,
    ghost program: { IsProgram image.pieces start },
    ghost few: { length placed ≤ most_statements },
}

/// Why a source was not assembled.
#[derive(Debug, Drop, Error)]
pub enum AsmFault {
    /// A statement breaks a rule.
    #[error("statement {statement} breaks a rule")]
    Broken {
        /// The first statement that breaks one.
        statement: u32,
        /// The least rule that it breaks.
        rule: Rule,
        /// The place of the first of the statement's operand parts that breaks the rule, from 0, for the rules about a part; `None`
        /// for all others.
        part: Option<u8>,
    },
    /// There was no memory.
    #[error("out of memory")]
    Memory,
}

impl From<AllocError> for AsmFault {
    ghost from_gives = { λ _ e. e ≡ Memory };

    fn from(_: AllocError) -> Self {
        AsmFault::Memory
    }
}

// The operator's script.
ghost use Rattle.std.specs.Prelude.{◌≡◌, All, IfOk, IfSome};
ghost use Rattle.operator_script.specs.Scripts.{ReadsAsScript, IsAction, IsLine, script_fault_of, lines_left};
ghost use Rattle.operator_script.specs.Script.{action_of, line_at_count, line_of};
ghost use Rattle.line_words.specs.Words.{words_of};
ghost use Rattle.operator_script.specs.declared.script.ScriptFault.TheVariants.{Memory};

use crate::lines::{LineFault, LineGrammar, read_lines};
use line_words::{alone, cut_word, number, number_below, number_in, one_of, one_word, two_words};
use std::alloc::{AllocError, Global};
use std::vec::Vec;
use thiserror::Error;

/// When a line of the script is due.
///
/// Source: this project's own.
#[derive(Clone, Copy, Debug, PartialEq, Eq)]
pub enum Due {
    /// `AT n`: once this many steps were made.
    At(u64),
    /// `HALT`: when the machine is halted.
    Halt,
}

/// What the operator does at the console.
///
/// Source: CPU manual, console keys and switches.
#[derive(Clone, Copy, Debug, PartialEq, Eq)]
pub enum Action {
    /// `START`: the Start key. A halted machine runs on; a running one is left alone.
    Start,
    /// `LOAD`: the Load key.
    Load,
    /// `SWITCH k ON`, `SWITCH k OFF`: a program switch is turned.
    Switch {
        /// The switch, 1 to 4.
        number: u8,
        /// Whether it is turned on.
        on: bool,
    },
    /// `OVERFLOW STOP`, `OVERFLOW PROGRAM`: the overflow check switch is turned.
    Overflow {
        /// Whether it is turned to STOP.
        stops: bool,
    },
    /// `IO STOP`, `IO PROGRAM`: the I/O check switch is turned.
    InOut {
        /// Whether it is turned to STOP.
        stops: bool,
    },
    /// `FLIP a b`: one bit of a cell of core is flipped, as a failing core might do. Source:
    /// this project's own, to show what the parity check does.
    Flip {
        /// The cell's address, below the number of core's positions.
        at: u32,
        /// The bit: 0 to 5 for the bits 1, 2, 4, 8, F and C.
        bit: u8,
    },
}

/// A line of the script: an action, and when it is due.
///
/// Source: this project's own.
#[derive(Clone, Copy, Debug, PartialEq, Eq)]
pub struct ScriptLine {
    /// When it is due.
    pub due: Due,
    /// What is done then.
    pub action: Action,
}

/// Why a script was not read.
///
/// Source: this project's own.
#[derive(Debug, Drop, Error)]
pub enum ScriptFault {
    /// The first line outside the grammar, by its number; all lines are counted, from 1.
    #[error("bad line {0}")]
    BadLine(u64),
    /// There was no memory for the lines.
    #[error("out of memory")]
    Memory,
}

impl From<AllocError> for ScriptFault {
    ghost from_gives = { λ _ e. e ≡ Memory };

    fn from(_: AllocError) -> Self {
        ScriptFault::Memory
    }
}

impl From<LineFault> for ScriptFault {
    ghost from_gives = { λ fault e. e ≡ script_fault_of fault };

    fn from(fault: LineFault) -> Self {
        match fault {
            LineFault::BadLine(line) => ScriptFault::BadLine(line),
            LineFault::Memory => ScriptFault::Memory,
        }
    }
}

// How script lines are read, for a core of `positions` positions.
#[derive(Drop)]
struct ScriptGrammar {
    positions: u32,
}

impl LineGrammar for ScriptGrammar {
    type Item = ScriptLine;

    ghost item_of = { λ grammar. line_of grammar.positions };

    ghost IsItem = { λ grammar. IsLine grammar.positions };

    fn read_line(&self, text: &[u8]) -> Option<ScriptLine> {
        line_of(text, self.positions)
    }
}

/// The operator's script: its lines. Some of them may have acted.
///
/// Source: this project's own.
#[derive(Drop)]
pub struct Script {
    pub(crate) lines: Vec<ScriptLine>,
    pub(crate) front: usize,
}

impl Script {
    /// Reads a script, for a core of `positions` positions.
    ///
    /// A line ends with a LF; a last line without LF counts if it has a byte. One CR at a
    /// line's end is dropped. Empty lines are passed over. Each other line is words with one blank
    /// between them and no blank at its ends: `AT n` and an action, or `HALT` and an action. An action
    /// is `START`, `LOAD`, `SWITCH k ON`, `SWITCH k OFF`, `OVERFLOW STOP`, `OVERFLOW PROGRAM`,
    /// `IO STOP`, `IO PROGRAM` or `FLIP a b`. A number has 1 to 15 decimal digits: the count n, the
    /// switch k, which is 1 to 4, the address a, which is below the number of positions, and the
    /// bit b, 0 to 5 for the bits 1, 2, 4, 8, F and C. Words are in capitals.
    ///
    /// The errors are the first line outside this grammar, by its number, and want of memory for
    /// the lines. An address outside core and a bit outside the cell are outside the grammar.
    /// Source: this project's own.
    pub fn read(alloc: Global, bytes: &[u8], positions: u32) -> Result<Script, ScriptFault>
        ensures lines { ReadsAsScript positions bytes.now result }
        ensures fits { IfOk result (λ script. All (IsLine positions) (lines_left script)) }
    {
        let lines = read_lines(alloc, &ScriptGrammar { positions }, bytes)?;
        Ok(Script { lines, front: 0 })
    }

    /// The lines that have not acted yet, in their order.
    ///
    /// Source: this project's own.
    pub fn lines_left(&self) -> &[ScriptLine]
        ensures { result.now ≡ lines_left self.now }
    {
        self.lines.get(self.front..).unwrap_or_default()
    }
}

// The line of a text: `AT n action` or `HALT action`.
fn line_of(text: &[u8], positions: u32) -> Option<ScriptLine>
    ensures value { result ≡ line_of positions text.now }
    ensures fits { IfSome result (IsLine positions) }
{
    let (word, behind) = cut_word(text);
    if word == b"AT".as_slice() {
        line_at_count(behind?, positions)
    } else if word == b"HALT".as_slice() {
        let action = action_of(behind?, positions)?;
        Some(ScriptLine {
            due: Due::Halt,
            action,
        })
    } else {
        None
    }
}

// The text after `AT`: `n action`.
fn line_at_count(text: &[u8], positions: u32) -> Option<ScriptLine>
    ensures value { result ≡ line_at_count positions (words_of text.now) }
    ensures fits { IfSome result (IsLine positions) }
{
    let (word, behind) = cut_word(text);
    let count = number(word)?;
    let action = action_of(behind?, positions)?;
    Some(ScriptLine {
        due: Due::At(count),
        action,
    })
}

// The action in a text: its word, and the arguments after it.
fn action_of(text: &[u8], positions: u32) -> Option<Action>
    ensures value { result ≡ action_of positions (words_of text.now) }
    ensures fits { IfSome result (IsAction positions) }
{
    let (word, behind) = cut_word(text);
    if word == b"START".as_slice() {
        alone(Action::Start, behind)
    } else if word == b"LOAD".as_slice() {
        alone(Action::Load, behind)
    } else if word == b"SWITCH".as_slice() {
        let (number, place) = two_words(behind)?;
        let number = number_in(1, 4, number)? as u8;
        let on = one_of(b"ON", b"OFF", place)?;
        Some(Action::Switch { number, on })
    } else if word == b"OVERFLOW".as_slice() {
        let stops = one_of(b"STOP", b"PROGRAM", one_word(behind)?)?;
        Some(Action::Overflow { stops })
    } else if word == b"IO".as_slice() {
        let stops = one_of(b"STOP", b"PROGRAM", one_word(behind)?)?;
        Some(Action::InOut { stops })
    } else if word == b"FLIP".as_slice() {
        let (at, bit) = two_words(behind)?;
        let at = number_below(positions, at)?;
        let bit = number_in(0, 5, bit)? as u8;
        Some(Action::Flip { at, bit })
    } else {
        None
    }
}

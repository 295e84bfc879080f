// The debugger's commands.
// Source: this project's own.
ghost use Rattle.std.specs.Prelude.{◌≡◌, [], All, IfOk, IfSome, count_by};
ghost use Rattle.console_debug.specs.CommandLists.{ReadsAsCommands, IsCommand, HasBreakRoom, breakpoints, command_list, command_fault_of};
ghost use Rattle.console_debug.specs.Grammar.{command_of, is_break};
ghost use Rattle.console_debug.specs.declared.commands.CommandFault.TheVariants.{Memory};

use crate::breaks::Breaks;
use line_words::{alone, cut_word, number, number_in, one_word, span_below, two_words};
use operator_script::{LineFault, LineGrammar, read_lines};
use std::alloc::{AllocError, Global};
use std::vec::Vec;
use thiserror::Error;

// How many cells one command shows at most.
const MOST_SHOWN: u32 = 1_000;

// How many places one command goes back at most.
const MOST_BACK: u64 = 1_000;

/// A command of the debugger.
///
/// Statements are counted from 1; addresses and cells are in core.
#[derive(Clone, Copy, Debug, PartialEq, Eq)]
pub enum DebugCommand {
    /// `GO`: run up to a breakpoint, or to the end of the run.
    Go,
    /// `STEP n`: execute n instructions, or go to the end of the run.
    Step(u64),
    /// `BACK n`: go back n places, 1 to 1,000.
    Back(u64),
    /// `BREAK s`: set the breakpoint of a statement.
    Break(u64),
    /// `CLEAR s`: clear the breakpoint of a statement.
    Clear(u64),
    /// `SHOW a n`: show cells of core.
    Show {
        /// The address of the first cell.
        at: u32,
        /// How many cells, 1 to 1,000.
        count: u32,
    },
    /// `QUIT`: end the session.
    Quit,
}

/// Why commands were not read.
#[derive(Debug, Drop, Error)]
pub enum CommandFault {
    /// The first line outside the grammar, by its number; all lines are counted, from 1.
    #[error("bad line {0}")]
    BadLine(u64),
    /// There was no memory for the commands and their breakpoints.
    #[error("out of memory")]
    Memory,
}

impl From<AllocError> for CommandFault {
    ghost from_gives = { λ _ e. e ≡ Memory };

    fn from(_: AllocError) -> Self {
        CommandFault::Memory
    }
}

impl From<LineFault> for CommandFault {
    ghost from_gives = { λ fault e. e ≡ command_fault_of fault };

    fn from(fault: LineFault) -> Self {
        match fault {
            LineFault::BadLine(line) => CommandFault::BadLine(line),
            LineFault::Memory => CommandFault::Memory,
        }
    }
}

// How command lines are read, for a core of `positions` positions.
#[derive(Drop)]
struct CommandGrammar {
    positions: u32,
}

impl LineGrammar for CommandGrammar {
    type Item = DebugCommand;

    ghost item_of = { λ grammar. command_of grammar.positions };

    ghost IsItem = { λ grammar. IsCommand grammar.positions };

    fn read_line(&self, text: &[u8]) -> Option<DebugCommand> {
        command_of(text, self.positions)
    }
}

/// The debugger's commands, and the statements whose breakpoints are set.
#[derive(Drop)]
pub struct Commands {
    pub(crate) list: Vec<DebugCommand>,
    pub(crate) breaks: Breaks,
}

impl Commands {
    /// Reads the debugger's commands, for a core of `positions` positions.
    ///
    /// A line ends with a LF; a last line without LF counts if it has a byte. One CR at a line's end is dropped. Empty lines
    /// are passed over. Each other line is words with one blank between them and no blank at its ends: `GO`, `STEP n`, `BACK n`,
    /// `BREAK s`, `CLEAR s`, `SHOW a n` or `QUIT`. A number has 1 to 15 decimal digits; the n of `BACK` is 1 to 1,000. `SHOW` shows 1 to
    /// 1,000 cells, all in core. Words are in capitals.
    ///
    /// No breakpoint is set at first. There is room for one breakpoint for each `BREAK`, and for a session's tables of breakpoints by
    /// statement and by address.
    ///
    /// The errors are the first line outside this grammar, by its number, and want of memory for the commands and that room.
    pub fn read(alloc: Global, bytes: &[u8], positions: u32) -> Result<Commands, CommandFault>
        ensures lines { ReadsAsCommands positions bytes.now result }
        ensures fits { IfOk result (λ commands. All (IsCommand positions) (command_list commands)) }
        ensures none_set { IfOk result (λ commands. breakpoints commands ≡ []) }
        ensures room { IfOk result HasBreakRoom }
    {
        let list = read_lines(alloc, &CommandGrammar { positions }, bytes)?;
        let breaks = Breaks::with_room(alloc, count_breaks(&list), positions)?;
        Ok(Commands { list, breaks })
    }

    /// The commands, in their order.
    pub fn list(&self) -> &[DebugCommand]
        ensures { result.now ≡ command_list self.now }
    {
        &self.list
    }

    /// The statements whose breakpoints are set.
    pub fn breakpoints(&self) -> &[u64]
        ensures { result.now ≡ breakpoints self.now }
    {
        &self.breaks.statements
    }
}

// How many breakpoints the commands set.
fn count_breaks(list: &[DebugCommand]) -> usize
    ensures { result ≡ count_by is_break list.now }
{
    list.iter().filter(|command| is_break(**command)).count()
}

// Whether a command is `BREAK s`.
fn is_break(command: DebugCommand) -> bool
    ensures { result ≡ is_break command }
{
    matches!(command, DebugCommand::Break(_))
}

// The command in a text: its word, and the arguments after it.
fn command_of(text: &[u8], positions: u32) -> Option<DebugCommand>
    ensures value { result ≡ command_of positions text.now }
    ensures fits { IfSome result (IsCommand positions) }
{
    let (word, behind) = cut_word(text);
    if word == b"GO".as_slice() {
        alone(DebugCommand::Go, behind)
    } else if word == b"STEP".as_slice() {
        Some(DebugCommand::Step(number(one_word(behind)?)?))
    } else if word == b"BACK".as_slice() {
        Some(DebugCommand::Back(number_in(1, MOST_BACK, one_word(behind)?)?))
    } else if word == b"BREAK".as_slice() {
        Some(DebugCommand::Break(number(one_word(behind)?)?))
    } else if word == b"CLEAR".as_slice() {
        Some(DebugCommand::Clear(number(one_word(behind)?)?))
    } else if word == b"SHOW".as_slice() {
        let (at, count) = two_words(behind)?;
        let cells = span_below(positions, MOST_SHOWN, at, count)?;
        Some(DebugCommand::Show {
            at: cells.first,
            count: cells.count,
        })
    } else if word == b"QUIT".as_slice() {
        alone(DebugCommand::Quit, behind)
    } else {
        None
    }
}

// How a call of the program ends.
// Source: this project's own.
ghost use Rattle.std.specs.Prelude.{◌≡◌};
ghost use Rattle.ibm1620_cli.specs.Report.{assembled_line, exit_code_of, placed_line, report_line};

use addr_indirect::Stop;
use arrayvec::ArrayString;
use outside_io::Unit;
use report_lines::{
    LONGEST_LINE, check_line, counted_line, halt_line, jam_line, limit_line, need_cards_line,
    need_keys_line, push_count, push_number, text_line, unit_line,
};
use sps_listing::short_refusal_line;
use sps_ops::Rule;

/// How a call of the program ends.
#[derive(Clone, Copy, Debug, PartialEq, Eq)]
pub enum Status {
    /// Code 0: the machine halted.
    Halted {
        /// The address of the halt instruction.
        at: u32,
        /// How many instructions were executed.
        steps: u64,
    },
    /// Code 0: the source was assembled.
    Assembled {
        /// How many statements it has, comments and blank lines included.
        statements: u32,
        /// How many addresses it declares.
        digits: u32,
        /// How many cards its object deck has.
        cards: u32,
    },
    /// Code 0: a source was made.
    Generated {
        /// How many statements it has.
        statements: u32,
    },
    /// Code 0: the source's image was written to the disk pack.
    Placed {
        /// How many sectors were written.
        sectors: u32,
        /// How many cards its bootstrap deck has.
        cards: u32,
    },
    /// Code 1: a statement of the source breaks a rule.
    Refused {
        /// The number of the first statement that breaks a rule, counted from 1.
        statement: u32,
        /// The least rule that it breaks.
        rule: Rule,
    },
    /// Code 2: the words are not plain.
    Usage,
    /// Code 3: an instruction stopped the machine.
    CheckStop {
        /// Why.
        kind: Stop,
        /// The address of the instruction.
        at: u32,
        /// How many instructions were executed, this one included.
        steps: u64,
    },
    /// Code 4: the limit of steps was reached, and the machine would run on.
    Limit {
        /// How many instructions were executed.
        steps: u64,
    },
    /// Code 5: a card was to be read, and none was left.
    NeedCards {
        /// The address of the instruction; 00000 if the Load key found no card.
        at: u32,
        /// How many instructions were executed, the last one included.
        steps: u64,
    },
    /// Code 6: a line of the keyboard was to be read, and none was left.
    NeedKeys {
        /// The address of the instruction.
        at: u32,
        /// How many instructions were executed, the last one included.
        steps: u64,
    },
    /// Code 7: the host failed, for example because a file is missing.
    HostFault,
    /// Code 8: there was no memory.
    OutOfMemory,
    /// Code 9: the line to be read is over 80 bytes.
    Jam {
        /// The line's unit.
        unit: Unit,
        /// Its number in the unit, counted from 1.
        line: u64,
    },
    /// Code 10: the operator's script has a line outside its grammar.
    BadScript {
        /// The number of the first bad line, counted from 1.
        line: u64,
    },
    /// Code 11: an input has too many bytes.
    TooLong {
        /// The input's unit.
        unit: Unit,
    },
    /// Code 12: the debugger's commands were carried out, up to `QUIT` or their end.
    SessionEnded,
    /// Code 13: the debugger's commands have a line outside their grammar.
    BadCommand {
        /// The number of the first bad line, counted from 1.
        line: u64,
    },
}

impl Status {
    /// The code that the program ends with, 0 to 13.
    pub fn code(&self) -> u8
        ensures { result ≡ exit_code_of self.now }
    {
        match self {
            Status::Halted { .. } => 0,
            Status::Assembled { .. } => 0,
            Status::Generated { .. } => 0,
            Status::Placed { .. } => 0,
            Status::Refused { .. } => 1,
            Status::Usage => 2,
            Status::CheckStop { .. } => 3,
            Status::Limit { .. } => 4,
            Status::NeedCards { .. } => 5,
            Status::NeedKeys { .. } => 6,
            Status::HostFault => 7,
            Status::OutOfMemory => 8,
            Status::Jam { .. } => 9,
            Status::BadScript { .. } => 10,
            Status::TooLong { .. } => 11,
            Status::SessionEnded => 12,
            Status::BadCommand { .. } => 13,
        }
    }

    /// The report line, with its LF; it is empty after a fault of the host and if memory was lacking, since nothing is reported
    /// then. The line of a refusal has the statement's number and the rule; its details of the statement are on Report alone.
    pub fn line(&self) -> ArrayString<LONGEST_LINE>
        ensures { result.bytes ≡ report_line self.now }
    {
        match *self {
            Status::Halted { at, steps } => halt_line(at, steps),
            Status::Assembled {
                statements,
                digits,
                cards,
            } => assembled_line(statements, digits, cards),
            Status::Generated { statements } => {
                counted_line("GENERATED STATEMENTS ", u64::from(statements))
            }
            Status::Placed { sectors, cards } => placed_line(sectors, cards),
            Status::Refused { statement, rule } => short_refusal_line(statement, rule),
            Status::Usage => text_line("USAGE"),
            Status::CheckStop { kind, at, steps } => check_line(kind, at, steps),
            Status::Limit { steps } => limit_line(steps),
            Status::NeedCards { at, steps } => need_cards_line(at, steps),
            Status::NeedKeys { at, steps } => need_keys_line(at, steps),
            Status::Jam { unit, line } => jam_line(unit, line),
            Status::BadScript { line } => counted_line("BAD SCRIPT ", line),
            Status::TooLong { unit } => unit_line("TOO LONG ", unit),
            Status::SessionEnded => text_line("SESSION ENDED"),
            Status::BadCommand { line } => counted_line("BAD COMMAND ", line),
            Status::HostFault | Status::OutOfMemory => ArrayString::new(),
        }
    }
}

// The line of a source that was assembled.
fn assembled_line(statements: u32, digits: u32, cards: u32) -> ArrayString<LONGEST_LINE>
    ensures { result.bytes ≡ assembled_line statements digits cards }
{
    let mut line = ArrayString::new();
    line.push_str("ASSEMBLED STATEMENTS ");
    push_number(&mut line, statements);
    line.push_str(" DIGITS ");
    push_number(&mut line, digits);
    line.push_str(" CARDS ");
    push_count(&mut line, u64::from(cards));
    line
}

// The line of an image that was written to the disk pack.
fn placed_line(sectors: u32, cards: u32) -> ArrayString<LONGEST_LINE>
    ensures { result.bytes ≡ placed_line sectors cards }
{
    let mut line = ArrayString::new();
    line.push_str("PLACED SECTORS ");
    push_number(&mut line, sectors);
    line.push_str(" CARDS ");
    push_count(&mut line, u64::from(cards));
    line
}

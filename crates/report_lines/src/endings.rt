// The lines of a run's end.
// Source: this project's own.
ghost use Rattle.std.specs.Prelude.{◌≡◌};
ghost use Rattle.report_lines.specs.Endings.{halt_line, check_line, limit_line, need_cards_line, need_keys_line, jam_line};

use crate::lines::{counted_line, steps_line};
use crate::numbers::{LONGEST_LINE, push_at_steps, push_count, push_padded};
use crate::units::push_unit;
use addr_indirect::Stop;
use arrayvec::ArrayString;
use outside_io::Unit;

/// The line of a halt, with its LF: `HALT`, the address of the halt instruction in five digits, `STEPS` and the count of executed
/// instructions.
pub fn halt_line(at: u32, steps: u64) -> ArrayString<LONGEST_LINE>
    ensures { result.bytes ≡ halt_line at steps }
{
    steps_line("HALT ", at, steps)
}

/// The line of a check stop, with its LF: `CHECK`, the stop's number in two digits, the address of the instruction in five digits,
/// `STEPS` and the count of executed instructions.
pub fn check_line(kind: Stop, at: u32, steps: u64) -> ArrayString<LONGEST_LINE>
    ensures { result.bytes ≡ check_line kind at steps }
{
    let mut line = ArrayString::new();
    line.push_str("CHECK ");
    push_padded(&mut line, 2, u32::from(kind.number()));
    line.push_str(" ");
    push_at_steps(&mut line, at, steps);
    line
}

/// The line of a run that reached its limit, with its LF: `LIMIT STEPS` and the count of executed instructions.
pub fn limit_line(steps: u64) -> ArrayString<LONGEST_LINE>
    ensures { result.bytes ≡ limit_line steps }
{
    counted_line("LIMIT STEPS ", steps)
}

/// The line of a run without a card left to be read, with its LF: `NEED CARDS`, the address of the instruction in five digits, `STEPS`
/// and the count of executed instructions.
pub fn need_cards_line(at: u32, steps: u64) -> ArrayString<LONGEST_LINE>
    ensures { result.bytes ≡ need_cards_line at steps }
{
    steps_line("NEED CARDS ", at, steps)
}

/// The line of a run without a line of the keyboard left to be read, with its LF: `NEED KEYS`, the address of the instruction in five
/// digits, `STEPS` and the count of executed instructions.
pub fn need_keys_line(at: u32, steps: u64) -> ArrayString<LONGEST_LINE>
    ensures { result.bytes ≡ need_keys_line at steps }
{
    steps_line("NEED KEYS ", at, steps)
}

/// The line of an input's line that is too long, with its LF: `JAM`, the unit's name and the line's number.
///
/// `number` counts the unit's lines from 1.
pub fn jam_line(unit: Unit, number: u64) -> ArrayString<LONGEST_LINE>
    ensures { result.bytes ≡ jam_line unit number }
{
    let mut line = ArrayString::new();
    line.push_str("JAM ");
    push_unit(&mut line, unit);
    line.push_str(" ");
    push_count(&mut line, number);
    line
}

// The lines that a debugger prints, and the line of a run's end.
ghost use Rattle.std.specs.Prelude.{◌≡◌, ◌≤◌, ◌+◌, ◌++◌, ◌∷◌, [], length, IfOk, List};
ghost use Rattle.digit_core.specs.{IsGood, size};
ghost use Rattle.report_lines.specs.Numbers.{digits_to_width};
ghost use Rattle.sps_pass_two.specs.Assembled.{PlacedText};
ghost use Rattle.console_debug.specs.Grammar.{most_shown};
ghost use Rattle.console_debug.specs.Lines.{ending_line, at_line, break_line, no_back_line, no_statement_line, show_line, shown_cell, statement_number};

use arrayvec::{ArrayString, ArrayVec};
use card_code::object_char;
use digit_core::{CellFault, Core, Digit};
use operator_script::Ending;
use report_lines::{
    LONGEST_LINE, check_line, counted_line, halt_line, jam_line, limit_line, need_cards_line,
    need_keys_line, push_at_steps, push_padded, steps_line,
};

// Room for an address of at most ten digits, a blank, a thousand cells and LF.
pub(crate) const LONGEST_SHOWN: usize = 1024;

/// The line of a run's end, with its LF: how the run ended, the address that belongs to it in five digits, and `STEPS` with the count of
/// executed instructions. It is empty after a fault of the host.
///
/// `steps` is that count. The line of a check stop also has the stop's number in two digits. The line of a jam has the unit and the number
/// of the input line that is too long, instead of an address and steps. A run that reached its limit has no address.
/// Source: this project's own.
pub fn ending_line(how: Ending, steps: u64) -> ArrayString<LONGEST_LINE>
    ensures { result.bytes ≡ ending_line how steps }
{
    match how {
        Ending::Halted { at } => halt_line(at, steps),
        Ending::Stopped { kind, at } => check_line(kind, at, steps),
        Ending::Limit => limit_line(steps),
        Ending::NeedCards { at } => need_cards_line(at, steps),
        Ending::NeedKeys { at } => need_keys_line(at, steps),
        Ending::Jam { unit, line } => jam_line(unit, line),
        Ending::Failed => ArrayString::new(),
    }
}

// The line of STEP before the instruction at an address is executed.
pub(crate) fn at_line(at: u32, steps: u64) -> ArrayString<LONGEST_LINE>
    ensures { result.bytes ≡ at_line at steps }
{
    steps_line("AT ", at, steps)
}

// The line of a breakpoint at an address. `statement` is the number of the last instruction there, or 0 without an instruction.
pub(crate) fn break_line(statement: u32, at: u32, steps: u64) -> ArrayString<LONGEST_LINE>
    ensures { (placed : List PlacedText) → statement ≡ statement_number placed at → result.bytes ≡ break_line placed at steps }
{
    let mut line = ArrayString::new();
    line.push_str("BREAK ");
    push_padded(&mut line, 5, statement);
    line.push_str(" ");
    push_at_steps(&mut line, at, steps);
    line
}

// The line of a statement that is no instruction.
pub(crate) fn no_statement_line(statement: u64) -> ArrayString<LONGEST_LINE>
    ensures { result.bytes ≡ no_statement_line statement }
{
    counted_line("NO STATEMENT ", statement)
}

// The line of a BACK over n places that is not possible.
pub(crate) fn no_back_line(n: u64) -> ArrayString<LONGEST_LINE>
    ensures { result.bytes ≡ no_back_line n }
{
    counted_line("NO BACK ", n)
}

// The line of some cells from an address on.
pub(crate) fn show_line<const M: u32>(
    core: &Core<M>,
    at: u32,
    count: u32,
) -> ArrayVec<u8, LONGEST_SHOWN>
    requires within { at + count ≤ size M }
    requires few { count ≤ most_shown }
    ensures { result.items ≡ show_line core.now at count }
{
    core.size_law();
    let mut line = ArrayVec::new();
    for byte in address_text(at).as_bytes() {
        line.push(*byte);
    }
    for address in at..at + count {
        line.push(shown_cell(core.get(address)));
    }
    line.push(b'\n');
    line
}

// An address in five digits, and a blank.
fn address_text(at: u32) -> ArrayString<LONGEST_LINE>
    ensures bytes { result.bytes ≡ digits_to_width 5 at ++ 32 ∷ [] }
    ensures short { length result.bytes ≤ 11 }
{
    let mut text = ArrayString::new();
    push_padded(&mut text, 5, at);
    text.push_str(" ");
    text
}

// A cell as an object character; a bad cell is `?`.
fn shown_cell(cell: Result<Digit, CellFault>) -> u8
    requires { IfOk cell IsGood }
    ensures { result ≡ shown_cell cell }
{
    match cell {
        Ok(digit) => object_char(digit),
        Err(_) => b'?',
    }
}

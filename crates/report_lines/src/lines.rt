// Whole lines: a text, with nothing, a count, an address or a unit's name after it.
// Source: this project's own.
ghost use Rattle.std.specs.Prelude.{◌≡◌, ◌≤◌, ◌+◌, ◌++◌, length};
ghost use Rattle.outside_io.specs.Lines.{with_line_feed};
ghost use Rattle.report_lines.specs.Numbers.{at_count, at_steps};
ghost use Rattle.report_lines.specs.Units.{unit_name};
ghost use Rattle.report_lines.specs.declared.numbers.TheConstants.{LONGEST_LINE};

use crate::numbers::{LONGEST_LINE, push_at_steps, push_count};
use crate::units::push_unit;
use arrayvec::ArrayString;
use outside_io::Unit;

/// The line of a text, with its LF.
///
/// The text has at most 89 bytes.
pub fn text_line(text: &str) -> ArrayString<LONGEST_LINE>
    requires { length text.now + 1 ≤ LONGEST_LINE }
    ensures { result.bytes ≡ with_line_feed text.now }
{
    let mut line = ArrayString::new();
    line.push_str(text);
    line.push_str("\n");
    line
}

/// The line of a text and a count, with its LF.
///
/// The text has at most 69 bytes, the blank before the count included.
pub fn counted_line(text: &str, n: u64) -> ArrayString<LONGEST_LINE>
    requires { length text.now + 21 ≤ LONGEST_LINE }
    ensures { result.bytes ≡ text.now ++ at_count n }
{
    let mut line = ArrayString::new();
    line.push_str(text);
    push_count(&mut line, n);
    line
}

/// The line of a text, an address in five digits, and a count of steps, with its LF.
///
/// The text has at most 52 bytes, the blank before the address included.
pub fn steps_line(text: &str, at: u32, steps: u64) -> ArrayString<LONGEST_LINE>
    requires { length text.now + 38 ≤ LONGEST_LINE }
    ensures { result.bytes ≡ text.now ++ at_steps at steps }
{
    let mut line = ArrayString::new();
    line.push_str(text);
    push_at_steps(&mut line, at, steps);
    line
}

/// The line of a text and a unit's name, with its LF.
///
/// The text has at most 81 bytes, the blank before the name included.
pub fn unit_line(text: &str, unit: Unit) -> ArrayString<LONGEST_LINE>
    requires { length text.now + 9 ≤ LONGEST_LINE }
    ensures { result.bytes ≡ text.now ++ with_line_feed (unit_name unit) }
{
    let mut line = ArrayString::new();
    line.push_str(text);
    push_unit(&mut line, unit);
    line.push_str("\n");
    line
}

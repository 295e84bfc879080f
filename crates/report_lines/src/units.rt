// The names of units in lines.
// Source: this project's own.
ghost use Rattle.std.specs.Prelude.{◌≡◌, ◌≤◌, ◌+◌, ◌++◌};
ghost use Rattle.arrayvec.specs.ArrayString.{array_string_len};
ghost use Rattle.report_lines.specs.Units.{unit_name};
ghost use Rattle.report_lines.specs.declared.numbers.TheConstants.{LONGEST_LINE};

use crate::numbers::LONGEST_LINE;
use arrayvec::ArrayString;
use outside_io::Unit;

// Adds the name of a unit: its word in capitals. The line has room for eight bytes more, and at most eight are added.
pub(crate) fn push_unit(line: &mut ArrayString<LONGEST_LINE>, unit: Unit)
    requires { array_string_len line.old + 8 ≤ LONGEST_LINE }
    ensures bytes { line.new.bytes ≡ line.old.bytes ++ unit_name unit }
    ensures len { array_string_len line.new ≤ array_string_len line.old + 8 }
{
    for letter in unit.word().as_bytes() {
        line.push(char::from(letter.to_ascii_uppercase()));
    }
}

// Numbers in lines.
// Source: this project's own.
ghost use Rattle.std.specs.Prelude.{◌≡◌, ◌≤◌, ◌+◌, ◌++◌, length, decimal};
ghost use Rattle.arrayvec.specs.ArrayString.{array_string_len};
ghost use Rattle.report_lines.specs.Numbers.{digits_to_width, zero_filled, at_count, at_steps};
ghost use Rattle.report_lines.specs.declared.numbers.TheConstants.{LONGEST_LINE};

use arrayvec::ArrayString;
use itoa::Buffer;

/// Room for the longest line that is built whole, with its LF: 90 bytes.
pub const LONGEST_LINE: usize = 90;

/// Adds a number in at least `width` digits, with zeros at the left.
///
/// The line has room for ten bytes more, and `width` is at most 10. At most ten bytes are added.
pub fn push_padded(line: &mut ArrayString<LONGEST_LINE>, width: usize, n: u32)
    requires room { array_string_len line.old + 10 ≤ LONGEST_LINE }
    requires width { width ≤ 10 }
    ensures bytes { line.new.bytes ≡ line.old.bytes ++ digits_to_width width n }
    ensures len { array_string_len line.new ≤ array_string_len line.old + 10 }
{
    let mut buffer = Buffer::new();
    push_filled(line, width, buffer.format(n));
}

/// Adds a number in at least five digits, with zeros at the left.
///
/// The line has room for twenty bytes more. At most twenty bytes are added.
pub fn push_long(line: &mut ArrayString<LONGEST_LINE>, n: u64)
    requires room { array_string_len line.old + 20 ≤ LONGEST_LINE }
    ensures bytes { line.new.bytes ≡ line.old.bytes ++ digits_to_width 5 n }
    ensures len { array_string_len line.new ≤ array_string_len line.old + 20 }
{
    let mut buffer = Buffer::new();
    push_filled(line, 5, buffer.format(n));
}

// Adds a number's digits, at least `width` of them, with zeros at the left.
fn push_filled(line: &mut ArrayString<LONGEST_LINE>, width: usize, digits: &str)
    requires zeros { array_string_len line.old + width ≤ LONGEST_LINE }
    requires digits { array_string_len line.old + length digits.now ≤ LONGEST_LINE }
    ensures { line.new.bytes ≡ line.old.bytes ++ zero_filled width digits.now }
{
    let zeros = width.saturating_sub(digits.len());
    for _zero in 0..zeros {
        line.push('0');
    }
    line.push_str(digits);
}

/// Adds a number in as many digits as it needs.
///
/// The line has room for ten bytes more. At most ten bytes are added.
pub fn push_number(line: &mut ArrayString<LONGEST_LINE>, n: u32)
    requires { array_string_len line.old + 10 ≤ LONGEST_LINE }
    ensures bytes { line.new.bytes ≡ line.old.bytes ++ decimal n }
    ensures len { array_string_len line.new ≤ array_string_len line.old + 10 }
{
    let mut buffer = Buffer::new();
    line.push_str(buffer.format(n));
}

/// Adds a count in as many digits as it needs, and the line's end.
///
/// The line has room for 21 bytes more.
pub fn push_count(line: &mut ArrayString<LONGEST_LINE>, n: u64)
    requires { array_string_len line.old + 21 ≤ LONGEST_LINE }
    ensures { line.new.bytes ≡ line.old.bytes ++ at_count n }
{
    let mut buffer = Buffer::new();
    line.push_str(buffer.format(n));
    line.push_str("\n");
}

/// Adds an address in five digits, ` STEPS ` and a count of steps, and the line's end.
///
/// The line has room for 38 bytes more.
pub fn push_at_steps(line: &mut ArrayString<LONGEST_LINE>, at: u32, steps: u64)
    requires { array_string_len line.old + 38 ≤ LONGEST_LINE }
    ensures { line.new.bytes ≡ line.old.bytes ++ at_steps at steps }
{
    push_padded(line, 5, at);
    line.push_str(" STEPS ");
    push_count(line, steps);
}

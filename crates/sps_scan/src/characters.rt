// The characters of the assembler.
ghost use Rattle.std.specs.Prelude.{◌≡◌};
ghost use Rattle.sps_scan.specs.Statement.{is_allowed};

/// The special characters of the assembler, each after a blank, as a message lists them. They are not letters, digits or blanks.
///
/// Source: SPS manual, coding sheet; their order, that of their pairs of digits, is this project's own.
pub const SPECIALS: &str = " . ) + $ * - / , ( = @";

// Whether each byte is a character of the assembler.
const ALLOWED: [bool; 256] = [
    // The bytes below the blank.
    false, false, false, false, false, false, false, false, false, false, false, false, false,
    false, false, false, false, false, false, false, false, false, false, false, false, false,
    false, false, false, false, false, false,
    // The blank to `/`.
    true, false, false, false, true, false, false, false, true, true, true, true, true, true, true,
    true,
    // `0` to `?`.
    true, true, true, true, true, true, true, true, true, true, false, false, false, true, false,
    false,
    // `@` to `O`.
    true, true, true, true, true, true, true, true, true, true, true, true, true, true, true, true,
    // `P` to `_`.
    true, true, true, true, true, true, true, true, true, true, true, false, false, false, false,
    false,
    // The bytes after `_`.
    false, false, false, false, false, false, false, false, false, false, false, false, false,
    false, false, false, false, false, false, false, false, false, false, false, false, false,
    false, false, false, false, false, false, false, false, false, false, false, false, false,
    false, false, false, false, false, false, false, false, false, false, false, false, false,
    false, false, false, false, false, false, false, false, false, false, false, false, false,
    false, false, false, false, false, false, false, false, false, false, false, false, false,
    false, false, false, false, false, false, false, false, false, false, false, false, false,
    false, false, false, false, false, false, false, false, false, false, false, false, false,
    false, false, false, false, false, false, false, false, false, false, false, false, false,
    false, false, false, false, false, false, false, false, false, false, false, false, false,
    false, false, false, false, false, false, false, false, false, false, false, false, false,
    false, false, false, false, false, false, false, false, false, false, false, false, false,
    false, false, false, false,
];

pub(crate) fn is_allowed(b: u8) -> bool
    ensures { result ≡ is_allowed b }
{
    ALLOWED[usize::from(b)]
}

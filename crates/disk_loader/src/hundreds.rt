// The digits of the hundreds of core.
ghost use Rattle.std.specs.Prelude.{◌≡◌, ◌+◌, ◌*◌, ◌<◌, ◌≤◌, ℕ, slice_index, map};
ghost use Rattle.std.specs.List.{range_with_len};
ghost use Rattle.digit_core.specs.{IsGood};
ghost use Rattle.card_code.specs.Characters.{object_char};
ghost use Rattle.sps_pass_two.specs.Image.{digit_at};
ghost use Rattle.sps_pass_two.specs.Kept.{IsPiece, IsRunBelow};
ghost use Rattle.sps_pass_two.specs.Types.{run_of};
ghost use Rattle.digit_core.specs.declared.TheConstants.{MOST_POSITIONS};
ghost use Rattle.disk_loader.specs.Hundreds.{char_over, digit_beneath, holds_tables, is_needed, reaches, sector_text};

use card_code::object_char;
use digit_core::{Digit, standard_digit};
use sps_pass_two::{Assembled, Piece};

// The hundreds of the largest core.
pub(crate) const HUNDREDS: u32 = 600;

/// The text of the sector of hundred `h`, the addresses `100h` to `100h + 99`, if the program needs it: 100 object characters.
///
/// `None` exactly if the hundred has no declared digit and does not belong to the standard tables. At an address without a
/// declared digit, a needed hundred has the standard tables' digit, or else an unflagged zero. `h` is below 600.
/// Source: this project's own.
pub fn sector_text(assembled: &Assembled, h: u32) -> Option<[u8; 100]>
    requires { h < HUNDREDS }
    ensures { result ≡ sector_text assembled.now.image.pieces h }
{
    let from = 100 * h;
    let mut text = beneath(from);
    let mut needed = holds_tables(h);
    for piece in assembled.image.pieces.as_slice() {
        let reached = lay(piece, from, &mut text);
        needed = reached || needed;
    }
    if needed { Some(text) } else { None }
}

// Whether the program needs hundred `h`.
pub(crate) fn is_needed(assembled: &Assembled, h: u32) -> bool
    requires { h < HUNDREDS }
    ensures { result ≡ is_needed assembled.now.image.pieces h }
{
    let from = 100 * h;
    let mut needed = holds_tables(h);
    for piece in assembled.image.pieces.as_slice() {
        let reached = reaches(piece, from);
        needed = reached || needed;
    }
    needed
}

// Whether hundred `h` belongs to the standard tables.
fn holds_tables(h: u32) -> bool
    ensures { result ≡ holds_tables h }
{
    h >= 1 && h <= 3
}

// The characters beneath a program in the hundred that begins at `from`.
fn beneath(from: u32) -> [u8; 100]
    requires { from < MOST_POSITIONS }
    ensures { result ≡ map (λ a. object_char (digit_beneath a)) (range_with_len from 100) }
{
    let mut text = [b'0'; 100];
    for i in 0..100 {
        text[i] = object_char(digit_beneath(from + i as u32));
    }
    text
}

// The digit of the standard tables, or a zero.
fn digit_beneath(a: u32) -> Digit
    ensures is { result ≡ digit_beneath a }
    ensures good { IsGood result }
{
    if a >= 100 && a < 400 {
        standard_digit(a)
    } else {
        Digit {
            flag: false,
            value: 0,
        }
    }
}

// Whether a piece has an address in the hundred that begins at `from`.
fn reaches(piece: &Piece, from: u32) -> bool
    requires from { from < MOST_POSITIONS }
    requires below { IsRunBelow MOST_POSITIONS (run_of piece.now) }
    ensures { result ≡ reaches (run_of piece.now) from }
{
    let digits = piece.digits.as_slice();
    let first = piece.from.max(from);
    let past = (piece.from + digits.len() as u32).min(from + 100);
    first < past
}

// Lays the characters of a piece over the hundred that begins at `from`. The answer is whether the piece has an address there.
fn lay(piece: &Piece, from: u32, text: &mut [u8; 100]) -> bool
    requires from { from < MOST_POSITIONS }
    requires piece { IsPiece (run_of piece.now) }
    requires below { IsRunBelow MOST_POSITIONS (run_of piece.now) }
    ensures text { (i : ℕ) → i < 100 → slice_index text.new i ≡ char_over (digit_at (run_of piece.now) (from + i)) (slice_index text.old i) }
    ensures reaches { result ≡ reaches (run_of piece.now) from }
{
    let digits = piece.digits.as_slice();
    let low = piece.from.max(from);
    let high = (piece.from + digits.len() as u32).min(from + 100);
    for a in low..high {
        text[(a - from) as usize] = object_char(digits[(a - piece.from) as usize]);
    }
    low < high
}

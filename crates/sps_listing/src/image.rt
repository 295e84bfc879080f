// The text of the image.
ghost use Rattle.std.specs.Prelude.{◌≡◌, ◌≤◌, length};
ghost use Rattle.std.specs.List.{All};
ghost use Rattle.digit_core.specs.Cell.{IsGood};
ghost use Rattle.sps_pass_two.specs.{IsPiece, IsRunBelow, run_of};
ghost use Rattle.sps_listing.specs.Texts.{image_line};
ghost use Rattle.sps_listing.specs.Sending.{SendsImageLine, SendsPiece, SendsImage};
ghost use Rattle.digit_core.specs.declared.TheConstants.{MOST_POSITIONS};

use arrayvec::ArrayString;
use card_code::object_char;
use digit_core::Digit;
use outside_io::{Host, Sent, Unit, write_all};
use report_lines::{LONGEST_LINE, push_padded};
use sps_pass_two::{Image, Piece};

// One line of the image, with its LF: the address of its first digit, a blank, and the digits.
fn line_text(address: u32, digits: &[Digit]) -> ArrayString<LONGEST_LINE>
    requires few { length digits.now ≤ 50 }
    requires good { All IsGood digits.now }
    ensures { result.bytes ≡ image_line address digits.now }
{
    let mut line = ArrayString::new();
    push_padded(&mut line, 5, address);
    line.push(' ');
    for digit in digits {
        line.push(char::from(object_char(*digit)));
    }
    line.push('\n');
    line
}

// Writes one line of the image.
fn write_line<H: Host>(address: u32, digits: &[Digit], host: &mut H) -> Sent
    requires few { length digits.now ≤ 50 }
    requires good { All IsGood digits.now }
    ensures { SendsImageLine (H.seen host.old) (H.seen host.new) address digits.now result }
{
    write_all(host, Unit::Image, line_text(address, digits).as_bytes())
}

// Writes the lines of a piece.
fn write_piece<H: Host>(piece: &Piece, host: &mut H) -> Sent
    requires piece { IsPiece (run_of piece.now) }
    requires below { IsRunBelow MOST_POSITIONS (run_of piece.now) }
    ensures { SendsPiece (H.seen host.old) (H.seen host.new) (run_of piece.now) result }
{
    let mut address = piece.from;
    let mut rest = piece.digits.as_slice();
    for _line in 0..rest.len().div_ceil(50) {
        let (line, behind) = rest.split_at(rest.len().min(50));
        match write_line(address, line, host) {
            Sent::Done => {}
            Sent::Failed => return Sent::Failed,
        }
        address += 50;
        rest = behind;
    }
    Sent::Done
}

/// Writes the text of an image on Image: for each piece, lines of at most fifty digits, each with its address.
///
/// A line is the address of its first digit in five digits, a blank, the digits as object characters, and LF. The pieces follow each
/// other in their order, and each begins a line of its own. An image without a piece has no line.
///
/// `Failed` only if the host's count of faults rose: Image has received a first part of the text, which may be empty or all.
/// Source: this project's own.
pub fn image_text<H: Host>(image: &Image, host: &mut H) -> Sent
    ensures { SendsImage (H.seen host.old) (H.seen host.new) image.now.pieces result }
{
    for piece in image.pieces.as_slice() {
        match write_piece(piece, host) {
            Sent::Done => {}
            Sent::Failed => return Sent::Failed,
        }
    }
    Sent::Done
}

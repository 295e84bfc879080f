// The cells of an image while the assembler makes it: written digit by digit, and read run by run.
ghost use Rattle.std.specs.Prelude.{◌≡◌, ◌+◌, ◌^◌, ◌≤◌, List, drop, length, slice_set, replicate, None, Some, IfOk};
ghost use Rattle.sps_pass_two.specs.Image.{pieces_from};
ghost use Rattle.sps_pass_two.specs.Kept.{PiecesLaw, KeptLaw};
ghost use Rattle.sps_pass_two.specs.Writing.{with_digits, front_digits, ImageLaw};
ghost use Rattle.digit_core.specs.declared.TheConstants.{MOST_POSITIONS};

use crate::image::{Digits, Piece, Pieces};
use digit_core::Digit;
use std::alloc::{AllocError, Global};

// The cells of an image before any digit is declared.
pub(crate) fn empty_image(alloc: Global, positions: u32) -> Result<Vec<Option<Digit>>, AllocError>
    ensures { IfOk result (λ image. image.items ≡ replicate positions None) }
{
    let mut image = Vec::new(alloc);
    for i in 0..positions {
        let _done = i;
        image.push(None)?;
    }
    Ok(image)
}

// Sets the digit of an address, if the image has that address.
#[tactic(auto, using(crate::proofs::Runs::set_past))]
fn set_digit(image: &mut Vec<Option<Digit>>, a: usize, digit: Digit)
    ensures { image.new.items ≡ slice_set image.old.items a (Some digit) }
{
    if a < image.len() {
        image[a] = Some(digit);
    }
}

// Writes digits from an address on, up to the end of the image.
pub(crate) fn write(image: &mut Vec<Option<Digit>>, from: usize, digits: &[Digit])
    requires { from ≤ 2 ^ 63 }
    ensures { image.new.items ≡ with_digits image.old.items from digits.now }
{
    for i in 0..digits.len() {
        set_digit(image, from + i, digits[i]);
    }
}

// The digits from an address up to the first one without a digit.
fn run_at(alloc: Global, image: &[Option<Digit>], from: usize) -> Result<Vec<Digit>, AllocError>
    requires { from ≤ length image.now }
    ensures { IfOk result (λ digits. digits.items ≡ front_digits (drop from image.now)) }
{
    let mut digits = Vec::new(alloc);
    for a in from..image.len() {
        match image[a] {
            None => return Ok(digits),
            Some(digit) => digits.push(digit)?,
        }
    }
    Ok(digits)
}

// The maximal runs of declared addresses, rising.
pub(crate) fn pieces_of(alloc: Global, image: &[Option<Digit>]) -> Result<Pieces, AllocError>
    requires { length image.now ≤ MOST_POSITIONS }
    ensures { IfOk result (λ found. found ≡ pieces_from 0 image.now) }
{
    let mut found = Vec::new(alloc);
    let mut a = 0;
    while a < image.len() {
        let digits = run_at(alloc, image, a)?;
        let n = digits.len();
        if n == 0 {
            a += 1;
        } else {
            found.push(Piece {
                from: a as u32,
                digits: Digits::from_vec(digits),
            })?;
            a += n;
        }
    }
    Ok(Pieces::from_vec(found))
}

/// An image on which the digits of the statements are written one after another has at each address the digit of the last statement
/// that declares it.
///
/// Source: SPS manual, assembling.
pub fn image_law()
    ensures { ImageLaw }
{}

/// The pieces of an image declare the digits that its cells have, and between a piece and the next an address is not declared.
///
/// Source: this project's own.
pub fn pieces_law()
    ensures { PiecesLaw }
{}

/// If the cells hold good digits, so do the pieces of an image. No piece is empty, and the pieces rise and end within the cells.
///
/// Source: this project's own.
pub fn kept_law()
    ensures { KeptLaw }
{}

// An image, cut into segments.
// Source: this project's own.
ghost use Rattle.std.specs.Prelude.{◌≡◌, ◌+◌, ◌++◌, ◌≤◌, length, map, IfOk, OnOk};
ghost use Rattle.digit_core.specs.declared.TheConstants.{MOST_POSITIONS};
ghost use Rattle.sps_pass_two.specs.Types.{run_of};
ghost use Rattle.deck_punch.specs.Cut.{room_in, flags_in, take_count, front, cut_piece_as, cut_as, cut, cut_dense};
ghost use Rattle.deck_punch.specs.Cover.{CutLaw};
ghost use Rattle.deck_punch.specs.DenseCover.{DenseLaw};
ghost use Rattle.deck_punch.specs.Types.{segment_run, AddsSegments};

use crate::form::DeckForm;
use crate::segment::{DenseSegment, Segment, SegmentOf};
use arrayvec::ArrayVec;
use digit_core::Digit;
use sps_pass_two::{Image, Piece};
use std::alloc::{AllocError, Global};

/// The segments of an image for a self-loading deck: each piece is cut from its low end, one piece after the other.
///
/// The first segment of a piece begins with the piece, and each other segment right after its predecessor. A segment ends after a
/// flagged digit that is not its first, after 32 digits, or with the piece, whichever comes first. The error is a lack of memory.
pub fn cut(alloc: Global, image: &Image) -> Result<Vec<Segment>, AllocError>
    ensures { IfOk result (λ segments. map segment_run segments.items ≡ cut image.now.pieces) }
{
    let mut segments = Vec::new(alloc);
    cut_as(&mut segments, image, DeckForm::SelfLoading)?;
    Ok(segments)
}

/// The segments of an image for a dense deck: each piece is cut from its low end, one piece after the other.
///
/// The first segment of a piece begins with the piece, and each other segment right after its predecessor. A segment ends after
/// its first inner flag, or after its second if its first digit has a flag; after 69 digits; or with the piece, whichever comes
/// first. An inner flag is a flag on a digit that is not the segment's first. The error is a lack of memory.
pub fn cut_dense(alloc: Global, image: &Image) -> Result<Vec<DenseSegment>, AllocError>
    ensures { IfOk result (λ segments. map segment_run segments.items ≡ cut_dense image.now.pieces) }
{
    let mut segments = Vec::new(alloc);
    cut_as(&mut segments, image, DeckForm::Dense)?;
    Ok(segments)
}

// Adds the segments of an image for a deck of this form, whose cards have room for `N` digits.
fn cut_as<const N: usize>(
    segments: &mut Vec<SegmentOf<N>>,
    image: &Image,
    form: DeckForm,
) -> Result<(), AllocError>
    requires { N ≡ room_in form }
    ensures { OnOk result
        (AddsSegments segments.old segments.new (cut_as form image.now.pieces)) }
{
    for piece in image.pieces.as_slice() {
        cut_piece(segments, piece, form)?;
    }
    Ok(())
}

// Adds the segments of one piece.
fn cut_piece<const N: usize>(
    segments: &mut Vec<SegmentOf<N>>,
    piece: &Piece,
    form: DeckForm,
) -> Result<(), AllocError>
    requires room { N ≡ room_in form }
    requires below { piece.now.from + length piece.now.digits ≤ MOST_POSITIONS }
    ensures { OnOk result
        (AddsSegments segments.old segments.new (cut_piece_as form (run_of piece.now))) }
{
    let digits = piece.digits.as_slice();
    let mut at = 0;
    while at < digits.len() {
        let segment = front_segment(piece.from + at as u32, &digits[at..], form);
        at += segment.digits.len();
        segments.push(segment)?;
    }
    Ok(())
}

// The segment at the front of some digits; the first digit is at address `from`.
fn front_segment<const N: usize>(from: u32, digits: &[Digit], form: DeckForm) -> SegmentOf<N>
    requires room { N ≡ room_in form }
    requires some { 1 ≤ length digits.now }
    ensures from { result.from ≡ from }
    ensures digits { result.digits.items ≡ front form digits.now }
{
    let count = 1 + take_count(flags_in(form, digits[0]), N - 1, &digits[1..]);
    let mut front = ArrayVec::new();
    for digit in &digits[..count] {
        front.push(*digit);
    }
    SegmentOf {
        from,
        digits: front,
    }
}

// How many flagged digits a segment takes at most after its first digit.
fn flags_in(form: DeckForm, first: Digit) -> usize
    ensures is { result ≡ flags_in form first }
    ensures some { 1 ≤ result }
{
    match form {
        DeckForm::SelfLoading => 1,
        DeckForm::Dense => { if first.flag { 2 } else { 1 } }
    }
}

// How many digits a segment takes after its first: at most `room`, and none after `flags` flagged digits.
fn take_count(flags: usize, room: usize, digits: &[Digit]) -> usize
    requires { 1 ≤ flags }
    ensures is { result ≡ take_count flags room digits.now }
    ensures most { result ≤ room }
    ensures within { result ≤ length digits.now }
{
    let most = digits.len().min(room);
    let mut left = flags;
    for i in 0..most {
        if digits[i].flag {
            left -= 1;
            if left == 0 {
                return i + 1;
            }
        }
    }
    most
}

/// The segments of a piece cover it: one after the other they are its digits, from its address on, and each ends as [`cut`] says.
///
/// The call does nothing; the law is its contract.
pub fn cut_law()
    ensures { CutLaw }
{}

/// The dense segments of a piece cover it: one after the other they are its digits, from its address on, and each ends as
/// [`cut_dense`] says.
///
/// The call does nothing; the law is its contract.
pub fn dense_law()
    ensures { DenseLaw }
{}

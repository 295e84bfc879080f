// The tables and the other pieces that a deck loads.
// Source: this project's own.
ghost use Rattle.std.specs.Prelude.{◌≡◌, ◌+◌, ◌≤◌, ◌<◌, ◌++◌, ◌∷◌, [], length, map, IfOk, OnOk};
ghost use Rattle.digit_core.specs.declared.TheConstants.{MOST_POSITIONS};
ghost use Rattle.sps_pass_two.specs.Types.{run_of};
ghost use Rattle.sps_pass_two.specs.Image.{or_else, digit_at, declared_digit};
ghost use Rattle.deck_punch.specs.declared.tables.TheConstants.{TABLES_FROM, TABLES_END};
ghost use Rattle.deck_punch.specs.Tables.{table_digit, table_piece, left_of, other_pieces, with_tables};

use digit_core::{Digit, standard_digit};
use sps_pass_two::{Digits, Image, Piece, Pieces};
use std::alloc::{AllocError, Global};

// The first address of the tables, and the address after them.
const TABLES_FROM: u32 = 100;

const TABLES_END: u32 = 400;

/// The pieces that a deck loads: the table piece, and then the other pieces of an image.
///
/// The table piece is 00100 to 00399, with the image's digit at each declared address and the standard tables' digit elsewhere.
/// The other pieces are the image's runs from 00400 on; digits below 00100 are left out. The error is a lack of memory.
pub fn with_tables(alloc: Global, image: &Image) -> Result<Image, AllocError>
    ensures { IfOk result (λ with. with.pieces ≡ with_tables image.now.pieces) }
{
    let mut pieces = Vec::new(alloc);
    push_table(alloc, &mut pieces, image)?;
    push_others(alloc, &mut pieces, image)?;
    Ok(Image {
        pieces: Pieces::from_vec(pieces),
    })
}

/// The table piece alone: 00100 to 00399, with the image's digit at each declared address and the standard tables' digit
/// elsewhere.
///
/// The error is a lack of memory.
pub fn table_piece(alloc: Global, image: &Image) -> Result<Image, AllocError>
    ensures { IfOk result (λ table. table.pieces ≡ table_piece image.now.pieces ∷ []) }
{
    let mut pieces = Vec::new(alloc);
    push_table(alloc, &mut pieces, image)?;
    Ok(Image {
        pieces: Pieces::from_vec(pieces),
    })
}

/// The other pieces alone: the image's runs from 00400 on.
///
/// The error is a lack of memory.
pub fn other_pieces(alloc: Global, image: &Image) -> Result<Image, AllocError>
    ensures { IfOk result (λ others. others.pieces ≡ other_pieces image.now.pieces) }
{
    let mut pieces = Vec::new(alloc);
    push_others(alloc, &mut pieces, image)?;
    Ok(Image {
        pieces: Pieces::from_vec(pieces),
    })
}

// Adds the table piece.
fn push_table(alloc: Global, pieces: &mut Vec<Piece>, image: &Image) -> Result<(), AllocError>
    ensures { OnOk result (map run_of pieces.new.items
        ≡ map run_of pieces.old.items ++ table_piece image.now.pieces ∷ []) }
{
    let mut digits = Vec::new(alloc);
    for a in TABLES_FROM..TABLES_END {
        digits.push(table_digit(image, a))?;
    }
    pieces.push(Piece {
        from: TABLES_FROM,
        digits: Digits::from_vec(digits),
    })?;
    Ok(())
}

// The digit of the tables at an address: the image's digit if it declares one, and else the standard tables' digit.
fn table_digit(image: &Image, a: u32) -> Digit
    requires low { TABLES_FROM ≤ a }
    requires high { a < TABLES_END }
    ensures { result ≡ table_digit image.now.pieces a }
{
    declared_digit(image, a).unwrap_or(standard_digit(a))
}

// The digit that an image declares at an address.
fn declared_digit(image: &Image, a: u32) -> Option<Digit>
    ensures { result ≡ declared_digit image.now.pieces a }
{
    let mut found = None;
    for piece in image.pieces.as_slice() {
        found = or_else(digit_at(piece, a), found);
    }
    found
}

// One digit, or else another.
fn or_else(digit: Option<Digit>, other: Option<Digit>) -> Option<Digit>
    ensures { result ≡ or_else digit other }
{
    match digit {
        None => other,
        Some(digit) => Some(digit),
    }
}

// The digit that a piece has at an address.
fn digit_at(piece: &Piece, a: u32) -> Option<Digit>
    ensures { result ≡ digit_at (run_of piece.now) a }
{
    let digits = piece.digits.as_slice();
    if a < piece.from {
        return None;
    }
    let place = (a - piece.from) as usize;
    if place < digits.len() {
        Some(digits[place])
    } else {
        None
    }
}

// Adds the runs of an image from 00400 on.
fn push_others(alloc: Global, pieces: &mut Vec<Piece>, image: &Image) -> Result<(), AllocError>
    ensures { OnOk result (map run_of pieces.new.items
        ≡ map run_of pieces.old.items ++ other_pieces image.now.pieces) }
{
    for piece in image.pieces.as_slice() {
        push_left(alloc, pieces, piece)?;
    }
    Ok(())
}

// Adds the digits of a piece from 00400 on, if it has any.
fn push_left(alloc: Global, pieces: &mut Vec<Piece>, piece: &Piece) -> Result<(), AllocError>
    requires { piece.now.from + length piece.now.digits ≤ MOST_POSITIONS }
    ensures { OnOk result (map run_of pieces.new.items
        ≡ map run_of pieces.old.items ++ left_of (run_of piece.now)) }
{
    let digits = piece.digits.as_slice();
    let below = TABLES_END.saturating_sub(piece.from);
    if below as usize >= digits.len() {
        return Ok(());
    }
    pieces.push(Piece {
        from: piece.from + below,
        digits: Digits::from_vec(Vec::from_slice(alloc, &digits[below as usize..])?),
    })?;
    Ok(())
}

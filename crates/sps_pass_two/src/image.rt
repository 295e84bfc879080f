// The image of a program: the digits that its statements declare, by their addresses.
// Source: this project's own.
ghost use Rattle.std.specs.Prelude.{◌≡◌, List, map};
ghost use Rattle.sps_pass_two.specs.Kept.{IsImage, digit_count};

use digit_core::Digit;
use std::marker::Model;

/// Digits in their order.
///
/// Contracts see the list of the digits.
#[derive(Drop)]
pub struct Digits(Vec<Digit>);

impl Model for Digits {
    ghost use Rattle.std.specs.Prelude.{List};
    ghost use Rattle.digit_core.specs.declared.Digit.{Digit};

    ghost Value = { List Digit };

    ghost view = { λ d. d.0.items };
}

impl Digits {
    /// These digits.
    pub fn from_vec(digits: Vec<Digit>) -> Digits
        ensures { result ≡ digits.items }
    {
        Digits(digits)
    }

    /// The digits.
    pub fn as_slice(&self) -> &[Digit]
        ensures { result.now ≡ self.now }
    {
        self.0.as_slice()
    }
}

/// The digits of a maximal run of declared addresses.
#[derive(Drop)]
pub struct Piece {
    /// Its lowest address, 00000 to 59999.
    pub from: u32,
    /// Its digits, rising by address.
    pub digits: Digits,
}

/// Pieces in their order.
///
/// Contracts see each as the address of its first digit and its digits.
#[derive(Drop)]
pub struct Pieces(Vec<Piece>);

impl Model for Pieces {
    ghost use Rattle.std.specs.Prelude.{List, map};
    ghost use Rattle.sps_pass_two.specs.Image.{DigitRun};
    ghost use Rattle.sps_pass_two.specs.Types.{run_of};

    ghost Value = { List DigitRun };

    ghost view = { λ p. map run_of p.0.items };
}

impl Pieces {
    ghost use Rattle.sps_pass_two.specs.Types.{run_of};

    /// These pieces.
    pub fn from_vec(pieces: Vec<Piece>) -> Pieces
        ensures { result ≡ map run_of pieces.items }
    {
        Pieces(pieces)
    }

    /// The pieces.
    pub fn as_slice(&self) -> &[Piece]
        ensures { map run_of result.now ≡ self.now }
    {
        self.0.as_slice()
    }
}

/// The digits that a program declares, piece by piece.
///
/// The pieces rise and share no address. No piece is empty, a cell can hold each digit, and all addresses are below 60,000.
#[derive(Drop)]
pub struct Image {
    /// The maximal runs of declared addresses, rising.
    pub pieces: Pieces,
    ghost kept: { IsImage pieces },
}

impl Image {
    /// How many addresses are declared, 0 to 60,000.
    pub fn digits(&self) -> u32
        ensures { result ≡ digit_count self.now.pieces }
    {
        let mut count = 0;
        for piece in self.pieces.as_slice() {
            count += piece.digits.as_slice().len() as u32;
        }
        count
    }
}

// The bootstrap deck.
// Source: this project's own.
ghost use Rattle.std.specs.Prelude.{◌≡◌, ◌+◌, ◌<◌, ◌≤◌, ◌++◌, [], ◌∷◌, length, map, IfOk, OnOk};
ghost use Rattle.digit_core.specs.{unflagged_digit};
ghost use Rattle.card_code.specs.Characters.{object_char};
ghost use Rattle.card_columns.specs.declared.columns.TheConstants.{CARD_COLUMNS};
ghost use Rattle.deck_punch.specs.Deck.{self_loading_steps};
ghost use Rattle.card_columns.specs.Types.{card_bytes};
ghost use Rattle.disk_loader.specs.Bootstrap.{stretch_card, closed_cards};
ghost use Rattle.disk_loader.specs.BootstrapDeck.{AreBootstrapOf, LoadFromDisk};
ghost use Rattle.disk_loader.specs.Stretches.{extends_stretch};
ghost use Rattle.disk_loader.specs.Cover.{StretchLaw};
ghost use Rattle.disk_loader.specs.declared.hundreds.TheConstants.{HUNDREDS};

use crate::hundreds::{HUNDREDS, is_needed};
use card_code::Card;
use card_columns::Columns;
use deck_punch::{BRANCH, CARD_READER, READ_NUMERICALLY, transfer_card};
use digit_core::Digit;
use disk_1311::CYLINDER_SECTORS;
use sps_pass_two::Assembled;
use std::alloc::{AllocError, Global};

// The opcode of a card's first instruction.
const CONTROL: u8 = 34;

// The address of a card's control field.
const FIELD: u32 = 48;

// The Q addresses of a card's instructions on device 07: seek, and read sectors.
const SEEK: u32 = 701;

const READ_SECTORS: u32 = 702;

// Hundreds that follow one another on one cylinder: `count` of them, from `from` on.
#[derive(Clone, Copy)]
pub(crate) struct Stretch {
    pub(crate) from: u32,
    pub(crate) count: u32,
}

/// Punches the bootstrap deck of a program, which loads it from disk.
///
/// Put the pack with the program's sectors on drive 1 and the deck in the hopper, with any data cards after it, and press the
/// Load key. After the deck's steps, four for each card except the last and one for the last, the machine runs at the program's
/// start. Core then has the hundreds that the program needs, with its digits over the standard tables over unflagged zeros. It
/// has the last card in 00000 to 00079; every other cell is as it was. The machine takes each card of the deck and does nothing
/// else outside. The error is a lack of memory.
pub fn bootstrap(alloc: Global, assembled: &Assembled) -> Result<Vec<Card>, AllocError>
    ensures is { IfOk result (λ cards. AreBootstrapOf assembled.now cards.items) }
    ensures most { IfOk result (λ cards. length cards.items ≤ HUNDREDS + 1) }

    // The deck loads the program from its sectors.
    ensures loads { IfOk result (λ cards. LoadFromDisk assembled.now cards.items) }
{
    let mut cards = Vec::new(alloc);
    let mut open = Stretch { from: 0, count: 0 };
    for h in 0..HUNDREDS {
        if !is_needed(assembled, h) {
            close(&mut cards, open)?;
            open = Stretch { from: 0, count: 0 };
        } else if extends_stretch(open, h) {
            open.count += 1;
        } else {
            close(&mut cards, open)?;
            open = Stretch { from: h, count: 1 };
        }
    }
    close(&mut cards, open)?;
    cards.push(transfer_card(assembled.start))?;
    Ok(cards)
}

/// The law of stretches: the stretches of an image are its needed hundreds, rising. Each is a list of hundreds that follow one
/// another on one cylinder, and none could be longer.
///
/// The call does nothing; the law is its contract.
pub fn stretch_law()
    ensures { StretchLaw }
{}

// Whether hundred `h`, the next one, belongs to the stretch.
fn extends_stretch(stretch: Stretch, h: u32) -> bool
    ensures { result ≡ extends_stretch stretch h }
{
    stretch.count > 0 && stretch.from / CYLINDER_SECTORS == h / CYLINDER_SECTORS
}

// Adds the card of a stretch, if the stretch has a hundred.
fn close(cards: &mut Vec<Card>, stretch: Stretch) -> Result<(), AllocError>
    requires from { stretch.from < HUNDREDS }
    requires count { stretch.count < 1000 }
    ensures { OnOk result (map card_bytes cards.new.items ≡ map card_bytes cards.old.items ++ closed_cards stretch) }
{
    if stretch.count > 0 {
        cards.push(stretch_card(stretch))?;
    }
    Ok(())
}

// The card of a stretch: it makes the arm of drive 1 seek, reads the sectors, and reads the next card over this one.
fn stretch_card(stretch: Stretch) -> Card
    requires from { stretch.from < HUNDREDS }
    requires count { stretch.count < 1000 }
    ensures { result.0 ≡ stretch_card stretch }
{
    let mut columns = Columns::new();
    columns.order(CONTROL, FIELD, SEEK);
    columns.order(READ_NUMERICALLY, FIELD, READ_SECTORS);
    columns.order(READ_NUMERICALLY, 0, CARD_READER);
    columns.order(BRANCH, 0, 0);
    decimal(&mut columns, 1);
    columns.address(stretch.from);
    decimal(&mut columns, (stretch.count / 100 % 10) as u8);
    decimal(&mut columns, (stretch.count / 10 % 10) as u8);
    decimal(&mut columns, (stretch.count % 10) as u8);
    columns.address(100 * stretch.from);
    columns.zeros(18);
    columns.card()
}

// Adds a decimal digit without a flag.
fn decimal(columns: &mut Columns, value: u8)
    requires room { length columns.old < CARD_COLUMNS }
    requires decimal { value ≤ 9 }
    ensures { columns.new ≡ columns.old ++ object_char (unflagged_digit value) ∷ [] }
{
    columns.digit(Digit { flag: false, value });
}

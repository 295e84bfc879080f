// The object deck of a program.
// Source: this project's own.
ghost use Rattle.std.specs.Prelude.{◌≡◌, ◌+◌, ◌≤◌, ◌++◌, ◌∷◌, [], length, map, IfOk, OnOk};
ghost use Rattle.digit_core.specs.declared.TheConstants.{MOST_POSITIONS};
ghost use Rattle.sps_pass_two.specs.Kept.{IsImage};
ghost use Rattle.deck_punch.specs.Cut.{cut, cut_dense};
ghost use Rattle.deck_punch.specs.Cards.{card_of};
ghost use Rattle.deck_punch.specs.Deck.{deck};
ghost use Rattle.deck_punch.specs.Dense.{dense_card_of, dense_deck};
ghost use Rattle.loader_cards.specs.ObjectDeck.{AreDeckOf, LoadAndEnter, fewest_in, deck_steps};
ghost use Rattle.card_columns.specs.Types.{card_bytes};

use card_code::Card;
use deck_punch::{
    DeckForm, bridge_card, card_of, cut, cut_dense, dense_card_of, loader_card, other_pieces,
    table_piece, transfer_card, with_tables,
};
use sps_pass_two::{Assembled, Image};
use std::alloc::{AllocError, Global};

/// Punches the object deck of a program, which loads itself.
///
/// Put the deck in the hopper, with any data cards after it, and press the Load key. After the deck's steps the machine runs at
/// the program's start. Core then has the program's image; beneath it are the standard tables in 00100 to 00399 and the last card
/// in 00000 to 00079, and every other cell is as it was. The machine takes each card of the deck and does nothing else outside.
/// The deck works over every core, whatever it holds, of each size that is above all declared addresses and above the start.
/// Indicator 09 is on exactly if no card follows the deck.
///
/// The tables on the cards have the image's digits at the addresses that it declares; its other pieces are its runs from 00400
/// on. A self-loading deck has a card for each segment of the tables, 31 if the image declares no address in them. Then it has a
/// card for each segment of the other pieces, and the transfer card. A dense deck has the loader card, a card for each dense
/// segment of the other pieces, the bridge card, the cards of the tables, and the transfer card. A deck has at most 100,000
/// cards. The error is a lack of memory.
pub fn object_deck(
    alloc: Global,
    assembled: &Assembled,
    form: DeckForm,
) -> Result<Vec<Card>, AllocError>
    ensures is { IfOk result (λ cards. AreDeckOf form assembled.now cards.items) }
    ensures some { IfOk result (λ cards. fewest_in form ≤ length cards.items) }
    ensures most { IfOk result (λ cards. length cards.items ≤ 100000) }

    // The deck loads itself.
    ensures loads { IfOk result (λ cards. LoadAndEnter form assembled.now cards.items) }
{
    match form {
        DeckForm::SelfLoading => self_loading(alloc, &assembled.image, assembled.start),
        DeckForm::Dense => dense(alloc, &assembled.image, assembled.start),
    }
}

// The self-loading deck: the cards of the table piece, the cards of the image's other pieces, and the transfer card.
fn self_loading(alloc: Global, image: &Image, start: u32) -> Result<Vec<Card>, AllocError>
    requires { start + 12 ≤ MOST_POSITIONS }
    ensures { IfOk result (λ cards. map card_bytes cards.items ≡ deck image.now.pieces start) }
{
    let mut cards = Vec::new(alloc);
    punch(alloc, &mut cards, &with_tables(alloc, image)?)?;
    cards.push(transfer_card(start))?;
    Ok(cards)
}

// The dense deck: the loader card, the cards of the image's other pieces, the bridge card, the cards of the table piece, and the transfer card.
fn dense(alloc: Global, image: &Image, start: u32) -> Result<Vec<Card>, AllocError>
    requires { start + 12 ≤ MOST_POSITIONS }
    ensures { IfOk result (λ cards. map card_bytes cards.items ≡ dense_deck image.now.pieces start) }
{
    let mut deck = Vec::new(alloc);
    deck.push(loader_card())?;
    punch_dense(alloc, &mut deck, &other_pieces(alloc, image)?)?;
    deck.push(bridge_card())?;
    punch(alloc, &mut deck, &table_piece(alloc, image)?)?;
    deck.push(transfer_card(start))?;
    Ok(deck)
}

// Adds a dense card for each dense segment of an image.
fn punch_dense(alloc: Global, cards: &mut Vec<Card>, image: &Image) -> Result<(), AllocError>
    ensures { OnOk result (map card_bytes cards.new.items
        ≡ map card_bytes cards.old.items ++ map dense_card_of (cut_dense image.now.pieces)) }
{
    for segment in &cut_dense(alloc, image)? {
        cards.push(dense_card_of(segment))?;
    }
    Ok(())
}

// Adds a card for each segment of an image.
fn punch(alloc: Global, cards: &mut Vec<Card>, image: &Image) -> Result<(), AllocError>
    ensures { OnOk result (map card_bytes cards.new.items
        ≡ map card_bytes cards.old.items ++ map card_of (cut image.now.pieces)) }
{
    for segment in &cut(alloc, image)? {
        cards.push(card_of(segment))?;
    }
    Ok(())
}

/// How many steps a deck of `cards` cards takes: from the Load key until the machine is at the program's start.
///
/// In a self-loading deck: four for each card except the last; its one step is the jump to the start. In a dense deck: four for
/// each card except the loader card and the last, two more after the bridge card, and the jump. The Load key reads the first card
/// and is not a step. `cards` counts all cards of the deck and no data card: 1 to 100,000, and in a dense deck at least 3.
pub fn deck_steps(cards: u64, form: DeckForm) -> u64
    requires some { fewest_in form ≤ cards }
    requires most { cards ≤ 100000 }
    ensures { result ≡ deck_steps form cards }
{
    match form {
        DeckForm::SelfLoading => 4 * (cards - 1) + 1,
        DeckForm::Dense => 4 * cards - 5,
    }
}

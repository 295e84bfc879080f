// The text of a deck.
ghost use Rattle.std.specs.Prelude.{◌≡◌, map, IfOk};
ghost use Rattle.card_columns.specs.Types.{card_bytes};
ghost use Rattle.deck_punch.specs.DeckText.{deck_text};

use card_code::Card;
use std::alloc::{AllocError, Global};

/// The text of a deck: a line for each card, its 80 columns and a line feed.
///
/// The error is a lack of memory.
/// Source: this project's own.
pub fn deck_bytes(alloc: Global, cards: &[Card]) -> Result<Vec<u8>, AllocError>
    ensures { IfOk result (λ bytes. bytes.items ≡ deck_text (map card_bytes cards.now)) }
{
    let mut bytes = Vec::new(alloc);
    for card in cards {
        bytes.extend_from_slice(&card.0)?;
        bytes.push(b'\n')?;
    }
    Ok(bytes)
}

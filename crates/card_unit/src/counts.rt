// How many cards were read.
ghost use Rattle.std.specs.Prelude.{◌≡◌};
ghost use Rattle.card_unit.specs.Counts.{one_more_read};

use outside_io::Unit;

/// How many cards were read. Each count stops at 2^64 - 1.
///
/// Source: this project's own.
#[derive(Clone, Copy, Debug, PartialEq, Eq)]
pub struct CardsRead {
    /// Of a list of cards, or of the unit Deck.
    pub of_deck: u64,
    /// Of the unit Data.
    pub of_data: u64,
}

// No card was read yet.
pub(crate) const NONE_READ: CardsRead = CardsRead {
    of_deck: 0,
    of_data: 0,
};

impl CardsRead {
    // The counts after one more card of the unit was read.
    pub(crate) fn one_more_read(self, unit: Unit) -> CardsRead
        ensures { result ≡ one_more_read unit self }
    {
        let CardsRead { of_deck, of_data } = self;
        match unit {
            Unit::Data => CardsRead {
                of_deck,
                of_data: of_data.saturating_add(1),
            },
            _ => CardsRead {
                of_deck: of_deck.saturating_add(1),
                of_data,
            },
        }
    }
}

// The cards and lines that are to be read.
ghost use Rattle.std.specs.Prelude.{◌≡◌, ◌≤◌, length, map, Some, None};
ghost use Rattle.outside_io.specs.declared.host.Unit.TheVariants as units;
ghost use Rattle.outside_io.specs.World.{World};
ghost use Rattle.card_code.specs.{Text, unit_entries, unit_of};
ghost use Rattle.card_unit.specs.declared.front.Front.{Front};
ghost use Rattle.card_unit.specs.Pile.{pile_unit};
ghost use Rattle.card_code.specs.Readings.{bad_from, with_bad};

use crate::counts::{CardsRead, NONE_READ};
use crate::front::{Front, Held, hold_line};
use crate::pile::Pile;
use card_code::{Card, Lines, More, ReadAs, Tally};
use outside_io::{Host, Unit};

/// The answer of a call that takes a card.
///
/// Source: this project's own.
#[derive(Clone, Copy, Debug)]
pub enum CardAnswer {
    /// The next card. It is taken.
    Card {
        /// The card.
        card: Card,
        /// Whether it was the last: no byte follows it.
        last: bool,
    },
    /// No card is left.
    Empty,
    /// The next line is over 80 bytes, and is not taken.
    Jam {
        /// The line's unit.
        unit: Unit,
        /// Its number in the unit, counted from 1.
        line: u64,
    },
    /// The host failed.
    Failed,
}

/// The hopper of the card reader: the cards that are still to be read.
///
/// First come the cards of a pile, which is a list of cards or the lines of the unit Deck, and then the lines of the unit Data. A line
/// is read as a card, filled with blanks. A line of over 80 bytes is a jam, and no card after it can be read.
///
/// From its beginning on a hopper counts the cards that are read, and tallies their bad characters that are stored. The cards that were
/// read and the cards that are left are all cards that the hopper was given, in their order.
/// Source: 1622 manual, reader hopper; that lines are read as cards, the counts and the tally are this project's own.
#[derive(Drop)]
pub struct Hopper {
    front: Option<Front>,
    // The unit of the card that came to the front last: Data, or Deck, also for a list of cards.
    from: Unit,
    pile: Pile,
    data: Lines,
    read: CardsRead,
    bad: Tally,
    ghost pile_is: { pile_unit pile ≡ units.Deck },
    ghost data_is: { unit_of «data» ≡ units.Data },
}

impl Hopper {
    ghost use Rattle.card_unit.specs.Hopper.{IsNewHopper, GoesOnReadingCards, cards_read, bad_cards, line_read, hopper_left, own_cards, cards_and_data, deck_and_data, Holds, HasBehind, NextCard, deck_left, card_texts, LeavesData, NextOfDeck, ReadsNext, ReadsNoCard, HasSameRead, HoldsOfDeck, LooksBehind, IsHopperAhead, KeepsAhead, IsAheadBehind};

    /// A hopper with these cards, followed by the cards of the unit Data.
    ///
    /// Source: this project's own.
    pub fn of_cards(cards: Vec<Card>) -> Hopper
        ensures left { (w : World) →
            hopper_left result w ≡ cards_and_data (card_texts cards.items) w }
        ensures deck { (w : World) → deck_left result w ≡ Some (map Text (card_texts cards.items)) }
        ensures own { own_cards result ≡ Some (card_texts cards.items) }
        ensures begins { IsNewHopper result }
    {
        Hopper {
            front: None,
            from: Unit::Deck,
            pile: Pile::Cards { cards, gone: 0 },
            data: Lines::new(Unit::Data),
            read: NONE_READ,
            bad: Tally::new(),
        }
    }

    /// A hopper with the cards of the unit Deck, followed by the cards of the unit Data.
    ///
    /// Source: this project's own.
    pub fn of_units() -> Hopper
        ensures left { (w : World) → hopper_left result w ≡ deck_and_data w }
        ensures deck { (w : World) → deck_left result w ≡ unit_entries units.Deck w }
        ensures own { own_cards result ≡ None }
        ensures begins { IsNewHopper result }
    {
        Hopper {
            front: None,
            from: Unit::Deck,
            pile: Pile::Deck(Lines::new(Unit::Deck)),
            data: Lines::new(Unit::Data),
            read: NONE_READ,
            bad: Tally::new(),
        }
    }

    /// Takes the next card.
    ///
    /// `Empty` exactly if no card is left. `Jam` exactly if the next line is over 80 bytes; the line stays, so each later call answers
    /// `Jam` too. `Failed` only if the host's count of faults rose; the cards that are left are then as before.
    ///
    /// The cards of the pile come in their order, also if the host does not reveal the bytes of Data. While two or more of them are left,
    /// the host is not asked for Data. No card is added to the pile.
    ///
    /// The host is not asked early, neither in this call nor in an earlier one. It was asked for Deck and Data only when the cards taken
    /// or the next card needed bytes, and once after each card taken, to see whether a byte is left. While the pile had another card,
    /// this question was not asked for Data.
    ///
    /// A card that is taken counts as read, for the list of cards, Deck or Data, and its number there is one more than the number of the
    /// card before it. None of its characters is tallied yet. If no card is taken, the counts stay.
    /// Source: 1622 manual, reader hopper and last card; that 09 depends on a byte after the card, and the counts, are this
    /// project's own.
    pub fn next_card<H: Host>(&mut self, host: &mut H) -> CardAnswer
        ensures card { NextCard self.old self.new (H.seen host.old) (H.seen host.new) result }
        ensures deck { NextOfDeck self.old self.new (H.seen host.old) (H.seen host.new) result }
        ensures alone { LeavesData 2 self.old (H.seen host.old) (H.seen host.new) }
        ensures own { own_cards self.new ≡ own_cards self.old }
        ensures reads { ReadsNext self.old self.new (H.seen host.old) (H.seen host.new) result }
        ensures reads_on { GoesOnReadingCards self.old self.new (H.seen host.old) (H.seen host.new) }
    {
        match self.hold(host) {
            Held::AtFront => {}
            Held::Empty => return CardAnswer::Empty,
            Held::Jam { unit, line } => return CardAnswer::Jam { unit, line },
            Held::Failed => return CardAnswer::Failed,
        }
        let last = match self.more_behind(host) {
            More::Yes => false,
            More::No => true,
            More::Failed => return CardAnswer::Failed,
        };
        // By reference, since a match on the front's value would first copy it.
        let card = match &self.front {
            Some(front) => front.to_card(),
            None => unreachable!(),
        };
        self.front = None;
        self.read = self.read.one_more_read(self.from);
        CardAnswer::Card { card, last }
    }

    /// How many cards of the pile and of Data were read since the hopper was made.
    ///
    /// The cards of the pile are read first. A card counts as read as soon as it is taken, also if the instruction that reads it stops.
    /// Source: this project's own.
    pub fn cards_read(&self) -> CardsRead
        ensures { result ≡ cards_read self.now }
    {
        self.read
    }

    /// The bad characters of the cards that were read: the first of them, and how many there were.
    ///
    /// They were stored as zeros and turned on the read check 06. A character for which core had no room is not tallied. A character may
    /// be bad as a digit and good as a pair, so each counts by how its card was read.
    /// Source: this project's own.
    pub fn bad_characters(&self) -> Tally
        ensures { result ≡ bad_cards self.now }
    {
        self.bad
    }

    // Tallies the bad characters among `stored`, the characters of the last card that were stored.
    pub(crate) fn take_up(&mut self, how: ReadAs, stored: &[u8])
        requires { length stored.now ≤ 80 }
        ensures { self.new ≡ record self.old { bad = with_bad (bad_from self.old.from (line_read self.old) how 1 stored.now) self.old.bad } }
    {
        let line = match self.from {
            Unit::Data => self.read.of_data,
            _ => self.read.of_deck,
        };
        self.bad.take_up(self.from, line, how, stored);
    }

    // Moves the next card, or its line, to the front if the front is empty. It stays there until the card is taken.
    fn hold<H: Host>(&mut self, host: &mut H) -> Held
        ensures holds { Holds self.old self.new (H.seen host.old) (H.seen host.new) result }
        ensures deck { HoldsOfDeck self.old self.new (H.seen host.old) (H.seen host.new) result }
        ensures alone { LeavesData 1 self.old (H.seen host.old) (H.seen host.new) }
        ensures own { own_cards self.new ≡ own_cards self.old }
        ensures ahead { KeepsAhead self.old self.new (H.seen host.old) (H.seen host.new) }
        ensures reads { ReadsNoCard self.old self.new (H.seen host.old) (H.seen host.new) }
    {
        match self.front {
            Some(_) => return Held::AtFront,
            None => {}
        }
        match self.pile.hold(&mut self.front, host) {
            Held::AtFront => {
                self.from = Unit::Deck;
                return Held::AtFront;
            }
            Held::Empty => {}
            held => return held,
        }
        match hold_line(&mut self.front, Unit::Data, &mut self.data, host) {
            Held::AtFront => {
                self.from = Unit::Data;
                Held::AtFront
            }
            held => held,
        }
    }

    // Whether anything follows the front.
    fn more_behind<H: Host>(&mut self, host: &mut H) -> More
        ensures behind { HasBehind self.old self.new (H.seen host.old) (H.seen host.new) result }
        ensures deck { LooksBehind self.old self.new (H.seen host.old) (H.seen host.new) result }
        ensures own { own_cards self.new ≡ own_cards self.old }
        ensures ahead { (front : Front) → self.old.front ≡ Some front
            → IsHopperAhead self.old (H.seen host.old).world
            → IsAheadBehind self.new (H.seen host.new).world result }
        ensures same { HasSameRead self.old self.new }
    {
        match self.pile.more(host) {
            More::Yes => return More::Yes,
            More::No => {}
            More::Failed => return More::Failed,
        }
        self.data.more(host)
    }
}

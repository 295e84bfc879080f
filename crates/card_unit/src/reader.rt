// Cards that are read into core.
ghost use Rattle.std.specs.Prelude.{◌≡◌, ◌<◌, ◌≤◌, ◌+◌, ◌-◌, ◌*◌, ◌/◌, ◌%◌, ℕ, [], length, take, IfOk, false};
ghost use Rattle.addr_indirect.specs.declared.Stop.{Stop};
ghost use Rattle.card_unit.specs.declared.reader.CardIo.TheVariants as io;
ghost use Rattle.digit_core.specs.Size.{size};
ghost use Rattle.card_unit.specs.CardCalls.{ReadsCardBy, ReadsCardAsSaid, card_stored_ending, panel_after_card, with_taken_up};
ghost use Rattle.card_code.specs.Feed.{station};
ghost use Rattle.card_unit.specs.Hopper.{LeavesData, own_cards, GoesOnReadingCards, line_read};
ghost use Rattle.card_unit.specs.Reader.{read_card_numeric, read_card_alphameric};
ghost use Rattle.card_code.specs.Readings.{bad_from};

use crate::hopper::{CardAnswer, Hopper};
use addr_indirect::Stop;
use card_code::{ReadAs, store_digits, store_pairs};
use digit_core::Core;
use indicators::{LAST_CARD, Panel};
use outside_io::{Host, Unit};

/// How an instruction on the card unit ends.
///
/// Source: this project's own.
#[derive(Clone, Copy, Debug, PartialEq, Eq)]
pub enum CardIo {
    /// It was completed.
    Done,
    /// It stopped.
    Stop(Stop),
    /// No card was left to be read; nothing was done.
    Empty,
    /// The line to be read is over 80 bytes; nothing was done.
    Jam {
        /// The line's unit.
        unit: Unit,
        /// Its number in the unit, counted from 1.
        line: u64,
    },
    /// The host failed: its count of faults rose.
    Failed,
}

/// Reads the 80 digits of the next card into core from `p` upwards.
///
/// `p` is below the size of core. The card is taken first, and the last card indicator 09 goes on exactly if no byte follows the card
/// in the hopper; otherwise 09 stays. Then the digits are stored one after another. A bad character is stored as an unflagged 0, and
/// turns on the read check 06 at once. `Empty` and `Jam` are the answers of [`Hopper::next_card`]. They and `Failed` leave core,
/// panel and the cards of the hopper as they were.
///
/// The card counts as read, and its bad characters that were stored are tallied, also if the instruction stops. A character for which
/// core had no room is not tallied. See [`Hopper::bad_characters`].
///
/// Stops: 2 if a digit's position is past the end of core; the digits before it stay, and the card is gone.
/// Source: 1622 manual, read numerically; the order of its parts, and the tally, are this project's own.
#[inline]
pub fn read_num<const M: u32, H: Host>(
    core: &mut Core<M>,
    p: u32,
    panel: &mut Panel,
    hopper: &mut Hopper,
    host: &mut H,
) -> CardIo
    requires { p < size M }
    ensures reads { let before = station core.old panel.old hopper.old (H.seen host.old) in
        let after = station core.new panel.new hopper.new (H.seen host.new) in
        ReadsCardBy (read_card_numeric (size M) p) before after result }
    ensures alone { LeavesData 2 hopper.old (H.seen host.old) (H.seen host.new) }
    ensures own { own_cards hopper.new ≡ own_cards hopper.old }
    ensures reads_on { GoesOnReadingCards hopper.old hopper.new (H.seen host.old) (H.seen host.new) }
    ensures as_said { ReadsCardAsSaid ReadAs.Digit (size M - p) hopper.old hopper.new (H.seen host.old) (H.seen host.new) result }
    ensures room { (why : Stop) → result ≡ io.Stop why → size M < p + 80 }
{
    match hopper.next_card(host) {
        CardAnswer::Card { card, last } => {
            turn_on_last(panel, last);
            let room = (core.size() - p) as usize;
            let stored = store_digits(core, p, &card.0, panel);
            stored_ending(hopper, ReadAs::Digit, &card.0, room, stored, panel)
        }
        CardAnswer::Empty => CardIo::Empty,
        CardAnswer::Jam { unit, line } => CardIo::Jam { unit, line },
        CardAnswer::Failed => CardIo::Failed,
    }
}

/// Reads the 80 characters of the next card into core as pairs, from `p - 1` and `p` upwards.
///
/// `p` is an odd address, 00001 to N-1. The card is taken first, and the last card indicator 09 goes on exactly if no byte follows the
/// card in the hopper; otherwise 09 stays. Then the digits are stored one after another, the zone of each pair first, without flags. A
/// bad character is stored as 00, and turns on the read check 06 as its first digit is stored. `Empty` and `Jam` are the answers of
/// [`Hopper::next_card`]. They and `Failed` leave core, panel and the cards of the hopper as they were.
///
/// The card and its bad characters are counted as with [`read_num`]; a character counts as stored if both of its digits have room.
///
/// Stops: 2 if a digit's position is past the end of core; the digits before it stay, and the card is gone.
/// Source: 1622 manual, read alphamerically; the order of its parts, and the tally, are this project's own.
pub fn read_alpha<const M: u32, H: Host>(
    core: &mut Core<M>,
    p: u32,
    panel: &mut Panel,
    hopper: &mut Hopper,
    host: &mut H,
) -> CardIo
    requires in_core { p < size M }
    requires odd { p % 2 ≡ 1 }
    ensures reads { let before = station core.old panel.old hopper.old (H.seen host.old) in
        let after = station core.new panel.new hopper.new (H.seen host.new) in
        ReadsCardBy (read_card_alphameric (size M) p) before after result }
    ensures alone { LeavesData 2 hopper.old (H.seen host.old) (H.seen host.new) }
    ensures own { own_cards hopper.new ≡ own_cards hopper.old }
    ensures reads_on { GoesOnReadingCards hopper.old hopper.new (H.seen host.old) (H.seen host.new) }
    ensures as_said { ReadsCardAsSaid ReadAs.Pair ((size M - (p - 1)) / 2) hopper.old hopper.new (H.seen host.old) (H.seen host.new) result }
{
    match hopper.next_card(host) {
        CardAnswer::Card { card, last } => {
            turn_on_last(panel, last);
            let room = ((core.size() - (p - 1)) / 2) as usize;
            let stored = store_pairs(core, p - 1, &card.0, panel);
            stored_ending(hopper, ReadAs::Pair, &card.0, room, stored, panel)
        }
        CardAnswer::Empty => CardIo::Empty,
        CardAnswer::Jam { unit, line } => CardIo::Jam { unit, line },
        CardAnswer::Failed => CardIo::Failed,
    }
}

// Turns the last card indicator on if the card was the last.
fn turn_on_last(panel: &mut Panel, last: bool)
    ensures { panel.new ≡ panel_after_card last panel.old }
{
    if last {
        panel.set(LAST_CARD, true);
    }
}

// The answer of a reading, by the result of storing its card. The bad characters among those that core had room for are tallied. If the
// whole card was stored and 06 is off, no character was bad.
#[inline]
fn stored_ending(
    hopper: &mut Hopper,
    how: ReadAs,
    card: &[u8],
    room: usize,
    stored: Result<(), Stop>,
    panel: &Panel,
) -> CardIo
    requires short { length card.now ≤ 80 }
    requires good { IfOk stored (λ _. panel.now.read_check ≡ false
        → bad_from hopper.old.from (line_read hopper.old) how 1 (take room card.now) ≡ []) }
    ensures tallied { hopper.new ≡ with_taken_up how (take room card.now) hopper.old }
    ensures answer { result ≡ card_stored_ending stored }
{
    match stored {
        Ok(()) => {
            if panel.read_check {
                take_up_first(hopper, how, card, room);
            }
            CardIo::Done
        }
        Err(stop) => {
            take_up_first(hopper, how, card, room);
            CardIo::Stop(stop)
        }
    }
}

// Tallies the bad characters among the first ones of the last card: as many as core had room for. It is a function of its own, so that
// the reading of good cards is small enough to be compiled into the instruction.
#[cold]
#[inline(never)]
fn take_up_first(hopper: &mut Hopper, how: ReadAs, card: &[u8], room: usize)
    requires { length card.now ≤ 80 }
    ensures { hopper.new ≡ with_taken_up how (take room card.now) hopper.old }
{
    let stored = &card[..card.len().min(room)];
    hopper.take_up(how, stored);
}

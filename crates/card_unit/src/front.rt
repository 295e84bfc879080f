// The card or line at the front of a hopper.
ghost use Rattle.std.specs.Prelude.{◌≡◌};
ghost use Rattle.card_code.specs.{text_as_card, unit_of, entries_left};
ghost use Rattle.card_code.specs.Reader.{AsksUnit, IsInTurn, IsOneAhead};
ghost use Rattle.card_unit.specs.Front.{HoldsNext};

use card_code::{Card, Line, LineAnswer, Lines};
use outside_io::{Host, Unit};

// A card, or the text of a line that is read as a card.
#[derive(Clone, Copy)]
pub(crate) enum Front {
    Card(Card),
    Line(Line),
}

// Whether the next card, or its line, is at the front, and if not, why.
#[derive(Clone, Copy)]
pub(crate) enum Held {
    // It is at the front.
    AtFront,
    // No card is left.
    Empty,
    // The next line is over 80 bytes, and is not taken. `line` is its number in its unit, counted from 1.
    Jam { unit: Unit, line: u64 },
    // The host failed.
    Failed,
}

impl Front {
    ghost use Rattle.card_unit.specs.Front.{front_text};

    // The card at the front: itself, or its line filled with blanks.
    #[inline]
    pub(crate) fn to_card(&self) -> Card
        ensures { result.0 ≡ text_as_card (front_text self.now) }
    {
        match self {
            Front::Card(card) => {
                // Only for the proof, which learns from this slice how many columns a card has. The compiler drops it.
                let _columns = &card.0[..80];
                *card
            }
            Front::Line(line) => line.to_card(),
        }
    }
}

// Moves a unit's next line to the front.
#[inline]
pub(crate) fn hold_line<H: Host>(
    front: &mut Option<Front>,
    unit: Unit,
    lines: &mut Lines,
    host: &mut H,
) -> Held
    requires { unit_of lines.old ≡ unit }
    ensures entry { HoldsNext front.old front.new (entries_left lines.old (H.seen host.old).world)
        (entries_left lines.new (H.seen host.new).world) (H.seen host.old) (H.seen host.new) result }
    ensures moves { AsksUnit lines.old lines.new (H.seen host.old) (H.seen host.new) }
    ensures turn { IsOneAhead lines.old (H.seen host.old).world → IsInTurn lines.new (H.seen host.new).world }
{
    match lines.next_line(host) {
        LineAnswer::Line(line) => {
            *front = Some(Front::Line(line));
            Held::AtFront
        }
        LineAnswer::End => Held::Empty,
        LineAnswer::Jam(line) => Held::Jam { unit, line },
        LineAnswer::Failed => Held::Failed,
    }
}

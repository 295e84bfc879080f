// The cards or lines that lie in a hopper before the data cards.
ghost use Rattle.std.specs.Prelude.{◌≡◌};
ghost use Rattle.outside_io.specs.declared.host.Unit.TheVariants as units;
ghost use Rattle.outside_io.specs.World.{same_unit};

use crate::front::{Front, Held, hold_line};
use card_code::{Card, Lines, More};
use outside_io::{Host, Unit};

// Cards, the first `gone` of them already taken, or the lines of the unit Deck.
#[derive(Drop)]
pub(crate) enum Pile {
    Cards { cards: Vec<Card>, gone: usize },
    Deck(Lines),
}

impl Pile {
    ghost use Rattle.card_code.specs.declared.lines.More.TheVariants as more;
    ghost use Rattle.card_unit.specs.Pile.{LooksAt, pile_unit, pile_cards, HoldsOfPile, MoreFronts, IsPileAhead, IsPileInTurn};

    // Moves the pile's next card or line to the front.
    pub(crate) fn hold<H: Host>(&mut self, front: &mut Option<Front>, host: &mut H) -> Held
        requires { pile_unit self.old ≡ units.Deck }
        ensures unit { pile_unit self.new ≡ units.Deck }
        ensures cards { pile_cards self.new ≡ pile_cards self.old }
        ensures looks { LooksAt (same_unit units.Deck) (H.seen host.old) (H.seen host.new) }
        ensures entry { HoldsOfPile self.old self.new front.old front.new (H.seen host.old) (H.seen host.new) result }
        ensures turn { IsPileAhead self.old (H.seen host.old).world
            → IsPileInTurn self.new (H.seen host.new).world }
    {
        match self {
            Pile::Cards { cards, gone } => {
                if *gone >= cards.len() {
                    return Held::Empty;
                }
                *front = Some(Front::Card(cards[*gone]));
                *gone += 1;
                Held::AtFront
            }
            Pile::Deck(lines) => hold_line(front, Unit::Deck, lines, host),
        }
    }

    // Whether anything is left in the pile.
    pub(crate) fn more<H: Host>(&mut self, host: &mut H) -> More
        requires { pile_unit self.old ≡ units.Deck }
        ensures unit { pile_unit self.new ≡ units.Deck }
        ensures cards { pile_cards self.new ≡ pile_cards self.old }
        ensures looks { LooksAt (same_unit units.Deck) (H.seen host.old) (H.seen host.new) }
        ensures entry { MoreFronts self.old self.new (H.seen host.old) (H.seen host.new) result }
        ensures ahead { IsPileAhead self.old (H.seen host.old).world
            → IsPileAhead self.new (H.seen host.new).world }
        ensures turn { (result ≡ more.Yes → ⊥) → IsPileInTurn self.old (H.seen host.old).world
            → IsPileInTurn self.new (H.seen host.new).world }
    {
        match self {
            Pile::Cards { cards, gone } => {
                if *gone < cards.len() {
                    More::Yes
                } else {
                    More::No
                }
            }
            Pile::Deck(lines) => lines.more(host),
        }
    }
}

// Five characters, and the word of their pairs' ten cells.

ghost use Rattle.std.specs.Prelude.{◌≡◌, MatchOption, length};
ghost use Rattle.card_code.specs.Words.{ArePairCells, HasNoPair, ArePairEntries, HasNoPairEntry};

use crate::tables::{NO_PAIR, PAIR_CELLS};

// The word of the cells of five characters' pairs, the first zone as its lowest cell; `None` if one of them has no pair.
#[inline]
pub(crate) fn pair_word(text: &[u8]) -> Option<u64>
    requires { length text.now ≡ 5 }
    ensures { MatchOption result (HasNoPair text.now) (ArePairCells text.now) }
{
    pairs_by(&PAIR_CELLS, text)
}

// The word of five characters' pairs by a table, if each has one.
#[inline]
fn pairs_by(table: &[u16; 256], text: &[u8]) -> Option<u64>
    requires { length text.now ≡ 5 }
    ensures { MatchOption result
        (HasNoPairEntry table.now text.now)
        (ArePairEntries table.now text.now) }
{
    let mut word = 0;
    // All pairs' bits together.
    let mut bits = 0;
    for j in 0..5 {
        let pair = table[text[j] as usize];
        bits |= pair;
        word |= u64::from(pair) << (12 * j);
    }
    if bits < NO_PAIR { Some(word) } else { None }
}

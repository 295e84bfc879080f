// Cards that are punched.
ghost use Rattle.std.specs.Prelude.{◌≡◌, ◌≤◌, ◌<◌, ◌+◌, ◌-◌, ◌*◌, ◌%◌, ℕ, IfSome};
ghost use Rattle.digit_core.specs.Size.{size};
ghost use Rattle.outside_io.specs.declared.host.Unit.TheVariants as units;
ghost use Rattle.outside_io.specs.Whole.{Sends};
ghost use Rattle.indicators.specs.Lamps.{panel_after};
ghost use Rattle.addr_indirect.specs.Reading.{read_at};
ghost use Rattle.card_code.specs.TextOut.{lamps_of};
ghost use Rattle.card_unit.specs.Punch.{card_text, punch_numeric, pair_text, punch_alphameric, punch_dump, card_line, columns_text, HasGoodTen};
ghost use Rattle.card_unit.specs.CardCalls.{Punches, PunchesPairs};
ghost use Rattle.digit_core.specs.declared.TheConstants.{MOST_POSITIONS};

use crate::reader::CardIo;
use addr_indirect::{Stop, read_at};
use card_code::{Card, char_of_pair, put_punch_chars};
use digit_core::{Core, Digit, are_good, digit_in};
use indicators::Panel;
use outside_io::{Host, Sent, Unit, write_all};

// The columns of a card.
const COLUMNS: usize = 80;

/// Punches a card with the 80 digits from `p` upwards.
///
/// `p` is an address, 00000 to N-1. Each digit is punched as its object character, but an unflagged numerical blank as a blank. The
/// unit Punched gets the 80 bytes and a LF after all digits were read: on a stop no card is punched. A record mark is punched like any
/// other digit. `Failed` only if the host's count of faults rose: a first part of the card's line is punched then. The answer is
/// always `Done`, `Stop` or `Failed`.
///
/// Stops: 2 if the digits go past the end of core, 4 and 5 for a bad cell.
/// Source: 1622 manual, write numerically; when the card goes out is this project's own.
pub fn punch_num<const M: u32, H: Host>(core: &Core<M>, p: u32, host: &mut H) -> CardIo
    requires { p < size M }
    ensures { Punches (punch_numeric core.now p) (H.seen host.old) (H.seen host.new) result }
{
    prove!(p < core.size());
    match digits_card(core, p, COLUMNS) {
        Ok(card) => match punch(&card, host) {
            Sent::Done => CardIo::Done,
            Sent::Failed => CardIo::Failed,
        },
        Err(stop) => CardIo::Stop(stop),
    }
}

/// Punches a card with the characters of the 80 pairs from `p - 1` and `p` upwards.
///
/// `p` is an odd address, 00001 to N-1. The zone digit of a pair is read first; the flags of both are ignored. A pair that has no
/// character is punched as a blank, and turns on the write check 07 when it is read, also if a later cell stops. The unit Punched gets
/// the 80 bytes and a LF after all pairs were read: on a stop no card is punched. A record mark does not end the card. `Failed` only
/// if the host's count of faults rose: a first part of the card's line is punched then. The answer is always `Done`, `Stop` or
/// `Failed`.
///
/// Stops: 2 if the pairs go past the end of core, 4 and 5 for a bad cell.
/// Source: 1622 manual, write alphamerically; what a bad pair is punched as, and the order, are this project's own.
pub fn punch_alpha<const M: u32, H: Host>(
    core: &Core<M>,
    p: u32,
    panel: &mut Panel,
    host: &mut H,
) -> CardIo
    requires in_core { p < size M }
    requires odd { p % 2 ≡ 1 }
    ensures { PunchesPairs (punch_alphameric core.now p)
        panel.old (H.seen host.old) panel.new (H.seen host.new) result }
{
    prove!(p < core.size());
    match pairs_card(core, p - 1, panel) {
        Ok(card) => match punch(&card, host) {
            Sent::Done => CardIo::Done,
            Sent::Failed => CardIo::Failed,
        },
        Err(stop) => CardIo::Stop(stop),
    }
}

/// Punches the digits from `p` to the end of core, 80 on a card, the last card filled with blanks.
///
/// `p` is an address, 00000 to N-1. Each card goes to the unit Punched as 80 bytes and a LF after its digits were read; the cards
/// before a stop stay. `Failed` only if the host's count of faults rose: a first part of the cards is punched then. The answer is
/// always `Done`, `Stop` or `Failed`.
///
/// Stops: 4 and 5 for a bad cell.
/// Source: 1622 manual, dump numerically; that the last card is filled with blanks is this project's own.
pub fn dump<const M: u32, H: Host>(core: &Core<M>, p: u32, host: &mut H) -> CardIo
    requires { p < size M }
    ensures { Punches (punch_dump core.now p) (H.seen host.old) (H.seen host.new) result }
{
    let size = core.size();
    let mut a = p;
    while a < size {
        let count = COLUMNS.min((size - a) as usize);
        match digits_card(core, a, count) {
            Ok(card) => match punch(&card, host) {
                Sent::Done => a += count as u32,
                Sent::Failed => return CardIo::Failed,
            },
            Err(stop) => return CardIo::Stop(stop),
        }
    }
    CardIo::Done
}

// The card of `count` digits from `a` upwards.
fn digits_card<const M: u32>(core: &Core<M>, a: u32, count: usize) -> Result<Card, Stop>
    requires near { a ≤ MOST_POSITIONS }
    requires fits { count ≤ 80 }
    ensures { card_text result ≡ columns_text core.now a count }
{
    let mut columns = [b' '; COLUMNS];
    let mut k = 0;
    while k < count {
        let at = a + k as u32;
        match ten_columns(core, at, count - k) {
            Some(word) => {
                // Each of the word's cells is good, and so has a character.
                let _ = put_punch_chars(word, &mut columns[k..k + 10]);
                k += 10;
            }
            None => {
                columns[k] = card_code::punch_num(read_at(core, at)?);
                k += 1;
            }
        }
    }
    Ok(Card(columns))
}

// The word of the ten cells from `at` upwards, if ten digits are left and core has ten good cells there.
#[inline]
fn ten_columns<const M: u32>(core: &Core<M>, at: u32, left: usize) -> Option<u64>
    ensures more { IfSome result (λ _. 10 ≤ left) }
    ensures held { IfSome result (HasGoodTen core.now at) }
{
    if left < 10 {
        return None;
    }
    good_ten(core, at)
}

// The card of the 80 pairs from `a` upwards.
fn pairs_card<const M: u32>(core: &Core<M>, a: u32, panel: &mut Panel) -> Result<Card, Stop>
    requires near { a ≤ MOST_POSITIONS }
    ensures text { card_text result ≡ (pair_text core.now a 80).answer }
    ensures panel { panel.new ≡ panel_after panel.old (lamps_of (pair_text core.now a 80).effects) }
{
    let mut columns = [b' '; COLUMNS];
    for i in 0..COLUMNS / 5 {
        let from = a + 10 * i as u32;
        let ten = good_ten(core, from);
        for j in 0..5 {
            let k = 5 * i + j;
            let zone = digit_of(core, from, ten, 2 * j as u32)?;
            let number = digit_of(core, from, ten, 2 * j as u32 + 1)?;
            columns[k] = char_of_pair(zone, number, panel);
        }
    }
    Ok(Card(columns))
}

// The word of the ten cells from `a` upwards, if core has them and each holds a digit.
#[inline]
fn good_ten<const M: u32>(core: &Core<M>, a: u32) -> Option<u64>
    ensures { IfSome result (HasGoodTen core.now a) }
{
    if core.size() - 10 < a {
        return None;
    }
    let word = core.ten(a);
    if are_good(word) { Some(word) } else { None }
}

// The digit at `a + j`: from the word of the ten cells from `a` upwards if `ten` has it, otherwise from core.
#[inline]
fn digit_of<const M: u32>(core: &Core<M>, a: u32, ten: Option<u64>, j: u32) -> Result<Digit, Stop>
    requires near { a ≤ 61000 }
    requires place { j < 10 }
    requires held { IfSome ten (HasGoodTen core.now a) }
    ensures { result ≡ read_at core.now (a + j) }
{
    match ten {
        Some(word) => Ok(digit_in(word, j)),
        None => read_at(core, a + j),
    }
}

// Punches a card: its columns and a LF.
fn punch<H: Host>(card: &Card, host: &mut H) -> Sent
    ensures { Sends (H.seen host.old) (H.seen host.new)
        units.Punched (card_line card.now.0) result }
{
    let mut line = [b'\n'; COLUMNS + 1];
    line[..COLUMNS].copy_from_slice(&card.0);
    write_all(host, Unit::Punched, &line)
}

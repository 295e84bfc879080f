// Where a statement puts its label and its digits, and where the next statement begins.
ghost use Rattle.std.specs.Prelude.{◌≡◌, ◌≤◌, ◌<◌, ◌+◌, ◌^◌, length, map};
ghost use Rattle.sps_scan.specs.Statement.{statement_text, now_of};
ghost use Rattle.sps_pass_one.specs.Measure.{size_or_0};
ghost use Rattle.sps_pass_one.specs.Placing.{listed_count, field_size, label_place, declares, begins_even, moves_origin, even_up, nothing_at, declared_size, field_begin, field_placing, instruction_placing, count_of};
ghost use Rattle.sps_pass_one.specs.Layout.{placing_by, declarative_placing};

use crate::ask::form_of;
use crate::operands::{is_blank, measure};
use crate::place::Placing;
use sps_expr::{Scope, Symbols};
use sps_ops::{Declarative, Operation};
use sps_scan::Statement;

// How many digits a disk instruction's control field has: the drive, a sector of five, a count of three, and an address of five.
const CONTROL_DIGITS: u64 = 14;

// How many addresses a DSA lists: its list ends at the first empty part.
fn listed_count(parts: &[&[u8]]) -> u64
    requires { length parts.now ≤ 10 }
    ensures is { result ≡ listed_count (map now_of parts.now) }
    ensures few { result ≤ 10 }
{
    for i in 0..parts.len() {
        if is_blank(parts[i]) {
            return i as u64;
        }
    }
    parts.len() as u64
}

// How many positions the field of a declarative has.
fn field_size(d: Declarative, n: u64, k: u64) -> u64
    requires n { n ≤ 99999 }
    requires k { k ≤ 99999 }
    ensures is { result ≡ field_size d n k }
    ensures small { result ≤ 9999800001 }
{
    match d {
        Declarative::Ds
        | Declarative::Dss
        | Declarative::Dc
        | Declarative::Dsc
        | Declarative::Dnb => n,
        Declarative::Das | Declarative::Dac => 2 * n,
        Declarative::Dsa => 5 * n,
        Declarative::Dsb => n * k,
        Declarative::Dgm => 1,
        Declarative::Dda => CONTROL_DIGITS,
        Declarative::Dorg | Declarative::Dend | Declarative::Head => 0,
    }
}

/// How many positions of a declarative's field lie before the position that its label addresses.
///
/// `n` is its length; for DSA `n` is 0 exactly if the DSA lists no address.
/// Source: SPS manual, declarative operations; the exact labels of declaratives are this project's own.
pub fn label_place(d: Declarative, n: u64) -> u64
    ensures is { result ≡ label_place d n }
    ensures small { result ≤ n + 4 }
{
    match d {
        Declarative::Ds | Declarative::Dc | Declarative::Dsb | Declarative::Dnb => {
            n.saturating_sub(1)
        }
        Declarative::Das | Declarative::Dac => 1,
        Declarative::Dsa => { if n == 0 { 0 } else { 4 } }
        Declarative::Dss
        | Declarative::Dsc
        | Declarative::Dgm
        | Declarative::Dda
        | Declarative::Dorg
        | Declarative::Dend
        | Declarative::Head => 0,
    }
}

// Whether a declarative declares the positions of its field: their digits enter the image.
fn declares(d: Declarative) -> bool
    ensures { result ≡ declares d }
{
    match d {
        Declarative::Ds
        | Declarative::Dss
        | Declarative::Das
        | Declarative::Dsb
        | Declarative::Dorg
        | Declarative::Dend
        | Declarative::Head => false,
        Declarative::Dc
        | Declarative::Dsc
        | Declarative::Dac
        | Declarative::Dsa
        | Declarative::Dnb
        | Declarative::Dgm
        | Declarative::Dda => true,
    }
}

// Whether a declarative's field begins at an even address.
fn begins_even(d: Declarative) -> bool
    ensures { result ≡ begins_even d }
{
    matches!(d, Declarative::Das | Declarative::Dac)
}

// Whether a declarative sets where the next digits go.
fn moves_origin(d: Declarative) -> bool
    ensures { result ≡ moves_origin d }
{
    matches!(d, Declarative::Dorg)
}

// The first even address from an address on.
fn even_up(at: u64) -> u64
    requires { at < 10 ^ 15 }
    ensures is { result ≡ even_up at }
    ensures near { result ≤ at + 1 }
{
    at + at % 2
}

// The placing of a statement that takes no digits.
pub(crate) fn nothing_at(at: u64) -> Placing
    ensures { result ≡ nothing_at at }
{
    Placing {
        label: at,
        digits: 0,
        next: at,
    }
}

// How many digits a declarative declares.
fn declared_size(d: Declarative, n: u64, k: u64) -> u32
    requires n { n ≤ 99999 }
    requires k { k ≤ 99999 }
    ensures { result ≡ declared_size d n k }
{
    if declares(d) {
        field_size(d, n, k) as u32
    } else {
        0
    }
}

// Where a field without an explicit address begins.
fn field_begin(d: Declarative, at: u64) -> u64
    requires { at < 10 ^ 15 }
    ensures is { result ≡ field_begin d at }
    ensures near { result ≤ at + 1 }
{
    if begins_even(d) { even_up(at) } else { at }
}

// Without an address the field lies at the location, which moves past it; with an address the field lies around that address.
fn field_placing(d: Declarative, at: u64, n: u64, k: u64, a: Option<u64>) -> Placing
    requires at { at < 10 ^ 15 }
    requires n { n ≤ 99999 }
    requires k { k ≤ 99999 }
    requires a { size_or_0 a ≤ 99999 }
    ensures is { result ≡ field_placing d at n k a }
    ensures next { result.next ≤ at + 9999900000 }
    ensures label { result.label ≤ at + 9999900000 }
{
    let digits = declared_size(d, n, k);
    match a {
        None => {
            let begin = field_begin(d, at);
            Placing {
                label: begin + label_place(d, n),
                digits,
                next: begin + field_size(d, n, k),
            }
        }
        Some(a) => Placing {
            label: a,
            digits,
            next: if moves_origin(d) { a } else { at },
        },
    }
}

// The length of a declarative, or the number of addresses that a DSA lists.
fn count_of(d: Declarative, s: &Statement<'_>, n: u64) -> u64
    requires { n ≤ 99999 }
    ensures is { result ≡ count_of d (statement_text s.now) n }
    ensures small { result ≤ 99999 }
{
    match d {
        Declarative::Dsa => listed_count(&s.parts),
        _ => n,
    }
}

// Where a declarative puts its field; a declarative whose layout is broken takes no digits.
fn declarative_placing(
    d: Declarative,
    at: u64,
    head: Option<u8>,
    symbols: &Symbols,
    s: &Statement<'_>,
) -> Placing
    requires at { at < 10 ^ 15 }
    ensures is { result ≡ declarative_placing head symbols.now at (statement_text s.now) d }
    ensures next { result.next ≤ at + 9999900000 }
    ensures label { result.label ≤ at + 9999900000 }
{
    let scope = Scope {
        head,
        symbols,
        here: at as i64,
        before: None,
    };
    let m = measure(None, s, form_of(d), &scope);
    match m.worst {
        None => field_placing(d, at, count_of(d, s, m.n), m.k, m.a),
        Some(_) => nothing_at(at),
    }
}

// An instruction takes twelve digits from the next even address.
fn instruction_placing(at: u64) -> Placing
    requires at { at < 10 ^ 15 }
    ensures is { result ≡ instruction_placing at }
    ensures next { result.next ≤ at + 13 }
    ensures label { result.label ≤ at + 1 }
{
    let even = even_up(at);
    Placing {
        label: even,
        digits: 12,
        next: even + 12,
    }
}

// The placing of a statement by its operation; with an unknown operation it takes no digits.
pub(crate) fn placing_by(
    at: u64,
    head: Option<u8>,
    symbols: &Symbols,
    s: &Statement<'_>,
    operation: Option<Operation>,
) -> Placing
    requires at { at < 10 ^ 15 }
    ensures is { result ≡ placing_by head symbols.now at (statement_text s.now) operation }
    ensures next { result.next ≤ at + 9999900000 }
    ensures label { result.label ≤ at + 9999900000 }
{
    match operation {
        None => nothing_at(at),
        Some(Operation::Instruction { .. }) => instruction_placing(at),
        Some(Operation::Declare(d)) => declarative_placing(d, at, head, symbols, s),
    }
}

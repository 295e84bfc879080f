// Locations and labels of a source.
ghost use Rattle.std.specs.Prelude.{◌≡◌, ◌≤◌, ◌<◌, ◌+◌, ◌^◌, ◌&&◌, ◌||◌, List, None, IfOk, OnOk};
ghost use Rattle.sps_scan.specs.Statement.{statement_text};
ghost use Rattle.sps_pass_one.specs.Faults.{least};
ghost use Rattle.sps_pass_one.specs.Layout.{counts_if, operation_of, placing_if, is_label, symbols_if, is_end, ends_if, is_head, head_after, statement_places, symbols_of, operation_faults, layout_faults, first_broken_rule};

use crate::ask::form_of;
use crate::fault::{Fault, broken_if};
use crate::heads::{head_faults, head_in};
use crate::looked_up::LookedUp;
use crate::operands::measure;
use crate::place::{Place, Placing};
use crate::placing::{nothing_at, placing_by};
use crate::walk::Walk;
use line_words::trimmed;
use sps_expr::{Scope, Symbols, is_name};
use sps_ops::{Declarative, Operation, Rule};
use sps_scan::{Shape, Statement, scan};
use std::alloc::{AllocError, Global};
use std::marker::Model;

/// The greatest number of statements in a source; the next statement breaks rule 19, and the assembler ignores later lines.
///
/// Source: this project's own.
pub const MOST_STATEMENTS: u32 = 20_000;

/// The places of the statements of a source, in their order.
///
/// Contracts see the list of the places.
/// Source: this project's own.
#[derive(Drop)]
pub struct Places(Vec<Place>);

impl Model for Places {
    ghost use Rattle.std.specs.Prelude.{List};
    ghost use Rattle.sps_pass_one.specs.declared.place.Place.{Place};

    ghost Value = { List Place };

    ghost view = { λ p. p.0.items };
}

impl Places {
    ghost use Rattle.std.specs.Prelude.{◌≡◌};

    /// The places in a vector.
    ///
    /// Source: this project's own.
    pub fn from_vec(places: Vec<Place>) -> Places
        ensures { result ≡ places.items }
    {
        Places(places)
    }

    /// The places as a slice; the place of statement 1 comes first.
    ///
    /// Source: this project's own.
    pub fn as_slice(&self) -> &[Place]
        ensures { result.now ≡ self.now }
    {
        self.0.as_slice()
    }
}

/// The places of the statements of a source, and its symbols.
///
/// Source: this project's own.
#[derive(Drop)]
pub struct Located {
    /// One place for each statement.
    pub places: Places,
    /// Each symbol that a label defines, with the value of the first of its labels.
    pub symbols: Symbols,
}

/// Whether a statement counts: it is plain, and it does not follow a DEND.
///
/// A statement that does not count defines no label and takes no digits. `ended` says whether it follows a DEND that counts.
/// Source: this project's own.
pub fn counts_if(ended: bool, shape: Shape) -> bool
    ensures { result ≡ counts_if ended shape }
{
    match shape {
        Shape::Plain => !ended,
        _ => false,
    }
}

/// The operation of a statement, or `None` if there is no such operation.
///
/// Source: SPS manual, operation codes and declarative operations.
pub fn operation_of(s: &LookedUp<'_>) -> Option<Operation>
    ensures { result ≡ operation_of (statement_text s.now.scanned.now) }
{
    s.operation
}

// The placing of a statement at a location; a statement that does not count takes no digits.
fn placing_if(
    active: bool,
    head: Option<u8>,
    symbols: &Symbols,
    at: u64,
    s: &LookedUp<'_>,
) -> Placing
    requires { at < 10 ^ 15 }
    ensures is { result ≡ placing_if active head symbols.now at (statement_text s.now.scanned.now) }
    ensures next { result.next ≤ at + 9999900000 }
    ensures label { result.label ≤ at + 9999900000 }
{
    if active {
        placing_by(at, head, symbols, s.scanned, operation_of(s))
    } else {
        nothing_at(at)
    }
}

/// Whether a text without blanks at its ends is a label: letters and digits with a letter among them.
///
/// Letters are `A` to `Z`. The function doesn't check the length: the columns of a label have room for six characters only.
/// Source: SPS manual, labels; which characters a label may have is this project's own.
pub fn is_label(name: &[u8]) -> bool
    ensures { result ≡ is_label name.now }
{
    is_name(name)
}

// The label of a statement: its text without the blanks at its ends, its value, and the number of the statement.
#[derive(Clone, Copy)]
struct Label<'s> {
    name: &'s [u8],
    value: u64,
    statement: u32,
}

// Adds the symbol of a statement's label if the statement counts, the label is valid, and no earlier label defines the symbol.
fn define_label(
    alloc: Global,
    active: bool,
    head: Option<u8>,
    symbols: &mut Symbols,
    label: &Label<'_>,
) -> Result<(), AllocError>
    requires { label.now.value < 10 ^ 16 }
    ensures { OnOk result
        (symbols.new ≡ symbols_if active head symbols.old
        label.now.name.now label.now.value label.now.statement) }
{
    if active && is_label(label.name) {
        symbols.define_under(alloc, head, label.name, label.value as i64, label.statement)?;
    }
    Ok(())
}

// Whether an operation is DEND.
fn is_end(operation: Option<Operation>) -> bool
    ensures { result ≡ is_end operation }
{
    matches!(operation, Some(Operation::Declare(Declarative::Dend)))
}

/// Whether the next statement follows a DEND that counts.
///
/// `ended` says whether this statement follows a DEND that counts, and `active` whether this statement counts.
/// Source: this project's own.
pub fn ends_if(ended: bool, active: bool, s: &LookedUp<'_>) -> bool
    ensures { result ≡ ends_if ended active (statement_text s.now.scanned.now) }
{
    ended || active && is_end(operation_of(s))
}

// Whether an operation is HEAD.
fn is_head(operation: Option<Operation>) -> bool
    ensures { result ≡ is_head operation }
{
    matches!(operation, Some(Operation::Declare(Declarative::Head)))
}

// The head in force after a statement: a HEAD that counts, and whose parts break no rule, sets it.
// `head` is the head in force before the statement, and `active` says whether the statement counts.
pub(crate) fn head_after(head: Option<u8>, active: bool, s: &LookedUp<'_>) -> Option<u8>
    ensures { result ≡ head_after head active (statement_text s.now.scanned.now) }
{
    if active && is_head(operation_of(s)) {
        match head_faults(None, s.scanned) {
            None => head_in(s.scanned),
            Some(_) => head,
        }
    } else {
        head
    }
}

/// Finds the places of the statements of a source, and its symbols.
///
/// The location begins at 00402, and no head is in force at first. A symbol has the value of the first label that defines it. The
/// function reads at most 20,001 statements.
///
/// It takes memory; the error is a lack of memory.
/// Source: SPS manual, location counter and labels; what a broken statement takes is this project's own.
pub fn locate(alloc: Global, source: &[u8]) -> Result<Located, AllocError>
    ensures places { IfOk result (λ l. l.places ≡ statement_places source.now) }
    ensures symbols { IfOk result (λ l. l.symbols ≡ symbols_of source.now) }
{
    let mut places = Vec::new(alloc);
    let mut symbols = Symbols::new(alloc);
    let mut at = 402;
    let mut walk = Walk::new(source);
    while let Some(line) = walk.next() {
        let scanned = scan(line.text);
        let s = LookedUp::of(&scanned);
        let head = walk.head();
        let active = counts_if(walk.ended(), s.scanned.shape);
        let placing = placing_if(active, head, &symbols, at, &s);
        places.push(Place {
            location: at as i64,
            label: placing.label as i64,
            digits: placing.digits,
        })?;
        let label = Label {
            name: trimmed(s.scanned.label),
            value: placing.label,
            statement: line.number,
        };
        define_label(alloc, active, head, &mut symbols, &label)?;
        walk.pass(&s);
        at = placing.next;
    }
    Ok(Located {
        places: Places(places),
        symbols,
    })
}

/// The layout of a source: the places of its statements, its symbols, and its first statement with a broken layout.
///
/// Source: this project's own.
#[derive(Drop)]
pub struct Layout {
    /// One place for each statement.
    pub places: Places,
    /// Each symbol that a label defines, with the value of the first of its labels.
    pub symbols: Symbols,
    /// The first statement whose operation is unknown or whose layout is broken, counted from 1, with its least broken rule.
    pub broken: Option<(u32, Rule)>,
}

// The least fault in the layout of a statement that counts.
#[tactic(auto, unfolding(crate::specs::Faults::least))]
fn operation_faults(
    head: Option<u8>,
    symbols: &Symbols,
    at: i64,
    number: u32,
    s: &Statement<'_>,
    op: Option<Operation>,
) -> Option<Fault>
    ensures { result ≡ least None (operation_faults head symbols.now at number (statement_text s.now) op) }
{
    match op {
        None => broken_if(None, true, Rule::UnknownOperation),
        Some(Operation::Instruction { .. }) => None,
        Some(Operation::Declare(d)) => {
            let scope = Scope {
                head,
                symbols,
                here: at,
                before: Some(number),
            };
            measure(None, s, form_of(d), &scope).worst
        }
    }
}

// The least fault in the layout of a statement.
#[tactic(auto, unfolding(crate::specs::Layout::layout_faults, crate::specs::Faults::least))]
fn layout_faults(
    head: Option<u8>,
    symbols: &Symbols,
    place: Place,
    ended: bool,
    number: u32,
    s: &LookedUp<'_>,
) -> Option<Fault>
    ensures { result ≡ least None
        (layout_faults head symbols.now place ended number (statement_text s.now.scanned.now)) }
{
    if counts_if(ended, s.scanned.shape) {
        operation_faults(
            head,
            symbols,
            place.location,
            number,
            s.scanned,
            operation_of(s),
        )
    } else {
        None
    }
}

// The first statement whose operation is unknown or whose layout is broken, with the least rule.
fn first_broken_rule(source: &[u8], located: &Located) -> Option<(u32, Rule)>
    requires places { located.now.places ≡ statement_places source.now }
    requires symbols { located.now.symbols ≡ symbols_of source.now }
    ensures { result ≡ first_broken_rule source.now }
{
    let mut places = located.places.as_slice();
    let mut walk = Walk::new(source);
    while let Some(line) = walk.next() {
        let [place, more @ ..] = places else {
            unreachable!()
        };
        let scanned = scan(line.text);
        let s = LookedUp::of(&scanned);
        let head = walk.head();
        let ended = walk.ended();
        let faults = layout_faults(head, &located.symbols, *place, ended, line.number, &s);
        if let Some(fault) = faults {
            return Some((line.number, fault.rule));
        }
        walk.pass(&s);
        places = more;
    }
    None
}

/// Lays out a source: finds the place of each statement, the symbols, and the first unknown operation or broken layout.
///
/// It is for callers from outside: the assembler calls [`locate`], and its second pass finds the first broken rule. The location
/// begins at 00402. A symbol has the value of the first label that defines it. A layout is broken if n, k, A or the text of a DAC
/// breaks one of the rules 6 to 11 or 20. Then the statement takes no digits, and its label has the location before it as its
/// value. Any other broken rule, for example an undefined symbol in an instruction, changes no layout. The function reads at most
/// 20,001 statements.
///
/// It takes memory; the error is a lack of memory.
/// Source: SPS manual, location counter and labels; which statements are broken is this project's own.
pub fn lay_out(alloc: Global, source: &[u8]) -> Result<Layout, AllocError>
    ensures places { IfOk result (λ l. l.places ≡ statement_places source.now) }
    ensures symbols { IfOk result (λ l. l.symbols ≡ symbols_of source.now) }
    ensures broken { IfOk result (λ l. l.broken ≡ first_broken_rule source.now) }
{
    let located = locate(alloc, source)?;
    let broken = first_broken_rule(source, &located);
    Ok(Layout {
        places: located.places,
        symbols: located.symbols,
        broken,
    })
}

// The other statement that a refusal is about, by its number and the rule that it breaks itself.
ghost use Rattle.std.specs.Prelude.{◌≡◌, ◌&&◌, not, is_some, if◌then◌else◌, option_map, Some, OnOk, IfOk};
ghost use Rattle.sps_pass_one.specs.Layout.{is_label, with_label};
ghost use Rattle.sps_listing.specs.Others.{head_at, first_with_label, line_rule, label_columns, lacks_symbol, number_and_rule, lost_step, lost_statement, other_of};

use crate::shown::line_at;
use line_words::trimmed;
use sps_expr::{Symbols, value};
use sps_ops::Rule;
use sps_pass_one::{LookedUp, Walk, is_label, locate, part_at};
use sps_scan::{Shape, scan};
use std::alloc::{AllocError, Global};

// The head in force at the statement with a number; None if the source has no statement with that number.
fn head_at(source: &[u8], statement: u32) -> Option<Option<u8>>
    ensures { result ≡ head_at source.now statement }
{
    let mut walk = Walk::new(source);
    while let Some(line) = walk.next() {
        if line.number == statement {
            return Some(walk.head());
        }
        let s = scan(line.text);
        walk.pass(&LookedUp::of(&s));
    }
    None
}

// The first statement with the symbol that a statement's label has under a head, if it is an earlier statement.
fn first_with_label(
    alloc: Global,
    source: &[u8],
    statement: u32,
    head: Option<u8>,
) -> Result<Option<(u32, Option<Rule>)>, AllocError>
    ensures { IfOk result (λ first. first ≡ first_with_label source.now statement head) }
{
    let symbols = locate(alloc, source)?.symbols;
    let s = scan(line_at(source, statement));
    match symbols.find_under(head, trimmed(s.label)) {
        Some((_, first)) if first < statement => Ok(Some((first, None))),
        _ => Ok(None),
    }
}

// Rule 1 or 2, if a line of this shape breaks it.
fn line_rule(shape: Shape) -> Option<Rule>
    ensures { result ≡ line_rule shape }
{
    match shape {
        Shape::BadColumn => Some(Rule::BadColumn),
        Shape::Long => Some(Rule::LongCard),
        Shape::Comment | Shape::Blank | Shape::Plain => None,
    }
}

// The text in the label columns of a line, without the blanks at its ends.
fn label_columns(line: &[u8]) -> &[u8]
    ensures { result.now ≡ label_columns line.now }
{
    let start = line.len().min(5);
    let end = line.len().min(11);
    trimmed(&line[start..end])
}

// Whether a statement has a label that is lost.
fn has_lost_label(shape: Shape, ended: bool, name: &[u8]) -> bool
    ensures { result ≡ (is_some (line_rule shape) && (not ended && is_label name.now)) }
{
    line_rule(shape).is_some() && !ended && is_label(name)
}

// Adds a label as a symbol under its head, if the label is lost.
fn define_lost(
    alloc: Global,
    lost: bool,
    head: Option<u8>,
    symbols: &mut Symbols,
    name: &[u8],
    statement: u32,
) -> Result<(), AllocError>
    ensures { OnOk result (symbols.new
        ≡ (if lost then with_label head symbols.old name.now 0 statement else symbols.old)) }
{
    if lost {
        symbols.define_under(alloc, head, name, 0, statement)?;
    }
    Ok(())
}

// Whether a name in the part has no symbol under a head.
fn lacks_symbol(head: Option<u8>, part: &[u8], symbols: &Symbols) -> bool
    ensures { result ≡ lacks_symbol head part.now symbols.now }
{
    matches!(
        value(part, head, symbols, 0, None),
        Err(Rule::UndefinedSymbol)
    )
}

// Whether a label is lost, and with it no name in the part lacks a symbol.
fn suffices(lost: bool, head: Option<u8>, part: &[u8], symbols: &Symbols) -> bool
    ensures { result ≡ (lost && not (lacks_symbol head part.now symbols.now)) }
{
    lost && !lacks_symbol(head, part, symbols)
}

// The first statement with a lost label whose label, together with all earlier lost labels, suffices for the part.
fn lost_step(
    alloc: Global,
    source: &[u8],
    head: Option<u8>,
    part: &[u8],
) -> Result<Option<(u32, Option<Rule>)>, AllocError>
    ensures { IfOk result (λ found. found ≡ option_map number_and_rule (lost_step source.now head part.now)) }
{
    let mut symbols = locate(alloc, source)?.symbols;
    let mut walk = Walk::new(source);
    while let Some(line) = walk.next() {
        let s = scan(line.text);
        let name = label_columns(line.text);
        let head_here = walk.head();
        let ended = walk.ended();
        let lost = has_lost_label(s.shape, ended, name);
        define_lost(alloc, lost, head_here, &mut symbols, name, line.number)?;
        if suffices(lost, head, part, &symbols) {
            return Ok(Some((line.number, line_rule(s.shape))));
        }
        walk.pass(&LookedUp::of(&s));
    }
    Ok(None)
}

// The statement whose label a part of a statement lacks, by the place of the part and the head in force.
fn lost_statement(
    alloc: Global,
    source: &[u8],
    statement: u32,
    place: u8,
    head: Option<u8>,
) -> Result<Option<(u32, Option<Rule>)>, AllocError>
    ensures { IfOk result (λ found. found ≡ lost_statement source.now statement place head) }
{
    let s = scan(line_at(source, statement));
    lost_step(alloc, source, head, part_at(&s, place))
}

// The other statement that a refusal is about: its number, and the rule that it breaks itself.
#[tactic(auto, unfolding(crate::specs::Others::other_of))]
pub(crate) fn other_of(
    alloc: Global,
    source: &[u8],
    statement: u32,
    rule: Rule,
    part: Option<u8>,
) -> Result<Option<(u32, Option<Rule>)>, AllocError>
    ensures { IfOk result (λ other. other ≡ other_of source.now statement rule part) }
{
    match (rule, part) {
        (Rule::DuplicateLabel, _) => match head_at(source, statement) {
            Some(head) => first_with_label(alloc, source, statement, head),
            None => Ok(None),
        },
        (Rule::UndefinedSymbol, Some(place)) => match head_at(source, statement) {
            Some(head) => lost_statement(alloc, source, statement, place, head),
            None => Ok(None),
        },
        _ => Ok(None),
    }
}

// Which rules a statement breaks, and the digits that it declares.
// Source: this project's own.
ghost use Rattle.std.specs.Prelude.{◌≡◌, [], ◌≤◌, ◌^◌, ◌<◌, List, Bool, length, nat_abs, option_map, is_some, IfOk, None};
ghost use Rattle.sps_scan.specs.Statement.{statement_text};
ghost use Rattle.line_words.specs.Blanks.{trimmed};
ghost use Rattle.sps_expr.specs.Value.{scope_now};
ghost use Rattle.sps_expr.specs.Symbol.{find};
ghost use Rattle.sps_pass_one.specs.Faults.{least};
ghost use Rattle.sps_pass_one.specs.Measure.{measure, form_of};
ghost use Rattle.sps_pass_one.specs.Layout.{counts_if, operation_of, is_label};
ghost use Rattle.sps_pass_two.specs.Made.{GivesOutcome};
ghost use Rattle.sps_pass_two.specs.DigitList.{digit_list};
ghost use Rattle.sps_pass_two.specs.Digits.{constant_of, text_digits};
ghost use Rattle.sps_pass_two.specs.Broken.{is_card, is_bad_column, is_long, line_faults, is_earlier, label_faults, is_bad_constant, constant_faults, constant_digits, constant_outcome, digits_or_none, is_bad_start, start_faults, first_address, is_outside};
ghost use Rattle.sps_pass_two.specs.Tasks.{own_outcome_in, declared_outcome_in, outcome_in, counting_outcome_in, outcome_if_in, statement_outcome_in};
ghost use Rattle.digit_core.specs.declared.TheConstants.{MOST_POSITIONS};

use crate::digits::{constant_of, filled_to, flag_first, repeated, text_digits, unflagged_digit};
use crate::operands::{Coded, dda_outcome, dsa_outcome, instruction_outcome, operand_ask};
use crate::outcome::StatementOutcome;
use crate::task::Task;
use digit_core::Digit;
use line_words::trimmed;
use sps_expr::{Scope, Symbols};
use sps_ops::{Declarative, Operation, Rule};
use sps_pass_one::{
    Fault, MOST_STATEMENTS, Place, answer, broken_at_if, broken_if, counts_if, form_of,
    head_faults, is_label, label_place, lacks, measure, operation_of, part_at,
};
use sps_scan::{Shape, Statement, all_allowed};
use std::alloc::{AllocError, Global};

// The least address that a statement may declare: below it are the card's columns and room that programs leave alone.
const LOWEST_DECLARED: u64 = 100;

// The least address that a program may start at: below it are the card's columns and the tables.
const LOWEST_START: u64 = 400;

// The line is neither a comment nor blank.
fn is_card(shape: Shape) -> bool
    ensures { result ≡ is_card shape }
{
    !matches!(shape, Shape::Comment | Shape::Blank)
}

// The rules that the assembler checks for every statement.
#[tactic(auto, using(sps_pass_one::proofs::Least::least_append))]
fn line_faults(shape: Shape, ended: bool, number: u32) -> Option<Fault>
    ensures { result ≡ least None (line_faults shape ended number) }
{
    let worst = broken_if(None, matches!(shape, Shape::BadColumn), Rule::BadColumn);
    let worst = broken_if(worst, matches!(shape, Shape::Long), Rule::LongCard);
    let worst = broken_if(worst, ended && is_card(shape), Rule::AfterEnd);
    let is_too_many = number == MOST_STATEMENTS + 1;
    broken_if(worst, is_too_many, Rule::TooManyStatements)
}

// Whether a symbol was found, and its statement is an earlier one.
fn is_earlier(number: u32, found: Option<(i64, u32)>) -> bool
    ensures { result ≡ is_earlier number found }
{
    match found {
        None => false,
        Some((_, statement)) => statement < number,
    }
}

// The rules that a label breaks: it is invalid, or an earlier statement's label has its symbol.
#[tactic(auto, using(sps_pass_one::proofs::Least::least_append))]
fn label_faults(
    worst: Option<Fault>,
    head: Option<u8>,
    symbols: &Symbols,
    name: &[u8],
    number: u32,
) -> Option<Fault>
    ensures { result ≡ least worst (label_faults head symbols.now name.now number) }
{
    let good = is_label(name);
    let worst = broken_if(worst, !name.is_empty() && !good, Rule::BadLabel);
    broken_if(
        worst,
        good && is_earlier(number, symbols.find_under(head, name)),
        Rule::DuplicateLabel,
    )
}

// The constant is invalid, or has more digits than its length. A length that breaks a rule is 0; then the digits are not counted.
fn is_bad_constant(n: u64, found: &Option<Vec<Digit>>) -> bool
    ensures { result ≡ is_bad_constant n (option_map digit_list found.now) }
{
    match found {
        None => true,
        Some(digits) => n != 0 && n < digits.len() as u64,
    }
}

// The constant of a DC or DSC, filled up with zeros.
fn constant_outcome(
    alloc: Global,
    worst: Option<Fault>,
    n: u64,
    s: &Statement<'_>,
) -> Result<StatementOutcome, AllocError>
    ensures { IfOk result (GivesOutcome worst (constant_outcome n (statement_text s.now))) }
{
    let found = constant_of(alloc, part_at(s, 1))?;
    let worst = if lacks(s, 1) {
        broken_if(worst, true, Rule::MissingOperand)
    } else {
        broken_at_if(worst, is_bad_constant(n, &found), Rule::BadConstant, 1)
    };
    let digits = match found {
        None => filled_to(alloc, n, &[])?,
        Some(digits) => filled_to(alloc, n, &digits)?,
    };
    Ok(StatementOutcome { worst, digits })
}

// The start is odd, below 00400, or so high that no instruction fits there.
fn is_bad_start(positions: u64, v: Option<i64>) -> bool
    requires { positions ≤ MOST_POSITIONS }
    ensures { result ≡ is_bad_start positions v }
{
    match v {
        None => false,
        Some(v) => {
            let last = positions.saturating_sub(12) as i64;
            !(LOWEST_START as i64 <= v && v <= last) || v.unsigned_abs() % 2 == 1
        }
    }
}

// The rules that the start, the operand of a DEND, breaks.
fn start_faults(
    worst: Option<Fault>,
    s: &Statement<'_>,
    scope: &Scope<'_>,
    positions: u64,
) -> Option<Fault>
    requires { positions ≤ MOST_POSITIONS }
    ensures { result ≡ least worst (start_faults (scope_now scope.now) (statement_text s.now) positions) }
{
    let worst = broken_if(worst, lacks(s, 0), Rule::NoStart);
    let start = answer(worst, s, operand_ask(0), scope);
    broken_if(
        start.worst,
        is_bad_start(positions, start.value),
        Rule::BadStart,
    )
}

fn faults_alone(alloc: Global, worst: Option<Fault>) -> StatementOutcome
    ensures worst { result.worst ≡ worst }
    ensures digits { result.digits.items ≡ [] }
{
    StatementOutcome {
        worst,
        digits: Vec::new(alloc),
    }
}

// The rules and the digits of a declarative, except the rules of its n, k and A.
#[tactic(auto, unfolding(sps_pass_one::specs::Faults::least))]
fn own_outcome(
    alloc: Global,
    worst: Option<Fault>,
    d: Declarative,
    task: &Task<'_>,
    n: u64,
) -> Result<StatementOutcome, AllocError>
    requires { task.now.positions ≤ MOST_POSITIONS }
    ensures { IfOk result (GivesOutcome worst (own_outcome_in d task.now n)) }
{
    let s = task.statement.scanned;
    let scope = Scope {
        head: task.head,
        symbols: task.symbols,
        here: task.place.location,
        before: None,
    };
    match d {
        Declarative::Ds
        | Declarative::Dss
        | Declarative::Das
        | Declarative::Dsb
        | Declarative::Dorg => Ok(faults_alone(alloc, worst)),
        Declarative::Dc => {
            let mut outcome = constant_outcome(alloc, worst, n, s)?;
            flag_first(1 < n, outcome.digits.as_mut_slice());
            Ok(outcome)
        }
        Declarative::Dsc => constant_outcome(alloc, worst, n, s),
        Declarative::Dac => {
            let text = part_at(s, 1);
            let worst = broken_at_if(worst, !all_allowed(text), Rule::BadConstant, 1);
            let digits = text_digits(alloc, n, text)?;
            Ok(StatementOutcome { worst, digits })
        }
        Declarative::Dsa => dsa_outcome(alloc, worst, s, &scope),
        Declarative::Dnb => {
            let digits = repeated(alloc, unflagged_digit(12), n)?;
            Ok(StatementOutcome { worst, digits })
        }
        Declarative::Dgm => {
            let digits = repeated(alloc, unflagged_digit(15), 1)?;
            Ok(StatementOutcome { worst, digits })
        }
        Declarative::Dda => dda_outcome(alloc, worst, s, &scope),
        Declarative::Dend => Ok(faults_alone(
            alloc,
            start_faults(worst, s, &scope, task.positions),
        )),
        Declarative::Head => Ok(faults_alone(alloc, head_faults(worst, s))),
    }
}

// A declarative: its n, k and A, and its other operands.
fn declared_outcome(
    alloc: Global,
    worst: Option<Fault>,
    d: Declarative,
    task: &Task<'_>,
) -> Result<StatementOutcome, AllocError>
    requires { task.now.positions ≤ MOST_POSITIONS }
    ensures { IfOk result (GivesOutcome worst (declared_outcome_in d task.now)) }
{
    let scope = Scope {
        head: task.head,
        symbols: task.symbols,
        here: task.place.location,
        before: Some(task.number),
    };
    let m = measure(worst, task.statement.scanned, form_of(d), &scope);
    let outcome = own_outcome(alloc, m.worst, d, task, m.n)?;
    Ok(outcome)
}

// The rules and the digits of an operation.
fn outcome_of(
    alloc: Global,
    worst: Option<Fault>,
    task: &Task<'_>,
) -> Result<StatementOutcome, AllocError>
    requires { task.now.positions ≤ MOST_POSITIONS }
    ensures { IfOk result (GivesOutcome worst (outcome_in task.now)) }
{
    match operation_of(task.statement) {
        None => Ok(faults_alone(alloc, broken_if(worst, true, Rule::UnknownOperation))),
        Some(
            Operation::Instruction {
                opcode,
                q,
                immediate,
            },
        ) => {
            let scope = Scope {
                head: task.head,
                symbols: task.symbols,
                here: task.place.label,
                before: None,
            };
            let coded = Coded {
                opcode,
                q,
                immediate,
            };
            instruction_outcome(alloc, worst, task.statement.scanned, &scope, coded)
        }
        Some(Operation::Declare(d)) => declared_outcome(alloc, worst, d, task),
    }
}

/// The address of a statement's first digit: the declarative determines how many positions it lies before the label's address.
pub(crate) fn first_address(operation: Option<Operation>, place: Place) -> u64
    ensures is { result ≡ first_address operation place }
    ensures small { result ≤ 2 ^ 63 }
{
    let label = place.label.unsigned_abs();
    match operation {
        Some(Operation::Declare(d)) => {
            label.saturating_sub(label_place(d, u64::from(place.digits)))
        }
        _ => label,
    }
}

// A declared digit lies below 00100 or past the end of core.
fn is_outside(positions: u64, from: u64, digits: u32) -> bool
    requires { from ≤ 2 ^ 63 }
    ensures { result ≡ is_outside positions from digits }
{
    0 < digits && (from < LOWEST_DECLARED || positions < from + u64::from(digits))
}

// The rules that a statement that counts breaks, and its digits.
fn counting_outcome(
    alloc: Global,
    worst: Option<Fault>,
    task: &Task<'_>,
) -> Result<StatementOutcome, AllocError>
    requires { task.now.positions ≤ MOST_POSITIONS }
    ensures { IfOk result (GivesOutcome worst (counting_outcome_in task.now)) }
{
    let name = trimmed(task.statement.scanned.label);
    let worst = label_faults(worst, task.head, task.symbols, name, task.number);
    let outcome = outcome_of(alloc, worst, task)?;
    let from = first_address(operation_of(task.statement), task.place);
    let outside = is_outside(task.positions, from, task.place.digits);
    Ok(StatementOutcome {
        worst: broken_if(outcome.worst, outside, Rule::OutsideImage),
        digits: outcome.digits,
    })
}

#[tactic(auto, unfolding(sps_pass_one::specs::Faults::least))]
fn outcome_if(
    alloc: Global,
    worst: Option<Fault>,
    task: &Task<'_>,
    active: bool,
) -> Result<StatementOutcome, AllocError>
    requires { task.now.positions ≤ MOST_POSITIONS }
    ensures { IfOk result (GivesOutcome worst (outcome_if_in active task.now)) }
{
    if active {
        counting_outcome(alloc, worst, task)
    } else {
        Ok(faults_alone(alloc, worst))
    }
}

/// The least rule that a statement breaks, if any, and the digits that it declares if it breaks none.
#[tactic(auto, unfolding(crate::specs::Broken::statement_outcome))]
pub(crate) fn statement_outcome(
    alloc: Global,
    task: &Task<'_>,
) -> Result<StatementOutcome, AllocError>
    requires { task.now.positions ≤ MOST_POSITIONS }
    ensures { IfOk result (GivesOutcome None (statement_outcome_in task.now)) }
{
    let shape = task.statement.scanned.shape;
    let worst = line_faults(shape, task.ended, task.number);
    let active = counts_if(task.ended, shape);
    let outcome = outcome_if(alloc, worst, task, active)?;
    Ok(outcome)
}

// The result of one statement after another: the cells, the start and the placed statements.
ghost use Rattle.std.specs.Prelude.{◌≡◌, ◌&&◌, not, [], replicate, None, IfOk, OnOk, if◌then◌else◌};
ghost use Rattle.sps_scan.specs.Statement.{statement_text};
ghost use Rattle.sps_pass_one.specs.Layout.{counts_if, operation_of};
ghost use Rattle.sps_pass_two.specs.Assembled.{is_instruction, counts_as_instruction};
ghost use Rattle.sps_pass_two.specs.Broken.{first_address};
ghost use Rattle.sps_pass_two.specs.Writing.{with_digits};
ghost use Rattle.sps_pass_two.specs.Tasks.{start_value_in, text_in};
ghost use Rattle.sps_pass_two.specs.Made.{AddsMadeStatement};

use crate::assembled::Placed;
use crate::cells::{empty_image, write};
use crate::image::Digits;
use crate::operands::{operand_ask, value_or_0};
use crate::statement::first_address;
use crate::task::Task;
use digit_core::Digit;
use sps_expr::Scope;
use sps_ops::Operation;
use sps_pass_one::{answer, counts_if, ends_if, operation_of};
use std::alloc::{AllocError, Global};

// The result of the statements so far.
#[derive(Drop)]
pub(crate) struct MadeSoFar {
    // The digit of each address.
    pub(crate) cells: Vec<Option<Digit>>,
    // The start that the first DEND gave, or 0.
    pub(crate) start: u32,
    // The statements.
    pub(crate) placed: Vec<Placed>,
}

// The result before the first statement, for a core with this number of positions.
pub(crate) fn nothing_made(alloc: Global, positions: u32) -> Result<MadeSoFar, AllocError>
    ensures cells { IfOk result (λ made. made.cells.items ≡ replicate positions None) }
    ensures start { IfOk result (λ made. made.start ≡ 0) }
    ensures placed { IfOk result (λ made. made.placed.items ≡ []) }
{
    Ok(MadeSoFar {
        cells: empty_image(alloc, positions)?,
        start: 0,
        placed: Vec::new(alloc),
    })
}

fn is_instruction(operation: Option<Operation>) -> bool
    ensures { result ≡ is_instruction operation }
{
    matches!(operation, Some(Operation::Instruction { .. }))
}

// The start that a DEND gives: the value of its operand without the sign, or 0 if it has none.
fn start_value_in(task: &Task<'_>) -> u32
    ensures { result ≡ start_value_in task.now }
{
    let scope = Scope {
        head: task.head,
        symbols: task.symbols,
        here: task.place.location,
        before: None,
    };
    let found = answer(None, task.statement.scanned, operand_ask(0), &scope);
    value_or_0(found.value).unsigned_abs() as u32
}

// The placed statement of a task.
fn placed_with(task: &Task<'_>, digits: Vec<Digit>) -> Placed
    ensures address { result.address ≡ task.now.place.label }
    ensures instruction { result.instruction ≡ counts_as_instruction task.now.ended (text_in task.now) }
    ensures digits { result.digits ≡ digits.items }
{
    Placed {
        address: task.place.label,
        instruction: counts_if(task.ended, task.statement.scanned.shape)
            && is_instruction(operation_of(task.statement)),
        digits: Digits::from_vec(digits),
    }
}

impl MadeSoFar {
    // Adds a statement that breaks no rule, at its place.
    pub(crate) fn add(&mut self, task: &Task<'_>, digits: Vec<Digit>) -> Result<(), AllocError>
        ensures { OnOk result (AddsMadeStatement task.now.ended task.now.head task.now.symbols.now task.now.place
            (text_in task.now) digits.items self.old self.new) }
    {
        let from = first_address(operation_of(task.statement), task.place);
        write(&mut self.cells, from as usize, &digits);
        let active = counts_if(task.ended, task.statement.scanned.shape);
        let ends = ends_if(task.ended, active, task.statement);
        if ends && !task.ended {
            self.start = start_value_in(task);
        }
        let placed = placed_with(task, digits);
        self.placed.push(placed)?;
        Ok(())
    }
}

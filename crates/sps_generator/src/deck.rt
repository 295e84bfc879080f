// The deck of a number.
ghost use Rattle.std.specs.Prelude.{◌≡◌, ◌<◌, ◌≤◌, ◌++◌, flat_map, IfOk, OnOk};
ghost use Rattle.outside_io.specs.Lines.{with_line_feed};
ghost use Rattle.sps_generator.specs.Generated.{next_state, draw_of, draw_value, label_of, sum_and, line_of_draw, closing_lines, source_deck};

use crate::lines::push_line;
use crate::operations::operation_of_draw;
use std::alloc::{AllocError, Global};

/// The source deck of `statements` statements by a number: the same deck for the same two numbers, on any machine.
///
/// `statements`, 8 to 1600, counts every line of the deck. All but the last seven are `AM`, `SM` or `CM` with the operands `SUM` and a
/// value of 0 to 999; `number`, 0 to 999999, determines which. The first has the label `START`. The last seven type the sum and halt, and
/// declare `SUM`, the record mark after it, and the start. Each line ends with LF, and no line has a blank at its end.
///
/// The error is a lack of memory.
/// Source: this project's own.
pub fn generate(alloc: Global, statements: u32, number: u32) -> Result<Vec<u8>, AllocError>
    requires least { 8 ≤ statements }
    requires most { statements ≤ 1600 }
    requires number { number ≤ 999999 }
    ensures { IfOk result (λ source. source.items ≡ source_deck statements number) }
{
    let mut source = Vec::new(alloc);
    let mut state = next_state(u64::from(number));
    for statement in 1..statements - 6 {
        push_statement(alloc, &mut source, statement, state / 65_536)?;
        state = next_state(state);
    }
    push_closing(&mut source)?;
    Ok(source)
}

// The state that follows a state.
fn next_state(state: u64) -> u64
    requires { state < 2147483648 }
    ensures is { result ≡ next_state state }
    ensures below { result < 2147483648 }
{
    (1_103_515_245 * state + 12_345) % 2_147_483_648
}

// The value of a draw.
fn draw_value(draw: u64) -> u64
    ensures { result ≡ draw_value draw }
{
    draw / 3 % 1000
}

fn label_of(statement: u32) -> &'static str
    ensures { result.now ≡ label_of statement }
{
    if statement == 1 { "START" } else { "" }
}

// Adds the line of a statement by its draw.
fn push_statement(
    alloc: Global,
    source: &mut Vec<u8>,
    statement: u32,
    draw: u64,
) -> Result<(), AllocError>
    ensures { OnOk result (source.new.items
        ≡ source.old.items ++ with_line_feed (line_of_draw statement draw)) }
{
    let operands = format!(in alloc; "SUM,{}", draw_value(draw))?;
    push_line(
        source,
        label_of(statement),
        operation_of_draw(draw).mnemonic(),
        &operands,
    )?;
    Ok(())
}

// Adds the lines after the generated ones.
fn push_closing(source: &mut Vec<u8>) -> Result<(), AllocError>
    ensures { OnOk result (source.new.items ≡ source.old.items ++ flat_map with_line_feed closing_lines) }
{
    push_line(source, "", "CF", "SUM-9")?;
    push_line(source, "", "WNTY", "SUM-9")?;
    push_line(source, "", "RCTY", "")?;
    push_line(source, "", "H", "")?;
    push_line(source, "SUM", "DC", "10,0")?;
    push_line(source, "", "DSC", "1,@")?;
    push_line(source, "", "DEND", "START")?;
    Ok(())
}

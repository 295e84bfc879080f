// The lines of a source deck, by the columns of the coding sheet.
ghost use Rattle.std.specs.Prelude.{◌≡◌, ◌++◌, OnOk};
ghost use Rattle.outside_io.specs.Lines.{with_line_feed};
ghost use Rattle.sps_generator.specs.Lines.{text_to_width, operation_and_operands, line};

use std::alloc::AllocError;

// Adds a line: the label from column 6, the operation from column 12, the operands from column 16, and LF.
pub(crate) fn push_line(
    source: &mut Vec<u8>,
    label: &str,
    operation: &str,
    operands: &str,
) -> Result<(), AllocError>
    ensures { OnOk result (source.new.items
        ≡ source.old.items ++ with_line_feed (line label.now operation.now operands.now)) }
{
    source.extend_from_slice(b"     ")?;
    push_filled(source, 6, label)?;
    push_operation(source, operation, operands)?;
    source.push(b'\n')?;
    Ok(())
}

// Adds the operation and the operands; a line without operands ends with its operation.
fn push_operation(source: &mut Vec<u8>, operation: &str, operands: &str) -> Result<(), AllocError>
    ensures { OnOk result (source.new.items
        ≡ source.old.items ++ operation_and_operands operation.now operands.now) }
{
    if operands.is_empty() {
        source.extend_from_slice(operation.as_bytes())?;
    } else {
        push_filled(source, 4, operation)?;
        source.extend_from_slice(operands.as_bytes())?;
    }
    Ok(())
}

// Adds a text, filled up with blanks at the right to `width` columns.
fn push_filled(source: &mut Vec<u8>, width: usize, text: &str) -> Result<(), AllocError>
    ensures { OnOk result (source.new.items ≡ source.old.items ++ text_to_width width text.now) }
{
    source.extend_from_slice(text.as_bytes())?;
    for _blank in 0..width.saturating_sub(text.len()) {
        source.push(b' ')?;
    }
    Ok(())
}

// The text of code.

ghost use Rattle.std.specs.Prelude.{◌≡◌, ◌+◌, ◌<◌, ◌++◌, [], ◌∷◌, pos, IfOk, OnOk};
ghost use Rattle.uc_code.specs.Listing.{op_line, row_line, listing_of, op_lines, row_lines, spaced, fields_of};

use crate::code::Code;
use crate::op::Op;
use crate::operands::{put_number, put_operand};
use crate::rows::{HandlerRow, Instruction};
use std::alloc::{AllocError, Global};

/// The text of code: for each op its number, `: `, its word and its operands, each behind a space; then for each handler
/// row `row `, its number, `: ` and its six fields, the kind as 0 for a `catch`, 1 for a `_CatchResume` and 2 for a
/// clean-up. Each ends with a newline. The one error is want of memory.
pub fn listing(alloc: Global, code: &Code) -> Result<Vec<u8>, AllocError>
    ensures { IfOk result (λ text. text.items ≡ listing_of code.now) }
{
    let mut text = Vec::new(alloc);
    put_ops(&mut text, code.ops())?;
    put_rows(&mut text, code.rows())?;
    Ok(text)
}

// Appends the lines of the ops.
pub(crate) fn put_ops(text: &mut Vec<u8>, ops: &[Instruction]) -> Result<(), AllocError>
    ensures { OnOk result (text.new.items ≡ text.old.items ++ op_lines 0 ops.now) }
{
    for (number, instruction) in ops.iter().enumerate() {
        put_op(text, number, instruction.op)?;
    }
    Ok(())
}

// Appends the lines of the rows.
pub(crate) fn put_rows(text: &mut Vec<u8>, rows: &[HandlerRow]) -> Result<(), AllocError>
    ensures { OnOk result (text.new.items ≡ text.old.items ++ row_lines 0 rows.now) }
{
    for (number, row) in rows.iter().enumerate() {
        put_row(text, number, row)?;
    }
    Ok(())
}

// Appends the line of an op.
fn put_op(text: &mut Vec<u8>, number: usize, op: Op) -> Result<(), AllocError>
    ensures { OnOk result (text.new.items ≡ text.old.items ++ op_line number op) }
{
    put_number(text, number as u64)?;
    text.extend_from_slice(b": ")?;
    text.extend_from_slice(op.word())?;
    op.operands().put(text)?;
    text.extend_from_slice(b"\n")?;
    Ok(())
}

// Appends the line of a row.
fn put_row(text: &mut Vec<u8>, number: usize, row: &HandlerRow) -> Result<(), AllocError>
    ensures { OnOk result (text.new.items ≡ text.old.items ++ row_line number row.now) }
{
    text.extend_from_slice(b"row ")?;
    put_number(text, number as u64)?;
    text.extend_from_slice(b":")?;
    put_fields(text, row)?;
    text.extend_from_slice(b"\n")?;
    Ok(())
}

// Appends the six fields of a row, each behind a space.
fn put_fields(text: &mut Vec<u8>, row: &HandlerRow) -> Result<(), AllocError>
    ensures { OnOk result (text.new.items ≡ text.old.items ++ spaced (fields_of row.now)) }
{
    put_three(text, row.from as u64, row.to as u64, row.outer as u64)?;
    let kind = row.kind.number();
    put_three(text, kind as u64, row.event as u64, row.entry as u64)?;
    Ok(())
}

// Appends three numbers, each behind a space.
fn put_three(text: &mut Vec<u8>, first: u64, second: u64, third: u64) -> Result<(), AllocError>
    ensures { OnOk result (text.new.items
        ≡ text.old.items ++ spaced (pos first ∷ pos second ∷ pos third ∷ [])) }
{
    put_operand(text, first)?;
    put_operand(text, second)?;
    put_operand(text, third)?;
    Ok(())
}

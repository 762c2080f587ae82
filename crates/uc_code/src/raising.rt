// The code that raises an event, that by which a handler keeps one, and that which is delivered some.

ghost use Rattle.std.specs.Prelude.{◌+◌, ◌≤◌, ◌<◌, ◌^◌, pos, length, OnOk};
ghost use Rattle.uc_tree.specs.declared.limits.TheConstants.{PROGRAM_OPS};
ghost use Rattle.uc_tree.specs.Source.{Plainly, AgainFrom};
ghost use Rattle.uc_code.specs.declared.op.Op.TheVariants as op;
ghost use Rattle.uc_code.specs.CodeShapes.{Both, One, Risk, PollAt};
ghost use Rattle.uc_code.specs.Lowered.{RaisedAt, FieldsAt, KeepsAt};
ghost use Rattle.uc_code.specs.Emits.{Puts};

use crate::cleaning::{put, put_at_risk};
use crate::draft::Draft;
use crate::op::Op;
use std::alloc::AllocError;

/// Adds the code that finds the event of this number, with fields that are 0. After want of memory the draft is spent.
pub fn put_plain(event: u8, line: u32, out: &mut Draft) -> Result<(), AllocError>
    requires { length out.old.ops + 3 ≤ PROGRAM_OPS }
    ensures { OnOk result (Puts 0 3
        (λ code. RaisedAt code line out.old.marks (Plainly event)) out.old out.new) }
{
    put(Op::Push(event as i64), line, out)?;
    put(Op::Push(0), line, out)?;
    put(Op::Push(0), line, out)?;
    Ok(())
}

/// Adds the code that finds the event that a handler keeps from this cell on. A cell past the last number is want of memory. After want
/// of memory the draft is spent.
pub fn put_again(cell: u32, line: u32, out: &mut Draft) -> Result<(), AllocError>
    requires { length out.old.ops + 3 ≤ PROGRAM_OPS }
    ensures { OnOk result (Puts 0 3
        (λ code. RaisedAt code line out.old.marks (AgainFrom cell)) out.old out.new) }
{
    if cell > u32::MAX - 2 {
        return Err(AllocError);
    }
    put(Op::Via(cell), line, out)?;
    put(Op::Via(cell + 1), line, out)?;
    put(Op::Via(cell + 2), line, out)?;
    Ok(())
}

/// Adds the code that finds the event of this number, behind the call of the constructor that has built its fields from this cell on.
/// After want of memory the draft is spent.
pub fn put_built(event: u8, cell: u32, line: u32, out: &mut Draft) -> Result<(), AllocError>
    requires room { length out.old.ops + 4 ≤ PROGRAM_OPS }
    requires cell { cell + 1 < 2 ^ 32 }
    ensures { OnOk result (Puts 0 4 (λ code. FieldsAt code line event cell) out.old out.new) }
{
    put(Op::Discard, line, out)?;
    put(Op::Push(event as i64), line, out)?;
    put(Op::Via(cell), line, out)?;
    put(Op::Via(cell + 1), line, out)?;
    Ok(())
}

/// Adds the code that throws the event that is found. After want of memory the draft is spent.
pub fn put_throw(line: u32, out: &mut Draft) -> Result<(), AllocError>
    requires { length out.old.ops < PROGRAM_OPS }
    ensures { OnOk result (Puts 0 1 (λ code. Risk code out.old.marks op.Throw line) out.old out.new) }
{
    put_at_risk(Op::Throw, line, out)?;
    Ok(())
}

/// Adds the code that raises it for resumption, and drops what the handler hands over. After want of memory the draft is spent.
pub fn put_raise(line: u32, out: &mut Draft) -> Result<(), AllocError>
    requires { length out.old.ops + 2 ≤ PROGRAM_OPS }
    ensures { OnOk result (Puts 0 2
        (λ code. Both (Risk code out.old.marks op.Raise line) (One code op.Discard line)) out.old
        out.new) }
{
    put_at_risk(Op::Raise, line, out)?;
    put(Op::Discard, line, out)?;
    Ok(())
}

/// Adds the code that is delivered events, one by one, and raises each for resumption. After want of memory the draft is spent.
pub fn put_poll(line: u32, out: &mut Draft) -> Result<(), AllocError>
    requires { length out.old.ops + 4 ≤ PROGRAM_OPS }
    ensures { OnOk result (Puts 0 4 (λ code. PollAt code out.old.marks line) out.old out.new) }
{
    let begin = out.here();
    put(Op::Poll(begin + 4), line, out)?;
    put_at_risk(Op::Deliver(begin + 4), line, out)?;
    put(Op::Discard, line, out)?;
    put(Op::Jump(begin), line, out)?;
    Ok(())
}

/// Adds the code by which a handler keeps its event from this cell on. After want of memory the draft is spent.
pub fn put_kept(cell: u32, line: u32, out: &mut Draft) -> Result<(), AllocError>
    requires room { length out.old.ops + 6 ≤ PROGRAM_OPS }
    requires cell { cell + 2 < 2 ^ 32 }
    ensures { OnOk result (Puts 0 6 (λ code. KeepsAt code line cell) out.old out.new) }
{
    put_set(cell + 2, line, out)?;
    put_set(cell + 1, line, out)?;
    put_set(cell, line, out)?;
    Ok(())
}

// The newest operand is kept in a cell, and goes.
fn put_set(cell: u32, line: u32, out: &mut Draft) -> Result<(), AllocError>
    requires { length out.old.ops + 2 ≤ PROGRAM_OPS }
    ensures { OnOk result (Puts 0 2
        (λ code. Both (One code (op.Set cell) line) (One code op.Discard line)) out.old out.new) }
{
    put(Op::Set(cell), line, out)?;
    put(Op::Discard, line, out)?;
    Ok(())
}

// Ops of one line at the end of a draft.

ghost use Rattle.std.specs.Prelude.{◌≡◌, ◌+◌, ◌<◌, ◌≤◌, pos, length, IfOk, OnOk};
ghost use Rattle.uc_tree.specs.declared.limits.TheConstants.{PROGRAM_OPS};
ghost use Rattle.uc_tree.specs.Programs.{Program};
ghost use Rattle.uc_tree.specs.Source.{Literal};
ghost use Rattle.uc_code.specs.Drafts.{patched};
ghost use Rattle.uc_resolve.specs.Resolve.{step_meant};
ghost use Rattle.uc_lower_expr.specs.Meanings.{shape_as};
ghost use Rattle.uc_lower_expr.specs.DraftGrowth.{Adds, Cuts, Grows, OpCode, RiskCode, ConvertCode, fetched};
ghost use Rattle.uc_lower_expr.specs.Parts.{WaitCode, BeginCode, EndCode, UpdateCode, SetByCode, BehindCode, StepCode, Restarts, bumped};

use crate::meaning::{ExprMeaning, Scalar, Standing};
use crate::ops::stepping;
use std::alloc::AllocError;
use uc_code::draft::Draft;
use uc_code::op::Op;
use uc_tree::ops::StepOp;

/// One more op.
pub fn put(op: Op, line: u32, out: &mut Draft) -> Result<(), AllocError>
    requires { length out.old.ops < PROGRAM_OPS }
    ensures { OnOk result (Adds 1 (OpCode line op) out.old out.new) }
{
    out.emit(op, line)?;
    Ok(())
}

/// One more op from which an event may come: its handlers are those of the marks.
pub fn put_at_risk(op: Op, line: u32, out: &mut Draft) -> Result<(), AllocError>
    requires { length out.old.ops < PROGRAM_OPS }
    ensures { OnOk result (Adds 1 (RiskCode line out.old.marks op) out.old out.new) }
{
    out.emit_at_risk(op, line)?;
    Ok(())
}

/// Drops the ops from `start` on.
pub(crate) fn cut(start: u32, out: &mut Draft)
    requires settled { out.old.settled ≤ start }
    requires inside { start ≤ length out.old.ops }
    ensures { Cuts start out.old out.new }
{
    out.cut_back(start);
}

/// In the place of the ops from `start` on one op.
pub fn restart(op: Op, start: u32, line: u32, out: &mut Draft) -> Result<(), AllocError>
    requires settled { out.old.settled ≤ start }
    requires inside { start ≤ length out.old.ops }
    requires room { start < PROGRAM_OPS }
    ensures { OnOk result (Restarts op line start out.old out.new) }
{
    out.cut_back(start);
    out.emit(op, line)
}

/// The execution waits for the condition with the number under what it stores, and is delivered events then.
pub(crate) fn put_wait(line: u32, out: &mut Draft) -> Result<(), AllocError>
    requires { length out.old.ops + 5 ≤ PROGRAM_OPS }
    ensures { OnOk result (Adds 5 (WaitCode line out.old.marks) out.old out.new) }
{
    put(Op::Wait, line, out)?;
    let begin = out.here();
    put(Op::Poll(begin + 4), line, out)?;
    put_at_risk(Op::Deliver(begin + 4), line, out)?;
    put(Op::Discard, line, out)?;
    put(Op::Jump(begin), line, out)?;
    Ok(())
}

/// The value of what stands from `start` on: of a variable and of an own field in its place, of another place behind it.
pub fn put_load(
    told: ExprMeaning,
    start: u32,
    line: u32,
    out: &mut Draft,
) -> Result<ExprMeaning, AllocError>
    requires settled { out.old.settled ≤ start }
    requires inside { start ≤ length out.old.ops }
    requires room { length out.old.ops < PROGRAM_OPS }
    ensures code { IfOk result (λ after. (p : Program) →
        Grows p 1 line out.old.marks start fetched told after out.old out.new) }
    ensures tells { IfOk result (λ after. after ≡ record told { standing = Standing.Value }) }
{
    match told.standing {
        Standing::Variable(cell) => {
            restart(Op::Via(cell), start, line, out)?;
            Ok(told.standing_as(Standing::Value))
        }
        Standing::Field(cell) => {
            restart(Op::ViaThis(cell), start, line, out)?;
            Ok(told.standing_as(Standing::Value))
        }
        Standing::Place => {
            put(Op::Load, line, out)?;
            Ok(told.standing_as(Standing::Value))
        }
        Standing::Number => Ok(told.standing_as(Standing::Value)),
        Standing::Value => Ok(told.standing_as(Standing::Value)),
        Standing::Input => Ok(told.standing_as(Standing::Value)),
        Standing::Fail => Ok(told.standing_as(Standing::Value)),
        Standing::Routine(_) => Ok(told.standing_as(Standing::Value)),
        Standing::Member(_) => Ok(told.standing_as(Standing::Value)),
        Standing::LiveMember(_) => Ok(told.standing_as(Standing::Value)),
        Standing::MutexMember { .. } => Ok(told.standing_as(Standing::Value)),
        Standing::Condition(_) => Ok(told.standing_as(Standing::Value)),
        Standing::CallOf(_) => Ok(told.standing_as(Standing::Value)),
        Standing::Nothing => Ok(told.standing_as(Standing::Value)),
    }
}

/// The top operand as it is kept in such a scalar.
pub fn put_conversion(scalar: Scalar, line: u32, out: &mut Draft) -> Result<(), AllocError>
    requires { length out.old.ops < PROGRAM_OPS }
    ensures { OnOk result (Adds 1 (ConvertCode line (shape_as scalar)) out.old out.new) }
{
    match scalar {
        Scalar::Number => Ok(()),
        Scalar::Character => put(Op::ToChar, line, out),
        Scalar::Truth => put(Op::ToBool, line, out),
        Scalar::Binding => Ok(()),
    }
}

// The old value over its place.
pub(crate) fn begin_update(line: u32, out: &mut Draft) -> Result<(), AllocError>
    requires { length out.old.ops + 2 ≤ PROGRAM_OPS }
    ensures { OnOk result (Adds 2 (BeginCode line) out.old out.new) }
{
    put(Op::Duplicate, line, out)?;
    put(Op::Load, line, out)
}

// The two top operands are combined, and written to the place under them.
pub(crate) fn end_update(
    op: Op,
    scalar: Scalar,
    line: u32,
    out: &mut Draft,
) -> Result<(), AllocError>
    requires { length out.old.ops + 3 ≤ PROGRAM_OPS }
    ensures { OnOk result (Adds 3 (EndCode line op (shape_as scalar)) out.old out.new) }
{
    put(op, line, out)?;
    put_conversion(scalar, line, out)?;
    put(Op::Keep, line, out)?;
    Ok(())
}

// The value at a place is combined with 1.
pub(crate) fn update_by_one(
    op: Op,
    scalar: Scalar,
    line: u32,
    out: &mut Draft,
) -> Result<(), AllocError>
    requires { length out.old.ops + 6 ≤ PROGRAM_OPS }
    ensures { OnOk result (Adds 6
        (UpdateCode line out.old.marks op (shape_as scalar) (Literal (pos 1))) out.old out.new) }
{
    begin_update(line, out)?;
    put(Op::Push(1), line, out)?;
    end_update(op, scalar, line, out)?;
    Ok(())
}

// The value of a variable is combined with 1.
fn set_by_one(
    op: Op,
    cell: u32,
    scalar: Scalar,
    line: u32,
    out: &mut Draft,
) -> Result<(), AllocError>
    requires { length out.old.ops + 5 ≤ PROGRAM_OPS }
    ensures { OnOk result (Adds 5
        (SetByCode line out.old.marks cell op (shape_as scalar) (Literal (pos 1))) out.old out.new) }
{
    put(Op::Via(cell), line, out)?;
    put(Op::Push(1), line, out)?;
    put(op, line, out)?;
    put_conversion(scalar, line, out)?;
    put(Op::Set(cell), line, out)?;
    Ok(())
}

// A step before what stands from `start` on.
pub(crate) fn put_bump(
    step: StepOp,
    told: ExprMeaning,
    start: u32,
    line: u32,
    out: &mut Draft,
) -> Result<ExprMeaning, AllocError>
    requires settled { out.old.settled ≤ start }
    requires inside { start ≤ length out.old.ops }
    requires room { length out.old.ops + 6 ≤ PROGRAM_OPS }
    ensures { IfOk result (λ after. (p : Program) →
        Grows p 6 line out.old.marks start (bumped step) told after out.old out.new) }
{
    match told.standing.variable() {
        Some(cell) => {
            cut(start, out);
            set_by_one(stepping(step), cell, told.scalar, line, out)?;
            Ok(told.standing_as(Standing::Value))
        }
        None => {
            update_by_one(stepping(step), told.scalar, line, out)?;
            Ok(told.standing_as(Standing::Value))
        }
    }
}

// The old value of a variable, to which the new one is written.
fn put_behind(
    op: Op,
    cell: u32,
    scalar: Scalar,
    line: u32,
    out: &mut Draft,
) -> Result<(), AllocError>
    requires { length out.old.ops + 7 ≤ PROGRAM_OPS }
    ensures { OnOk result (Adds 7
        (BehindCode line out.old.marks cell op (shape_as scalar)) out.old out.new) }
{
    put(Op::Via(cell), line, out)?;
    set_by_one(op, cell, scalar, line, out)?;
    put(Op::Discard, line, out)?;
    Ok(())
}

// The old value at a place, to which the new one is written.
fn put_step(op: Op, scalar: Scalar, line: u32, out: &mut Draft) -> Result<(), AllocError>
    requires { length out.old.ops + 9 ≤ PROGRAM_OPS }
    ensures { OnOk result (Adds 9 (StepCode line op (shape_as scalar)) out.old out.new) }
{
    put(Op::Duplicate, line, out)?;
    put(Op::Load, line, out)?;
    put(Op::CopyBelow, line, out)?;
    put(Op::CopyBelow, line, out)?;
    put(Op::Push(1), line, out)?;
    put(op, line, out)?;
    put_conversion(scalar, line, out)?;
    put(Op::Store, line, out)?;
    put(Op::DiscardBelow, line, out)?;
    Ok(())
}

// A step behind what stands from `start` on.
pub(crate) fn put_stepped(
    step: StepOp,
    told: ExprMeaning,
    start: u32,
    line: u32,
    out: &mut Draft,
) -> Result<ExprMeaning, AllocError>
    requires settled { out.old.settled ≤ start }
    requires inside { start ≤ length out.old.ops }
    requires room { length out.old.ops + 9 ≤ PROGRAM_OPS }
    ensures { IfOk result (λ after. (p : Program) →
        Grows p 9 line out.old.marks start (step_meant step) told after out.old out.new) }
{
    match told.standing.variable() {
        Some(cell) => {
            cut(start, out);
            put_behind(stepping(step), cell, told.scalar, line, out)?;
            Ok(told.standing_as(Standing::Value))
        }
        None => {
            put_step(stepping(step), told.scalar, line, out)?;
            Ok(told.standing_as(Standing::Value))
        }
    }
}

/// Ends a choice of two pieces: the number before them is tested at `choose`, and at `leave` the first piece jumps over
/// the second.
pub fn close_fork(choose: u32, leave: u32, out: &mut Draft)
    requires order { choose < leave }
    requires inside { leave < length out.old.ops }
    ensures { out.new ≡ record out.old {
      ops = patched
          (patched out.old.ops choose (Op.IfZero (leave + 1))) leave (Op.Jump (length out.old.ops));
    } }
{
    let end = out.here();
    out.patch(choose, Op::IfZero(leave + 1));
    out.patch(leave, Op::Jump(end));
}

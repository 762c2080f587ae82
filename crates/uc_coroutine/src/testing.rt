// The ends of blocks and mains that are unwound.

ghost use Rattle.std.specs.Prelude.{◌≡◌, ◌+◌, ℕ, length, IfOk, OnOk, OnErr};
ghost use Rattle.uc_tree.specs.Source.{Source};
ghost use Rattle.uc_machine.specs.Insides.{is_held_up};
ghost use Rattle.uc_machine.specs.Quiet.{State};
ghost use Rattle.uc_machine.specs.Raising.{arrives as arrives_by};
ghost use Rattle.uc_code.specs.Layout.{Laid};
ghost use Rattle.uc_code.specs.declared.rows.MainOf.TheVariants as main_of;
ghost use Rattle.uc_frames.specs.UnwindingStands.{TestsBlock, TestsCall, EndsMain};
ghost use Rattle.uc_frames.specs.Stands.{Stands};
ghost use Rattle.uc_code.specs.declared.op.Op.TheVariants as op;
ghost use Rattle.uc_code.specs.CodeShapes.{OpAt};
ghost use Rattle.uc_coroutine.specs.UnwindingSteps.{Leads};
ghost use Rattle.uc_coroutine.specs.MainEnds.{is_return as is_return_by, block_over, call_over, main_by, main_over, BlockLeft, MainLeft};

use crate::leaving::arrives;
use std::alloc::AllocError;
use uc_frames::cell::Cell;
use uc_frames::work::Work;
use uc_machine::exec::UnwindReason;

/// What becomes of a task's main that is unwound: it ends, as the last activation or for one that waits; nothing handles the event by which
/// it is unwound; or it is held up in the task's own object.
#[derive(Clone, Copy)]
pub enum TaskMainEnd {
    Ended,
    Returned,
    Unhandled,
    HeldUp,
}

/// A block that is left as a whole is unwound up to the op before `behind`: where a return arrives that is over, and the answer is true; else
/// it goes on from there.
pub fn end_block(work: &mut Work, behind: u32) -> bool
    ensures over { result ≡ arrives_by work.old.run.raised (length work.old.callers) }
    ensures now { work.new ≡ block_over result behind work.old }
    ensures source { (source : Source) (code : Laid) (s : State) → TestsBlock code work.old s →
        behind ≡ work.old.run.control + 1 → BlockLeft source code result work.new s }
{
    let over = end_at(work, behind);
    over
}

fn end_at(work: &mut Work, behind: u32) -> bool
    ensures over { result ≡ arrives_by work.old.run.raised (length work.old.callers) }
    ensures now { work.new ≡ block_over result behind work.old }
{
    if arrives(work) {
        work.end_unwinding(behind);
        true
    } else {
        work.set_next(behind);
        false
    }
}

/// A mutex call that has `arrive` as its next op is unwound: where a return arrives that is over, and the call goes on at `arrived` with what
/// the return hands over; else its clean-up begins at `unwound`. Without memory for it the task stays as it is.
pub fn end_call(work: &mut Work, arrived: u32, unwound: u32) -> Result<(), AllocError>
    ensures now { OnOk result (work.new
        ≡ call_over (arrives_by work.old.run.raised (length work.old.callers)) arrived unwound
        work.old) }
    ensures err { OnErr result (work.new ≡ work.old) }
    ensures source { OnOk result ((source : Source) (code : Laid) (s : State) →
        TestsCall code work.old s → (line : ℕ) →
        OpAt code work.old.run.control (op.Arrive arrived) line →
        unwound ≡ work.old.run.control + 1 → Leads source code (Stands code) work.new s) }
{
    if arrives(work) {
        work.arrive(arrived)?;
        return Ok(());
    }
    work.set_next(unwound);
    Ok(())
}

/// The main of a task that is unwound ends where the reason is a return. Where it is the last activation, an event is not handled, or the task is
/// held up in its own object, all stays as it is.
pub fn end_task_main(work: &mut Work) -> Result<TaskMainEnd, AllocError>
    ensures how { IfOk result (λ end. end
        ≡ main_by (is_held_up work.old.env.own work.old.env) work.old.run.raised work.old.callers) }
    ensures now { IfOk result (λ end. work.new ≡ main_over end work.old) }
    ensures err { OnErr result (work.new ≡ work.old) }
    ensures source { IfOk result (λ end. (source : Source) (code : Laid) (s : State) →
        EndsMain code main_of.Task work.old s → MainLeft source code end work.new s) }
{
    let end = end_now(work)?;
    Ok(end)
}

fn end_now(work: &mut Work) -> Result<TaskMainEnd, AllocError>
    ensures how { IfOk result (λ end. end
        ≡ main_by (is_held_up work.old.env.own work.old.env) work.old.run.raised work.old.callers) }
    ensures now { IfOk result (λ end. work.new ≡ main_over end work.old) }
    ensures err { OnErr result (work.new ≡ work.old) }
{
    if !is_return(work.raised()) {
        return Ok(TaskMainEnd::Unhandled);
    }
    if work.is_held_up(work.own()) {
        return Ok(TaskMainEnd::HeldUp);
    }
    let called = work.leave(Cell::Number(0))?;
    if called {
        Ok(TaskMainEnd::Returned)
    } else {
        Ok(TaskMainEnd::Ended)
    }
}

fn is_return(raised: Option<UnwindReason>) -> bool
    ensures { result ≡ is_return_by raised }
{
    match raised {
        None => false,
        Some(why) => match why {
            UnwindReason::Event { .. } => false,
            UnwindReason::ReturnTo(_) => true,
            UnwindReason::Destroyed => false,
        },
    }
}

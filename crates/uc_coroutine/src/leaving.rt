// Activations that are unwound to their end are left.

ghost use Rattle.std.specs.Prelude.{◌≡◌, length, true, IfOk, OnErr, if◌then◌else◌};
ghost use Rattle.uc_machine.specs.Raising.{arrives as arrives_by, escapes as escapes_by};
ghost use Rattle.uc_tree.specs.Source.{Source};
ghost use Rattle.uc_machine.specs.Quiet.{State, Value};
ghost use Rattle.uc_code.specs.Layout.{Laid};
ghost use Rattle.uc_frames.specs.UnwindingStands.{LeavesNow, Returns};
ghost use Rattle.uc_frames.specs.Machine.{cell_of};
ghost use Rattle.uc_coroutine.specs.UnwindingSteps.{LeftAs, ReturnsPast};
ghost use Rattle.uc_coroutine.specs.Unwinding.{ending_by, goes_by, left_as, past_of, Made};
ghost use Rattle.uc_coroutine.specs.declared.leaving.Left.TheVariants as left;

use crate::unwinding::pass_on;
use std::alloc::AllocError;
use uc_frames::cell::Cell;
use uc_frames::work::Work;
use uc_machine::exec::UnwindReason;

/// What becomes of an activation that is unwound to its end: it was the last one; a return arrives that ends it; an event has escaped
/// from a clean-up; or the one that waits is unwound in its turn.
#[derive(Clone, Copy)]
pub enum Left {
    Ended,
    Returned,
    Escaped,
    PassedOn,
}

/// Leaves the running activation, which is unwound to its end. Where it was the last one, or an event has escaped, all stays as it is.
pub fn leave(work: &mut Work) -> Result<Left, AllocError>
    ensures how { IfOk result (λ left. left ≡ ending_by work.old.run.raised work.old.callers) }
    ensures ok { IfOk result (λ left. work.new ≡ left_as left work.old) }
    ensures err { OnErr result (work.new ≡ work.old) }
    ensures source { IfOk result (λ left. (source : Source) (code : Laid) (s : State) →
        LeavesNow code work.old s → LeftAs source code left work.new s) }
{
    let left = end(work)?;
    Ok(left)
}

fn end(work: &mut Work) -> Result<Left, AllocError>
    ensures how { IfOk result (λ left. left ≡ ending_by work.old.run.raised work.old.callers) }
    ensures ok { IfOk result (λ left. work.new ≡ left_as left work.old) }
    ensures err { OnErr result (work.new ≡ work.old) }
{
    let how = ending(work);
    match how {
        Left::Ended => {}
        Left::Escaped => {}
        Left::Returned => {
            let given = work.result();
            let _ = work.leave(given)?;
        }
        Left::PassedOn => {
            let _ = pass_on(work);
        }
    }
    Ok(how)
}

fn ending(work: &Work) -> Left
    ensures { result ≡ ending_by work.now.run.raised work.now.callers }
{
    match work.caller() {
        None => Left::Ended,
        Some(waits) => {
            if arrives(work) {
                Left::Returned
            } else {
                passing(work.raised(), waits)
            }
        }
    }
}

// So it is where no return arrives: the one that waits is unwound for the second reason, or is not.
fn passing(raised: Option<UnwindReason>, waits: Option<UnwindReason>) -> Left
    ensures { result ≡ (if escapes_by raised waits then left.Escaped else goes_by raised) }
{
    match raised {
        None => Left::Ended,
        Some(why) => match why {
            UnwindReason::Event { .. } => {
                if waits.is_some() {
                    Left::Escaped
                } else {
                    Left::PassedOn
                }
            }
            UnwindReason::ReturnTo(_) => Left::PassedOn,
            UnwindReason::Destroyed => Left::PassedOn,
        },
    }
}

/// A return leaves a handler of resumptions: all from its raise on is unwound by a return to the routine in which it stands, to which this is
/// handed over. Where the running activation is no such handler, or none waits for it, all stays as it is, and the answer is false.
pub fn return_past(work: &mut Work, given: Cell) -> bool
    ensures now { Made (past_of work.old.run.handles given work.old.callers work.old) work.old
        result work.new }
    ensures source { result ≡ true → (code : Laid) (s : State) (value : Value) →
        given ≡ cell_of value → Returns code work.old s → ReturnsPast code value work.new s }
{
    let made = leave_handler(work, given);
    made
}

fn leave_handler(work: &mut Work, given: Cell) -> bool
    ensures { Made (past_of work.old.run.handles given work.old.callers work.old) work.old result
        work.new }
{
    match work.handles() {
        None => false,
        Some(visited) => {
            let made = work.leave_unwinding(UnwindReason::ReturnTo(visited.home), given);
            made
        }
    }
}

/// Whether the unwinding of the running activation is a return to it.
pub fn arrives(work: &Work) -> bool
    ensures { result ≡ arrives_by work.now.run.raised (length work.now.callers) }
{
    match work.raised() {
        None => false,
        Some(why) => match why {
            UnwindReason::Event { .. } => false,
            UnwindReason::ReturnTo(home) => home == work.level(),
            UnwindReason::Destroyed => false,
        },
    }
}

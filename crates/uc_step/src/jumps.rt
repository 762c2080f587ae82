// The ops that go on elsewhere, calls, and the ends of activations.

ghost use Rattle.std.specs.Prelude.{◌≡◌, ℕ, true, false, IfOk, OnErr};
ghost use Rattle.uc_step.specs.Effects.{Quiet, ended};
ghost use Rattle.uc_step.specs.OpEffects.{act_return, act_end, Does, DoesAlone, Ends};

use crate::effect::{QuietResult, Stop, put_end, put_fault};
use crate::slot::Slot;
use std::alloc::AllocError;
use uc_code::code::Code;
use uc_code::op::Op;
use uc_entry::fault::RunFault;
use uc_entry::request::Asked;
use uc_frames::cell::Cell;
use uc_frames::work::Work;
use uc_tree::limits::CALLS;

// The end of a routine; that of a handler of resumptions is left to others.
pub(crate) fn end(
    code: &Code,
    line: u32,
    given: Cell,
    work: &mut Work,
    stop: &mut Stop,
    asked: &mut Slot,
) -> Result<QuietResult, AllocError>
    ensures ok { IfOk result (λ how. Ends
        (act_end code.now line given work.old.run.handles work.old) (ended how stop.new asked.new) work.new) }
    ensures err { OnErr result (work.new ≡ work.old) }
{
    match work.handles() {
        None => {
            let how = give_back(code, line, work, stop, asked, given)?;
            Ok(how)
        }
        Some(_) => {
            *stop = Stop::Past(given);
            Ok(QuietResult::Stops)
        }
    }
}

// The activation that waits goes on with what it is handed, or the task ends.
pub(crate) fn give_back(
    code: &Code,
    line: u32,
    work: &mut Work,
    stop: &mut Stop,
    asked: &mut Slot,
    given: Cell,
) -> Result<QuietResult, AllocError>
    ensures ok { IfOk result (λ how. Ends (act_return code.now line given work.old.callers work.old)
        (ended how stop.new asked.new) work.new) }
    ensures err { OnErr result (work.new ≡ work.old) }
{
    if work.leave(given)? {
        Ok(QuietResult::Quiet)
    } else {
        Ok(put_end(code, line, work, stop, asked))
    }
}

// A return of 0 out of a routine, at its end; of the newest operand; or of 0. They stand apart, and are handed no cell, so that none is made
// where an op is executed.
#[inline(never)]
pub(crate) fn fall_off(
    code: &Code,
    line: u32,
    work: &mut Work,
    stop: &mut Stop,
    asked: &mut Slot,
) -> Result<QuietResult, AllocError>
    ensures ok { IfOk result (λ how. Does code.now line Op.Return work.old
        (ended how stop.new asked.new) work.new) }
{
    give_back(code, line, work, stop, asked, Cell::Number(0))
}

#[inline(never)]
pub(crate) fn return_value(
    code: &Code,
    line: u32,
    work: &mut Work,
    stop: &mut Stop,
    asked: &mut Slot,
) -> Result<QuietResult, AllocError>
    ensures ok { IfOk result (λ how. Does code.now line Op.ReturnValue work.old
        (ended how stop.new asked.new) work.new) }
{
    end(code, line, work.top(), work, stop, asked)
}

#[inline(never)]
pub(crate) fn return_none(
    code: &Code,
    line: u32,
    work: &mut Work,
    stop: &mut Stop,
    asked: &mut Slot,
) -> Result<QuietResult, AllocError>
    ensures ok { IfOk result (λ how. Does code.now line Op.ReturnNone work.old
        (ended how stop.new asked.new) work.new) }
{
    end(code, line, Cell::Number(0), work, stop, asked)
}

// The main of a task ends, unless it is held up in its own object.
pub(crate) fn end_task(
    code: &Code,
    line: u32,
    work: &mut Work,
    stop: &mut Stop,
    asked: &mut Slot,
) -> Result<QuietResult, AllocError>
    ensures ok { IfOk result (λ how. Does code.now line Op.EndTask work.old
        (ended how stop.new asked.new) work.new) }
    ensures err { OnErr result (work.new ≡ work.old) }
{
    if work.is_held_up(work.own()) {
        Ok(put_fault(code, line, work, stop, asked, RunFault::BlockedInside))
    } else {
        let how = give_back(code, line, work, stop, asked, Cell::Number(0))?;
        Ok(how)
    }
}

// Unwinding goes on behind a clean-up, without operands.
pub(crate) fn unwind(work: &mut Work, stop: &mut Stop) -> QuietResult
    ensures { (asked : Asked) → DoesAlone Op.Unwind work.old (ended result stop.new asked) work.new }
{
    let next = work.next();
    work.begin_clean_up(next);
    *stop = Stop::Unwind;
    QuietResult::Stops
}

// Calls this routine, where there is one, one call more may be active, and that needs no more room. Else the answer is false, and all
// stays as it is.
#[inline(always)]
pub(crate) fn called(code: &Code, number: u32, work: &mut Work) -> bool
    ensures calls { result ≡ true → (line : ℕ) →
        Does code.now line (Op.Call number) work.old Quiet work.new }
    ensures stays { result ≡ false → work.new ≡ work.old }
{
    match code.routine(number) {
        Some(routine) if work.calls() < CALLS => work.call_in_place(routine),
        _ => false,
    }
}

// The same as a member of the place below its arguments.
#[inline(always)]
pub(crate) fn called_on(code: &Code, number: u32, work: &mut Work) -> bool
    ensures calls { result ≡ true → (line : ℕ) →
        Does code.now line (Op.CallOn number) work.old Quiet work.new }
    ensures stays { result ≡ false → work.new ≡ work.old }
{
    match code.routine(number) {
        Some(routine) if work.calls() < CALLS => work.call_on_in_place(routine),
        _ => false,
    }
}

pub(crate) fn call(
    code: &Code,
    line: u32,
    work: &mut Work,
    stop: &mut Stop,
    asked: &mut Slot,
    number: u32,
) -> Result<QuietResult, AllocError>
    ensures ok { IfOk result (λ how. Does code.now line (Op.Call number) work.old
        (ended how stop.new asked.new) work.new) }
    ensures err { OnErr result (work.new ≡ work.old) }
{
    match code.routine(number) {
        None => Ok(put_end(code, line, work, stop, asked)),
        Some(routine) => {
            if work.calls() < CALLS {
                work.call(routine)?;
                Ok(QuietResult::Quiet)
            } else {
                Ok(put_fault(code, line, work, stop, asked, RunFault::Depth))
            }
        }
    }
}

pub(crate) fn call_on(
    code: &Code,
    line: u32,
    work: &mut Work,
    stop: &mut Stop,
    asked: &mut Slot,
    number: u32,
) -> Result<QuietResult, AllocError>
    ensures ok { IfOk result (λ how. Does code.now line (Op.CallOn number) work.old
        (ended how stop.new asked.new) work.new) }
    ensures err { OnErr result (work.new ≡ work.old) }
{
    match code.routine(number) {
        None => Ok(put_end(code, line, work, stop, asked)),
        Some(routine) => {
            if work.calls() < CALLS {
                work.call_on(routine, true)?;
                Ok(QuietResult::Quiet)
            } else {
                Ok(put_fault(code, line, work, stop, asked, RunFault::Depth))
            }
        }
    }
}

// A call of what nobody wrote, which is no active call.
pub(crate) fn call_unwritten(
    code: &Code,
    line: u32,
    work: &mut Work,
    stop: &mut Stop,
    asked: &mut Slot,
    number: u32,
) -> Result<QuietResult, AllocError>
    ensures ok { IfOk result (λ how. Does code.now line (Op.CallUnwritten number) work.old
        (ended how stop.new asked.new) work.new) }
    ensures err { OnErr result (work.new ≡ work.old) }
{
    match code.routine(number) {
        None => Ok(put_end(code, line, work, stop, asked)),
        Some(routine) => {
            work.call_on(routine, false)?;
            Ok(QuietResult::Quiet)
        }
    }
}

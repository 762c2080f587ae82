// The ops that ask for events and deliver them.

ghost use Rattle.std.specs.Prelude.{◌≡◌, IfOk, OnErr};
ghost use Rattle.uc_machine.specs.Insides.{oldest_enabled};
ghost use Rattle.uc_step.specs.Effects.{ended};
ghost use Rattle.uc_step.specs.OpEffects.{Does, DoesAlone};

use crate::effect::{QuietResult, Stop, put_request};
use crate::slot::Slot;
use std::alloc::AllocError;
use uc_code::code::Code;
use uc_code::op::Op;
use uc_entry::request::{Asked, Request};
use uc_frames::cell::Cell;
use uc_frames::work::Work;

// A task asks for an enabled event, and a coroutine is delivered the oldest of those that are pending. Where none is enabled, or none
// pending at a coroutine, it goes on elsewhere.
#[inline(never)]
pub(crate) fn poll(
    code: &Code,
    line: u32,
    work: &mut Work,
    stop: &mut Stop,
    asked: &mut Slot,
    to: u32,
) -> Result<QuietResult, AllocError>
    ensures ok { IfOk result (λ how. Does code.now line (Op.Poll to) work.old
        (ended how stop.new asked.new) work.new) }
    ensures err { OnErr result (work.new ≡ work.old) }
{
    let mask = work.enabled();
    if mask == 0 {
        work.set_next(to);
        return Ok(QuietResult::Quiet);
    }
    if work.is_own() {
        return Ok(put_request(code, line, work, stop, asked, Request::Poll { mask }));
    }
    if work.deliver()? {
        return Ok(QuietResult::Tick);
    }
    work.set_next(to);
    Ok(QuietResult::Quiet)
}

// What was delivered is raised; where that is nothing, the task goes on elsewhere.
pub(crate) fn deliver(work: &mut Work, stop: &mut Stop, to: u32) -> QuietResult
    ensures { (asked : Asked) → DoesAlone (Op.Deliver to) work.old (ended result stop.new asked) work.new }
{
    let number = work.below(2);
    let event = work.pop_event();
    match number {
        Cell::Nothing => {
            work.set_next(to);
            QuietResult::Quiet
        }
        Cell::Number(_) | Cell::Place(_, _) | Cell::Running(_) | Cell::Object(_) => {
            *stop = Stop::Raise(event);
            QuietResult::Stops
        }
    }
}

// The op that raises an event at another execution.

ghost use Rattle.std.specs.Prelude.{◌≡◌, IfOk, OnErr};
ghost use Rattle.uc_frames.specs.Machine.{below, exec_at};
ghost use Rattle.uc_frames.specs.Unwinding.{event_at};
ghost use Rattle.uc_step.specs.Effects.{ended};
ghost use Rattle.uc_step.specs.OpEffects.{act_pend_at, with_operands, without_event, Does, Ends};

use crate::effect::{QuietResult, Stop, put_fault, put_request};
use crate::slot::Slot;
use std::alloc::AllocError;
use uc_code::code::Code;
use uc_code::op::Op;
use uc_entry::fault::RunFault;
use uc_entry::request::Request;
use uc_frames::cell::{Cell, exec_in};
use uc_frames::event::Event;
use uc_frames::work::Work;
use uc_machine::exec::{Exec, Pending};
use uc_tree::limits::PENDING_EVENTS;

// An event is raised at a task, by its own object, or at the coroutine at a place.
pub(crate) fn raise_at(
    code: &Code,
    line: u32,
    work: &mut Work,
    stop: &mut Stop,
    asked: &mut Slot,
) -> Result<QuietResult, AllocError>
    ensures ok { IfOk result (λ how. Does code.now line Op.RaiseAt work.old
        (ended how stop.new asked.new) work.new) }
    ensures err { OnErr result (work.new ≡ work.old) }
{
    let place = work.top();
    match place {
        Cell::Object(object) => {
            let Event {
                number: event,
                x,
                y,
            } = pop_raised(work);
            Ok(put_request(
                code,
                line,
                work,
                stop,
                asked,
                Request::Raise {
                    object,
                    event,
                    x,
                    y,
                },
            ))
        }
        Cell::Number(_) | Cell::Place(_, _) | Cell::Running(_) | Cell::Nothing => {
            let exec = exec_in(work.read(place));
            let how = pend_at(code, line, work, stop, asked, exec)?;
            Ok(how)
        }
    }
}

// The event, and where it is raised, are popped.
fn pop_raised(work: &mut Work) -> Event
    ensures value { result ≡ event_at (below work.old.run.operands) }
    ensures after { work.new ≡ without_event
        (with_operands (below work.old.run.operands) work.old) }
{
    work.pop();
    let event = work.pop_event();
    event
}

// The event is pending at the coroutine of an execution, which must be live, unless too many are.
fn pend_at(
    code: &Code,
    line: u32,
    work: &mut Work,
    stop: &mut Stop,
    asked: &mut Slot,
    exec: Option<Exec>,
) -> Result<QuietResult, AllocError>
    ensures ok { IfOk result (λ how. Ends
        (act_pend_at code.now line exec (event_at (below work.old.run.operands))
        (without_event (with_operands (below work.old.run.operands) work.old)))
        (ended how stop.new asked.new) work.new) }
    ensures err { OnErr result (work.new ≡ work.old) }
{
    let Some(exec) = exec else {
        pop_raised(work);
        return Ok(put_fault(code, line, work, stop, asked, RunFault::NotLive));
    };
    if !work.is_live_at(exec) {
        pop_raised(work);
        return Ok(put_fault(code, line, work, stop, asked, RunFault::NotLive));
    }
    if work.pending_count(exec) >= usize::from(PENDING_EVENTS) {
        pop_raised(work);
        return Ok(put_fault(code, line, work, stop, asked, RunFault::TooManyPending));
    }
    let Event {
        number: event,
        x,
        y,
    } = work.event_below();
    work.raise_at(exec, Pending { event, x, y })?;
    pop_raised(work);
    Ok(QuietResult::Quiet)
}

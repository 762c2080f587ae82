// The ops of accept statements.

ghost use Rattle.std.specs.Prelude.{◌≡◌, IfOk, OnErr};
ghost use Rattle.uc_machine.specs.Pieces.{as_number};
ghost use Rattle.uc_step.specs.Effects.{ended};
ghost use Rattle.uc_step.specs.OpEffects.{chosen, Does, DoesAlone};
ghost use Rattle.uc_step.specs.declared.effect.Stop.{Stop};

use crate::effect::{QuietResult, Stop, put_fault, put_request};
use crate::mutex::this_object;
use crate::slot::Slot;
use std::alloc::AllocError;
use uc_code::code::Code;
use uc_code::op::Op;
use uc_entry::fault::RunFault;
use uc_entry::request::{Asked, Request};
use uc_frames::cell::{Cell, number_in};
use uc_frames::work::Work;
use uc_tree::limits::CLAUSES;

// A task accepts by the clauses with a true guard, unless it is held up; without one it goes on elsewhere, as by no clause. There is no
// room for more guards than a statement has.
pub(crate) fn accept(
    code: &Code,
    line: u32,
    work: &mut Work,
    stop: &mut Stop,
    asked: &mut Slot,
    site: u32,
    guards: u32,
    end: u32,
) -> Result<QuietResult, AllocError>
    ensures ok { IfOk result (λ how. Does code.now line (Op.Accept site guards end) work.old
        (ended how stop.new asked.new) work.new) }
    ensures err { OnErr result (work.new ≡ work.old) }
{
    if guards > u32::from(CLAUSES) {
        return Err(AllocError);
    }
    let object = this_object(work);
    let mask = work.guards(guards);
    work.replace_many(guards, Cell::Number(0))?;
    if mask == 0 {
        work.set_next(end);
        return Ok(QuietResult::Quiet);
    }
    work.pop();
    if work.is_held_up(object) {
        return Ok(put_fault(code, line, work, stop, asked, RunFault::BlockedInside));
    }
    Ok(put_request(
        code,
        line,
        work,
        stop,
        asked,
        Request::Accept { object, site, mask },
    ))
}

// Where the call that was taken has failed, the event of that is pushed; else the task goes on elsewhere.
pub(crate) fn failed(work: &mut Work, to: u32) -> Result<QuietResult, AllocError>
    ensures ok { IfOk result (λ how. (stop : Stop) (asked : Asked) →
        DoesAlone (Op.Failed to) work.old (ended how stop asked) work.new) }
    ensures err { OnErr result (work.new ≡ work.old) }
{
    if number_in(work.top()) == 0 {
        work.pop();
        work.set_next(to);
    } else {
        work.put_failure()?;
    }
    Ok(QuietResult::Quiet)
}

// So many ops further on, of this many, or at this op. There is no room for code that ends so far on.
fn chosen(clauses: u32, to: u32, next: u32, number: i64) -> Result<u32, AllocError>
    ensures { IfOk result (λ at. at ≡ chosen clauses to next (as_number number)) }
{
    if number < 0 {
        return Ok(next);
    }
    if number > i64::from(clauses) {
        return Ok(to);
    }
    match next.checked_add(number as u32) {
        None => Err(AllocError),
        Some(at) => Ok(at),
    }
}

// The branch of a clause by its number, or elsewhere.
pub(crate) fn choose(work: &mut Work, clauses: u32, end: u32) -> Result<QuietResult, AllocError>
    ensures ok { IfOk result (λ how. (stop : Stop) (asked : Asked) →
        DoesAlone (Op.Choose clauses end) work.old (ended how stop asked) work.new) }
    ensures err { OnErr result (work.new ≡ work.old) }
{
    let at = chosen(clauses, end, work.next(), number_in(work.top()))?;
    work.pop();
    work.set_next(at);
    Ok(QuietResult::Quiet)
}

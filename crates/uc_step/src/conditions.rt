// The ops of conditions.

ghost use Rattle.std.specs.Prelude.{◌≡◌, IfOk, OnErr};
ghost use Rattle.uc_step.specs.Effects.{ended};
ghost use Rattle.uc_step.specs.OpEffects.{condition_in, Does};

use crate::effect::{QuietResult, Stop, put_fault, put_request};
use crate::memory::index_below;
use crate::mutex::this_object;
use crate::slot::Slot;
use std::alloc::AllocError;
use uc_code::code::Code;
use uc_code::op::Op;
use uc_entry::fault::RunFault;
use uc_entry::request::Request;
use uc_frames::cell::{Cell, number_in};
use uc_frames::work::Work;
use uc_tree::limits::LAST_CONDITION;

// A condition by its number; there is no room for one that no class has.
fn condition_in(cell: Cell) -> Result<u16, AllocError>
    ensures { IfOk result (λ k. k ≡ condition_in cell) }
{
    let number = number_in(cell);
    if number < 0 {
        return Ok(0);
    }
    if number > i64::from(LAST_CONDITION) {
        return Err(AllocError);
    }
    Ok(number as u16)
}

// The number of an element of an array of conditions, the first of which has this number.
pub(crate) fn condition(
    code: &Code,
    line: u32,
    work: &mut Work,
    stop: &mut Stop,
    asked: &mut Slot,
    first: u32,
    count: u32,
) -> Result<QuietResult, AllocError>
    ensures ok { IfOk result (λ how. Does code.now line (Op.Condition first count) work.old
        (ended how stop.new asked.new) work.new) }
    ensures err { OnErr result (work.new ≡ work.old) }
{
    match index_below(count, number_in(work.top())) {
        None => {
            work.pop();
            Ok(put_fault(code, line, work, stop, asked, RunFault::Index))
        }
        Some(i) => {
            work.replace(Cell::Number(i64::from(first) + i64::from(i)))?;
            Ok(QuietResult::Quiet)
        }
    }
}

// A task waits, unless it is held up.
pub(crate) fn wait(
    code: &Code,
    line: u32,
    work: &mut Work,
    stop: &mut Stop,
    asked: &mut Slot,
) -> Result<QuietResult, AllocError>
    ensures ok { IfOk result (λ how. Does code.now line Op.Wait work.old
        (ended how stop.new asked.new) work.new) }
    ensures err { OnErr result (work.new ≡ work.old) }
{
    let object = this_object(work);
    if work.is_held_up(object) {
        return Ok(put_fault(code, line, work, stop, asked, RunFault::BlockedInside));
    }
    let cond = condition_in(work.second())?;
    let n = number_in(work.top());
    work.replace_two(Cell::Number(0))?;
    Ok(put_request(
        code,
        line,
        work,
        stop,
        asked,
        Request::Wait { object, cond, n },
    ))
}

pub(crate) fn signal(
    code: &Code,
    line: u32,
    work: &mut Work,
    stop: &mut Stop,
    asked: &mut Slot,
) -> Result<QuietResult, AllocError>
    ensures ok { IfOk result (λ how. Does code.now line Op.Signal work.old
        (ended how stop.new asked.new) work.new) }
    ensures err { OnErr result (work.new ≡ work.old) }
{
    let object = this_object(work);
    let cond = condition_in(work.top())?;
    work.replace(Cell::Number(0))?;
    Ok(put_request(
        code,
        line,
        work,
        stop,
        asked,
        Request::Signal { object, cond },
    ))
}

// A task is blocked by a signal, unless it is held up.
pub(crate) fn signal_block(
    code: &Code,
    line: u32,
    work: &mut Work,
    stop: &mut Stop,
    asked: &mut Slot,
) -> Result<QuietResult, AllocError>
    ensures ok { IfOk result (λ how. Does code.now line Op.SignalBlock work.old
        (ended how stop.new asked.new) work.new) }
    ensures err { OnErr result (work.new ≡ work.old) }
{
    let object = this_object(work);
    if work.is_held_up(object) {
        return Ok(put_fault(code, line, work, stop, asked, RunFault::BlockedInside));
    }
    let cond = condition_in(work.top())?;
    work.replace(Cell::Number(0))?;
    Ok(put_request(
        code,
        line,
        work,
        stop,
        asked,
        Request::SignalBlock { object, cond },
    ))
}

pub(crate) fn empty(
    code: &Code,
    line: u32,
    work: &mut Work,
    stop: &mut Stop,
    asked: &mut Slot,
) -> Result<QuietResult, AllocError>
    ensures ok { IfOk result (λ how. Does code.now line Op.Empty work.old
        (ended how stop.new asked.new) work.new) }
    ensures err { OnErr result (work.new ≡ work.old) }
{
    let object = this_object(work);
    let cond = condition_in(work.top())?;
    work.pop();
    Ok(put_request(
        code,
        line,
        work,
        stop,
        asked,
        Request::Empty { object, cond },
    ))
}

pub(crate) fn front(
    code: &Code,
    line: u32,
    work: &mut Work,
    stop: &mut Stop,
    asked: &mut Slot,
) -> Result<QuietResult, AllocError>
    ensures ok { IfOk result (λ how. Does code.now line Op.Front work.old
        (ended how stop.new asked.new) work.new) }
    ensures err { OnErr result (work.new ≡ work.old) }
{
    let object = this_object(work);
    let cond = condition_in(work.top())?;
    work.pop();
    Ok(put_request(
        code,
        line,
        work,
        stop,
        asked,
        Request::Front { object, cond },
    ))
}

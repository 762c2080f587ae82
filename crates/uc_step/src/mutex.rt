// The ops of mutex objects: a task enters and leaves them, makes them and destroys them.

ghost use Rattle.std.specs.Prelude.{◌≡◌, ℕ, IfOk, OnErr};
ghost use Rattle.uc_step.specs.Effects.{ended};
ghost use Rattle.uc_step.specs.OpEffects.{act_built, may_call, Does, Ends};
ghost use Rattle.uc_machine.specs.Insides.{is_last};
ghost use Rattle.uc_frames.specs.Objects.{by_event, object_in, this_object};

use crate::effect::{QuietResult, Stop, put_end, put_fault, put_request};
use crate::slot::Slot;
use std::alloc::AllocError;
use uc_code::code::Code;
use uc_code::op::Op;
use uc_entry::fault::RunFault;
use uc_entry::request::Request;
use uc_frames::cell::Cell;
use uc_frames::work::Work;
use uc_machine::exec::UnwindReason;
use uc_tree::limits::CALLS;

// A mutex object by its number.
pub(crate) fn object_in(cell: Cell) -> u32
    ensures { result ≡ object_in cell }
{
    match cell {
        Cell::Object(object) => object,
        Cell::Number(_) | Cell::Place(_, _) | Cell::Running(_) | Cell::Nothing => 0,
    }
}

// The object of the running call.
pub(crate) fn this_object(work: &Work) -> u32
    ensures { result ≡ this_object work.now }
{
    object_in(work.this())
}

// Whether one more call may be active, where a routine is written.
fn may_call(work: &Work, written: bool) -> bool
    ensures { result ≡ may_call written work.now }
{
    !written || work.calls() < CALLS
}

// The object below the arguments of a routine is entered: a task that is inside goes on, another asks.
pub(crate) fn enter(
    code: &Code,
    line: u32,
    work: &mut Work,
    stop: &mut Stop,
    asked: &mut Slot,
    member: u8,
    number: u32,
) -> Result<QuietResult, AllocError>
    ensures ok { IfOk result (λ how. Does code.now line (Op.Enter member number) work.old
        (ended how stop.new asked.new) work.new) }
    ensures err { OnErr result (work.new ≡ work.old) }
{
    let Some(routine) = code.routine(number) else {
        return Ok(put_end(code, line, work, stop, asked));
    };
    if !may_call(work, routine.written) {
        return Ok(put_fault(code, line, work, stop, asked, RunFault::Depth));
    }
    let object = object_in(work.below(routine.params));
    let inside = work.depth(object).is_some();
    work.begin_call(object)?;
    if inside {
        return Ok(QuietResult::Quiet);
    }
    Ok(put_request(
        code,
        line,
        work,
        stop,
        asked,
        Request::Call { object, member },
    ))
}

// Whether the call that ends is the last one in an object.
fn is_last(depth: Option<u32>) -> bool
    ensures { result ≡ is_last depth }
{
    match depth {
        Some(depth) => depth < 2,
        None => true,
    }
}

// Whether an event unwinds.
fn by_event(why: Option<UnwindReason>) -> bool
    ensures { result ≡ by_event why }
{
    matches!(why, Some(UnwindReason::Event { .. }))
}

// The running call leaves the object at hand: by its last leave it asks. Where that is not the last one, or the call is unwound, the task
// goes on at this op.
pub(crate) fn leave(
    code: &Code,
    line: u32,
    work: &mut Work,
    stop: &mut Stop,
    asked: &mut Slot,
    to: u32,
) -> QuietResult
    ensures { Does code.now line (Op.Leave to) work.old (ended result stop.new asked.new) work.new }
{
    let object = this_object(work);
    if !is_last(work.depth(object)) {
        work.end_call(object);
        work.set_next(to);
        return QuietResult::Quiet;
    }
    if work.is_held_up(object) {
        return put_fault(code, line, work, stop, asked, RunFault::BlockedInside);
    }
    let why = work.raised();
    let failed = by_event(why);
    let how = put_request(
        code,
        line,
        work,
        stop,
        asked,
        Request::Leave { object, failed },
    );
    work.end_call(object);
    work.count_no_more();
    if why.is_some() {
        work.set_next(to);
    }
    how
}

// A mutex object is asked for, which a routine builds.
pub(crate) fn make(
    code: &Code,
    line: u32,
    work: &mut Work,
    stop: &mut Stop,
    asked: &mut Slot,
    class: u32,
    number: u32,
) -> Result<QuietResult, AllocError>
    ensures ok { IfOk result (λ how. Does code.now line (Op.Make class number) work.old
        (ended how stop.new asked.new) work.new) }
    ensures err { OnErr result (work.new ≡ work.old) }
{
    let Some(routine) = code.routine(number) else {
        return Ok(put_end(code, line, work, stop, asked));
    };
    if !may_call(work, routine.written) {
        return Ok(put_fault(code, line, work, stop, asked, RunFault::Depth));
    }
    work.begin_build()?;
    Ok(put_request(code, line, work, stop, asked, Request::Make { class }))
}

// What was made is bound to its place.
pub(crate) fn bind_made(
    code: &Code,
    line: u32,
    work: &mut Work,
    stop: &mut Stop,
    asked: &mut Slot,
    number: u32,
) -> QuietResult
    ensures { (class : ℕ) →
        Does code.now line (Op.BindMade class number) work.old (ended result stop.new asked.new) work.new }
{
    match code.routine(number) {
        None => { put_end(code, line, work, stop, asked) }
        Some(routine) => {
            work.bind_made(routine);
            QuietResult::Quiet
        }
    }
}

// The object at hand is built, which is asked so, unless the task is held up there. A part of who calls: a request that is handed over by
// value is cleared and copied.
#[inline(always)]
pub(crate) fn built(
    code: &Code,
    line: u32,
    work: &mut Work,
    stop: &mut Stop,
    asked: &mut Slot,
    object: u32,
    request: Request,
) -> QuietResult
    ensures { Ends (act_built code.now line object request work.old)
        (ended result stop.new asked.new) work.new }
{
    if work.is_held_up(object) {
        return put_fault(code, line, work, stop, asked, RunFault::BlockedInside);
    }
    let how = put_request(code, line, work, stop, asked, request);
    work.end_build(object);
    how
}

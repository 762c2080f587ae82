// What an event or a switch leads to: the handler that a resumption finds begins; or activations are unwound, up to a clean-up, a handler,
// or the end; or another execution goes on.

ghost use Rattle.std.specs.Prelude.{◌≡◌, ◌<◌, ℕ, IfOk, IfSome, Some, slice_get};
ghost use Rattle.uc_tree.specs.declared.limits.TheConstants.{PROGRAM_OPS};
ghost use Rattle.uc_tree.specs.Source.{Source};
ghost use Rattle.uc_entry.specs.declared.request.Request.TheVariants as ask;
ghost use Rattle.uc_entry.specs.Faults.{fault_number};
ghost use Rattle.uc_machine.specs.Quiet.{State};
ghost use Rattle.uc_code.specs.Layout.{chain, laid_of};
ghost use Rattle.uc_code.specs.Lowered.{Lowered};
ghost use Rattle.uc_code.specs.Pace.{IsPaced};
ghost use Rattle.uc_frames.specs.UnwindingOutcomes.{event_by};
ghost use Rattle.uc_frames.specs.Machine.{line_at};
ghost use Rattle.uc_frames.specs.Searches.{catcher_in};
ghost use Rattle.uc_frames.specs.UnwindingStands.{LeavesNow, Unwinds};
ghost use Rattle.uc_coroutine.specs.UnwindingSteps.{Begins};
ghost use Rattle.uc_step.specs.Effects as effect;
ghost use Rattle.uc_step.specs.Effects.{stopping};
ghost use Rattle.uc_step.specs.WeightFalls.{FallsBelow};
ghost use Rattle.uc_step.specs.Simulation.{behind_line, Follow};
ghost use Rattle.uc_machine.specs.declared.exec.UnwindReason.TheVariants as reason;
ghost use Rattle.uc_ride.specs.declared.events.Caught.{Caught};
ghost use Rattle.uc_ride.specs.UnwindingFalls.{how_settled, how_unwound, row_of, stop_by, test_by, StepFalls, EnteredBelow, left_in};

use std::alloc::AllocError;
use uc_code::code::Code;
use uc_code::op::Op;
use uc_code::rows::Instruction;
use uc_coroutine::leaving::{Left, leave, return_past};
use uc_coroutine::switching::{finish, leave_main, resume, suspend, take_down};
use uc_coroutine::testing::{TaskMainEnd, end_block, end_call, end_task_main};
use uc_coroutine::unwinding::unwind;
use uc_entry::fault::RunFault;
use uc_entry::request::Request;
use uc_except::found::Found;
use uc_except::handling::{handle, throw};
use uc_except::seeking::{catching_row, propagate};
use uc_frames::event::Event;
use uc_frames::search::is_covered;
use uc_frames::work::Work;
use uc_machine::exec::UnwindReason;
use uc_step::effect::Stop;
use uc_step::slot::Slot;

/// How a stop ends with what an event or a switch leads to by it: the task goes on, or it asks what is then written where a request was
/// lent.
#[derive(Clone, Copy)]
pub(crate) enum OpEnd {
    On,
    Asks,
}

/// How a step of unwinding ends: the task goes on, or it still unwinds, or it asks, as above.
#[derive(Clone, Copy)]
pub(crate) enum UnwindEnd {
    On,
    Still,
    Asks,
}

/// What the first op of a row tests: whether a block, a mutex call or a main that is unwound up to it is left, or nothing, where it cleans up. The
/// main is that of a task or of a coroutine.
#[derive(Clone, Copy)]
pub(crate) enum EndTest {
    Block,
    Task,
    Coroutine,
    Call { arrived: u32 },
    Nothing,
}

/// An event that is caught, and the row of the handler that does.
#[derive(Clone, Copy)]
pub(crate) struct Caught {
    pub row: u32,
    pub event: Event,
}

/// Goes on from where a step leaves what an event or a switch leads to, up to its end. A request is asked at once.
#[inline(always)]
pub(crate) fn settle(
    code: &Code,
    work: &mut Work,
    stop: &Stop,
    asked: &mut Slot,
) -> Result<OpEnd, AllocError>
    requires paced { IsPaced (laid_of code.now) code.now.routines }
    requires below { (w : ℕ) × FallsBelow code.now w (stopping stop.now asked.old) work.old }
    ensures source { IfOk result (λ after. (source : Source) (s : State) → Lowered source code.now →
        Follow (laid_of code.now) source (stopping stop.now asked.old) work.old s →
        Follow (laid_of code.now) source (how_settled after asked.new) work.new s) }
    ensures falls { IfOk result (λ after. (w : ℕ) → FallsBelow code.now w (stopping stop.now asked.old) work.old →
        FallsBelow code.now w (how_settled after asked.new) work.new) }
{
    match *stop {
        Stop::Ask => Ok(OpEnd::Asks),
        _ => {
            let end = settle_stop(code, work, stop, asked)?;
            Ok(end)
        }
    }
}

// The same, whatever it is. It stands apart, so that who asks calls nothing.
#[inline(never)]
fn settle_stop(
    code: &Code,
    work: &mut Work,
    stop: &Stop,
    asked: &mut Slot,
) -> Result<OpEnd, AllocError>
    requires paced { IsPaced (laid_of code.now) code.now.routines }
    requires below { (w : ℕ) × FallsBelow code.now w (stopping stop.now asked.old) work.old }
    ensures source { IfOk result (λ after. (source : Source) (s : State) → Lowered source code.now →
        Follow (laid_of code.now) source (stopping stop.now asked.old) work.old s →
        Follow (laid_of code.now) source (how_settled after asked.new) work.new s) }
    ensures falls { IfOk result (λ after. (w : ℕ) → FallsBelow code.now w (stopping stop.now asked.old) work.old →
        FallsBelow code.now w (how_settled after asked.new) work.new) }
{
    match *stop {
        Stop::Ask => Ok(OpEnd::Asks),
        Stop::Throw(event) => {
            throw(work, event.number, event.x, event.y);
            let end = unwinds(code, work, asked)?;
            Ok(end)
        }
        Stop::Raise(event) => {
            let end = raise(code, work, event, asked)?;
            Ok(end)
        }
        Stop::Unwind => {
            let end = unwinds(code, work, asked)?;
            Ok(end)
        }
        Stop::Past(given) => {
            if return_past(work, given) {
                let end = unwinds(code, work, asked)?;
                Ok(end)
            } else {
                put_request(code, 0, work, asked, Request::End);
                Ok(OpEnd::Asks)
            }
        }
        Stop::Resume => Ok(settle_resume(code, work, asked)),
        Stop::Suspend => Ok(settle_suspend(code, work, asked)),
        Stop::TakeDown => {
            take_down(work);
            Ok(OpEnd::On)
        }
        Stop::EndMain => Ok(settle_end(code, work, asked)),
        Stop::Astray => {
            put_request(code, 0, work, asked, Request::End);
            Ok(OpEnd::Asks)
        }
    }
}

// Resumes the execution of the coroutine whose member runs; in a main, the one that runs, which is a fault.
fn settle_resume(code: &Code, work: &mut Work, asked: &mut Slot) -> OpEnd
    ensures source { (source : Source) (s : State) →
        Follow (laid_of code.now) source effect.Resume work.old s →
        Follow (laid_of code.now) source (how_settled result asked.new) work.new s }
    ensures falls { (w : ℕ) → FallsBelow code.now w effect.Resume work.old →
        FallsBelow code.now w (how_settled result asked.new) work.new }
{
    let fault = resume(work);
    let end = switched(code, work, fault, asked);
    end
}

// The running execution is suspended.
fn settle_suspend(code: &Code, work: &mut Work, asked: &mut Slot) -> OpEnd
    ensures source { (source : Source) (s : State) →
        Follow (laid_of code.now) source effect.Suspend work.old s →
        Follow (laid_of code.now) source (how_settled result asked.new) work.new s }
    ensures falls { (w : ℕ) → FallsBelow code.now w effect.Suspend work.old →
        FallsBelow code.now w (how_settled result asked.new) work.new }
{
    let fault = suspend(work);
    let end = switched(code, work, fault, asked);
    end
}

// The main of a coroutine ends.
fn settle_end(code: &Code, work: &mut Work, asked: &mut Slot) -> OpEnd
    ensures source { (source : Source) (s : State) →
        Follow (laid_of code.now) source effect.EndMain work.old s →
        Follow (laid_of code.now) source (how_settled result asked.new) work.new s }
    ensures falls { (w : ℕ) → FallsBelow code.now w effect.EndMain work.old →
        FallsBelow code.now w (how_settled result asked.new) work.new }
{
    let fault = finish(work);
    let end = switched(code, work, fault, asked);
    end
}

// What is asked behind the op of a switch, where that is a fault, in the line of the op before the next one, or of the newest call around it
// that has one.
fn switched(code: &Code, work: &Work, fault: Option<RunFault>, asked: &mut Slot) -> OpEnd
    ensures { how_settled result asked.new
        ≡ stop_by (behind_line (laid_of code.now) work.now) fault }
{
    match fault {
        None => OpEnd::On,
        Some(fault) => {
            let number = fault.number();
            asked.put(Request::Fault { number }, work.line_behind(code));
            OpEnd::Asks
        }
    }
}

// The handler begins that the event finds; where it finds none, it is thrown.
fn raise(code: &Code, work: &mut Work, event: Event, asked: &mut Slot) -> Result<OpEnd, AllocError>
    requires paced { IsPaced (laid_of code.now) code.now.routines }
    requires below { (w : ℕ) × FallsBelow code.now w (effect.Raise event) work.old }
    ensures source { IfOk result (λ end. (source : Source) (s : State) → Lowered source code.now →
        Follow (laid_of code.now) source (effect.Raise event) work.old s →
        Follow (laid_of code.now) source (how_settled end asked.new) work.new s) }
    ensures falls { IfOk result (λ end. (w : ℕ) →
        FallsBelow code.now w (effect.Raise event) work.old →
        FallsBelow code.now w (how_settled end asked.new) work.new) }
{
    let found = propagate(code, work, event.number, true);
    match found {
        Found::None => {
            throw(work, event.number, event.x, event.y);
            let end = unwinds(code, work, asked)?;
            Ok(end)
        }
        Found::Handler { .. } => {
            handle(code, work, &found, event.number, event.x, event.y)?;
            Ok(OpEnd::On)
        }
    }
}

// Step after step, as long as it unwinds.
fn unwinds(code: &Code, work: &mut Work, asked: &mut Slot) -> Result<OpEnd, AllocError>
    requires paced { IsPaced (laid_of code.now) code.now.routines }
    requires below { (w : ℕ) × FallsBelow code.now w effect.Unwind work.old }
    ensures source { IfOk result (λ end. (source : Source) (s : State) → Lowered source code.now →
        Unwinds (laid_of code.now) work.old s →
        Follow (laid_of code.now) source (how_settled end asked.new) work.new s) }
    ensures falls { IfOk result (λ end. (w : ℕ) → FallsBelow code.now w effect.Unwind work.old →
        FallsBelow code.now w (how_settled end asked.new) work.new) }
{
    'steps: loop {
        let how = unwind_once(code, work, asked)?;
        match how {
            UnwindEnd::On => return Ok(OpEnd::On),
            UnwindEnd::Still => {}
            UnwindEnd::Asks => return Ok(OpEnd::Asks),
        }
    }
}

// One step: a clean-up of the running activation begins, or the test at the end of a block or of a main is made; or the handler that catches
// the event begins; or the activation is left.
fn unwind_once(code: &Code, work: &mut Work, asked: &mut Slot) -> Result<UnwindEnd, AllocError>
    requires paced { IsPaced (laid_of code.now) code.now.routines }
    ensures source { IfOk result (λ after. (source : Source) (s : State) → Lowered source code.now →
        Unwinds (laid_of code.now) work.old s →
        Follow (laid_of code.now) source (how_unwound after asked.new) work.new s) }
    ensures falls { IfOk result (λ after. (w : ℕ) → FallsBelow code.now w effect.Unwind work.old →
        StepFalls code.now w (left_in code.now work.old) after asked.new work.new) }
{
    // A number of elements that is a `u32` bounds what is left of the activation.
    let _ = work.elements();
    if !is_covered(code, work.next()) {
        let left = leave_on(code, work, asked)?;
        return Ok(left);
    }
    let frame = work.level();
    let caught = catcher(code, work);
    if unwind(code, work, frame, row_in(caught)) {
        let after = begin(code, work, asked)?;
        Ok(after)
    } else {
        match caught {
            None => {
                let after = leave_on(code, work, asked)?;
                Ok(after)
            }
            Some(caught) => {
                let event = caught.event;
                let row = caught.row;
                let found = Found::Handler { frame, row };
                handle(code, work, &found, event.number, event.x, event.y)?;
                Ok(UnwindEnd::On)
            }
        }
    }
}

// The row of the running activation that catches the event by which it is unwound.
fn catcher(code: &Code, work: &Work) -> Option<Caught>
    ensures row { row_of result
        ≡ catcher_in (event_by work.now.run.raised) code.now.rows
        (chain code.now.rows work.now.run.control) }
    ensures event { (c : Caught) → result ≡ Some c →
        work.now.run.raised ≡ Some (reason.Event c.event.number c.event.x c.event.y) }
{
    match work.raised() {
        Some(UnwindReason::Event { event, x, y }) => match catching_row(code, work, event) {
            None => None,
            Some(row) => Some(Caught {
                row,
                event: Event {
                    number: event,
                    x,
                    y,
                },
            }),
        },
        Some(UnwindReason::ReturnTo(_)) => None,
        Some(UnwindReason::Destroyed) => None,
        None => None,
    }
}

fn row_in(caught: Option<Caught>) -> Option<u32>
    ensures { result ≡ row_of caught }
{
    match caught {
        None => None,
        Some(caught) => Some(caught.row),
    }
}

// What begins: a test ends the unwinding, or lets it go on; a clean-up is executed.
fn begin(code: &Code, work: &mut Work, asked: &mut Slot) -> Result<UnwindEnd, AllocError>
    requires paced { IsPaced (laid_of code.now) code.now.routines }
    ensures source { IfOk result (λ after. (source : Source) (s : State) → Lowered source code.now →
        Begins source (laid_of code.now) work.old s →
        Follow (laid_of code.now) source (how_unwound after asked.new) work.new s) }
    ensures falls { IfOk result (λ after. (w left : ℕ) → EnteredBelow code.now w left work.old →
        StepFalls code.now w left after asked.new work.new) }
{
    let next = work.next();
    match op_at(code, next) {
        None => Ok(UnwindEnd::On),
        Some(instruction) => match test_of(instruction.op) {
            EndTest::Nothing => Ok(UnwindEnd::On),
            EndTest::Block => {
                if end_block(work, next + 1) {
                    Ok(UnwindEnd::On)
                } else {
                    Ok(UnwindEnd::Still)
                }
            }
            EndTest::Call { arrived } => {
                end_call(work, arrived, next + 1)?;
                Ok(UnwindEnd::On)
            }
            EndTest::Task => {
                let after = end_on(code, work, instruction.line, asked)?;
                Ok(after)
            }
            EndTest::Coroutine => {
                let after = leave_coroutine(code, work, instruction.line, asked);
                Ok(after)
            }
        },
    }
}

// There are few ops, so the one behind it has a number too.
fn op_at(code: &Code, at: u32) -> Option<Instruction>
    ensures op { result ≡ slice_get code.now.ops at }
    ensures few { IfSome result (λ i. at < PROGRAM_OPS) }
{
    let ops = code.ops();
    ops.get(at as usize).copied()
}

fn test_of(op: Op) -> EndTest
    ensures { result ≡ test_by op }
{
    match op {
        Op::Handled => EndTest::Block,
        Op::Unhandled => EndTest::Task,
        Op::Escape => EndTest::Coroutine,
        Op::Arrive(arrived) => EndTest::Call { arrived },
        _ => EndTest::Nothing,
    }
}

// The main of a task that is unwound ends, by an op of this line.
fn end_on(
    code: &Code,
    work: &mut Work,
    line: u32,
    asked: &mut Slot,
) -> Result<UnwindEnd, AllocError>
    requires { slice_get code.now.ops work.old.run.control
        ≡ Some (record { op = Op.Unhandled; line = line }) }
    ensures source { IfOk result (λ after. (source : Source) (s : State) → Lowered source code.now →
        Begins source (laid_of code.now) work.old s →
        Follow (laid_of code.now) source (how_unwound after asked.new) work.new s) }
    ensures falls { IfOk result (λ after. (w left : ℕ) → EnteredBelow code.now w left work.old →
        StepFalls code.now w left after asked.new work.new) }
{
    let end = end_task_main(work)?;
    match end {
        TaskMainEnd::Ended => {
            put_request(code, line, work, asked, Request::End);
            Ok(UnwindEnd::Asks)
        }
        TaskMainEnd::Returned => Ok(UnwindEnd::On),
        TaskMainEnd::Unhandled => {
            put_fault(code, line, work, asked, RunFault::Unhandled);
            Ok(UnwindEnd::Asks)
        }
        TaskMainEnd::HeldUp => {
            put_fault(code, line, work, asked, RunFault::BlockedInside);
            Ok(UnwindEnd::Asks)
        }
    }
}

// The main of a coroutine that is unwound is left, by an op of this line: another execution goes on, or none can.
fn leave_coroutine(code: &Code, work: &mut Work, line: u32, asked: &mut Slot) -> UnwindEnd
    requires { slice_get code.now.ops work.old.run.control
        ≡ Some (record { op = Op.Escape; line = line }) }
    ensures source { (source : Source) (s : State) → Lowered source code.now →
        Begins source (laid_of code.now) work.old s →
        Follow (laid_of code.now) source (how_unwound result asked.new) work.new s }
    ensures falls { (w left : ℕ) → EnteredBelow code.now w left work.old →
        StepFalls code.now w left result asked.new work.new }
{
    match leave_main(work) {
        None => UnwindEnd::On,
        Some(fault) => {
            put_fault(code, line, work, asked, fault);
            UnwindEnd::Asks
        }
    }
}

// The running activation, of which nothing is left, is left.
fn leave_on(code: &Code, work: &mut Work, asked: &mut Slot) -> Result<UnwindEnd, AllocError>
    ensures source { IfOk result (λ after. (source : Source) (s : State) →
        LeavesNow (laid_of code.now) work.old s →
        Follow (laid_of code.now) source (how_unwound after asked.new) work.new s) }
    ensures falls { IfOk result (λ after. (w : ℕ) → FallsBelow code.now w effect.Unwind work.old →
        StepFalls code.now w (left_in code.now work.old) after asked.new work.new) }
{
    let left = leave(work)?;
    match left {
        Left::Ended => {
            put_request(code, 0, work, asked, Request::End);
            Ok(UnwindEnd::Asks)
        }
        Left::Returned => Ok(UnwindEnd::On),
        Left::Escaped => {
            put_fault(code, 0, work, asked, RunFault::EscapeInUnwind);
            Ok(UnwindEnd::Asks)
        }
        Left::PassedOn => Ok(UnwindEnd::Still),
    }
}

// The task asks, by an op of this line, or of the newest call around it that has one.
fn put_request(code: &Code, line: u32, work: &Work, asked: &mut Slot, request: Request)
    ensures { asked.new ≡ record {
      request = request;
      line = line_at code.now.ops line work.now.callers;
    } }
{
    asked.put(request, work.line(code, line));
}

// A run fault, by an op of this line.
fn put_fault(code: &Code, line: u32, work: &Work, asked: &mut Slot, fault: RunFault)
    ensures { asked.new ≡ record {
      request = ask.Fault
          (fault_number fault);
      line = line_at code.now.ops line work.now.callers;
    } }
{
    let number = fault.number();
    put_request(code, line, work, asked, Request::Fault { number });
}

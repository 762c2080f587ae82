// How one op ends.

ghost use Rattle.std.specs.Prelude.{◌≡◌, [], ◌∷◌};
ghost use Rattle.uc_entry.specs.declared.request.Request.TheVariants as ask;
ghost use Rattle.uc_entry.specs.Faults.{fault_number};
ghost use Rattle.uc_machine.specs.Quiet.{print_of};
ghost use Rattle.uc_frames.specs.Machine.{line_at};
ghost use Rattle.uc_step.specs.Effects as effect;
ghost use Rattle.uc_step.specs.Effects.{ended};

use crate::slot::Slot;
use uc_code::code::Code;
use uc_entry::fault::RunFault;
use uc_entry::request::{Piece, Request};
use uc_frames::cell::Cell;
use uc_frames::event::Event;
use uc_frames::work::Work;

/// How an op ends: going on; going on after a tick; or otherwise, as the stop that the op was lent tells.
#[derive(Clone, Copy)]
pub enum QuietResult {
    Quiet,
    Tick,
    Stops,
}

/// Where a task stops: it waits for the answer to a request, which is written where one was lent. Or it leaves to others what follows: an
/// event that was popped and is thrown or raised; unwinding, which goes on behind the op; the end of a handler of resumptions by a return,
/// with what it hands over; and switches to other executions, which leave the task behind their op: a resume, a suspend, the destruction of
/// the coroutine at hand, and the end of a coroutine's main. No task comes to an op that ends an unwinding but by unwinding: at such an op
/// it has gone astray.
#[derive(Clone, Copy)]
pub enum Stop {
    Ask,
    Throw(Event),
    Raise(Event),
    Unwind,
    Past(Cell),
    Resume,
    Suspend,
    TakeDown,
    EndMain,
    Astray,
}

// It waits for the answer to a request. A stop has room for an event, so it is written only where it was another.
#[inline(always)]
pub(crate) fn put_ask(stop: &mut Stop)
    ensures { stop.new ≡ Stop.Ask }
{
    if !matches!(*stop, Stop::Ask) {
        *stop = Stop::Ask;
    }
}

// It asks, by an op of this line. A part of the op that asks, so that the request is written where it is lent as it is made, and is not copied.
#[inline(always)]
pub(crate) fn put_request(
    code: &Code,
    line: u32,
    work: &Work,
    stop: &mut Stop,
    asked: &mut Slot,
    request: Request,
) -> QuietResult
    ensures { ended result stop.new asked.new
        ≡ effect.Ask
        (record { request = request; line = line_at code.now.ops line work.now.callers }) }
{
    asked.is_item = false;
    asked.asked.line = work.line(code, line);
    asked.asked.request = request;
    put_ask(stop);
    QuietResult::Stops
}

// It asks to print an item, by an op of this line.
#[inline(always)]
pub(crate) fn put_item(
    code: &Code,
    line: u32,
    work: &Work,
    stop: &mut Stop,
    asked: &mut Slot,
    piece: Piece,
) -> QuietResult
    ensures { ended result stop.new asked.new
        ≡ effect.Ask
        (record { request = print_of (piece ∷ []); line = line_at code.now.ops line work.now.callers }) }
{
    asked.put_item(piece, work.line(code, line));
    put_ask(stop);
    QuietResult::Stops
}

// The end of the task is asked so. This and the fault below stand apart from the ops, which seldom need them.
#[inline(never)]
pub(crate) fn put_end(
    code: &Code,
    line: u32,
    work: &Work,
    stop: &mut Stop,
    asked: &mut Slot,
) -> QuietResult
    ensures { ended result stop.new asked.new
        ≡ effect.Ask
        (record { request = ask.End; line = line_at code.now.ops line work.now.callers }) }
{
    put_request(code, line, work, stop, asked, Request::End)
}

// A run fault, by an op of this line.
#[inline(never)]
pub(crate) fn put_fault(
    code: &Code,
    line: u32,
    work: &Work,
    stop: &mut Stop,
    asked: &mut Slot,
    fault: RunFault,
) -> QuietResult
    ensures { ended result stop.new asked.new
        ≡ effect.Ask
        (record {
          request = ask.Fault
              (fault_number fault);
          line = line_at code.now.ops line work.now.callers;
        }) }
{
    let number = fault.number();
    put_request(code, line, work, stop, asked, Request::Fault { number })
}

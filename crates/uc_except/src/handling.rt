// Handlers begin.

ghost use Rattle.std.specs.Prelude.{◌≡◌, ◌∷◌, ℕ, Some, None, OnOk, OnErr, slice_get};
ghost use Rattle.std.specs.Option.{option_map};
ghost use Rattle.uc_machine.specs.Executions.{at_depth};
ghost use Rattle.uc_machine.specs.Raising.{home_of};
ghost use Rattle.uc_tree.specs.Source.{Source};
ghost use Rattle.uc_machine.specs.declared.exec.UnwindReason.TheVariants as reason;
ghost use Rattle.uc_machine.specs.Quiet.{State};
ghost use Rattle.uc_machine.specs.Raising.{event_in};
ghost use Rattle.uc_code.specs.Layout.{Laid, laid_of};
ghost use Rattle.uc_frames.specs.UnwindingOutcomes.{Catches};
ghost use Rattle.uc_frames.specs.UnwindingStands.{Raises, Throws, Unwinds};
ghost use Rattle.uc_except.specs.declared.found.Found.TheVariants as at;
ghost use Rattle.uc_except.specs.RowSearch.{resumed};
ghost use Rattle.uc_except.specs.Handling.{handling_of, resumed_by, handled_by, handler_begun, thrown, IsFound, GoesOn, UnwindsNow};

use crate::found::Found;
use std::alloc::AllocError;
use uc_code::code::Code;
use uc_code::rows::{HandlerRow, RowKind};
use uc_frames::event::{Event, HandlerStart};
use uc_frames::work::Work;
use uc_machine::exec::{UnwindReason, Visited};

/// The handler that was found begins, with the event as its operands: one that catches in the running activation, which is unwound up to
/// it; one of resumptions as an activation of its own, before the running one, which has popped the event. Where none was found, all
/// stays as it is.
pub fn handle(
    code: &Code,
    work: &mut Work,
    found: &Found,
    event: u8,
    x: i64,
    y: i64,
) -> Result<(), AllocError>
    ensures ok { OnOk result (work.new ≡ handler_begun code.now.rows found.now (record { number = event; x = x; y = y }) work.old) }
    ensures err { OnErr result (work.new ≡ work.old) }
    ensures resumed { OnOk result ((source : Source) (s : State) → Raises (laid_of code.now) work.old s → event_in s.run.operands ≡ record { number = event; x = x; y = y } → IsFound found.now → found.now ≡ resumed code.now.rows None event (work.old.run ∷ work.old.callers) → GoesOn source (laid_of code.now) work.new s) }
    ensures caught { OnOk result ((source : Source) (s : State) (frame row : ℕ) → Unwinds (laid_of code.now) work.old s → s.run.raised ≡ Some (reason.Event event x y) → found.now ≡ at.Handler frame row → Catches source (laid_of code.now) s.run s.callers s.env s.run.raised row s → GoesOn source (laid_of code.now) work.new s) }
{
    begin_found(code, work, found, event, x, y)?;
    Ok(())
}

/// The event is thrown: the running activation, which has popped it, is unwound by it from its place on. So it is too where a
/// resumption finds no handler.
pub fn throw(work: &mut Work, event: u8, x: i64, y: i64)
    ensures now { work.new ≡ thrown (reason.Event event x y) work.old }
    ensures thrown { (source : Source) (code : Laid) (s : State) → Throws code work.old s → event_in s.run.operands ≡ record { number = event; x = x; y = y } → UnwindsNow source code work.new s }
    ensures resumed { (source : Source) (code : Laid) (s : State) → Raises code work.old s → event_in s.run.operands ≡ record { number = event; x = x; y = y } → resumed code.rows None event (work.old.run ∷ work.old.callers) ≡ at.None → UnwindsNow source code work.new s }
{
    throw_now(work, event, x, y);
}

fn throw_now(work: &mut Work, event: u8, x: i64, y: i64)
    ensures { work.new ≡ thrown (reason.Event event x y) work.old }
{
    let given = work.result();
    work.unwind(UnwindReason::Event { event, x, y }, given);
}

fn begin_found(
    code: &Code,
    work: &mut Work,
    found: &Found,
    event: u8,
    x: i64,
    y: i64,
) -> Result<(), AllocError>
    ensures ok { OnOk result (work.new ≡ handler_begun code.now.rows found.now (record { number = event; x = x; y = y }) work.old) }
    ensures err { OnErr result (work.new ≡ work.old) }
{
    let event = Event {
        number: event,
        x,
        y,
    };
    match *found {
        Found::None => {}
        Found::Handler { frame, row } => match row_of(code, row) {
            None => {}
            Some(row) => begin(work, row, frame, event)?,
        },
    }
    Ok(())
}

fn row_of(code: &Code, number: u32) -> Option<HandlerRow>
    ensures { result ≡ slice_get code.now.rows number }
{
    let rows = code.rows();
    rows.get(number as usize).copied()
}

fn begin(work: &mut Work, row: HandlerRow, frame: u32, event: Event) -> Result<(), AllocError>
    ensures ok { OnOk result (work.new ≡ handled_by row.kind row frame event work.old) }
    ensures err { OnErr result (work.new ≡ work.old) }
{
    match row.kind {
        RowKind::Catch => work.catch_event(row.entry, event)?,
        RowKind::CatchResume => begin_resumption(work, row, frame, event)?,
        RowKind::CleanUp => {}
    }
    Ok(())
}

fn begin_resumption(
    work: &mut Work,
    row: HandlerRow,
    frame: u32,
    event: Event,
) -> Result<(), AllocError>
    ensures ok { OnOk result (work.new ≡ resumed_by (at_depth (work.old.run ∷ work.old.callers) frame) row frame event work.old) }
    ensures err { OnErr result (work.new ≡ work.old) }
{
    match handling_at(work, row, frame, event) {
        None => {}
        Some(handling) => work.enter_handler(handling)?,
    }
    Ok(())
}

// What the handler of a row uses, which stands in the activation with so many below it.
fn handling_at(work: &Work, row: HandlerRow, frame: u32, event: Event) -> Option<HandlerStart>
    ensures { result
        ≡ option_map (handling_of row frame event) (at_depth (work.now.run ∷ work.now.callers) frame) }
{
    match work.activation(frame) {
        None => None,
        Some(active) => Some(HandlerStart {
            entry: row.entry,
            this: active.head.this,
            frame: active.head.frame,
            visited: Visited {
                level: frame,
                rest: row.rest,
                home: home_at(active.handles, frame),
            },
            event,
        }),
    }
}

// How many stand below the activation of the routine to which an activation belongs.
fn home_at(handles: Option<Visited>, level: u32) -> u32
    ensures { result ≡ home_of handles level }
{
    match handles {
        None => level,
        Some(visited) => visited.home,
    }
}

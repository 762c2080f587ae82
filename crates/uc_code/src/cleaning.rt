// The code of clean-ups and of exits.

ghost use Rattle.std.specs.Prelude.{◌≡◌, ◌+◌, ◌≤◌, ◌<◌, true, false, Some, length, OnOk};
ghost use Rattle.uc_tree.specs.declared.limits.TheConstants.{PROGRAM_OPS};
ghost use Rattle.uc_code.specs.Exits.{way_of};
ghost use Rattle.uc_code.specs.CodeShapes.{LeavesAt, One, Risk};
ghost use Rattle.uc_code.specs.declared.rows.Cleaning.TheVariants as cleaning;
ghost use Rattle.uc_code.specs.declared.rows.Manner.TheVariants as manner;
ghost use Rattle.uc_code.specs.declared.rows.Resource.{Resource};
ghost use Rattle.uc_code.specs.Lowered.{spot_op, close_op, SpotAt, FoundAt, OpenedAt, CalledAt, CallAt, CallDone, CleanBy, CleanAt, ExitAt};
ghost use Rattle.uc_code.specs.Layout.{routine_in};
ghost use Rattle.uc_code.specs.OpenRows.{StandsBehind, CleansBehind, clean_room, exit_room};
ghost use Rattle.uc_code.specs.RowCounts.{array_rows, cleaning_rows, exit_rows};
ghost use Rattle.uc_code.specs.Emits.{Puts, PutsLeft, PastBehind, PutsPast, past_room, manner_length, done_length, call_length, clean_length, end_op, ends_at};

use crate::draft::Draft;
use crate::op::Op;
use crate::raising::put_poll;
use crate::rows::{
    Array, Cleaning, CodeMark, Manner, ObjectCall, ObjectSpot, Opening, Resource, Way,
};
use std::alloc::AllocError;
use uc_tree::limits::DESTRUCTOR;

// One op.
pub(crate) fn put(op: Op, line: u32, out: &mut Draft) -> Result<(), AllocError>
    requires { length out.old.ops < PROGRAM_OPS }
    ensures { OnOk result (Puts 0 1 (λ code. One code op line) out.old out.new) }
{
    out.emit(op, line)?;
    Ok(())
}

// One op from which an event may come.
pub(crate) fn put_at_risk(op: Op, line: u32, out: &mut Draft) -> Result<(), AllocError>
    requires { length out.old.ops < PROGRAM_OPS }
    ensures { OnOk result (Puts 0 1 (λ code. Risk code out.old.marks op line) out.old out.new) }
{
    out.emit_at_risk(op, line)?;
    Ok(())
}

// Where an object begins.
fn spot_op(spot: ObjectSpot) -> Op
    ensures { result ≡ spot_op spot }
{
    match spot {
        ObjectSpot::Local(cell) => Op::Local(cell),
        ObjectSpot::This(cell) => Op::This(cell),
    }
}

// The element that is counted.
fn put_element(spot: ObjectSpot, array: Array, line: u32, out: &mut Draft) -> Result<(), AllocError>
    requires { length out.old.ops + 3 ≤ PROGRAM_OPS }
    ensures { OnOk result (Puts 0 3 (λ code. SpotAt code line spot (Some array)) out.old out.new) }
{
    put(spot_op(spot), line, out)?;
    put(Op::Counted, line, out)?;
    put(
        Op::Index {
            length: array.length,
            size: array.size,
        },
        line,
        out,
    )?;
    Ok(())
}

// Where the object lies, or the element that is counted.
fn put_place(
    spot: ObjectSpot,
    array: Option<Array>,
    line: u32,
    out: &mut Draft,
) -> Result<(), AllocError>
    requires { length out.old.ops + 3 ≤ PROGRAM_OPS }
    ensures { OnOk result (Puts 0 3 (λ code. SpotAt code line spot array) out.old out.new) }
{
    match array {
        Some(array) => {
            put_element(spot, array, line, out)?;
            Ok(())
        }
        None => {
            put(spot_op(spot), line, out)?;
            Ok(())
        }
    }
}

// The number that stands there.
fn put_number(
    spot: ObjectSpot,
    array: Option<Array>,
    line: u32,
    out: &mut Draft,
) -> Result<(), AllocError>
    requires { length out.old.ops + 4 ≤ PROGRAM_OPS }
    ensures ends { OnOk result (Puts 0 4
        (λ code. FoundAt code line manner.Ends spot array) out.old out.new) }
    ensures closes { (of : Resource) →
        OnOk result (Puts 0 4
        (λ code. FoundAt code line (manner.Closes of) spot array) out.old out.new) }
{
    put_place(spot, array, line, out)?;
    put(Op::Load, line, out)?;
    Ok(())
}

// A written routine is called behind a tick.
fn put_written(routine: u32, line: u32, out: &mut Draft) -> Result<(), AllocError>
    requires { length out.old.ops + 2 ≤ PROGRAM_OPS }
    ensures { OnOk result (Puts 0 2
        (λ code. CalledAt code line out.old.marks manner.Plain true routine) out.old out.new) }
{
    put(Op::Tick, line, out)?;
    put_at_risk(Op::CallOn(routine), line, out)?;
    Ok(())
}

// A mutex object is made, and then a written routine builds it.
fn put_made_written(class: u32, routine: u32, line: u32, out: &mut Draft) -> Result<(), AllocError>
    requires { length out.old.ops + 4 ≤ PROGRAM_OPS }
    ensures { OnOk result (Puts 0 4
        (λ code. CalledAt code line out.old.marks (manner.Makes class) true routine) out.old
        out.new) }
{
    put(Op::Tick, line, out)?;
    put(Op::Make { class, routine }, line, out)?;
    put(Op::BindMade { class, routine }, line, out)?;
    put_at_risk(Op::CallOn(routine), line, out)?;
    Ok(())
}

// So it is, and one that nobody wrote does.
fn put_made_unwritten(
    class: u32,
    routine: u32,
    line: u32,
    out: &mut Draft,
) -> Result<(), AllocError>
    requires room { length out.old.ops + 3 ≤ PROGRAM_OPS }
    requires behind { routine_in out.old.marks < routine }
    ensures { OnOk result (Puts 0 3
        (λ code. CalledAt code line out.old.marks (manner.Makes class) false routine) out.old
        out.new) }
{
    put(Op::Make { class, routine }, line, out)?;
    put(Op::BindMade { class, routine }, line, out)?;
    put_at_risk(Op::CallUnwritten(routine), line, out)?;
    Ok(())
}

// A mutex object is entered, and then a written routine destroys it.
fn put_ended_written(routine: u32, line: u32, out: &mut Draft) -> Result<(), AllocError>
    requires { length out.old.ops + 3 ≤ PROGRAM_OPS }
    ensures { OnOk result (Puts 0 3
        (λ code. CalledAt code line out.old.marks manner.Ends true routine) out.old out.new) }
{
    let enter = Op::Enter {
        member: DESTRUCTOR,
        routine,
    };
    put(Op::Tick, line, out)?;
    put(enter, line, out)?;
    put_at_risk(Op::CallOn(routine), line, out)?;
    Ok(())
}

// So it is, and one that nobody wrote does.
fn put_ended_unwritten(routine: u32, line: u32, out: &mut Draft) -> Result<(), AllocError>
    requires room { length out.old.ops + 2 ≤ PROGRAM_OPS }
    requires behind { routine_in out.old.marks < routine }
    ensures { OnOk result (Puts 0 2
        (λ code. CalledAt code line out.old.marks manner.Ends false routine) out.old out.new) }
{
    let enter = Op::Enter {
        member: DESTRUCTOR,
        routine,
    };
    put(enter, line, out)?;
    put_at_risk(Op::CallUnwritten(routine), line, out)?;
    Ok(())
}

// A routine of a plain object is called.
fn put_plain(routine: u32, written: bool, line: u32, out: &mut Draft) -> Result<(), AllocError>
    requires room { length out.old.ops + 2 ≤ PROGRAM_OPS }
    requires behind { written ≡ false → routine_in out.old.marks < routine }
    ensures { OnOk result (Puts 0 2
        (λ code. CalledAt code line out.old.marks manner.Plain written routine) out.old out.new) }
{
    if written {
        put_written(routine, line, out)?;
        Ok(())
    } else {
        put_at_risk(Op::CallUnwritten(routine), line, out)?;
        Ok(())
    }
}

// A mutex object of the class is made, and its constructor called.
fn put_made(
    class: u32,
    routine: u32,
    written: bool,
    line: u32,
    out: &mut Draft,
) -> Result<(), AllocError>
    requires room { length out.old.ops + 4 ≤ PROGRAM_OPS }
    requires behind { written ≡ false → routine_in out.old.marks < routine }
    ensures { OnOk result (Puts 0 4
        (λ code. CalledAt code line out.old.marks (manner.Makes class) written routine) out.old
        out.new) }
{
    if written {
        put_made_written(class, routine, line, out)?;
        Ok(())
    } else {
        put_made_unwritten(class, routine, line, out)?;
        Ok(())
    }
}

// A mutex object is entered, and its destructor called.
fn put_ended(routine: u32, written: bool, line: u32, out: &mut Draft) -> Result<(), AllocError>
    requires room { length out.old.ops + 4 ≤ PROGRAM_OPS }
    requires behind { written ≡ false → routine_in out.old.marks < routine }
    ensures { OnOk result (Puts 0 4
        (λ code. CalledAt code line out.old.marks manner.Ends written routine) out.old out.new) }
{
    if written {
        put_ended_written(routine, line, out)?;
        Ok(())
    } else {
        put_ended_unwritten(routine, line, out)?;
        Ok(())
    }
}

// A cluster, or a processor of the first cluster, is asked for, and bound.
fn put_opened(of: Resource, line: u32, out: &mut Draft) -> Result<(), AllocError>
    requires { length out.old.ops + 3 ≤ PROGRAM_OPS }
    ensures { OnOk result (Puts 0 3 (λ code. OpenedAt code line of) out.old out.new) }
{
    match of {
        Resource::Cluster => {
            put(Op::Cluster, line, out)?;
            put(Op::Bind, line, out)?;
            Ok(())
        }
        Resource::Processor => {
            put(Op::Push(0), line, out)?;
            put(Op::Processor, line, out)?;
            put(Op::Bind, line, out)?;
            Ok(())
        }
    }
}

// The op that ends a cluster or a processor.
fn close_op(of: Resource) -> Op
    ensures { result ≡ close_op of }
{
    match of {
        Resource::Cluster => Op::ClusterEnd,
        Resource::Processor => Op::ProcessorEnd,
    }
}

// The routine is called at the place that is found, at which a mutex object is made or entered.
fn put_called(what: ObjectCall, line: u32, out: &mut Draft) -> Result<(), AllocError>
    requires room { length out.old.ops + 4 ≤ PROGRAM_OPS }
    requires behind { StandsBehind out.old.marks what }
    ensures { OnOk result (Puts 0 4
        (λ code. CalledAt code line out.old.marks what.manner what.written what.routine) out.old
        out.new) }
{
    match what.manner {
        Manner::Plain => {
            put_plain(what.routine, what.written, line, out)?;
            Ok(())
        }
        Manner::Makes { class } => {
            put_made(class, what.routine, what.written, line, out)?;
            Ok(())
        }
        Manner::Ends => {
            put_ended(what.routine, what.written, line, out)?;
            Ok(())
        }
        Manner::Opens(of) => {
            put_opened(of, line, out)?;
            Ok(())
        }
        Manner::Closes(of) => {
            put(close_op(of), line, out)?;
            Ok(())
        }
    }
}

// Where it lies, of what is destroyed by its number that.
fn put_found(what: ObjectCall, line: u32, out: &mut Draft) -> Result<(), AllocError>
    requires { length out.old.ops + 4 ≤ PROGRAM_OPS }
    ensures { OnOk result (Puts 0 4
        (λ code. FoundAt code line what.manner what.spot what.array) out.old out.new) }
{
    match what.manner {
        Manner::Plain => {
            put_place(what.spot, what.array, line, out)?;
            Ok(())
        }
        Manner::Makes { .. } => {
            put_place(what.spot, what.array, line, out)?;
            Ok(())
        }
        Manner::Ends => {
            put_number(what.spot, what.array, line, out)?;
            Ok(())
        }
        Manner::Opens(_) => {
            put_place(what.spot, what.array, line, out)?;
            Ok(())
        }
        Manner::Closes(_) => {
            put_number(what.spot, what.array, line, out)?;
            Ok(())
        }
    }
}

/// Adds the call of a constructor or a destructor without arguments. After want of memory the draft is spent.
pub fn put_call(what: ObjectCall, line: u32, out: &mut Draft) -> Result<(), AllocError>
    requires room { length out.old.ops + 8 ≤ PROGRAM_OPS }
    requires behind { StandsBehind out.old.marks what }
    ensures { OnOk result (Puts 0 8 (λ code. CallAt code line what out.old.marks) out.old out.new) }
{
    put_found(what, line, out)?;
    put_called(what, line, out)?;
    Ok(())
}

/// Adds such a call and drops its value. After want of memory the draft is spent.
pub fn put_done(what: ObjectCall, line: u32, out: &mut Draft) -> Result<(), AllocError>
    requires room { length out.old.ops + 9 ≤ PROGRAM_OPS }
    requires behind { StandsBehind out.old.marks what }
    ensures { OnOk result (Puts 0 9 (λ code. CallDone code line what out.old.marks) out.old out.new) }
{
    put_call(what, line, out)?;
    put(Op::Discard, line, out)?;
    Ok(())
}

// How many ops it takes behind the place.
fn manner_length(manner: Manner, written: bool) -> u32
    ensures { result ≡ manner_length manner written }
{
    let called = if written { 2 } else { 1 };
    match manner {
        Manner::Plain => called,
        Manner::Makes { .. } => 2 + called,
        Manner::Ends => 2 + called,
        Manner::Opens(Resource::Cluster) => 2,
        Manner::Opens(Resource::Processor) => 3,
        Manner::Closes(_) => 2,
    }
}

/// How many ops a call without arguments and the drop of its value take.
pub fn done_length(what: ObjectCall) -> u32
    ensures { result ≡ done_length what }
{
    let place = if what.array.is_some() { 3 } else { 1 };
    place + manner_length(what.manner, what.written) + 1
}

// How many ops the clean-up of an object, or of all elements of an array, takes.
fn call_length(what: ObjectCall) -> u32
    ensures { result ≡ call_length what }
{
    match what.array {
        Some(_) => 2 * done_length(what) + 5,
        None => done_length(what),
    }
}

/// How many ops a clean-up takes.
pub fn clean_length(what: Cleaning) -> u32
    ensures { result ≡ clean_length what }
{
    match what {
        Cleaning::Call(call) => call_length(call),
        Cleaning::TakeDown | Cleaning::Forget | Cleaning::End | Cleaning::Free(_) => 1,
        Cleaning::Restore(_) => 1,
        Cleaning::Leave => 5,
    }
}

// All elements of an array are cleaned up.
fn put_sweep(what: ObjectCall, array: Array, line: u32, out: &mut Draft) -> Result<(), AllocError>
    requires room { length out.old.ops + clean_room ≤ PROGRAM_OPS }
    requires behind { StandsBehind out.old.marks what }
    ensures { OnOk result (Puts 1 clean_room
        (λ code. CleanBy code line (Some array) what out.old.marks) out.old out.new) }
{
    let start = out.here();
    let test = start + 1 + done_length(what);
    let entry = test + 2 + done_length(what);
    let count = Op::Count {
        elements: array.length,
        test,
    };
    put(count, line, out)?;
    let _row = out.open(Opening::Elements)?;
    put_done(what, line, out)?;
    put(Op::Sweep(start + 1), line, out)?;
    put(Op::Jump(entry + 2), line, out)?;
    put_done(what, line, out)?;
    out.close(0);
    put(Op::Sweep(test + 2), line, out)?;
    put_at_risk(Op::Unwind, line, out)?;
    Ok(())
}

// An object is cleaned up, or all elements of an array, the last one first.
fn put_destroyed(what: ObjectCall, line: u32, out: &mut Draft) -> Result<(), AllocError>
    requires room { length out.old.ops + clean_room ≤ PROGRAM_OPS }
    requires behind { StandsBehind out.old.marks what }
    ensures { OnOk result (Puts (array_rows what.array) clean_room
        (λ code. CleanAt code line (cleaning.Call what) out.old.marks) out.old out.new) }
{
    match what.array {
        Some(array) => {
            put_sweep(what, array, line, out)?;
            Ok(())
        }
        None => {
            put_done(what, line, out)?;
            Ok(())
        }
    }
}

// The running mutex call leaves its object, and is delivered events.
fn put_leave(line: u32, out: &mut Draft) -> Result<(), AllocError>
    requires { length out.old.ops + 5 ≤ PROGRAM_OPS }
    ensures { OnOk result (Puts 0 5 (λ code. LeavesAt code out.old.marks line) out.old out.new) }
{
    let behind = out.here() + 5;
    put(Op::Leave(behind), line, out)?;
    put_poll(line, out)?;
    Ok(())
}

// The building of a mutex object ends: it is free, or begins as a task with this main.
fn put_freed(main: Option<u32>, line: u32, out: &mut Draft) -> Result<(), AllocError>
    requires { length out.old.ops < PROGRAM_OPS }
    ensures { OnOk result (Puts 0 1
        (λ code. CleanAt code line (cleaning.Free main) out.old.marks) out.old out.new) }
{
    match main {
        None => {
            put(Op::Made, line, out)?;
            Ok(())
        }
        Some(main) => {
            put(Op::Spawn(main), line, out)?;
            Ok(())
        }
    }
}

/// Adds the code of a clean-up. After want of memory the draft is spent.
pub fn put_clean(what: Cleaning, line: u32, out: &mut Draft) -> Result<(), AllocError>
    requires room { length out.old.ops + clean_room ≤ PROGRAM_OPS }
    requires behind { CleansBehind out.old.marks what }
    ensures { OnOk result (Puts (cleaning_rows what) clean_room
        (λ code. CleanAt code line what out.old.marks) out.old out.new) }
{
    match what {
        Cleaning::Call(call) => {
            put_destroyed(call, line, out)?;
            Ok(())
        }
        Cleaning::TakeDown => {
            put(Op::UnwindCoroutine, line, out)?;
            Ok(())
        }
        Cleaning::Forget => {
            put(Op::Forget, line, out)?;
            Ok(())
        }
        Cleaning::Leave => {
            put_leave(line, out)?;
            Ok(())
        }
        Cleaning::End => {
            put(Op::Gone, line, out)?;
            Ok(())
        }
        Cleaning::Free(main) => {
            put_freed(main, line, out)?;
            Ok(())
        }
        Cleaning::Restore(cell) => {
            put(Op::Restore(cell), line, out)?;
            Ok(())
        }
    }
}

// The end of a call.
fn end_op(way: Way) -> Op
    ensures { result ≡ end_op way }
{
    match way {
        Way::Break => Op::Return,
        Way::Continue => Op::Return,
        Way::Value => Op::ReturnValue,
        Way::End => Op::ReturnNone,
    }
}

// How a way out ends at a mark, where it does: its last op, and the line of that.
fn ends_at(way: Way, mark: CodeMark, line: u32) -> Option<(Op, u32)>
    ensures { result ≡ ends_at way mark line }
{
    match mark {
        CodeMark::Body { .. } => Some((end_op(way), 0)),
        CodeMark::Finish { main, line, .. } => Some((main.end(), line)),
        CodeMark::Loop { leave, again } => match way {
            Way::Break => Some((Op::Jump(leave), line)),
            Way::Continue => Some((Op::Jump(again), line)),
            Way::Value => None,
            Way::End => None,
        },
        CodeMark::Whole { leave, .. } => Some((Op::Jump(leave), line)),
        CodeMark::Guard { .. } => None,
        CodeMark::Clean { .. } => None,
        CodeMark::Part { .. } => None,
        CodeMark::Elements { .. } => None,
        CodeMark::Outward { .. } => Some((end_op(way), 0)),
    }
}

// An object is cleaned up on the way out of its scope, whose row is left for the while.
fn put_left(what: Cleaning, row: u32, line: u32, out: &mut Draft) -> Result<(), AllocError>
    requires room { length out.old.ops + clean_room ≤ PROGRAM_OPS }
    requires behind { CleansBehind out.old.marks what }
    ensures { OnOk result (PutsLeft what row line out.old out.new) }
{
    let _row = out.open(Opening::Outward { below: row })?;
    put_clean(what, line, out)?;
    out.close(1);
    Ok(())
}

// A mark is left on the way out.
fn put_past(mark: CodeMark, out: &mut Draft) -> Result<(), AllocError>
    requires room { length out.old.ops + past_room mark ≤ PROGRAM_OPS }
    requires behind { PastBehind mark out.old.marks }
    ensures { OnOk result (PutsPast mark out.old out.new) }
{
    match mark {
        CodeMark::Body { .. } => Ok(()),
        CodeMark::Finish { .. } => Ok(()),
        CodeMark::Loop { .. } => Ok(()),
        CodeMark::Whole { .. } => Ok(()),
        CodeMark::Guard { .. } => Ok(()),
        CodeMark::Clean { what, line, row } => {
            put_left(what, row, line, out)?;
            Ok(())
        }
        CodeMark::Part { .. } => Ok(()),
        CodeMark::Elements { .. } => Ok(()),
        CodeMark::Outward { .. } => Ok(()),
    }
}

/// Adds the code that leaves the statements around this place, up to what ends the way, from a statement of this line. After want
/// of memory the draft is spent.
pub fn put_exit(way: Way, line: u32, out: &mut Draft) -> Result<(), AllocError>
    requires { length out.old.ops + exit_room out.old.marks ≤ PROGRAM_OPS }
    ensures { OnOk result (Puts (exit_rows (way_of way) out.old.marks) (exit_room out.old.marks)
        (λ code. ExitAt code (way_of way) out.old.marks) out.old out.new) }
{
    let mut i = out.marks().len();
    while i > 0 {
        i -= 1;
        let mark = out.marks()[i];
        if let Some((op, line)) = ends_at(way, mark, line) {
            put(op, line, out)?;
            return Ok(());
        }
        put_past(mark, out)?;
    }
    put(end_op(way), 0, out)?;
    Ok(())
}

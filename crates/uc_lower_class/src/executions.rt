// The execution of a coroutine in its constructors and its destructor, in no line, and what stands round those of a mutex object.

ghost use Rattle.std.specs.Prelude.{◌≡◌, List, ◌+◌, ◌*◌, ◌<◌, ◌≤◌, OnOk, length};
ghost use Rattle.uc_tree.specs.declared.limits.TheConstants.{PROGRAM_OPS};
ghost use Rattle.uc_tree.specs.Cells.{classes_of};
ghost use Rattle.uc_tree.specs.Programs.{Program};
ghost use Rattle.uc_tree.specs.Source.{Built, CleanUp};
ghost use Rattle.uc_resolve.specs.Resolve.{class_by, construction_ends, ending, enlivened, forgotten, place_or_zero, set_up, started_in, taken_down};
ghost use Rattle.uc_code.specs.declared.rows.CodeMark.{CodeMark};
ghost use Rattle.uc_code.specs.Lowered.{StmtsAt};
ghost use Rattle.uc_code.specs.ObjectCalls.{Cleans};
ghost use Rattle.uc_code.specs.OpenRows.{CleansBehind};
ghost use Rattle.uc_code.specs.Emits.{clean_length};
ghost use Rattle.uc_lower_expr.specs.DraftGrowth.{Adds};
ghost use Rattle.uc_tree.specs.Objects.{class_at};
ghost use Rattle.uc_lower_class.specs.Bodies.{freed_at, freed_main, mutex_by};
ghost use Rattle.uc_lower_class.specs.Fields.{enliven_room, forget_count, live_room, mutex_count, own_close, set_up_room, start_room, take_down_room};
ghost use Rattle.uc_lower_class.specs.OpenParts.{Constructs, LeavesAll};

use std::alloc::AllocError;
use uc_code::draft::Draft;
use uc_code::op::Op;
use uc_code::rows::{Cleaning, Opening};
use uc_lower_expr::program_names::ProgramNames;
use uc_lower_expr::put::put;

// What follows stands behind a part with this clean-up.
fn open_part(what: Cleaning, parts: &mut Vec<Cleaning>, out: &mut Draft) -> Result<(), AllocError>
    requires { CleansBehind out.old.marks what }
    ensures { OnOk result ((c : CleanUp) → Cleans c what →
        Constructs (clean_length what + 2)
        (λ rest. Built c rest) parts.old.items out.old parts.new.items out.new) }
{
    parts.push(what)?;
    let _row = out.open(Opening::Part)?;
    Ok(())
}

/// A coroutine that is built gets its execution, with the main of its class, which has this place; where an event ends the constructor,
/// that is no more. After want of memory the draft is spent.
pub(crate) fn set_up(
    coroutine: bool,
    class: usize,
    names: &ProgramNames,
    parts: &mut Vec<Cleaning>,
    out: &mut Draft,
) -> Result<(), AllocError>
    requires class { class < length (classes_of names.now.items) }
    requires room { length out.old.ops + set_up_room coroutine ≤ PROGRAM_OPS }
    ensures { OnOk result (Constructs (set_up_room coroutine)
        (set_up names.now coroutine class) parts.old.items out.old parts.new.items out.new) }
{
    if coroutine {
        put(Op::Coroutine(names.main_of(class)), 0, out)?;
        open_part(Cleaning::Forget, parts, out)?;
        return Ok(());
    }
    Ok(())
}

/// Behind its fields: what its body starts is unwound where an event ends the constructor. After want of memory the draft is spent.
pub(crate) fn open_started(
    coroutine: bool,
    parts: &mut Vec<Cleaning>,
    out: &mut Draft,
) -> Result<(), AllocError>
    ensures { OnOk result ((p : Program) →
        Constructs (start_room coroutine)
        (started_in p coroutine) parts.old.items out.old parts.new.items out.new) }
{
    if coroutine {
        open_part(Cleaning::TakeDown, parts, out)?;
        return Ok(());
    }
    Ok(())
}

// Behind its body it is live.
fn enliven(coroutine: bool, out: &mut Draft) -> Result<(), AllocError>
    requires { length out.old.ops + enliven_room coroutine ≤ PROGRAM_OPS }
    ensures { OnOk result ((p : Program) (ms : List CodeMark) →
        Adds (enliven_room coroutine)
        (λ code. StmtsAt code ms 0 (enlivened p coroutine)) out.old out.new) }
{
    if coroutine {
        put(Op::Live, 0, out)?;
        return Ok(());
    }
    Ok(())
}

/// What follows the body of a constructor of the class with this place. After want of memory the draft is spent.
pub(crate) fn end_construction(
    class: Option<usize>,
    names: &ProgramNames,
    out: &mut Draft,
) -> Result<(), AllocError>
    requires { length out.old.ops + live_room (class_by names.now class) ≤ PROGRAM_OPS }
    ensures { OnOk result ((ms : List CodeMark) →
        Adds (live_room (class_by names.now class))
        (λ code. StmtsAt code ms 0
        (construction_ends names.now (class_by names.now class) (place_or_zero names.now class)))
        out.old out.new) }
{
    let coroutine = names.has_coroutines(class);
    enliven(coroutine, out)?;
    Ok(())
}

/// The scope of the execution of a coroutine that is destroyed is opened, around those of its fields. After want of memory the draft is
/// spent.
pub(crate) fn open_execution(coroutine: bool, out: &mut Draft) -> Result<(), AllocError>
    ensures { OnOk result ((p : Program) →
        LeavesAll (own_close * forget_count coroutine) (forget_count coroutine)
        (forgotten p coroutine) out.old out.new) }
{
    if coroutine {
        let _row = out.open(Opening::Object {
            what: Cleaning::Forget,
            line: 0,
        })?;
        return Ok(());
    }
    Ok(())
}

/// The scope of a mutex object that is destroyed is opened, around all else: behind it the object is no more. After want of memory the draft
/// is spent.
pub(crate) fn open_ending(mutex: bool, out: &mut Draft) -> Result<(), AllocError>
    ensures { OnOk result ((p : Program) →
        LeavesAll (own_close * mutex_count mutex) (mutex_count mutex)
        (ending p mutex) out.old out.new) }
{
    if mutex {
        let _row = out.open(Opening::Object {
            what: Cleaning::End,
            line: 0,
        })?;
        return Ok(());
    }
    Ok(())
}

/// A coroutine that is destroyed is unwound before its body. After want of memory the draft is spent.
pub(crate) fn take_down(coroutine: bool, out: &mut Draft) -> Result<(), AllocError>
    requires { length out.old.ops + take_down_room coroutine ≤ PROGRAM_OPS }
    ensures { OnOk result ((p : Program) →
        LeavesAll (take_down_room coroutine) 0 (taken_down p coroutine) out.old out.new) }
{
    if coroutine {
        put(Op::UnwindCoroutine, 0, out)?;
        return Ok(());
    }
    Ok(())
}

// The main with which an object of the class with this place begins where it is a task.
fn freed_main(class: usize, names: &ProgramNames) -> Option<u32>
    ensures { result ≡ freed_main names.now class (class_at names.now class) }
{
    if names.is_task(class) {
        Some(names.main_of(class))
    } else {
        None
    }
}

/// The scope of a mutex object that is built is opened, around all else: behind it the object is free, or begins as a task with the main of
/// its class, which has this place. After want of memory the draft is spent.
pub(crate) fn open_freed(
    class: Option<usize>,
    names: &ProgramNames,
    out: &mut Draft,
) -> Result<(), AllocError>
    ensures opened { OnOk result (LeavesAll (own_close * mutex_count (mutex_by names.now class))
        (mutex_count (mutex_by names.now class)) (freed_at names.now class) out.old out.new) }
    ensures same { OnOk result (length out.new.ops ≡ length out.old.ops) }
{
    match class {
        Some(class) => {
            if names.is_mutex(class) {
                let main = freed_main(class, names);
                let _row = out.open(Opening::Object {
                    what: Cleaning::Free(main),
                    line: 0,
                })?;
                return Ok(());
            }
            Ok(())
        }
        None => Ok(()),
    }
}

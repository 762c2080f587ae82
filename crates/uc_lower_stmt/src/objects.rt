// Objects that are declared: each is built, and cleaned up at the end of its block.

ghost use Rattle.std.specs.Prelude.{◌≡◌, ◌+◌, ◌*◌, ◌≤◌, ◌<◌, None, false, drop, length, OnOk};
ghost use Rattle.uc_tree.specs.declared.limits.TheConstants.{OPS_FOR_SIZE, PROGRAM_OPS};
ghost use Rattle.uc_tree.specs.Expressions.{exprs_of};
ghost use Rattle.uc_tree.specs.ExpressionSizes.{exprs_size};
ghost use Rattle.uc_tree.specs.Cells.{classes_of};
ghost use Rattle.uc_tree.specs.Source.{Expr as Place};
ghost use Rattle.uc_resolve.specs.Resolve.{args_meant, build, clean_up, constructed};
ghost use Rattle.uc_code.specs.declared.rows.Cleaning.TheVariants as cleaning;
ghost use Rattle.uc_code.specs.Lowered.{ArrivesAt, CallBuilt, CleanAt, PadAt, StmtAt, spot_op};
ghost use Rattle.uc_code.specs.ObjectCalls.{BeginsAt, Cleans};
ghost use Rattle.uc_code.specs.OpenRows.{StandsBehind, CleansBehind, clean_room};
ghost use Rattle.uc_code.specs.RowCounts.{cleaning_rows};
ghost use Rattle.uc_code.specs.Emits.{Puts};
ghost use Rattle.uc_lower_expr.specs.DraftGrowth.{Adds, ExprCode};
ghost use Rattle.uc_lower_expr.specs.Contexts.{context_in};
ghost use Rattle.uc_lower_expr.specs.Meanings.{is_mutex_at, making_by, making_of};
ghost use Rattle.uc_lower_expr.specs.Members.{HasClass, no_routine};
ghost use Rattle.uc_lower_stmt.specs.Marked.{close_room};
ghost use Rattle.uc_lower_stmt.specs.Objects.{ClosesPart, ClosesScope, FillCode, InCall, InPart, InScope, MadeCode, array_by, arrival_room, build_room, build_rows, builder_of, call_by, call_room, destroyer_of, element_cells, fill_room, free_op, frees, leaves, most_clean, object_built, object_cells, object_ended};

use crate::clusters::{open_cluster, open_processor};
use std::alloc::AllocError;
use uc_code::cleaning::{clean_length, done_length, put_call, put_clean, put_done, put_exit};
use uc_code::draft::Draft;
use uc_code::op::Op;
use uc_code::rows::{Array, Cleaning, Manner, ObjectCall, ObjectSpot, Opening, Resource, Way};
use uc_lower_expr::expr::lower_args;
use uc_lower_expr::making::Made;
use uc_lower_expr::numbering::ClassRoutine;
use uc_lower_expr::program_names::ProgramNames;
use uc_lower_expr::put::{put, put_at_risk};
use uc_tree::expr::Expr;
use uc_tree::laws::law_cells;

// How many ops the pad of a mutex call has.
const ARRIVAL: u32 = 13;

// Where an object begins.
pub(crate) fn spot_op(spot: ObjectSpot) -> Op
    ensures { result ≡ spot_op spot }
{
    match spot {
        ObjectSpot::Local(cell) => Op::Local(cell),
        ObjectSpot::This(cell) => Op::This(cell),
    }
}

// A call of a routine without arguments.
fn call_by(
    routine: ClassRoutine,
    manner: Manner,
    spot: ObjectSpot,
    array: Option<Array>,
) -> ObjectCall
    ensures { result ≡ call_by routine manner spot array }
{
    ObjectCall {
        spot,
        array,
        routine: routine.number,
        written: routine.written,
        manner,
    }
}

// How an object of the class with this place is built.
fn object_built(class: usize, names: &ProgramNames) -> Manner
    requires { class < length (classes_of names.now.items) }
    ensures { result ≡ object_built names.now class (is_mutex_at names.now class) }
{
    if names.is_mutex(class) {
        Manner::Makes {
            class: names.class_number(class),
        }
    } else {
        Manner::Plain
    }
}

// How it is destroyed.
fn object_ended(class: usize, names: &ProgramNames) -> Manner
    ensures { result ≡ object_ended (is_mutex_at names.now class) }
{
    if names.is_mutex(class) {
        Manner::Ends
    } else {
        Manner::Plain
    }
}

// The cells of an object of the class with this place where it lies; a mutex object is there by its number.
fn object_cells(class: usize, names: &ProgramNames) -> u32
    ensures { result ≡ object_cells names.now class (is_mutex_at names.now class) }
{
    if names.is_mutex(class) {
        1
    } else {
        names.cells_of_class(class)
    }
}

// The same of all that is made.
fn cells_of(made: Made, names: &ProgramNames) -> u32
    ensures { result ≡ element_cells names.now made }
{
    match made {
        Made::Object(class) => object_cells(class, names),
        Made::Cluster => 1,
        Made::Processor => 1,
    }
}

// The elements of an array, if it is one.
fn array_of(made: Made, elements: Option<u32>, names: &ProgramNames) -> Option<Array>
    ensures { result ≡ array_by names.now made elements }
{
    match elements {
        Some(length) => Some(Array {
            length,
            size: cells_of(made, names),
        }),
        None => None,
    }
}

// What a cluster and a processor are built and destroyed by.
fn no_routine() -> ClassRoutine
    ensures { result ≡ no_routine }
{
    ClassRoutine {
        number: 0,
        written: true,
    }
}

// The call that builds what is made, without arguments.
fn builder_of(
    made: Made,
    spot: ObjectSpot,
    array: Option<Array>,
    names: &ProgramNames,
) -> ObjectCall
    requires { HasClass names.now made }
    ensures { result ≡ builder_of names.now made spot array }
{
    match made {
        Made::Object(class) => {
            let routine = names.constructor_of(class);
            call_by(routine, object_built(class, names), spot, array)
        }
        Made::Cluster => call_by(no_routine(), Manner::Opens(Resource::Cluster), spot, array),
        Made::Processor => call_by(
            no_routine(),
            Manner::Opens(Resource::Processor),
            spot,
            array,
        ),
    }
}

// The call that destroys it.
fn destroyer_of(
    made: Made,
    spot: ObjectSpot,
    array: Option<Array>,
    names: &ProgramNames,
) -> ObjectCall
    requires { HasClass names.now made }
    ensures { result ≡ destroyer_of names.now made spot array }
{
    match made {
        Made::Object(class) => {
            let routine = names.destructor_of(class);
            call_by(routine, object_ended(class, names), spot, array)
        }
        Made::Cluster => call_by(no_routine(), Manner::Closes(Resource::Cluster), spot, array),
        Made::Processor => call_by(
            no_routine(),
            Manner::Closes(Resource::Processor),
            spot,
            array,
        ),
    }
}

/// The call that cleans up an object, a cluster or a processor, or each of so many elements of an array, which begins in a spot.
pub fn clean_call(
    made: Made,
    spot: ObjectSpot,
    elements: Option<u32>,
    names: &ProgramNames,
) -> Cleaning
    requires { HasClass names.now made }
    ensures call { result ≡ cleaning.Call (destroyer_of names.now made spot
        (array_by names.now made elements)) }
    ensures cleans { (place : Place) → BeginsAt place spot → Cleans
        (clean_up names.now (making_of names.now made) elements place) result }
{
    law_cells();
    let array = array_of(made, elements, names);
    Cleaning::Call(destroyer_of(made, spot, array, names))
}

// A mutex object is made and its place bound to it, before its constructor builds it; other objects are there.
fn put_made(
    class: usize,
    routine: u32,
    line: u32,
    names: &ProgramNames,
    out: &mut Draft,
) -> Result<(), AllocError>
    requires class { class < length (classes_of names.now.items) }
    requires room { length out.old.ops + 2 ≤ PROGRAM_OPS }
    ensures { OnOk result (Adds 2 (MadeCode line
        (object_built names.now class (is_mutex_at names.now class)) routine) out.old out.new) }
{
    if names.is_mutex(class) {
        let class = names.class_number(class);
        put(Op::Make { class, routine }, line, out)?;
        put(Op::BindMade { class, routine }, line, out)?;
    }
    Ok(())
}

// An object of the class with this place, which begins in a spot, is built.
fn construct_object(
    class: usize,
    spot: ObjectSpot,
    args: &[Expr],
    line: u32,
    names: &ProgramNames,
    out: &mut Draft,
) -> Result<(), AllocError>
    requires class { class < length (classes_of names.now.items) }
    requires room { length out.old.ops + OPS_FOR_SIZE * exprs_size (exprs_of args.now) + 5 ≤
        PROGRAM_OPS }
    requires behind { StandsBehind out.old.marks (builder_of names.now (Made.Object class) spot
        None) }
    ensures room { OnOk result (length out.new.ops ≤ length out.old.ops +
        (OPS_FOR_SIZE * exprs_size (exprs_of args.now) + 5)) }
    ensures code { OnOk result ((place : Place) → BeginsAt place spot → Adds
        (OPS_FOR_SIZE * exprs_size (exprs_of args.now) + 5)
        (ExprCode line out.old.marks (constructed names.now
        (making_by class (is_mutex_at names.now class)) place
        (args_meant (context_in names.now out.old) (exprs_of args.now)))) out.old out.new) }
{
    let routine = names.constructor_of(class);
    put(spot_op(spot), line, out)?;
    if routine.written {
        lower_args(names.params(routine.number), args, line, names, out)?;
        put(Op::Tick, line, out)?;
        put_made(class, routine.number, line, names, out)?;
        put_at_risk(Op::CallOn(routine.number), line, out)?;
    } else {
        put_made(class, routine.number, line, names, out)?;
        put_at_risk(Op::CallUnwritten(routine.number), line, out)?;
    }
    Ok(())
}

/// Adds the code that builds an object, which begins in a spot, or asks for a cluster or a processor. After want of memory the draft
/// is spent.
pub fn lower_construction(
    made: Made,
    spot: ObjectSpot,
    args: &[Expr],
    line: u32,
    names: &ProgramNames,
    out: &mut Draft,
) -> Result<(), AllocError>
    requires class { HasClass names.now made }
    requires room { length out.old.ops + OPS_FOR_SIZE * exprs_size (exprs_of args.now) + 5 ≤
        PROGRAM_OPS }
    requires behind { StandsBehind out.old.marks (builder_of names.now made spot None) }
    ensures room { OnOk result (length out.new.ops ≤ length out.old.ops +
        (OPS_FOR_SIZE * exprs_size (exprs_of args.now) + 5)) }
    ensures code { OnOk result ((place : Place) → BeginsAt place spot → Adds
        (OPS_FOR_SIZE * exprs_size (exprs_of args.now) + 5)
        (ExprCode line out.old.marks (constructed names.now (making_of names.now made) place
        (args_meant (context_in names.now out.old) (exprs_of args.now)))) out.old out.new) }
{
    match made {
        Made::Object(class) => {
            construct_object(class, spot, args, line, names, out)?;
            Ok(())
        }
        Made::Cluster => {
            open_cluster(spot, line, out)?;
            Ok(())
        }
        Made::Processor => {
            open_processor(spot, args, line, names, out)?;
            Ok(())
        }
    }
}

// The call that builds an element, before one more stands.
fn put_built(builder: ObjectCall, line: u32, out: &mut Draft) -> Result<(), AllocError>
    requires room { length out.old.ops + 10 ≤ PROGRAM_OPS }
    requires behind { StandsBehind out.old.marks builder }
    ensures { OnOk result (Puts 0 10 (λ code. CallBuilt code line builder out.old.marks) out.old
        out.new) }
{
    put_call(builder, line, out)?;
    put(Op::Discard, line, out)?;
    put(Op::More, line, out)?;
    Ok(())
}

// Turns over the elements of an array, which build them, and those that destroy what stands where an event comes.
fn put_fill(
    builder: ObjectCall,
    destroyer: ObjectCall,
    count: u32,
    line: u32,
    out: &mut Draft,
) -> Result<(), AllocError>
    requires room { length out.old.ops + fill_room ≤ PROGRAM_OPS }
    requires builds { StandsBehind out.old.marks builder }
    requires destroys { StandsBehind out.old.marks destroyer }
    ensures { OnOk result (Puts 1 fill_room (FillCode line out.old.marks builder destroyer count)
        out.old out.new) }
{
    let start = out.here();
    let test = start + 2 + done_length(builder);
    let entry = test + 2 + done_length(destroyer);
    put(Op::Count { elements: 0, test }, line, out)?;
    let _row = out.open(Opening::Elements)?;
    put_built(builder, line, out)?;
    let turn = start + 1;
    put(
        Op::Fill {
            length: count,
            turn,
        },
        line,
        out,
    )?;
    put(Op::Jump(entry + 2), line, out)?;
    put_done(destroyer, line, out)?;
    out.close(0);
    put(Op::Sweep(test + 2), line, out)?;
    put_at_risk(Op::Unwind, line, out)?;
    Ok(())
}

/// Adds the code of the statement that builds an object, a cluster or a processor, or the elements of an array of them, without
/// arguments. After want of memory the draft is spent.
pub fn lower_build(
    made: Made,
    spot: ObjectSpot,
    elements: Option<u32>,
    args: &[Expr],
    line: u32,
    names: &ProgramNames,
    out: &mut Draft,
) -> Result<(), AllocError>
    requires class { HasClass names.now made }
    requires room { length out.old.ops + OPS_FOR_SIZE * exprs_size (exprs_of args.now) + build_room
        elements ≤ PROGRAM_OPS }
    requires builds { StandsBehind out.old.marks (builder_of names.now made spot
        (array_by names.now made elements)) }
    requires destroys { StandsBehind out.old.marks (destroyer_of names.now made spot
        (array_by names.now made elements)) }
    ensures { OnOk result ((place : Place) → BeginsAt place spot → Puts (build_rows elements)
        (OPS_FOR_SIZE * exprs_size (exprs_of args.now) + build_room elements)
        (λ code. StmtAt code out.old.marks
        (build names.now line (making_of names.now made) elements place
        (args_meant (context_in names.now out.old) (exprs_of args.now)))) out.old out.new) }
{
    match elements {
        None => {
            lower_construction(made, spot, args, line, names, out)?;
            put(Op::Discard, line, out)?;
            Ok(())
        }
        Some(count) => {
            law_cells();
            let array = array_of(made, elements, names);
            let builder = builder_of(made, spot, array, names);
            let destroyer = destroyer_of(made, spot, array, names);
            put_fill(builder, destroyer, count, line, out)?;
            Ok(())
        }
    }
}

// Whether it is the building of a mutex object, which is given up where it is unwound.
fn frees(what: Cleaning) -> bool
    ensures { result ≡ frees what }
{
    match what {
        Cleaning::Call(_) => false,
        Cleaning::TakeDown => false,
        Cleaning::Forget => false,
        Cleaning::Leave => false,
        Cleaning::End => false,
        Cleaning::Free(_) => true,
        Cleaning::Restore(_) => false,
    }
}

// The op that ends the building of a mutex object; a task begins with its main.
fn free_op(main: Option<u32>) -> Op
    ensures { result ≡ free_op main }
{
    match main {
        None => Op::Made,
        Some(main) => Op::Spawn(main),
    }
}

// The clean-up of a scope.
fn put_cleaned(what: Cleaning, line: u32, out: &mut Draft) -> Result<(), AllocError>
    requires room { length out.old.ops + most_clean what ≤ PROGRAM_OPS }
    requires behind { CleansBehind out.old.marks what }
    ensures { OnOk result (Puts (cleaning_rows what) (most_clean what)
        (λ code. CleanAt code line what out.old.marks) out.old out.new) }
{
    match what {
        Cleaning::Call(_) => {
            put_clean(what, line, out)?;
            Ok(())
        }
        Cleaning::TakeDown => {
            put(Op::UnwindCoroutine, line, out)?;
            Ok(())
        }
        Cleaning::Forget => {
            put(Op::Forget, line, out)?;
            Ok(())
        }
        Cleaning::Leave => {
            put_clean(what, line, out)?;
            Ok(())
        }
        Cleaning::End => {
            put(Op::Gone, line, out)?;
            Ok(())
        }
        Cleaning::Free(main) => {
            put(free_op(main), line, out)?;
            Ok(())
        }
        Cleaning::Restore(cell) => {
            put(Op::Restore(cell), line, out)?;
            Ok(())
        }
    }
}

// The pad of a scope that is unwound, but for that of a mutex call: its clean-up, and unwinding goes on.
fn put_pad(what: Cleaning, line: u32, out: &mut Draft) -> Result<(), AllocError>
    requires room { length out.old.ops + (most_clean what + 1) ≤ PROGRAM_OPS }
    requires behind { CleansBehind out.old.marks what }
    requires other { leaves what ≡ false }
    ensures { OnOk result (Puts (cleaning_rows what) (most_clean what + 1)
        (λ code. PadAt code line what out.old.marks) out.old out.new) }
{
    if frees(what) {
        put(Op::GiveUp, line, out)?;
        put_at_risk(Op::Unwind, line, out)?;
        return Ok(());
    }
    put_cleaned(what, line, out)?;
    put_at_risk(Op::Unwind, line, out)?;
    Ok(())
}

// The pad of a mutex call: where a return of a handler arrives it leaves its object and returns; else it leaves that, and unwinding goes
// on.
fn put_arrival(line: u32, out: &mut Draft) -> Result<(), AllocError>
    requires call { InCall out.old.marks }
    requires room { length out.old.ops + (clean_room + 7) ≤ PROGRAM_OPS }
    ensures { OnOk result (Puts 0 arrival_room (λ code. ArrivesAt code line out.old.marks) out.old
        out.new) }
{
    let arrived = out.here() + 7;
    put(Op::Arrive(arrived), line, out)?;
    put_clean(Cleaning::Leave, line, out)?;
    put_at_risk(Op::Unwind, line, out)?;
    put_clean(Cleaning::Leave, line, out)?;
    put_exit(Way::Value, line, out)?;
    Ok(())
}

/// Ends the mutex call whose object is that of the innermost mark: it leaves its object, also where it is unwound. After want of memory the
/// draft is spent.
pub(crate) fn close_call(line: u32, out: &mut Draft) -> Result<(), AllocError>
    requires scope { InScope cleaning.Leave line out.old.marks }
    requires call { InCall (drop 1 out.old.marks) }
    requires room { length out.old.ops + (clean_room + 13) ≤ PROGRAM_OPS }
    ensures { OnOk result (ClosesScope call_room cleaning.Leave line out.old out.new) }
{
    let end = out.here() + 6 + ARRIVAL;
    out.close(6);
    put_clean(Cleaning::Leave, line, out)?;
    put(Op::Jump(end), line, out)?;
    put_arrival(line, out)?;
    Ok(())
}

/// Ends the scope of the object of the innermost mark, which is no mutex call: it is cleaned up, and once more for unwinding. After want
/// of memory the draft is spent.
pub fn close_scope(what: Cleaning, line: u32, out: &mut Draft) -> Result<(), AllocError>
    requires scope { InScope what line out.old.marks }
    requires other { leaves what ≡ false }
    requires room { length out.old.ops + close_room what ≤ PROGRAM_OPS }
    ensures { OnOk result (ClosesScope (close_room what) what line out.old out.new) }
{
    let long = clean_length(what);
    let end = out.here() + 2 * long + 2;
    out.close(long + 1);
    put_cleaned(what, line, out)?;
    put(Op::Jump(end), line, out)?;
    put_pad(what, line, out)?;
    Ok(())
}

/// Ends the scope of the part of an object under construction of the innermost mark: it is cleaned up for unwinding alone. After
/// want of memory the draft is spent.
pub fn close_part(what: Cleaning, line: u32, out: &mut Draft) -> Result<(), AllocError>
    requires part { InPart out.old.marks }
    requires behind { CleansBehind out.old.marks what }
    requires room { length out.old.ops + (clean_room + 2) ≤ PROGRAM_OPS }
    ensures { OnOk result (ClosesPart what line out.old out.new) }
{
    let end = out.here() + clean_length(what) + 2;
    out.close(1);
    put(Op::Jump(end), line, out)?;
    put_clean(what, line, out)?;
    put_at_risk(Op::Unwind, line, out)?;
    Ok(())
}

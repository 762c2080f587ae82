// The code of all routines, one after another.

ghost use Rattle.std.specs.Prelude.{◌≡◌, ◌&&◌, ◌||◌, ℕ, ◌+◌, ◌*◌, ◌^◌, ◌≤◌, ◌<◌, [], true, false, None, Some, length, map, nat_eq, slice_get, slice_set, IfOk, OnOk};
ghost use Rattle.uc_tree.specs.declared.limits.TheConstants.{FRAME_CELLS, OPS_FOR_SIZE, PROGRAM_OPS, PROGRAM_SIZE};
ghost use Rattle.uc_tree.specs.StatementSizes.{stmts_size};
ghost use Rattle.uc_tree.specs.Cells.{routine_cells};
ghost use Rattle.uc_tree.specs.Gathered.{gathered_all};
ghost use Rattle.uc_tree.specs.Names.{same_name};
ghost use Rattle.uc_tree.specs.Numbering.{is_plain, main_name, own_sites, own_texts, routines_of};
ghost use Rattle.uc_tree.specs.Objects.{unwritten_of};
ghost use Rattle.uc_tree.specs.ProgramMain.{main_number};
ghost use Rattle.uc_resolve.specs.Resolve.{class_by, has_coroutines, is_main, has_tasks, place_by, routine_meant, routine_scope};
ghost use Rattle.uc_rules.specs.Breaks.{breaks_of};
ghost use Rattle.uc_code.specs.Layout.{laid_in};
ghost use Rattle.uc_code.specs.Lowered.{RoutineAt};
ghost use Rattle.uc_code.specs.CodeShapes.{Kept};
ghost use Rattle.uc_numbering.specs.Routines.{defined_at};
ghost use Rattle.uc_lower_stmt.specs.SourceRows.{routine_rows};
ghost use Rattle.uc_lower_stmt.specs.RowFit.{RoutineRows};
ghost use Rattle.uc_lower_stmt.specs.Routines.{frame_cells, main_in};
ghost use Rattle.uc_implicit.specs.Unwritten.{unwritten_as};
ghost use Rattle.uc_lower.specs.RoutineLayout.{Lays, LaysAll, routine_room};
ghost use Rattle.uc_lower.specs.Refusals.{Fits};

use std::alloc::{AllocError, Global};
use uc_code::draft::Draft;
use uc_code::rows::{MainOf, RoutineCode};
use uc_implicit::unwritten::Unwritten;
use uc_lower_class::builder::{lower_builder, lower_unwritten};
use uc_lower_expr::events::builds_event;
use uc_lower_expr::program_names::{ProgramNames, name_of, sig_of};
use uc_lower_stmt::routine::lower_routine;
use uc_numbering::routines::Defined;
use uc_tree::class::Sig;
use uc_tree::kinds::Role;

// A row for each routine, of which nothing is known.
pub(crate) fn no_code(alloc: Global, count: usize) -> Result<Vec<RoutineCode>, AllocError>
    ensures { IfOk result (λ v. length v.items ≡ count) }
{
    let none = RoutineCode {
        entry: 0,
        cells: 0,
        params: 0,
        written: false,
    };
    let rows = vec![in alloc; none; count]?;
    Ok(rows)
}

// Whether a routine is no constructor and no destructor.
fn is_plain(sig: &Sig) -> bool
    ensures { result ≡ is_plain sig.now.role }
{
    match sig.role {
        Role::Plain => true,
        Role::Constructor => false,
        Role::Destructor => false,
    }
}

// The place of the class of a routine. That of an event has no number, but its constructor has its name.
fn class_of(names: &ProgramNames, one: &Defined) -> Option<usize>
    ensures { result ≡ place_by names.now (defined_at one.now) }
{
    let sig = sig_of(one.routine);
    if builds_event(one.number, sig) {
        return names.sizes().event_named(name_of(sig));
    }
    names.class_of(one.number)
}

// Whose main a routine of the class with this place is, if it is one.
fn main_in(
    names: &ProgramNames,
    is_program_main: bool,
    class: Option<usize>,
    sig: &Sig,
) -> Option<MainOf>
    ensures { (number : ℕ) → is_program_main ≡ nat_eq number (main_number names.now) →
        result ≡ main_in names.now number (class_by names.now class) sig.now }
{
    if is_task_main(names, is_program_main, class, sig) {
        return Some(MainOf::Task);
    }
    if is_coroutine_main(names, class, sig) {
        return Some(MainOf::Coroutine);
    }
    None
}

// Whether it is that of the program, or of the tasks of its class.
fn is_task_main(
    names: &ProgramNames,
    is_program_main: bool,
    class: Option<usize>,
    sig: &Sig,
) -> bool
    ensures { result ≡ (is_program_main
        || (has_tasks names.now (class_by names.now class) && is_main names.now sig.now)) }
{
    is_program_main || (has_tasks(names, class) && is_main(sig))
}

// Whether it is that of the coroutines of its class.
fn is_coroutine_main(names: &ProgramNames, class: Option<usize>, sig: &Sig) -> bool
    ensures { result ≡ (has_coroutines names.now (class_by names.now class)
        && is_main names.now sig.now) }
{
    names.has_coroutines(class) && is_main(sig)
}

// Whether the class with this place, if there is one, has tasks.
fn has_tasks(names: &ProgramNames, class: Option<usize>) -> bool
    ensures { result ≡ has_tasks names.now (class_by names.now class) }
{
    match class {
        Some(class) => names.is_task(class),
        None => false,
    }
}

// Whether a member of a class that has one is its main.
fn is_main(sig: &Sig) -> bool
    ensures { result ≡ (is_plain sig.now.role && same_name sig.now.name main_name) }
{
    is_plain(sig) && sig.name.is(b"main")
}

// Adds the code of a written routine, behind so many text literals and accept statements of the program, where `last` is the number
// of the last one that is written.
fn lower_written(
    alloc: Global,
    names: &ProgramNames,
    one: &Defined,
    is_program_main: bool,
    number: u32,
    last: u32,
    texts: u32,
    sites: u32,
    out: &mut Draft,
) -> Result<(), AllocError>
    requires main { is_program_main ≡ nat_eq number (main_number names.now) }
    requires named { is_program_main ≡ true → is_main names.now one.now.routine.now.sig ≡ true }
    requires params { length one.now.routine.now.sig.params ≤ PROGRAM_SIZE }
    requires known { number < length out.old.routines }
    requires behind { number ≤ last }
    requires written { last < length (routines_of names.now) }
    requires outside { out.old.marks ≡ [] }
    requires room { length out.old.ops + routine_room names.now (defined_at one.now) ≤ PROGRAM_OPS }
    requires cells { routine_cells names.now one.now.routine.now ≤ FRAME_CELLS }
    requires texts { texts + stmts_size one.now.routine.now.body ≤ PROGRAM_SIZE }
    ensures kept { OnOk result (Kept (laid_in out.old) (laid_in out.new)) }
    ensures count { OnOk result (length out.new.rows
        ≡ length out.old.rows
        + routine_rows
        (routine_meant names.now one.now.routine.now
        (routine_scope names.now one.now.routine.now
        (place_by names.now (defined_at one.now)) number texts sites))) }
    ensures rows { OnOk result (RoutineRows out.old out.new) }
    ensures room { OnOk result (length out.new.ops
        ≤ length out.old.ops + routine_room names.now (defined_at one.now)) }
    ensures code { OnOk result (RoutineAt (laid_in out.new) last number
        (routine_meant names.now one.now.routine.now
        (routine_scope names.now one.now.routine.now
        (place_by names.now (defined_at one.now)) number texts sites))
        (record {
          entry = length out.old.ops;
          cells = frame_cells names.now one.now.routine.now;
          params = length one.now.routine.now.sig.params;
          written = true;
        }) (length out.old.ops)
        (length out.new.ops)) }
    ensures written { OnOk result (out.new.routines
        ≡ slice_set out.old.routines number
        (record {
          entry = length out.old.ops;
          cells = frame_cells names.now one.now.routine.now;
          params = length one.now.routine.now.sig.params;
          written = true;
        })) }
    ensures outside { OnOk result (out.new.marks ≡ []) }
    ensures texts { OnOk result (out.new.texts
        ≡ texts + length (gathered_all own_texts one.now.routine.now.body)) }
    ensures few_texts { OnOk result (out.new.texts ≤ texts + stmts_size one.now.routine.now.body) }
    ensures sites { OnOk result (out.new.sites
        ≡ sites + length (gathered_all (own_sites None 0) one.now.routine.now.body)) }
{
    let routine = one.routine;
    let class = class_of(names, one);
    let sig = sig_of(routine);
    if is_plain(sig) {
        let whose_main = main_in(names, is_program_main, class, sig);
        lower_routine(
            alloc, names, routine, whose_main, class, number, last, texts, sites, out,
        )?;
        return Ok(());
    }
    lower_builder(
        alloc, names, routine, class, number, last, texts, sites, out,
    )?;
    Ok(())
}

// Adds the code of all written routines to a draft without ops, of so many routines in all.
pub(crate) fn lower_routines(
    alloc: Global,
    names: &ProgramNames,
    defined: &[Defined],
    main: u32,
    count: u32,
    out: &mut Draft,
) -> Result<(), AllocError>
    requires unbroken { breaks_of names.now ≡ [] }
    requires fits { Fits names.now }
    requires defined { map defined_at defined.now ≡ routines_of names.now }
    requires main { main ≡ main_number names.now }
    requires count { count ≡ length defined.now }
    requires table { count ≤ length out.old.routines }
    requires ops { out.old.ops ≡ [] }
    requires rows { out.old.rows ≡ [] }
    requires outside { out.old.marks ≡ [] }
    ensures { OnOk result (Lays names.now (routines_of names.now)
        (length out.old.routines) count out.new) }
{
    let mut texts: u32 = 0;
    let mut sites: u32 = 0;
    for number in 0..count {
        let d = &defined[number as usize];
        let is_main = number == main;
        let last = count - 1;
        lower_written(alloc, names, d, is_main, number, last, texts, sites, out)?;
        texts = out.texts();
        sites = out.sites();
    }
    Ok(())
}

#[tactic(auto, using(crate::proofs::Numbered::mapped_get, crate::proofs::Numbered::mapped_is))]
fn nth(unwritten: &[Unwritten], place: usize) -> Unwritten
    requires { place < length unwritten.now }
    ensures { slice_get (map unwritten_as unwritten.now) place ≡ Some (unwritten_as result) }
{
    unwritten[place]
}

// Adds the code of the routines that nobody wrote to a draft in which the written ones stand, so many.
pub(crate) fn lower_all_unwritten(
    alloc: Global,
    names: &ProgramNames,
    unwritten: &[Unwritten],
    count: u32,
    out: &mut Draft,
) -> Result<(), AllocError>
    requires unbroken { breaks_of names.now ≡ [] }
    requires fits { Fits names.now }
    requires unwritten { map unwritten_as unwritten.now ≡ unwritten_of names.now }
    requires count { count ≡ length (routines_of names.now) }
    requires few { count + length unwritten.now < 2 ^ 32 }
    requires lays { Lays names.now (routines_of names.now)
        (count + length unwritten.now) count out.old }
    ensures { OnOk result (LaysAll names.now (routines_of names.now) (unwritten_of names.now)
        (count + length unwritten.now) (length unwritten.now) out.new) }
{
    let mut number = count;
    for place in 0..unwritten.len() {
        let one = nth(unwritten, place);
        lower_unwritten(alloc, names, one, number, out)?;
        number += 1;
    }
    Ok(())
}

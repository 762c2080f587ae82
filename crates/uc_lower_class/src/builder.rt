// The code of constructors and destructors.

ghost use Rattle.std.specs.Prelude.{◌≡◌, ℕ, true, false, None, ◌+◌, ◌*◌, ◌≤◌, ◌<◌, [], length, nat_eq, slice_set, OnOk};
ghost use Rattle.uc_tree.specs.declared.limits.TheConstants.{FRAME_CELLS, PROGRAM_OPS, PROGRAM_SIZE};
ghost use Rattle.uc_tree.specs.StatementSizes.{stmts_size};
ghost use Rattle.uc_tree.specs.Cells.{declared_cells, routine_cells, stmts_cells};
ghost use Rattle.uc_tree.specs.Gathered.{gathered_all};
ghost use Rattle.uc_tree.specs.Numbering.{is_plain, own_sites, own_texts, routines_of};
ghost use Rattle.uc_tree.specs.Objects.{class_at};
ghost use Rattle.uc_tree.specs.ProgramMain.{main_number};
ghost use Rattle.uc_tree.specs.Scopes.{stmts_scopes};
ghost use Rattle.uc_resolve.specs.Resolve.{class_by, nowhere, routine_meant, routine_scope, unwritten_meant};
ghost use Rattle.uc_tree.specs.declared.kinds.Role.TheVariants as role;
ghost use Rattle.uc_code.specs.Layout.{laid_in, routine_in};
ghost use Rattle.uc_code.specs.Lowered.{RoutineAt};
ghost use Rattle.uc_code.specs.CodeShapes.{Kept};
ghost use Rattle.uc_lower_expr.specs.Members.{FitClasses};
ghost use Rattle.uc_lower_stmt.specs.SourceRows.{routine_rows};
ghost use Rattle.uc_lower_stmt.specs.RowFit.{RoutineRows};
ghost use Rattle.uc_lower_stmt.specs.Marked.{closing};
ghost use Rattle.uc_lower_stmt.specs.Routines.{frame_cells};
ghost use Rattle.uc_lower_stmt.specs.LowersStatement.{scope_of};
ghost use Rattle.uc_implicit.specs.Unwritten.{unwritten_as};
ghost use Rattle.uc_lower_class.specs.Bodies.{IsUnwritten, LowersBare, LowersBody, LowersRaised, LowersUnwritten, builder_room, built_at, built_room, left_at, part_end, raise_room, role_room, unwritten_room};
ghost use Rattle.uc_lower_class.specs.Fields.{FieldsBehind, all_room, left_count, left_room};
ghost use Rattle.uc_lower_class.specs.OpenParts.{Constructs, LeavesAll, end_room};

use crate::executions::{end_construction, open_freed};
use crate::fields::{build_all, leave_all};
use crate::parts::close_parts;
use crate::whole::lower_whole;
use std::alloc::{AllocError, Global};
use uc_code::draft::Draft;
use uc_code::op::Op;
use uc_code::rows::{Cleaning, RoutineCode};
use uc_implicit::unwritten::Unwritten;
use uc_layout::frames::cells_of_routine;
use uc_lower_expr::program_names::{ProgramNames, params_of, sig_of};
use uc_lower_expr::put::put;
use uc_lower_stmt::block::close_scopes;
use uc_lower_stmt::routine::declare_params;
use uc_tree::class::{Init, Routine, Sig};
use uc_tree::kinds::Role;

fn role_of(sig: &Sig) -> Role
    ensures { result ≡ sig.now.role }
{
    sig.role
}

fn inits_of(routine: &Routine) -> &[Init]
    ensures { result.now ≡ routine.now.inits }
{
    &routine.inits
}

// The object of the class of a constructor is built, but for its body: its execution, if it is a coroutine, and its fields.
fn build_own(
    alloc: Global,
    class: Option<usize>,
    routine: &Routine,
    names: &ProgramNames,
    parts: &mut Vec<Cleaning>,
    out: &mut Draft,
) -> Result<(), AllocError>
    requires written { routine_in out.old.marks < length (routines_of names.now) }
    requires room { length out.old.ops + end_room parts.old.items
        + built_room names.now class routine.now ≤ PROGRAM_OPS }
    ensures { OnOk result (Constructs (built_room names.now class routine.now)
        (built_at names.now class routine.now (scope_of out.old)) parts.old.items out.old
        parts.new.items out.new) }
{
    match class {
        Some(class) => {
            build_all(alloc, class, inits_of(routine), names, parts, out)?;
            Ok(())
        }
        None => Ok(()),
    }
}

// The scopes of the class of a destructor are opened, of its execution, if it is a coroutine, and of its fields; a coroutine is unwound.
fn leave_own(class: Option<usize>, names: &ProgramNames, out: &mut Draft) -> Result<(), AllocError>
    requires written { routine_in out.old.marks < length (routines_of names.now) }
    requires outside { closing out.old.marks ≡ 0 }
    requires room { length out.old.ops + left_room (class_by names.now class) ≤ PROGRAM_OPS }
    ensures { OnOk result (LeavesAll (left_room (class_by names.now class))
        (left_count (class_by names.now class)) (left_at names.now class) out.old out.new) }
{
    match class {
        Some(class) => {
            leave_all(class, names, out)?;
            Ok(())
        }
        None => Ok(()),
    }
}

// The statements of a constructor, but for the scope of a mutex object.
fn lower_raised(
    alloc: Global,
    names: &ProgramNames,
    class: Option<usize>,
    routine: &Routine,
    out: &mut Draft,
) -> Result<(), AllocError>
    requires written { routine_in out.old.marks < length (routines_of names.now) }
    requires room { length out.old.ops + (raise_room names.now class routine.now + part_end)
        ≤ PROGRAM_OPS }
    requires cells { out.old.cells + stmts_cells routine.now.body (declared_cells names.now)
        ≤ FRAME_CELLS }
    requires scopes { out.old.scopes + stmts_scopes routine.now.body ≤ PROGRAM_SIZE }
    requires texts { out.old.texts + stmts_size routine.now.body ≤ PROGRAM_SIZE }
    ensures { OnOk result (LowersRaised names.now class routine.now out.old out.new) }
{
    let mut parts = Vec::new(alloc);
    build_own(alloc, class, routine, names, &mut parts, out)?;
    lower_whole(alloc, names, routine, out)?;
    end_construction(class, names, out)?;
    close_parts(&mut parts, out)?;
    Ok(())
}

fn lower_constructor(
    alloc: Global,
    names: &ProgramNames,
    class: Option<usize>,
    routine: &Routine,
    out: &mut Draft,
) -> Result<(), AllocError>
    requires class { class ≡ out.old.place.class }
    requires written { routine_in out.old.marks < length (routines_of names.now) }
    requires outside { closing out.old.marks ≡ 0 }
    requires room { length out.old.ops + role_room names.now role.Constructor class routine.now
        ≤ PROGRAM_OPS }
    requires cells { out.old.cells + stmts_cells routine.now.body (declared_cells names.now)
        ≤ FRAME_CELLS }
    requires scopes { out.old.scopes + stmts_scopes routine.now.body ≤ PROGRAM_SIZE }
    requires texts { out.old.texts + stmts_size routine.now.body ≤ PROGRAM_SIZE }
    ensures { OnOk result (LowersBody names.now role.Constructor routine.now out.old out.new) }
{
    let depth = out.marks().len();
    open_freed(class, names, out)?;
    lower_raised(alloc, names, class, routine, out)?;
    close_scopes(depth, out)?;
    Ok(())
}

fn lower_destructor(
    alloc: Global,
    names: &ProgramNames,
    class: Option<usize>,
    routine: &Routine,
    out: &mut Draft,
) -> Result<(), AllocError>
    requires class { class ≡ out.old.place.class }
    requires written { routine_in out.old.marks < length (routines_of names.now) }
    requires outside { closing out.old.marks ≡ 0 }
    requires room { length out.old.ops + role_room names.now role.Destructor class routine.now
        ≤ PROGRAM_OPS }
    requires cells { out.old.cells + stmts_cells routine.now.body (declared_cells names.now)
        ≤ FRAME_CELLS }
    requires scopes { out.old.scopes + stmts_scopes routine.now.body ≤ PROGRAM_SIZE }
    requires texts { out.old.texts + stmts_size routine.now.body ≤ PROGRAM_SIZE }
    ensures { OnOk result (LowersBody names.now role.Destructor routine.now out.old out.new) }
{
    let depth = out.marks().len();
    leave_own(class, names, out)?;
    lower_whole(alloc, names, routine, out)?;
    close_scopes(depth, out)?;
    Ok(())
}

fn lower_body(
    alloc: Global,
    names: &ProgramNames,
    role: Role,
    class: Option<usize>,
    routine: &Routine,
    out: &mut Draft,
) -> Result<(), AllocError>
    requires role { is_plain role ≡ false }
    requires class { class ≡ out.old.place.class }
    requires written { routine_in out.old.marks < length (routines_of names.now) }
    requires outside { closing out.old.marks ≡ 0 }
    requires room { length out.old.ops + role_room names.now role class routine.now ≤ PROGRAM_OPS }
    requires cells { out.old.cells + stmts_cells routine.now.body (declared_cells names.now)
        ≤ FRAME_CELLS }
    requires scopes { out.old.scopes + stmts_scopes routine.now.body ≤ PROGRAM_SIZE }
    requires texts { out.old.texts + stmts_size routine.now.body ≤ PROGRAM_SIZE }
    ensures { OnOk result (LowersBody names.now role routine.now out.old out.new) }
{
    match role {
        Role::Plain => Ok(()),
        Role::Constructor => {
            lower_constructor(alloc, names, class, routine, out)?;
            Ok(())
        }
        Role::Destructor => {
            lower_destructor(alloc, names, class, routine, out)?;
            Ok(())
        }
    }
}

/// Adds the code of a written constructor or destructor of the class with this place, behind so many text literals and accept
/// statements of the program, and writes down under its number where it begins. `last` is the number of the last routine that is
/// written. After want of memory the draft is spent.
pub fn lower_builder(
    alloc: Global,
    names: &ProgramNames,
    routine: &Routine,
    class: Option<usize>,
    number: u32,
    last: u32,
    texts: u32,
    sites: u32,
    out: &mut Draft,
) -> Result<(), AllocError>
    requires role { is_plain routine.now.sig.role ≡ false }
    requires main { nat_eq number (main_number names.now) ≡ false }
    requires params { length routine.now.sig.params ≤ PROGRAM_SIZE }
    requires known { number < length out.old.routines }
    requires behind { number ≤ last }
    requires written { last < length (routines_of names.now) }
    requires outside { out.old.marks ≡ [] }
    requires room { length out.old.ops + builder_room names.now routine.now class ≤ PROGRAM_OPS }
    requires cells { routine_cells names.now routine.now ≤ FRAME_CELLS }
    requires texts { texts + stmts_size routine.now.body ≤ PROGRAM_SIZE }
    ensures kept { OnOk result (Kept (laid_in out.old) (laid_in out.new)) }
    ensures count { OnOk result (length out.new.rows
        ≡ length out.old.rows
        + routine_rows
        (routine_meant names.now routine.now
        (routine_scope names.now routine.now class number texts sites))) }
    ensures rows { OnOk result (RoutineRows out.old out.new) }
    ensures room { OnOk result (length out.new.ops
        ≤ length out.old.ops + builder_room names.now routine.now class) }
    ensures code { OnOk result (RoutineAt (laid_in out.new) last number
        (routine_meant names.now routine.now
        (routine_scope names.now routine.now class number texts sites))
        (record {
          entry = length out.old.ops;
          cells = frame_cells names.now routine.now;
          params = length routine.now.sig.params;
          written = true;
        }) (length out.old.ops)
        (length out.new.ops)) }
    ensures written { OnOk result (out.new.routines
        ≡ slice_set out.old.routines number
        (record {
          entry = length out.old.ops;
          cells = frame_cells names.now routine.now;
          params = length routine.now.sig.params;
          written = true;
        })) }
    ensures outside { OnOk result (out.new.marks ≡ []) }
    ensures texts { OnOk result (out.new.texts
        ≡ texts + length (gathered_all own_texts routine.now.body)) }
    ensures few_texts { OnOk result (out.new.texts ≤ texts + stmts_size routine.now.body) }
    ensures sites { OnOk result (out.new.sites
        ≡ sites + length (gathered_all (own_sites None 0) routine.now.body)) }
{
    let entry = out.here();
    let sig = sig_of(routine);
    let params = params_of(sig);
    let variables = cells_of_routine(names.sizes(), routine) as u32;
    out.begin_routine(class, number, variables, texts, sites);
    declare_params(alloc, names, params, out)?;
    out.enter_body(last)?;
    let role = role_of(sig);
    lower_body(alloc, names, role, class, routine, out)?;
    out.leave();
    put(Op::Return, 0, out)?;
    let cells = out.hidden();
    let count = params.len() as u32;
    out.set_routine(
        number,
        RoutineCode {
            entry,
            cells,
            params: count,
            written: true,
        },
    );
    Ok(())
}

// The statements of a constructor that nobody wrote, but for the scope of a mutex object.
fn lower_bare(
    alloc: Global,
    names: &ProgramNames,
    class: usize,
    out: &mut Draft,
) -> Result<(), AllocError>
    requires behind { FieldsBehind names.now class (routine_in out.old.marks) }
    requires nowhere { scope_of out.old ≡ nowhere names.now }
    requires room { length out.old.ops + unwritten_room role.Constructor (class_at names.now class)
        ≤ PROGRAM_OPS }
    ensures { OnOk result (LowersBare names.now class out.old out.new) }
{
    let mut parts = Vec::new(alloc);
    build_all(alloc, class, &[], names, &mut parts, out)?;
    end_construction(Some(class), names, out)?;
    close_parts(&mut parts, out)?;
    Ok(())
}

fn lower_unwritten_constructor(
    alloc: Global,
    names: &ProgramNames,
    class: usize,
    out: &mut Draft,
) -> Result<(), AllocError>
    requires behind { FieldsBehind names.now class (routine_in out.old.marks) }
    requires outside { closing out.old.marks ≡ 0 }
    requires nowhere { scope_of out.old ≡ nowhere names.now }
    requires room { length out.old.ops + unwritten_room role.Constructor (class_at names.now class)
        ≤ PROGRAM_OPS }
    ensures { OnOk result (LowersUnwritten names.now role.Constructor class out.old out.new) }
{
    let depth = out.marks().len();
    open_freed(Some(class), names, out)?;
    lower_bare(alloc, names, class, out)?;
    close_scopes(depth, out)?;
    Ok(())
}

fn lower_unwritten_destructor(
    names: &ProgramNames,
    class: usize,
    out: &mut Draft,
) -> Result<(), AllocError>
    requires behind { FieldsBehind names.now class (routine_in out.old.marks) }
    requires outside { closing out.old.marks ≡ 0 }
    requires room { length out.old.ops + unwritten_room role.Destructor (class_at names.now class)
        ≤ PROGRAM_OPS }
    ensures { OnOk result (LowersUnwritten names.now role.Destructor class out.old out.new) }
{
    let depth = out.marks().len();
    leave_all(class, names, out)?;
    close_scopes(depth, out)?;
    Ok(())
}

fn lower_unwritten_body(
    alloc: Global,
    names: &ProgramNames,
    role: Role,
    class: usize,
    out: &mut Draft,
) -> Result<(), AllocError>
    requires behind { FieldsBehind names.now class (routine_in out.old.marks) }
    requires outside { closing out.old.marks ≡ 0 }
    requires nowhere { scope_of out.old ≡ nowhere names.now }
    requires room { length out.old.ops + unwritten_room role (class_at names.now class)
        ≤ PROGRAM_OPS }
    ensures { OnOk result (LowersUnwritten names.now role class out.old out.new) }
{
    match role {
        Role::Plain => Ok(()),
        Role::Constructor => {
            lower_unwritten_constructor(alloc, names, class, out)?;
            Ok(())
        }
        Role::Destructor => {
            lower_unwritten_destructor(names, class, out)?;
            Ok(())
        }
    }
}

/// Adds the code of a constructor or a destructor that nobody wrote, and writes down under its number where it begins. After want
/// of memory the draft is spent.
pub fn lower_unwritten(
    alloc: Global,
    names: &ProgramNames,
    one: Unwritten,
    number: u32,
    out: &mut Draft,
) -> Result<(), AllocError>
    requires fit { FitClasses names.now }
    requires unwritten { IsUnwritten names.now (unwritten_as one) number }
    requires known { number < length out.old.routines }
    requires outside { out.old.marks ≡ [] }
    requires room { length out.old.ops
        + (unwritten_room one.role (class_at names.now one.class) + 1) ≤ PROGRAM_OPS }
    ensures kept { OnOk result (Kept (laid_in out.old) (laid_in out.new)) }
    ensures count { OnOk result (length out.new.rows
        ≡ length out.old.rows + routine_rows (unwritten_meant names.now (unwritten_as one))) }
    ensures rows { OnOk result (RoutineRows out.old out.new) }
    ensures room { OnOk result (length out.new.ops
        ≤ length out.old.ops + (unwritten_room one.role (class_at names.now one.class) + 1)) }
    ensures code { OnOk result ((last : ℕ) → last ≤ number →
        RoutineAt (laid_in out.new) last number (unwritten_meant names.now (unwritten_as one))
        (record { entry = length out.old.ops; cells = 0; params = 0; written = false })
        (length out.old.ops) (length out.new.ops)) }
    ensures written { OnOk result (out.new.routines
        ≡ slice_set out.old.routines number
        (record { entry = length out.old.ops; cells = 0; params = 0; written = false })) }
    ensures outside { OnOk result (out.new.marks ≡ []) }
{
    let entry = out.here();
    out.begin_routine(None, 0, 0, 0, 0);
    out.enter_body(number)?;
    lower_unwritten_body(alloc, names, one.role, one.class, out)?;
    out.leave();
    put(Op::Return, 0, out)?;
    out.set_routine(
        number,
        RoutineCode {
            entry,
            cells: 0,
            params: 0,
            written: false,
        },
    );
    Ok(())
}

// The code of routines.

ghost use Rattle.std.specs.Prelude.{◌≡◌, ◌+◌, ◌*◌, ◌≤◌, ◌<◌, ◌++◌, [], true, None, length, nat_eq, slice_set, OnOk};
ghost use Rattle.uc_tree.specs.declared.limits.TheConstants.{FRAME_CELLS, OPS_FOR_SIZE, PROGRAM_OPS, PROGRAM_SIZE};
ghost use Rattle.uc_tree.specs.Statements.{stmts_of};
ghost use Rattle.uc_tree.specs.StatementSizes.{stmts_size};
ghost use Rattle.uc_tree.specs.Cells.{declared_cells, params_cells, routine_cells, stmts_cells};
ghost use Rattle.uc_tree.specs.Gathered.{gathered_all};
ghost use Rattle.uc_tree.specs.Numbering.{is_plain, own_sites, own_texts, routines_of};
ghost use Rattle.uc_tree.specs.ProgramMain.{is_void, main_number};
ghost use Rattle.uc_tree.specs.Scopes.{stmts_scopes};
ghost use Rattle.uc_resolve.specs.Resolve.{class_by, is_main, params_known, value_purpose, routine_scope, routine_meant};
ghost use Rattle.uc_code.specs.Layout.{laid_in};
ghost use Rattle.uc_code.specs.CodeShapes.{Kept};
ghost use Rattle.uc_code.specs.Lowered.{RoutineAt};
ghost use Rattle.uc_lower_expr.specs.DraftGrowth.{Adds};
ghost use Rattle.uc_lower_stmt.specs.SourceRows.{routine_rows};
ghost use Rattle.uc_lower_stmt.specs.RowFit.{RoutineRows};
ghost use Rattle.uc_lower_stmt.specs.LowersStatement.{sizes_at};
ghost use Rattle.uc_lower_stmt.specs.Routines.{EndCode, OwedCode, LowersMutex, LowersPlain, LowersRoutine, frame_cells, main_in, purpose_by};

use crate::declare::copy_of;
use crate::objects::close_call;
use crate::stmt::lower_stmts;
use std::alloc::{AllocError, Global};
use uc_code::draft::Draft;
use uc_code::op::Op;
use uc_code::rows::{Cleaning, MainOf, Opening, RoutineCode};
use uc_layout::frames::cells_of_routine;
use uc_lower_expr::program_names::{ProgramNames, params_of, result_of, sig_of};
use uc_lower_expr::put::put;
use uc_tree::class::Routine;
use uc_tree::kinds::{Base, Param, Ty};
use uc_tree::stmt::Stmt;

fn is_void(base: &Base) -> bool
    ensures { result ≡ is_void base.now }
{
    match base {
        Base::Void => true,
        Base::Int => false,
        Base::Char => false,
        Base::Bool => false,
        Base::Condition => false,
        Base::Cluster => false,
        Base::Processor => false,
        Base::Named(_) => false,
    }
}

/// The statements of a routine's body.
pub fn body_of(routine: &Routine) -> &[Stmt]
    ensures { stmts_of result.now ≡ routine.now.body }
{
    &routine.body
}

/// The line of the block that is a routine's body.
pub fn line_of(routine: &Routine) -> u32
    ensures { result ≡ routine.now.brace.line }
{
    routine.brace.line
}

/// Parameters are in scope, and have the first cells.
pub fn declare_params(
    alloc: Global,
    names: &ProgramNames,
    params: &[Param],
    out: &mut Draft,
) -> Result<(), AllocError>
    requires { out.old.cells + params_cells names.now params.now ≤ FRAME_CELLS }
    ensures { OnOk result (out.new ≡ record out.old {
      names = out.old.names ++ params_known names.now out.old.cells params.now;
      cells =
          out.old.cells + params_cells names.now params.now;
    }) }
{
    for param in params {
        let name = param.name.copy(alloc)?;
        let base = copy_of(alloc, &param.base)?;
        let ty = Ty {
            base,
            by_ref: param.by_ref,
            len: None,
        };
        let cells = names.sizes().cells_of_param(param) as u32;
        out.declare(name, ty, cells)?;
    }
    Ok(())
}

// What is done behind the statements of a routine that hands over a value of this base, or none.
fn put_end(base: &Base, line: u32, out: &mut Draft) -> Result<(), AllocError>
    requires { length out.old.ops + 2 ≤ PROGRAM_OPS }
    ensures { OnOk result (Adds 2 (EndCode (is_void base.now) line) out.old out.new) }
{
    if is_void(base) {
        put(Op::Return, 0, out)?;
        return Ok(());
    }
    put(Op::NoReturn, line, out)?;
    put(Op::Return, 0, out)?;
    Ok(())
}

// The statements of a main, and its end, also where an event leaves it. `last` is the number of the last routine that is written.
fn lower_main(
    alloc: Global,
    names: &ProgramNames,
    routine: &Routine,
    main: MainOf,
    last: u32,
    out: &mut Draft,
) -> Result<(), AllocError>
    requires written { last < length (routines_of names.now) }
    requires outside { out.old.marks ≡ [] }
    requires room { length out.old.ops + OPS_FOR_SIZE * (1 + sizes_at routine.now.body 0) ≤
        PROGRAM_OPS }
    requires cells { out.old.cells + stmts_cells routine.now.body (declared_cells names.now) ≤
        FRAME_CELLS }
    requires scopes { out.old.scopes + stmts_scopes routine.now.body ≤ PROGRAM_SIZE }
    requires texts { out.old.texts + stmts_size routine.now.body ≤ PROGRAM_SIZE }
    ensures code { OnOk result (LowersRoutine names.now (purpose_by main) last routine.now out.old
        out.new) }
    ensures rows { OnOk result (RoutineRows out.old out.new) }
{
    let line = line_of(routine);
    let _row = out.open(Opening::Main {
        main,
        routine: last,
        line,
    })?;
    lower_stmts(alloc, names, body_of(routine), line, out)?;
    out.close(1);
    put(main.end(), line, out)?;
    put(main.left(), line, out)?;
    Ok(())
}

// The statements of a routine that is called, and its end.
fn lower_called(
    alloc: Global,
    names: &ProgramNames,
    routine: &Routine,
    last: u32,
    out: &mut Draft,
) -> Result<(), AllocError>
    requires written { last < length (routines_of names.now) }
    requires outside { out.old.marks ≡ [] }
    requires room { length out.old.ops + OPS_FOR_SIZE * (1 + sizes_at routine.now.body 0) ≤
        PROGRAM_OPS }
    requires cells { out.old.cells + stmts_cells routine.now.body (declared_cells names.now) ≤
        FRAME_CELLS }
    requires scopes { out.old.scopes + stmts_scopes routine.now.body ≤ PROGRAM_SIZE }
    requires texts { out.old.texts + stmts_size routine.now.body ≤ PROGRAM_SIZE }
    ensures code { OnOk result (LowersRoutine names.now
        (value_purpose names.now routine.now.sig.ret) last routine.now out.old out.new) }
    ensures rows { OnOk result (RoutineRows out.old out.new) }
{
    let line = line_of(routine);
    out.enter_body(last)?;
    lower_stmts(alloc, names, body_of(routine), line, out)?;
    out.leave();
    put_end(result_of(sig_of(routine)), line, out)?;
    Ok(())
}

// Where a routine that hands over a value of this base comes to the end of its statements, it owes that.
fn put_owed(base: &Base, line: u32, out: &mut Draft) -> Result<(), AllocError>
    requires { length out.old.ops < PROGRAM_OPS }
    ensures { OnOk result (Adds 1 (OwedCode (is_void base.now) line) out.old out.new) }
{
    if is_void(base) {
        return Ok(());
    }
    put(Op::NoReturn, line, out)?;
    Ok(())
}

// The statements of a mutex member, and its end: whatever leaves them leaves the object, in the line of the call.
fn lower_mutex(
    alloc: Global,
    names: &ProgramNames,
    routine: &Routine,
    last: u32,
    out: &mut Draft,
) -> Result<(), AllocError>
    requires written { last < length (routines_of names.now) }
    requires outside { out.old.marks ≡ [] }
    requires room { length out.old.ops + OPS_FOR_SIZE * (1 + sizes_at routine.now.body 0) ≤
        PROGRAM_OPS }
    requires cells { out.old.cells + stmts_cells routine.now.body (declared_cells names.now) ≤
        FRAME_CELLS }
    requires scopes { out.old.scopes + stmts_scopes routine.now.body ≤ PROGRAM_SIZE }
    requires texts { out.old.texts + stmts_size routine.now.body ≤ PROGRAM_SIZE }
    ensures code { OnOk result (LowersMutex names.now last routine.now out.old out.new) }
    ensures rows { OnOk result (RoutineRows out.old out.new) }
{
    let line = line_of(routine);
    out.enter_body(last)?;
    let _row = out.open(Opening::Object {
        what: Cleaning::Leave,
        line: 0,
    })?;
    lower_stmts(alloc, names, body_of(routine), line, out)?;
    put_owed(result_of(sig_of(routine)), line, out)?;
    close_call(0, out)?;
    out.leave();
    put(Op::Return, 0, out)?;
    Ok(())
}

// The statements of a routine that is no constructor and no destructor, and its end.
fn lower_statements(
    alloc: Global,
    names: &ProgramNames,
    routine: &Routine,
    main: Option<MainOf>,
    number: u32,
    last: u32,
    out: &mut Draft,
) -> Result<(), AllocError>
    requires plain { is_plain routine.now.sig.role ≡ true }
    requires main { main ≡ main_in names.now number (class_by names.now out.old.place.class)
        routine.now.sig }
    requires named { nat_eq number (main_number names.now) ≡ true → is_main names.now
        routine.now.sig ≡ true }
    requires written { last < length (routines_of names.now) }
    requires outside { out.old.marks ≡ [] }
    requires room { length out.old.ops + OPS_FOR_SIZE * (1 + sizes_at routine.now.body 0) ≤
        PROGRAM_OPS }
    requires cells { out.old.cells + stmts_cells routine.now.body (declared_cells names.now) ≤
        FRAME_CELLS }
    requires scopes { out.old.scopes + stmts_scopes routine.now.body ≤ PROGRAM_SIZE }
    requires texts { out.old.texts + stmts_size routine.now.body ≤ PROGRAM_SIZE }
    ensures code { OnOk result (LowersPlain names.now number last routine.now out.old out.new) }
    ensures rows { OnOk result (RoutineRows out.old out.new) }
{
    match main {
        Some(main) => {
            lower_main(alloc, names, routine, main, last, out)?;
            Ok(())
        }
        None => {
            if names.is_mutex_member(out.place().class, sig_of(routine)) {
                lower_mutex(alloc, names, routine, last, out)?;
                return Ok(());
            }
            lower_called(alloc, names, routine, last, out)?;
            Ok(())
        }
    }
}

/// Adds the code of a routine that is no constructor and no destructor, behind so many text literals and accept statements of the
/// program, and writes down under its number where it begins; `main` says whose main it is, if it is one. `class` is the
/// place of its class, and `last` the number of the last routine that is written. After want of memory the draft is spent.
pub fn lower_routine(
    alloc: Global,
    names: &ProgramNames,
    routine: &Routine,
    main: Option<MainOf>,
    class: Option<usize>,
    number: u32,
    last: u32,
    texts: u32,
    sites: u32,
    out: &mut Draft,
) -> Result<(), AllocError>
    requires plain { is_plain routine.now.sig.role ≡ true }
    requires main { main ≡ main_in names.now number (class_by names.now class) routine.now.sig }
    requires named { nat_eq number (main_number names.now) ≡ true → is_main names.now
        routine.now.sig ≡ true }
    requires few_params { length routine.now.sig.params ≤ PROGRAM_SIZE }
    requires known { number < length out.old.routines }
    requires behind { number ≤ last }
    requires written { last < length (routines_of names.now) }
    requires outside { out.old.marks ≡ [] }
    requires room { length out.old.ops + OPS_FOR_SIZE * (1 + sizes_at routine.now.body 0) ≤
        PROGRAM_OPS }
    requires cells { routine_cells names.now routine.now ≤ FRAME_CELLS }
    requires texts { texts + stmts_size routine.now.body ≤ PROGRAM_SIZE }
    ensures kept { OnOk result (Kept (laid_in out.old) (laid_in out.new)) }
    ensures count { OnOk result (length out.new.rows ≡ length out.old.rows + routine_rows
        (routine_meant names.now routine.now
        (routine_scope names.now routine.now class number texts sites))) }
    ensures rows { OnOk result (RoutineRows out.old out.new) }
    ensures room { OnOk result (length out.new.ops ≤ length out.old.ops + OPS_FOR_SIZE *
        (1 + sizes_at routine.now.body 0)) }
    ensures code { OnOk result (RoutineAt (laid_in out.new) last number
        (routine_meant names.now routine.now
        (routine_scope names.now routine.now class number texts sites))
        (record {
          entry = length out.old.ops;
          cells = frame_cells names.now routine.now;
          params =
              length routine.now.sig.params;
          written = true;
        }) (length out.old.ops)
        (length out.new.ops)) }
    ensures written { OnOk result (out.new.routines ≡ slice_set out.old.routines number
        (record {
          entry = length out.old.ops;
          cells = frame_cells names.now routine.now;
          params =
              length routine.now.sig.params;
          written = true;
        })) }
    ensures outside { OnOk result (out.new.marks ≡ []) }
    ensures texts { OnOk result (out.new.texts ≡ texts + length
        (gathered_all own_texts routine.now.body)) }
    ensures few_texts { OnOk result (out.new.texts ≤ texts + stmts_size routine.now.body) }
    ensures sites { OnOk result (out.new.sites ≡ sites + length
        (gathered_all (own_sites None 0) routine.now.body)) }
{
    let entry = out.here();
    let sig = sig_of(routine);
    let params = params_of(sig);
    let variables = cells_of_routine(names.sizes(), routine) as u32;
    out.begin_routine(class, number, variables, texts, sites);
    declare_params(alloc, names, params, out)?;
    lower_statements(alloc, names, routine, main, number, last, out)?;
    let cells = out.hidden();
    let count = params.len() as u32;
    out.set_routine(
        number,
        RoutineCode {
            entry,
            cells,
            params: count,
            written: true,
        },
    );
    Ok(())
}

// The code of guarded blocks and their handlers.

ghost use Rattle.std.specs.Prelude.{◌≡◌, ℕ, true, ◌+◌, ◌*◌, ◌^◌, ◌≤◌, ◌<◌, length, IfOk, OnOk};
ghost use Rattle.uc_tree.specs.declared.kinds.Base.TheVariants as base;
ghost use Rattle.uc_tree.specs.declared.limits.TheConstants.{FRAME_CELLS, OPS_FOR_SIZE, PROGRAM_OPS, PROGRAM_SIZE};
ghost use Rattle.uc_tree.specs.Cells.{declared_cells, handler_cells, handlers_cells, stmts_cells};
ghost use Rattle.uc_tree.specs.Exits.{exits_handler, exits_handlers};
ghost use Rattle.uc_tree.specs.Numbering.{routines_of};
ghost use Rattle.uc_tree.specs.Programs.{Program};
ghost use Rattle.uc_resolve.specs.Resolve.{Scope, event_of_handler, scalar, takes_resumptions, with_event};
ghost use Rattle.uc_tree.specs.Scopes.{handler_scopes, handlers_scopes, stmts_scopes};
ghost use Rattle.uc_tree.specs.Statements.{handlers_of, stmts_of};
ghost use Rattle.uc_tree.specs.StatementSizes.{handler_size, handlers_size, stmts_size};
ghost use Rattle.uc_code.specs.Layout.{laid_in, routine_in};
ghost use Rattle.uc_code.specs.Lowered.{event_of, kind_of};
ghost use Rattle.uc_code.specs.CodeShapes.{IsBare};
ghost use Rattle.uc_lower_stmt.specs.Handling.{EntersHandler, LowersBody, LowersHandler, LowersHandlers, LowersTry};
ghost use Rattle.uc_lower_stmt.specs.Marked.{objects_in, taken};
ghost use Rattle.uc_lower_stmt.specs.LowersStatement.{sizes_at};

use crate::stmt::lower_stmts;
use std::alloc::{AllocError, Global};
use uc_code::draft::Draft;
use uc_code::draft_parts::OuterScope;
use uc_code::guarding::{close_guards, open_guards};
use uc_code::op::Op;
use uc_code::raising::put_kept;
use uc_code::rows::{ANY_EVENT, Opening, RowKind};
use uc_lower_expr::program_names::ProgramNames;
use uc_lower_expr::put::put;
use uc_tree::kinds::{Base, HandlerKind, Ty};
use uc_tree::name::Name;
use uc_tree::stmt::{Handler, Stmt};

// The number of an event and its fields.
const KEPT_CELLS: u32 = 3;

fn kind_of(kind: HandlerKind) -> RowKind
    ensures { result ≡ kind_of (takes_resumptions kind) }
{
    match kind {
        HandlerKind::Catch => RowKind::Catch,
        HandlerKind::CatchResume => RowKind::CatchResume,
    }
}

// The number of the event that a handler takes, or that which stands for every one.
fn event_of(names: &ProgramNames, event: &Option<Name>) -> u8
    ensures { result ≡ event_of (event_of_handler names.now event.now) }
{
    match event {
        None => ANY_EVENT,
        Some(name) => names.event(name),
    }
}

fn type_of(alloc: Global, event: &Name) -> Result<Ty, AllocError>
    ensures { IfOk result (λ ty. ty ≡ scalar (base.Named event.now)) }
{
    let base = Base::Named(event.copy(alloc)?);
    Ok(Ty {
        base,
        by_ref: false,
        len: None,
    })
}

// A handler's parameter is in scope, for the fields of its event, which lie from this cell on.
fn declare_event(
    alloc: Global,
    event: &Option<Name>,
    param: &Option<Name>,
    cell: u32,
    out: &mut Draft,
) -> Result<(), AllocError>
    ensures { OnOk result ((p : Program) (s : Scope) → s.names ≡ out.old.names → cell ≡ s.hidden +
        1 → out.new ≡ record out.old { names = (with_event p param.now event.now s).names }) }
{
    let Some(param) = param else {
        return Ok(());
    };
    match event {
        None => Ok(()),
        Some(event) => {
            let ty = type_of(alloc, event)?;
            let name = param.copy(alloc)?;
            out.declare_at(name, ty, cell)?;
            Ok(())
        }
    }
}

// Where a handler begins: its row has it, its event is kept in hidden cells of its own, and its parameter is in scope.
fn enter_handler(
    alloc: Global,
    names: &ProgramNames,
    kind: HandlerKind,
    event: &Option<Name>,
    param: &Option<Name>,
    line: u32,
    row: u32,
    out: &mut Draft,
) -> Result<OuterScope, AllocError>
    requires bare { IsBare (laid_in out.old) row }
    requires entry { 0 < length out.old.ops }
    requires room { length out.old.ops + 6 ≤ PROGRAM_OPS }
    requires scopes { out.old.scopes < PROGRAM_SIZE }
    ensures outside { IfOk result (λ outside. outside ≡ record
        { names = length out.old.names; scope = out.old.place.scope }) }
    ensures entered { OnOk result (EntersHandler names.now row (takes_resumptions kind) event.now
        param.now line out.old out.new) }
{
    let number = event_of(names, event);
    out.begin_handler(row, kind_of(kind), number);
    let cell = out.add_hidden(KEPT_CELLS)?;
    put_kept(cell, line, out)?;
    out.set_handled(cell);
    let outside = out.open_scope();
    declare_event(alloc, event, param, cell + 1, out)?;
    Ok(outside)
}

// The statements of a handler, behind which one that catches goes on by the pad; one of resumptions ends there.
#[cycle(stmt)]
fn lower_body(
    alloc: Global,
    names: &ProgramNames,
    kind: HandlerKind,
    body: &[Stmt],
    line: u32,
    pad: u32,
    out: &mut Draft,
) -> Result<(), AllocError>
    requires inside { routine_in out.old.marks < length (routines_of names.now) }
    requires entry { 0 < length out.old.ops }
    requires room { taken out.old + (2 + OPS_FOR_SIZE * sizes_at (stmts_of body.now)
        (objects_in out.old.marks)) ≤ PROGRAM_OPS }
    requires cells { out.old.cells + stmts_cells (stmts_of body.now) (declared_cells names.now) ≤
        FRAME_CELLS }
    requires scopes { out.old.scopes + stmts_scopes (stmts_of body.now) ≤ PROGRAM_SIZE }
    requires texts { out.old.texts + stmts_size (stmts_of body.now) ≤ PROGRAM_SIZE }
    ensures { OnOk result (LowersBody names.now pad (takes_resumptions kind) line
        (stmts_of body.now) out.old out.new) }
{
    match kind {
        HandlerKind::Catch => {
            lower_stmts(alloc, names, body, line, out)?;
            put(Op::Jump(pad), line, out)?;
            Ok(())
        }
        HandlerKind::CatchResume => {
            let _row = out.open(Opening::Outward { below: 0 })?;
            lower_stmts(alloc, names, body, line, out)?;
            out.close(0);
            put(Op::Return, 0, out)?;
            Ok(())
        }
    }
}

// The code of the handler with this row.
#[cycle(stmt)]
fn lower_handler(
    alloc: Global,
    names: &ProgramNames,
    handler: &Handler,
    row: u32,
    pad: u32,
    out: &mut Draft,
) -> Result<(), AllocError>
    requires bare { IsBare (laid_in out.old) row }
    requires entry { 0 < length out.old.ops }
    requires inside { routine_in out.old.marks < length (routines_of names.now) }
    requires room { taken out.old + OPS_FOR_SIZE *
        (handler_size handler.now + exits_handler handler.now (objects_in out.old.marks)) ≤
        PROGRAM_OPS }
    requires cells { out.old.cells + handler_cells handler.now (declared_cells names.now) ≤
        FRAME_CELLS }
    requires scopes { out.old.scopes + handler_scopes handler.now ≤ PROGRAM_SIZE }
    requires texts { out.old.texts + handler_size handler.now ≤ PROGRAM_SIZE }
    ensures { OnOk result (LowersHandler names.now row pad handler.now out.old out.new) }
{
    let line = handler.brace.line;
    let kind = handler.kind;
    let handled = out.handled();
    let outside = enter_handler(
        alloc,
        names,
        kind,
        &handler.event,
        &handler.param,
        line,
        row,
        out,
    )?;
    lower_body(alloc, names, kind, &handler.body, line, pad, out)?;
    out.leave_scope(outside);
    out.set_handled(handled);
    Ok(())
}

// The code of the handlers of a block that has ended, the last one of which has this row.
#[cycle(stmt)]
fn lower_handlers(
    alloc: Global,
    names: &ProgramNames,
    handlers: &[Handler],
    first: u32,
    pad: u32,
    out: &mut Draft,
) -> Result<(), AllocError>
    requires bare { (k : ℕ) → k < length handlers.now → IsBare (laid_in out.old) (first + k) }
    requires rows { first + length handlers.now < 2 ^ 32 }
    requires entry { 0 < length out.old.ops }
    requires inside { routine_in out.old.marks < length (routines_of names.now) }
    requires room { taken out.old + OPS_FOR_SIZE *
        (handlers_size (handlers_of handlers.now) + exits_handlers (handlers_of handlers.now)
        (objects_in out.old.marks)) ≤ PROGRAM_OPS }
    requires cells { out.old.cells + handlers_cells (handlers_of handlers.now)
        (declared_cells names.now) ≤ FRAME_CELLS }
    requires scopes { out.old.scopes + handlers_scopes (handlers_of handlers.now) ≤ PROGRAM_SIZE }
    requires texts { out.old.texts + handlers_size (handlers_of handlers.now) ≤ PROGRAM_SIZE }
    ensures { OnOk result (LowersHandlers names.now first pad (handlers_of handlers.now) out.old
        out.new) }
{
    match handlers.split_first() {
        None => Ok(()),
        Some((handler, rest)) => {
            let row = first + rest.len() as u32;
            lower_handler(alloc, names, handler, row, pad, out)?;
            lower_handlers(alloc, names, rest, first, pad, out)?;
            Ok(())
        }
    }
}

/// Adds the code of a guarded block of this line, whose own block has that of its brace, and of its handlers. After want of memory
/// the draft is spent.
#[cycle(stmt)]
pub(crate) fn lower_try(
    alloc: Global,
    names: &ProgramNames,
    body: &[Stmt],
    brace: u32,
    handlers: &[Handler],
    line: u32,
    out: &mut Draft,
) -> Result<(), AllocError>
    requires inside { routine_in out.old.marks < length (routines_of names.now) }
    requires room { taken out.old + OPS_FOR_SIZE *
        (1 + sizes_at (stmts_of body.now) (objects_in out.old.marks) +
        (handlers_size (handlers_of handlers.now) + exits_handlers (handlers_of handlers.now)
        (objects_in out.old.marks))) ≤ PROGRAM_OPS }
    requires cells { out.old.cells + (stmts_cells (stmts_of body.now) (declared_cells names.now) +
        handlers_cells (handlers_of handlers.now) (declared_cells names.now)) ≤ FRAME_CELLS }
    requires scopes { out.old.scopes + (1 + stmts_scopes (stmts_of body.now) + handlers_scopes
        (handlers_of handlers.now)) ≤ PROGRAM_SIZE }
    requires texts { out.old.texts + (stmts_size (stmts_of body.now) + handlers_size
        (handlers_of handlers.now)) ≤ PROGRAM_SIZE }
    ensures { OnOk result (LowersTry names.now line brace (stmts_of body.now)
        (handlers_of handlers.now) out.old out.new) }
{
    let start = out.here();
    put(Op::Jump(start + 2), line, out)?;
    put(Op::Jump(0), line, out)?;
    open_guards(handlers.len(), out)?;
    let Ok(rows) = u32::try_from(out.row_count()) else {
        return Err(AllocError);
    };
    let first = rows - handlers.len() as u32;
    let outside = out.open_scope();
    lower_stmts(alloc, names, body, brace, out)?;
    out.leave_scope(outside);
    close_guards(handlers.len(), out);
    put(Op::Jump(start + 1), line, out)?;
    lower_handlers(alloc, names, handlers, first, start + 1, out)?;
    out.patch(start + 1, Op::Jump(out.here()));
    Ok(())
}

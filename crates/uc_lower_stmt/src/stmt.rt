// The code of statements.

ghost use Rattle.std.specs.Prelude.{◌≡◌, true, ◌+◌, ◌*◌, ◌≤◌, ◌<◌, length, Option, OnOk};
ghost use Rattle.uc_tree.specs.declared.limits.TheConstants.{FRAME_CELLS, OPS_FOR_SIZE, PROGRAM_OPS, PROGRAM_SIZE};
ghost use Rattle.uc_tree.specs.Expressions.{Expr as Tested};
ghost use Rattle.uc_tree.specs.Programs.{Program as Whole};
ghost use Rattle.uc_tree.specs.Statements.{stmts_of};
ghost use Rattle.uc_tree.specs.StatementSizes.{declarators_size, for_start_size, maybe_expr_size, maybe_stmt_size, stmt_size, stmts_size};
ghost use Rattle.uc_tree.specs.declared.pos.Pos.{Pos};
ghost use Rattle.uc_tree.specs.StatementForms.{stmt_at};
ghost use Rattle.uc_tree.specs.StatementViews.{maybe_at};
ghost use Rattle.uc_tree.specs.Exits.{for_declares};
ghost use Rattle.uc_tree.specs.Numbering.{routines_of};
ghost use Rattle.uc_tree.specs.Sizes.{size_at};
ghost use Rattle.uc_tree.specs.Scopes.{alone_scopes, maybe_scopes, stmt_scopes, stmts_scopes};
ghost use Rattle.uc_tree.specs.ExpressionSizes.{expr_size};
ghost use Rattle.uc_tree.specs.Cells.{declared_cells, declarators_cells, for_cells, maybe_cells, stmt_cells, stmts_cells};
ghost use Rattle.uc_resolve.specs.Resolve.{Scope, order_of, test_of};
ghost use Rattle.uc_code.specs.Layout.{routine_in};
ghost use Rattle.uc_code.specs.Emits.{Puts};
ghost use Rattle.uc_code.specs.RowCounts.{return_rows};
ghost use Rattle.uc_code.specs.CodeShapes.{begin_at};
ghost use Rattle.uc_lower_expr.specs.DraftGrowth.{Adds};
ghost use Rattle.uc_lower_stmt.specs.Marked.{objects_in, taken};
ghost use Rattle.uc_lower_stmt.specs.LowersStatement.{LowersStmt, LowersStmts, scope_of, sizes_at};
ghost use Rattle.uc_lower_stmt.specs.Control.{BackCode, BeginCode, DeclaresObjects, EndsLoop, is_declaration, LaysDeclaration, LaysStart, LaysStmt, LowersAlone, LowersDeclaration, LowersFor, LowersIf, LowersLoop, LowersMaybe, maybe_at_size, ReturnCode, StepCode, turning_order, turning_size, turning_test};

use crate::accept::lower_accept;
use crate::block::{close_scopes, lower_objects};
use crate::declare::lower_declarators;
use crate::enabling::{Enabling, lower_enabling};
use crate::guard::lower_try;
use crate::print::{lower_items, lower_targets, lower_together};
use crate::raise::{lower_raise, lower_raise_at, lower_throw};
use crate::switching::{put_switch, put_yield};
use crate::turning::Turning;
use std::alloc::{AllocError, Global};
use uc_code::cleaning::put_exit;
use uc_code::draft::Draft;
use uc_code::op::Op;
use uc_code::rows::Way;
use uc_lower_expr::expr::{lower_expr, lower_value};
use uc_lower_expr::making::Made;
use uc_lower_expr::program_names::ProgramNames;
use uc_lower_expr::put::{close_fork, put, put_conversion};
use uc_tree::declare::{Declarator, ForForm, ForStart};
use uc_tree::expr::Expr;
use uc_tree::kinds::Base;
use uc_tree::stmt::{Stmt, StmtForm};

/// Adds the code of a statement. After want of memory the draft is spent.
#[cycle(stmt)]
pub fn lower_stmt(
    alloc: Global,
    names: &ProgramNames,
    s: &Stmt,
    out: &mut Draft,
) -> Result<(), AllocError>
    requires inside { routine_in out.old.marks < length (routines_of names.now) }
    requires room { taken out.old + OPS_FOR_SIZE * size_at s.now (objects_in out.old.marks) ≤
        PROGRAM_OPS }
    requires cells { out.old.cells + stmt_cells s.now (declared_cells names.now) ≤ FRAME_CELLS }
    requires scopes { out.old.scopes + stmt_scopes s.now ≤ PROGRAM_SIZE }
    requires texts { out.old.texts + stmt_size s.now ≤ PROGRAM_SIZE }
    ensures { OnOk result (LowersStmt names.now s.now out.old out.new) }
{
    let line = s.pos.line;
    match &s.form {
        StmtForm::Block { body } => {
            let outside = out.open_scope();
            lower_stmts(alloc, names, body, line, out)?;
            out.leave_scope(outside);
            Ok(())
        }
        StmtForm::Evaluate { value } => {
            let _told = lower_expr(value, line, names, out)?;
            put(Op::Discard, line, out)
        }
        StmtForm::Declare { base, declarators } => lower_declaration(
            alloc,
            names,
            base,
            declarators,
            line,
            out,
        ),
        StmtForm::Print { items } => lower_items(items, line, names, out),
        StmtForm::PrintTogether { items } => lower_together(alloc, items, line, names, out),
        StmtForm::Read { places } => lower_targets(places, line, names, out),
        StmtForm::If {
            test,
            chosen,
            other,
        } => lower_if(alloc, names, test, chosen, other, line, out),
        StmtForm::While { test, body } => {
            let turning = Turning::TestFirst(test);
            lower_loop(alloc, names, turning, &None, body, line, out)
        }
        StmtForm::Do { body, test } => {
            let turning = Turning::BodyFirst(test);
            lower_loop(alloc, names, turning, &None, body, line, out)
        }
        StmtForm::For {
            start,
            test,
            step,
            body,
        } => lower_for(alloc, names, start, test, step, body, line, out),
        StmtForm::Break => put_exit(Way::Break, line, out),
        StmtForm::Continue => put_exit(Way::Continue, line, out),
        StmtForm::Return { value } => lower_return(value, line, names, out),
        StmtForm::Empty => Ok(()),
        StmtForm::Yield => put_yield(line, out),
        StmtForm::Try {
            brace,
            body,
            handlers,
        } => lower_try(alloc, names, body, brace.line, handlers, line, out),
        StmtForm::Throw { raised } => lower_throw(raised, line, names, out),
        StmtForm::Raise { raised } => lower_raise(raised, line, names, out),
        StmtForm::RaiseAt { raised, target } => lower_raise_at(raised, target, line, names, out),
        StmtForm::Enable { events, body } => lower_enabling(
            alloc,
            names,
            Enabling::Enable,
            events,
            body,
            line,
            out,
        ),
        StmtForm::Disable { events, body } => lower_enabling(
            alloc,
            names,
            Enabling::Disable,
            events,
            body,
            line,
            out,
        ),
        StmtForm::Accept { clauses, other } => lower_accept(
            alloc, names, clauses, other, line, out,
        ),
        StmtForm::Resume => put_switch(Op::Resume, line, out),
        StmtForm::Suspend => put_switch(Op::Suspend, line, out),
        StmtForm::Migrate { cluster } => {
            let _told = lower_expr(cluster, line, names, out)?;
            put(Op::Migrate, line, out)
        }
    }
}

/// Adds the code of the statements of a block of this line. After want of memory the draft is spent.
#[cycle(stmt)]
pub fn lower_stmts(
    alloc: Global,
    names: &ProgramNames,
    stmts: &[Stmt],
    line: u32,
    out: &mut Draft,
) -> Result<(), AllocError>
    requires inside { routine_in out.old.marks < length (routines_of names.now) }
    requires room { taken out.old + OPS_FOR_SIZE * sizes_at (stmts_of stmts.now)
        (objects_in out.old.marks) ≤ PROGRAM_OPS }
    requires cells { out.old.cells + stmts_cells (stmts_of stmts.now) (declared_cells names.now) ≤
        FRAME_CELLS }
    requires scopes { out.old.scopes + stmts_scopes (stmts_of stmts.now) ≤ PROGRAM_SIZE }
    requires texts { out.old.texts + stmts_size (stmts_of stmts.now) ≤ PROGRAM_SIZE }
    ensures { OnOk result (LowersStmts names.now line (stmts_of stmts.now) out.old out.new) }
{
    let depth = out.marks().len();
    for s in stmts {
        lower_next(alloc, names, s, line, out)?;
    }
    close_scopes(depth, out)?;
    Ok(())
}

// A statement in a block of this line: objects that it declares are in scope in what follows.
#[cycle(stmt)]
fn lower_next(
    alloc: Global,
    names: &ProgramNames,
    s: &Stmt,
    line: u32,
    out: &mut Draft,
) -> Result<(), AllocError>
    requires inside { routine_in out.old.marks < length (routines_of names.now) }
    requires room { taken out.old + OPS_FOR_SIZE * size_at s.now (objects_in out.old.marks) ≤
        PROGRAM_OPS }
    requires cells { out.old.cells + stmt_cells s.now (declared_cells names.now) ≤ FRAME_CELLS }
    requires scopes { out.old.scopes + stmt_scopes s.now ≤ PROGRAM_SIZE }
    requires texts { out.old.texts + stmt_size s.now ≤ PROGRAM_SIZE }
    ensures { OnOk result (LaysStmt names.now line s.now out.old out.new) }
{
    match declared_in(&s.form, names) {
        Some(declared) => {
            lower_objects(
                alloc,
                names,
                declared.made,
                declared.base,
                declared.declarators,
                s.pos.line,
                line,
                out,
            )?;
            Ok(())
        }
        None => {
            lower_stmt(alloc, names, s, out)?;
            Ok(())
        }
    }
}

// A declaration of objects, of clusters or of processors.
#[derive(Clone, Copy)]
struct Objects<'a> {
    made: Made,
    base: &'a Base,
    declarators: &'a [Declarator],
}

fn declared_in<'a>(form: &'a StmtForm, names: &ProgramNames) -> Option<Objects<'a>>
    ensures { (pos : Pos) → DeclaresObjects names.now (stmt_at pos form.now) result }
{
    match form {
        StmtForm::Declare { base, declarators } => match names.made(base) {
            Some(made) => Some(Objects {
                made,
                base,
                declarators,
            }),
            None => None,
        },
        StmtForm::Block { .. } => None,
        StmtForm::Empty => None,
        StmtForm::Evaluate { .. } => None,
        StmtForm::If { .. } => None,
        StmtForm::While { .. } => None,
        StmtForm::Do { .. } => None,
        StmtForm::For { .. } => None,
        StmtForm::Break => None,
        StmtForm::Continue => None,
        StmtForm::Return { .. } => None,
        StmtForm::Try { .. } => None,
        StmtForm::Throw { .. } => None,
        StmtForm::Raise { .. } => None,
        StmtForm::RaiseAt { .. } => None,
        StmtForm::Enable { .. } => None,
        StmtForm::Disable { .. } => None,
        StmtForm::Accept { .. } => None,
        StmtForm::Print { .. } => None,
        StmtForm::PrintTogether { .. } => None,
        StmtForm::Read { .. } => None,
        StmtForm::Resume => None,
        StmtForm::Suspend => None,
        StmtForm::Yield => None,
        StmtForm::Migrate { .. } => None,
    }
}

// A declaration that is a statement of its own: its objects are destroyed behind it.
fn lower_declaration(
    alloc: Global,
    names: &ProgramNames,
    base: &Base,
    declarators: &[Declarator],
    line: u32,
    out: &mut Draft,
) -> Result<(), AllocError>
    requires inside { routine_in out.old.marks < length (routines_of names.now) }
    requires room { taken out.old + OPS_FOR_SIZE * declarators_size declarators.now ≤ PROGRAM_OPS }
    requires cells { out.old.cells + declarators_cells (declared_cells names.now base.now)
        declarators.now ≤ FRAME_CELLS }
    ensures { OnOk result (LowersDeclaration names.now line base.now declarators.now out.old
        out.new) }
{
    match names.made(base) {
        Some(made) => {
            let depth = out.marks().len();
            lower_objects(alloc, names, made, base, declarators, line, line, out)?;
            close_scopes(depth, out)?;
            Ok(())
        }
        None => {
            lower_declarators(alloc, names, base, declarators, line, out)?;
            Ok(())
        }
    }
}

fn is_declaration(form: &StmtForm) -> bool
    ensures { (pos : Pos) → result ≡ is_declaration (stmt_at pos form.now) }
{
    match form {
        StmtForm::Block { .. } => false,
        StmtForm::Empty => false,
        StmtForm::Evaluate { .. } => false,
        StmtForm::Declare { .. } => true,
        StmtForm::If { .. } => false,
        StmtForm::While { .. } => false,
        StmtForm::Do { .. } => false,
        StmtForm::For { .. } => false,
        StmtForm::Break => false,
        StmtForm::Continue => false,
        StmtForm::Return { .. } => false,
        StmtForm::Try { .. } => false,
        StmtForm::Throw { .. } => false,
        StmtForm::Raise { .. } => false,
        StmtForm::RaiseAt { .. } => false,
        StmtForm::Enable { .. } => false,
        StmtForm::Disable { .. } => false,
        StmtForm::Accept { .. } => false,
        StmtForm::Print { .. } => false,
        StmtForm::PrintTogether { .. } => false,
        StmtForm::Read { .. } => false,
        StmtForm::Resume => false,
        StmtForm::Suspend => false,
        StmtForm::Yield => false,
        StmtForm::Migrate { .. } => false,
    }
}

// A statement that is itself that of an `if`, a loop or a clause. A declaration has a scope of its own there.
#[cycle(stmt)]
pub(crate) fn lower_alone(
    alloc: Global,
    names: &ProgramNames,
    s: &Stmt,
    out: &mut Draft,
) -> Result<(), AllocError>
    requires inside { routine_in out.old.marks < length (routines_of names.now) }
    requires room { taken out.old + OPS_FOR_SIZE * size_at s.now (objects_in out.old.marks) ≤
        PROGRAM_OPS }
    requires cells { out.old.cells + stmt_cells s.now (declared_cells names.now) ≤ FRAME_CELLS }
    requires scopes { out.old.scopes + (alone_scopes s.now + stmt_scopes s.now) ≤ PROGRAM_SIZE }
    requires texts { out.old.texts + stmt_size s.now ≤ PROGRAM_SIZE }
    ensures { OnOk result (LowersAlone names.now s.now out.old out.new) }
{
    if is_declaration(&s.form) {
        let outside = out.open_scope();
        lower_stmt(alloc, names, s, out)?;
        out.leave_scope(outside);
    } else {
        lower_stmt(alloc, names, s, out)?;
    }
    Ok(())
}

// The statement of an `else` or an `_Else`, where there is one.
#[cycle(stmt)]
pub(crate) fn lower_maybe(
    alloc: Global,
    names: &ProgramNames,
    other: &Option<Box<Stmt>>,
    out: &mut Draft,
) -> Result<(), AllocError>
    requires inside { routine_in out.old.marks < length (routines_of names.now) }
    requires room { taken out.old + OPS_FOR_SIZE * maybe_at_size (maybe_at other.now)
        (objects_in out.old.marks) ≤ PROGRAM_OPS }
    requires cells { out.old.cells + maybe_cells (maybe_at other.now) (declared_cells names.now) ≤
        FRAME_CELLS }
    requires scopes { out.old.scopes + maybe_scopes (maybe_at other.now) ≤ PROGRAM_SIZE }
    requires texts { out.old.texts + maybe_stmt_size (maybe_at other.now) ≤ PROGRAM_SIZE }
    ensures { OnOk result (LowersMaybe names.now (maybe_at other.now) out.old out.new) }
{
    match other {
        Some(body) => {
            lower_alone(alloc, names, body, out)?;
            Ok(())
        }
        None => Ok(()),
    }
}

#[cycle(stmt)]
fn lower_if(
    alloc: Global,
    names: &ProgramNames,
    test: &Expr,
    chosen: &Stmt,
    other: &Option<Box<Stmt>>,
    line: u32,
    out: &mut Draft,
) -> Result<(), AllocError>
    requires inside { routine_in out.old.marks < length (routines_of names.now) }
    requires room { taken out.old + OPS_FOR_SIZE *
        (1 + expr_size test.now + size_at chosen.now (objects_in out.old.marks) + maybe_at_size
        (maybe_at other.now) (objects_in out.old.marks)) ≤ PROGRAM_OPS }
    requires cells { out.old.cells + (stmt_cells chosen.now (declared_cells names.now) +
        maybe_cells (maybe_at other.now) (declared_cells names.now)) ≤ FRAME_CELLS }
    requires scopes { out.old.scopes + (alone_scopes chosen.now + stmt_scopes chosen.now +
        maybe_scopes (maybe_at other.now)) ≤ PROGRAM_SIZE }
    requires texts { out.old.texts + (stmt_size chosen.now + maybe_stmt_size (maybe_at other.now))
        ≤ PROGRAM_SIZE }
    ensures { OnOk result (LowersIf names.now line test.now chosen.now (maybe_at other.now) out.old
        out.new) }
{
    let _told = lower_value(test, line, names, out)?;
    let choose = out.here();
    put(Op::IfZero(0), line, out)?;
    lower_alone(alloc, names, chosen, out)?;
    let leave = out.here();
    put(Op::Jump(0), line, out)?;
    lower_maybe(alloc, names, other, out)?;
    close_fork(choose, leave, out);
    Ok(())
}

// The jump of a loop, its pads and its tick.
fn begin_loop(line: u32, out: &mut Draft) -> Result<(), AllocError>
    requires { length out.old.ops + 4 ≤ PROGRAM_OPS }
    ensures { OnOk result (Adds 4 (BeginCode line) out.old out.new) }
{
    put(Op::Jump(0), line, out)?;
    put(Op::Jump(0), line, out)?;
    put(Op::Jump(0), line, out)?;
    put(Op::Tick, line, out)?;
    Ok(())
}

// The step of a loop, where it has one.
fn lower_step(
    step: &Option<Expr>,
    line: u32,
    names: &ProgramNames,
    out: &mut Draft,
) -> Result<(), AllocError>
    requires { length out.old.ops + OPS_FOR_SIZE * maybe_expr_size step.now ≤ PROGRAM_OPS }
    ensures { OnOk result (Adds (OPS_FOR_SIZE * maybe_expr_size step.now)
        (StepCode names.now line out.old.marks (scope_of out.old) step.now) out.old out.new) }
{
    match step {
        Some(step) => {
            let _told = lower_expr(step, line, names, out)?;
            put(Op::Discard, line, out)?;
            Ok(())
        }
        None => Ok(()),
    }
}

// The test of a loop, which leads to the next turn.
fn lower_back(
    turning: Turning,
    turn: u32,
    line: u32,
    names: &ProgramNames,
    out: &mut Draft,
) -> Result<(), AllocError>
    requires { length out.old.ops + OPS_FOR_SIZE * turning_size turning + 1 ≤ PROGRAM_OPS }
    ensures { OnOk result (Adds (OPS_FOR_SIZE * turning_size turning.entry + 1)
        (BackCode names.now line out.old.marks (scope_of out.old) turning.entry turn) out.old
        out.new) }
{
    match turning {
        Turning::TestFirst(test) => {
            let _told = lower_value(test, line, names, out)?;
            put(Op::IfNonzero(turn), line, out)?;
            Ok(())
        }
        Turning::BodyFirst(test) => {
            let _told = lower_value(test, line, names, out)?;
            put(Op::IfNonzero(turn), line, out)?;
            Ok(())
        }
        Turning::NoTest => {
            put(Op::Jump(turn), line, out)?;
            Ok(())
        }
    }
}

// Where the first turn of a loop begins: at its test, or at its tick.
fn begin_of(turning: Turning, start: u32, test_at: u32) -> u32
    requires { start < PROGRAM_OPS }
    ensures { result ≡ begin_at (turning_order turning.entry) (start + 3) test_at }
{
    match turning {
        Turning::TestFirst(_) => test_at,
        Turning::BodyFirst(_) => start + 3,
        Turning::NoTest => start + 3,
    }
}

// The jump of a loop and its pads, once the rest of it stands.
fn end_loop(turning: Turning, start: u32, step_at: u32, test_at: u32, out: &mut Draft)
    requires inside { start + 4 ≤ length out.old.ops }
    ensures { EndsLoop (turning_order turning.entry) start step_at test_at out.old out.new }
{
    let end = out.here();
    out.patch(start, Op::Jump(begin_of(turning, start, test_at)));
    out.patch(start + 1, Op::Jump(end));
    out.patch(start + 2, Op::Jump(step_at));
}

#[cycle(stmt)]
fn lower_loop(
    alloc: Global,
    names: &ProgramNames,
    turning: Turning,
    step: &Option<Expr>,
    body: &Stmt,
    line: u32,
    out: &mut Draft,
) -> Result<(), AllocError>
    requires inside { routine_in out.old.marks < length (routines_of names.now) }
    requires room { taken out.old + OPS_FOR_SIZE *
        (1 + turning_size turning + maybe_expr_size step.now + size_at body.now
        (objects_in out.old.marks)) ≤ PROGRAM_OPS }
    requires cells { out.old.cells + stmt_cells body.now (declared_cells names.now) ≤ FRAME_CELLS }
    requires scopes { out.old.scopes + (alone_scopes body.now + stmt_scopes body.now) ≤
        PROGRAM_SIZE }
    requires texts { out.old.texts + stmt_size body.now ≤ PROGRAM_SIZE }
    ensures { OnOk result (LowersLoop names.now line turning.entry step.now body.now out.old
        out.new) }
{
    let start = out.here();
    begin_loop(line, out)?;
    out.enter_loop(start + 1, start + 2)?;
    lower_alone(alloc, names, body, out)?;
    out.leave();
    let step_at = out.here();
    lower_step(step, line, names, out)?;
    let test_at = out.here();
    lower_back(turning, start + 3, line, names, out)?;
    end_loop(turning, start, step_at, test_at, out);
    Ok(())
}

// What a `for` of this line begins with: objects that it declares are in scope in the loop.
fn lower_start(
    alloc: Global,
    names: &ProgramNames,
    start: &ForStart,
    line: u32,
    out: &mut Draft,
) -> Result<(), AllocError>
    requires inside { routine_in out.old.marks < length (routines_of names.now) }
    requires room { taken out.old + OPS_FOR_SIZE * for_start_size start.now ≤ PROGRAM_OPS }
    requires cells { out.old.cells + for_cells start.now (declared_cells names.now) ≤ FRAME_CELLS }
    ensures { OnOk result (LaysStart names.now line start.now out.old out.new) }
{
    match &start.form {
        ForForm::Nothing => Ok(()),
        ForForm::Declare {
            base,
            declarators,
            ..
        } => {
            lower_for_declaration(alloc, names, base, declarators, line, out)?;
            Ok(())
        }
        ForForm::Evaluate { value } => {
            let _told = lower_expr(value, line, names, out)?;
            put(Op::Discard, line, out)?;
            Ok(())
        }
    }
}

fn lower_for_declaration(
    alloc: Global,
    names: &ProgramNames,
    base: &Base,
    declarators: &[Declarator],
    line: u32,
    out: &mut Draft,
) -> Result<(), AllocError>
    requires inside { routine_in out.old.marks < length (routines_of names.now) }
    requires room { taken out.old + OPS_FOR_SIZE * declarators_size declarators.now ≤ PROGRAM_OPS }
    requires cells { out.old.cells + declarators_cells (declared_cells names.now base.now)
        declarators.now ≤ FRAME_CELLS }
    ensures { OnOk result (LaysDeclaration names.now line line base.now declarators.now out.old
        out.new) }
{
    match names.made(base) {
        Some(made) => {
            lower_objects(alloc, names, made, base, declarators, line, line, out)?;
            Ok(())
        }
        None => {
            lower_declarators(alloc, names, base, declarators, line, out)?;
            Ok(())
        }
    }
}

// A `for` without a test goes on.
fn turning_of(test: &Option<Expr>) -> Turning<'_>
    ensures order { (p : Whole) → turning_order result ≡ order_of p test.now }
    ensures test { (p : Whole) (s : Scope) → turning_test p s result ≡ test_of p s test.now }
    ensures size { turning_size result ≡ maybe_expr_size test.now }
{
    match test {
        Some(test) => Turning::TestFirst(test),
        None => Turning::NoTest,
    }
}

#[cycle(stmt)]
fn lower_for(
    alloc: Global,
    names: &ProgramNames,
    start: &ForStart,
    test: &Option<Expr>,
    step: &Option<Expr>,
    body: &Stmt,
    line: u32,
    out: &mut Draft,
) -> Result<(), AllocError>
    requires inside { routine_in out.old.marks < length (routines_of names.now) }
    requires room { taken out.old + OPS_FOR_SIZE *
        (1 + for_start_size start.now + maybe_expr_size test.now + maybe_expr_size step.now +
        size_at body.now (objects_in out.old.marks + for_declares start.now)) ≤ PROGRAM_OPS }
    requires cells { out.old.cells + (for_cells start.now (declared_cells names.now) + stmt_cells
        body.now (declared_cells names.now)) ≤ FRAME_CELLS }
    requires scopes { out.old.scopes + (1 + alone_scopes body.now + stmt_scopes body.now) ≤
        PROGRAM_SIZE }
    requires texts { out.old.texts + stmt_size body.now ≤ PROGRAM_SIZE }
    ensures { OnOk result (LowersFor names.now line start.now test.now step.now body.now out.old
        out.new) }
{
    let outside = out.open_scope();
    let depth = out.marks().len();
    lower_start(alloc, names, start, line, out)?;
    lower_loop(alloc, names, turning_of(test), step, body, line, out)?;
    close_scopes(depth, out)?;
    out.leave_scope(outside);
    Ok(())
}

// A return, with its value as the routine's result keeps it.
fn lower_return(
    value: &Option<Expr>,
    line: u32,
    names: &ProgramNames,
    out: &mut Draft,
) -> Result<(), AllocError>
    requires { taken out.old + OPS_FOR_SIZE *
        (1 + maybe_expr_size value.now + objects_in out.old.marks) ≤ PROGRAM_OPS }
    ensures { OnOk result (Puts (return_rows out.old.marks)
        (OPS_FOR_SIZE * (1 + maybe_expr_size value.now + objects_in out.old.marks))
        (ReturnCode names.now line out.old.marks (scope_of out.old) value.now) out.old out.new) }
{
    match value {
        Some(value) => {
            let _told = lower_value(value, line, names, out)?;
            put_conversion(names.result(out.place().routine).scalar, line, out)?;
            put_exit(Way::Value, line, out)?;
            Ok(())
        }
        None => {
            put_exit(Way::End, line, out)?;
            Ok(())
        }
    }
}

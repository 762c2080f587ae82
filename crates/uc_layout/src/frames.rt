// The cells of routines. Sums stand still at the greatest number.

ghost use Rattle.std.specs.Prelude.{◌≡◌};
ghost use Rattle.uc_tree.specs.Capped.{capped};
ghost use Rattle.uc_tree.specs.Statements.{stmts_of, handlers_of, clauses_of};
ghost use Rattle.uc_tree.specs.StatementViews.{maybe_at};
ghost use Rattle.uc_tree.specs.Cells.{declared_cells, params_cells, declarators_cells, for_cells, stmt_cells, stmts_cells, maybe_cells, handler_cells, handlers_cells, clause_cells, clauses_cells, routine_cells};

use crate::sizes::Sizes;
use uc_tree::class::Routine;
use uc_tree::declare::{Declarator, ForForm, ForStart};
use uc_tree::kinds::{Base, Param};
use uc_tree::stmt::{Clause, Handler, Stmt, StmtForm};

/// The cells of a routine's frame: of its parameters and of all locals of all its blocks. The greatest number stands for
/// all that are greater.
pub fn cells_of_routine(sizes: &Sizes, routine: &Routine) -> u64
    ensures { result ≡ capped (routine_cells sizes.now routine.now) }
{
    cells_of_params(sizes, &routine.sig.params).saturating_add(cells_of_stmts(sizes, &routine.body))
}

fn cells_of_params(sizes: &Sizes, params: &[Param]) -> u64
    ensures { result ≡ capped (params_cells sizes.now params.now) }
{
    let mut cells: u64 = 0;
    for param in params {
        cells = cells.saturating_add(sizes.cells_of_param(param));
    }
    cells
}

fn cells_of_declarators(sizes: &Sizes, base: &Base, declarators: &[Declarator]) -> u64
    ensures { result ≡ capped
        (declarators_cells (declared_cells sizes.now base.now) declarators.now) }
{
    let mut cells: u64 = 0;
    for declarator in declarators {
        cells = cells.saturating_add(sizes.cells_of_variable(base, declarator));
    }
    cells
}

fn cells_of_for(sizes: &Sizes, start: &ForStart) -> u64
    ensures { result ≡ capped (for_cells start.now (declared_cells sizes.now)) }
{
    match &start.form {
        ForForm::Nothing => 0,
        ForForm::Declare {
            base,
            declarators,
            ..
        } => cells_of_declarators(sizes, base, declarators),
        ForForm::Evaluate { .. } => 0,
    }
}

#[cycle(frames)]
fn cells_of_stmt(sizes: &Sizes, s: &Stmt) -> u64
    ensures { result ≡ capped (stmt_cells s.now (declared_cells sizes.now)) }
{
    match &s.form {
        StmtForm::Block { body } => cells_of_stmts(sizes, body),
        StmtForm::Empty => 0,
        StmtForm::Evaluate { .. } => 0,
        StmtForm::Declare { base, declarators } => cells_of_declarators(sizes, base, declarators),
        StmtForm::If { chosen, other, .. } => {
            cells_of_stmt(sizes, chosen).saturating_add(cells_of_maybe(sizes, other))
        }
        StmtForm::While { body, .. } => cells_of_stmt(sizes, body),
        StmtForm::Do { body, .. } => cells_of_stmt(sizes, body),
        StmtForm::For { start, body, .. } => {
            cells_of_for(sizes, start).saturating_add(cells_of_stmt(sizes, body))
        }
        StmtForm::Break => 0,
        StmtForm::Continue => 0,
        StmtForm::Return { .. } => 0,
        StmtForm::Try { body, handlers, .. } => {
            cells_of_stmts(sizes, body).saturating_add(cells_of_handlers(sizes, handlers))
        }
        StmtForm::Throw { .. } => 0,
        StmtForm::Raise { .. } => 0,
        StmtForm::RaiseAt { .. } => 0,
        StmtForm::Enable { body, .. } => cells_of_stmt(sizes, body),
        StmtForm::Disable { body, .. } => cells_of_stmt(sizes, body),
        StmtForm::Accept { clauses, other } => {
            cells_of_clauses(sizes, clauses).saturating_add(cells_of_maybe(sizes, other))
        }
        StmtForm::Print { .. } => 0,
        StmtForm::PrintTogether { .. } => 0,
        StmtForm::Read { .. } => 0,
        StmtForm::Resume => 0,
        StmtForm::Suspend => 0,
        StmtForm::Yield => 0,
        StmtForm::Migrate { .. } => 0,
    }
}

#[cycle(frames)]
fn cells_of_stmts(sizes: &Sizes, stmts: &[Stmt]) -> u64
    ensures { result ≡ capped (stmts_cells (stmts_of stmts.now) (declared_cells sizes.now)) }
{
    let mut cells: u64 = 0;
    for s in stmts {
        cells = cells.saturating_add(cells_of_stmt(sizes, s));
    }
    cells
}

#[cycle(frames)]
fn cells_of_maybe(sizes: &Sizes, s: &Option<Box<Stmt>>) -> u64
    ensures { result ≡ capped (maybe_cells (maybe_at s.now) (declared_cells sizes.now)) }
{
    match s {
        Some(s) => cells_of_stmt(sizes, s),
        None => 0,
    }
}

#[cycle(frames)]
fn cells_of_handlers(sizes: &Sizes, handlers: &[Handler]) -> u64
    ensures { result ≡ capped
        (handlers_cells (handlers_of handlers.now) (declared_cells sizes.now)) }
{
    let mut cells: u64 = 0;
    for handler in handlers {
        cells = cells.saturating_add(cells_of_handler(sizes, handler));
    }
    cells
}

#[cycle(frames)]
fn cells_of_handler(sizes: &Sizes, handler: &Handler) -> u64
    ensures { result ≡ capped (handler_cells handler.now (declared_cells sizes.now)) }
{
    cells_of_stmts(sizes, &handler.body)
}

#[cycle(frames)]
fn cells_of_clauses(sizes: &Sizes, clauses: &[Clause]) -> u64
    ensures { result ≡ capped (clauses_cells (clauses_of clauses.now) (declared_cells sizes.now)) }
{
    let mut cells: u64 = 0;
    for clause in clauses {
        cells = cells.saturating_add(cells_of_clause(sizes, clause));
    }
    cells
}

#[cycle(frames)]
fn cells_of_clause(sizes: &Sizes, clause: &Clause) -> u64
    ensures { result ≡ capped (clause_cells clause.now (declared_cells sizes.now)) }
{
    cells_of_stmt(sizes, &clause.body)
}

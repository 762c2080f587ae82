// What the ways out of scopes count in `Size`.

ghost use Rattle.std.specs.Prelude.{◌≡◌, ◌+◌, ◌^◌, ◌<◌, ◌≤◌};
ghost use Rattle.uc_tree.specs.Capped.{capped};
ghost use Rattle.uc_tree.specs.Statements.{stmts_of, handlers_of, clauses_of};
ghost use Rattle.uc_tree.specs.StatementSizes.{for_start_size, stmt_size, stmts_size, maybe_stmt_size, handler_size, handlers_size, clause_size, clauses_size};
ghost use Rattle.uc_tree.specs.StatementViews.{maybe_at};
ghost use Rattle.uc_tree.specs.Exits.{declares, for_declares, exits, exits_all, exits_maybe, exits_handler, exits_handlers, exits_clause, exits_clauses};

use uc_tree::declare::{ForForm, ForStart};
use uc_tree::stmt::{Clause, Handler, Stmt, StmtForm};

/// How many declarators a statement brings into the scope that it stands in.
#[tactic(auto, using(crate::proofs::Declared::declarators_count))]
pub fn declared_by(s: &Stmt) -> u64
    ensures value { result ≡ declares s.now }
    ensures small { result ≤ stmt_size s.now }
{
    match &s.form {
        StmtForm::Declare { declarators, .. } => declarators.len() as u64,
        StmtForm::Block { .. }
        | StmtForm::Empty
        | StmtForm::Evaluate { .. }
        | StmtForm::If { .. }
        | StmtForm::While { .. }
        | StmtForm::Do { .. }
        | StmtForm::For { .. }
        | StmtForm::Break
        | StmtForm::Continue
        | StmtForm::Return { .. }
        | StmtForm::Try { .. }
        | StmtForm::Throw { .. }
        | StmtForm::Raise { .. }
        | StmtForm::RaiseAt { .. }
        | StmtForm::Enable { .. }
        | StmtForm::Disable { .. }
        | StmtForm::Accept { .. }
        | StmtForm::Print { .. }
        | StmtForm::PrintTogether { .. }
        | StmtForm::Read { .. }
        | StmtForm::Resume
        | StmtForm::Suspend
        | StmtForm::Yield
        | StmtForm::Migrate { .. } => 0,
    }
}

/// How many declarators a `for` brings into its own scope.
#[tactic(auto, using(crate::proofs::Declared::declarators_count))]
pub fn declared_by_for(start: &ForStart) -> u64
    ensures value { result ≡ for_declares start.now }
    ensures small { result ≤ for_start_size start.now }
{
    match &start.form {
        ForForm::Nothing => 0,
        ForForm::Declare { declarators, .. } => declarators.len() as u64,
        ForForm::Evaluate { .. } => 0,
    }
}

/// The sum over the ways out of a statement of the declarators in scope there and the `_Enable` and
/// `_Disable` statements round it, `scope` of which stand round the statement.
#[cycle(exits)]
pub fn exits_of_stmt(s: &Stmt, scope: u64) -> u64
    requires { scope + stmt_size s.now < 2 ^ 64 }
    ensures { result ≡ capped (exits s.now scope) }
{
    match &s.form {
        StmtForm::Block { body } => exits_of_stmts(body, scope),
        StmtForm::If { chosen, other, .. } => {
            exits_of_stmt(chosen, scope).saturating_add(exits_of_maybe(other, scope))
        }
        StmtForm::While { body, .. } => exits_of_stmt(body, scope),
        StmtForm::Do { body, .. } => exits_of_stmt(body, scope),
        StmtForm::For { start, body, .. } => exits_of_stmt(body, scope + declared_by_for(start)),
        StmtForm::Try { body, handlers, .. } => {
            exits_of_stmts(body, scope).saturating_add(exits_of_handlers(handlers, scope))
        }
        StmtForm::Enable { body, .. } => exits_of_stmt(body, scope + 1),
        StmtForm::Disable { body, .. } => exits_of_stmt(body, scope + 1),
        StmtForm::Accept { clauses, other } => {
            exits_of_clauses(clauses, scope).saturating_add(exits_of_maybe(other, scope))
        }
        StmtForm::Break | StmtForm::Continue | StmtForm::Return { .. } => scope,
        StmtForm::Empty
        | StmtForm::Evaluate { .. }
        | StmtForm::Declare { .. }
        | StmtForm::Throw { .. }
        | StmtForm::Raise { .. }
        | StmtForm::RaiseAt { .. }
        | StmtForm::Print { .. }
        | StmtForm::PrintTogether { .. }
        | StmtForm::Read { .. }
        | StmtForm::Resume
        | StmtForm::Suspend
        | StmtForm::Yield
        | StmtForm::Migrate { .. } => 0,
    }
}

/// The same of a body, in which a declarator is in scope from the end of its statement on.
#[cycle(exits)]
pub fn exits_of_stmts(stmts: &[Stmt], scope: u64) -> u64
    requires { scope + stmts_size (stmts_of stmts.now) < 2 ^ 64 }
    ensures { result ≡ capped (exits_all (stmts_of stmts.now) scope) }
{
    let mut size: u64 = 0;
    let mut inside = scope;
    for s in stmts {
        size = size.saturating_add(exits_of_stmt(s, inside));
        inside += declared_by(s);
    }
    size
}

#[cycle(exits)]
fn exits_of_maybe(s: &Option<Box<Stmt>>, scope: u64) -> u64
    requires { scope + maybe_stmt_size (maybe_at s.now) < 2 ^ 64 }
    ensures { result ≡ capped (exits_maybe (maybe_at s.now) scope) }
{
    match s {
        Some(s) => exits_of_stmt(s, scope),
        None => 0,
    }
}

#[cycle(exits)]
fn exits_of_handlers(handlers: &[Handler], scope: u64) -> u64
    requires { scope + handlers_size (handlers_of handlers.now) < 2 ^ 64 }
    ensures { result ≡ capped (exits_handlers (handlers_of handlers.now) scope) }
{
    let mut size: u64 = 0;
    for handler in handlers {
        size = size.saturating_add(exits_of_handler(handler, scope));
    }
    size
}

#[cycle(exits)]
fn exits_of_handler(handler: &Handler, scope: u64) -> u64
    requires { scope + handler_size handler.now < 2 ^ 64 }
    ensures { result ≡ capped (exits_handler handler.now scope) }
{
    exits_of_stmts(&handler.body, scope)
}

#[cycle(exits)]
fn exits_of_clauses(clauses: &[Clause], scope: u64) -> u64
    requires { scope + clauses_size (clauses_of clauses.now) < 2 ^ 64 }
    ensures { result ≡ capped (exits_clauses (clauses_of clauses.now) scope) }
{
    let mut size: u64 = 0;
    for clause in clauses {
        size = size.saturating_add(exits_of_clause(clause, scope));
    }
    size
}

#[cycle(exits)]
fn exits_of_clause(clause: &Clause, scope: u64) -> u64
    requires { scope + clause_size clause.now < 2 ^ 64 }
    ensures { result ≡ capped (exits_clause clause.now scope) }
{
    exits_of_stmt(&clause.body, scope)
}

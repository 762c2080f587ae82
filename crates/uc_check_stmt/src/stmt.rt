// The rules on statements.

ghost use Rattle.std.specs.Prelude.{◌≡◌, [], ◌∷◌, ◌++◌, OnOk};
ghost use Rattle.uc_tree.specs.Expressions.{expr_pos};
ghost use Rattle.uc_tree.specs.Statements.{RaiseAt, clauses_of, handlers_of, stmts_of};
ghost use Rattle.uc_tree.specs.StatementViews.{maybe_at};
ghost use Rattle.uc_rules.specs.Scopes.{block_env, env_after, env_behind, for_declared, in_handler, in_loop, opened, with_around, with_joins};
ghost use Rattle.uc_rules.specs.Entities.{entity_of};
ghost use Rattle.uc_rules.specs.Visits.{AtAccept, AtHandlers, AtMigrate, AtTogether, clause_visits, clauses_visits, condition_visits, events_visits, for_visits, handler_visits, handlers_visits, joined, looped, maybe_condition_visits, maybe_statement_visits, maybe_stmt_visits, outs_visits, stmt_visits, stmts_visits, visits};
ghost use Rattle.uc_types.specs.FirstBreak.{with_visits};
ghost use Rattle.uc_check_stmt.specs.Alone.{alone_visits};

use crate::accept::{ask_accept, ask_handlers};
use crate::declare::check_declaration;
use crate::judge::{
    ask_caught, ask_loop_exit, ask_migrate, ask_raise_target, ask_switch, ask_together,
};
use crate::parts::{
    check_condition, check_events, check_items, check_maybe_condition, check_maybe_statement,
    check_places, check_raise, check_raised, check_return, check_statement,
};
use std::alloc::AllocError;
use uc_rules::rules::Surroundings;
use uc_tree::declare::{ForForm, ForStart, OutItem, Raised};
use uc_tree::expr::Expr;
use uc_tree::kinds::EventName;
use uc_tree::pos::Pos;
use uc_tree::stmt::{Clause, Handler, Stmt, StmtForm};
use uc_types::expr::check_expr;
use uc_types::found::Found;
use uc_types::names::Names;

/// What stands round the body of a loop.
pub fn in_loop(around: Surroundings) -> Surroundings
    ensures { result ≡ in_loop around }
{
    Surroundings {
        in_loop: true,
        ..around
    }
}

/// What stands round the block of a handler.
pub fn in_handler(around: Surroundings) -> Surroundings
    ensures { result ≡ in_handler around }
{
    Surroundings {
        in_loop: false,
        in_handler: true,
        ..around
    }
}

/// The same with whether a block that stands there is one scope with what stands round it.
pub fn with_joins(joins: bool, around: Surroundings) -> Surroundings
    ensures { result ≡ with_joins joins around }
{
    Surroundings { joins, ..around }
}

#[tactic(auto, using(crate::proofs::Joined::joining))]
fn check_raise_at(names: &Names, raised: &Raised, target: &Expr, at: Pos, found: &mut Found)
    ensures { found.new ≡ with_visits found.old
        (stmt_visits (RaiseAt at raised.now target.now) names.now) }
{
    check_raised(names, raised, at, found);
    let entity = check_expr(names, target, found);
    ask_raise_target(entity, target.first_token(), found);
}

#[tactic(auto, using(crate::proofs::Joined::joining))]
fn check_migrate(names: &Names, cluster: &Expr, found: &mut Found)
    ensures { found.new ≡ with_visits found.old
        (visits names.now cluster.now
        ++ AtMigrate (expr_pos cluster.now) (entity_of names.now cluster.now) ∷ []) }
{
    let entity = check_expr(names, cluster, found);
    ask_migrate(entity, cluster.first_token(), found);
}

#[tactic(auto, using(crate::proofs::Joined::joining))]
fn check_for_start(names: &mut Names, start: &ForStart, found: &mut Found) -> Result<(), AllocError>
    ensures names { OnOk result (names.new ≡ for_declared names.old start.now) }
    ensures breaks { OnOk result (found.new
        ≡ with_visits found.old (for_visits names.old start.now)) }
{
    match &start.form {
        ForForm::Nothing => Ok(()),
        ForForm::Declare {
            pos,
            base,
            declarators,
        } => {
            check_declaration(names, *pos, base, declarators, found)?;
            Ok(())
        }
        ForForm::Evaluate { value } => {
            check_statement(names, value, found);
            Ok(())
        }
    }
}

/// Notes the breaks of a statement; the names behind it are then in scope.
#[cycle(stmt)]
#[tactic(auto, using(crate::proofs::Joined::joining))]
pub fn check_stmt(names: &mut Names, s: &Stmt, found: &mut Found) -> Result<(), AllocError>
    ensures names { OnOk result (names.new ≡ env_after names.old s.now) }
    ensures breaks { OnOk result (found.new ≡ with_visits found.old (stmt_visits s.now names.old)) }
{
    check_alone(names, s, found);
    match &s.form {
        StmtForm::Block { body } => check_block(names, body, found),
        StmtForm::Declare { base, declarators } => {
            check_declaration(names, s.pos, base, declarators, found)
        }
        StmtForm::If {
            test,
            chosen,
            other,
        } => check_if(names, test, chosen, other, found),
        StmtForm::While { test, body } => check_while(names, test, body, found),
        StmtForm::Do { body, test } => check_do(names, body, test, found),
        StmtForm::For {
            start,
            test,
            step,
            body,
        } => check_for(names, start, test, step, body, found),
        StmtForm::Try { body, handlers, .. } => check_try(names, body, handlers, found),
        StmtForm::Enable { events, body } => check_masked(names, events, body, found),
        StmtForm::Disable { events, body } => check_masked(names, events, body, found),
        StmtForm::Accept { clauses, other } => check_accept(names, clauses, other, s.pos, found),
        StmtForm::Empty
        | StmtForm::Evaluate { .. }
        | StmtForm::Break
        | StmtForm::Continue
        | StmtForm::Return { .. }
        | StmtForm::Throw { .. }
        | StmtForm::Raise { .. }
        | StmtForm::RaiseAt { .. }
        | StmtForm::Print { .. }
        | StmtForm::PrintTogether { .. }
        | StmtForm::Read { .. }
        | StmtForm::Resume
        | StmtForm::Suspend
        | StmtForm::Yield
        | StmtForm::Migrate { .. } => Ok(()),
    }
}

// Notes the breaks of a statement that holds no other one and declares nothing; of the others none.
fn check_alone(names: &Names, s: &Stmt, found: &mut Found)
    ensures { found.new ≡ with_visits found.old (alone_visits s.now names.now) }
{
    match &s.form {
        StmtForm::Evaluate { value } => check_statement(names, value, found),
        StmtForm::Break | StmtForm::Continue => ask_loop_exit(names, s.pos, found),
        StmtForm::Return { value } => check_return(names, value, s.pos, found),
        StmtForm::Throw { raised } => check_raise(names, raised, s.pos, found),
        StmtForm::Raise { raised } => check_raise(names, raised, s.pos, found),
        StmtForm::RaiseAt { raised, target } => {
            check_raise_at(names, raised, target, s.pos, found);
        }
        StmtForm::Print { items } => check_items(names, items, found),
        StmtForm::PrintTogether { items } => check_together(names, items, found),
        StmtForm::Read { places } => check_places(names, places, found),
        StmtForm::Resume | StmtForm::Suspend => ask_switch(names, s.pos, found),
        StmtForm::Migrate { cluster } => check_migrate(names, cluster, found),
        StmtForm::Empty
        | StmtForm::Yield
        | StmtForm::Block { .. }
        | StmtForm::Declare { .. }
        | StmtForm::If { .. }
        | StmtForm::While { .. }
        | StmtForm::Do { .. }
        | StmtForm::For { .. }
        | StmtForm::Try { .. }
        | StmtForm::Enable { .. }
        | StmtForm::Disable { .. }
        | StmtForm::Accept { .. } => {}
    }
}

#[tactic(auto, using(crate::proofs::Joined::joining))]
fn check_together(names: &Names, items: &[OutItem], found: &mut Found)
    ensures { found.new ≡ with_visits found.old
        (outs_visits names.now items.now ++ AtTogether items.now ∷ []) }
{
    check_items(names, items, found);
    ask_together(items, found);
}

#[cycle(stmt)]
#[tactic(auto, using(crate::proofs::Joined::joining))]
fn check_if(
    names: &mut Names,
    test: &Expr,
    chosen: &Stmt,
    other: &Option<Box<Stmt>>,
    found: &mut Found,
) -> Result<(), AllocError>
    ensures names { OnOk result (names.new ≡ names.old) }
    ensures breaks { OnOk result (found.new
        ≡ with_visits found.old (condition_visits names.old test.now
        ++ (stmt_visits chosen.now (opened names.old)
        ++ maybe_stmt_visits (maybe_at other.now) names.old))) }
{
    check_condition(names, test, found);
    check_inner(names, names.around(), chosen, found)?;
    check_maybe_inner(names, other, found)
}

#[cycle(stmt)]
#[tactic(auto, using(crate::proofs::Joined::joining))]
fn check_while(
    names: &mut Names,
    test: &Expr,
    body: &Stmt,
    found: &mut Found,
) -> Result<(), AllocError>
    ensures names { OnOk result (names.new ≡ names.old) }
    ensures breaks { OnOk result (found.new
        ≡ with_visits found.old (condition_visits names.old test.now
        ++ stmt_visits body.now (opened (looped names.old)))) }
{
    check_condition(names, test, found);
    check_inner(names, in_loop(names.around()), body, found)
}

#[cycle(stmt)]
#[tactic(auto, using(crate::proofs::Joined::joining))]
fn check_do(
    names: &mut Names,
    body: &Stmt,
    test: &Expr,
    found: &mut Found,
) -> Result<(), AllocError>
    ensures names { OnOk result (names.new ≡ names.old) }
    ensures breaks { OnOk result (found.new
        ≡ with_visits found.old (stmt_visits body.now (opened (looped names.old))
        ++ condition_visits names.old test.now)) }
{
    check_inner(names, in_loop(names.around()), body, found)?;
    check_condition(names, test, found);
    Ok(())
}

#[cycle(stmt)]
#[tactic(auto, using(crate::proofs::Joined::joining))]
fn check_try(
    names: &mut Names,
    body: &[Stmt],
    handlers: &[Handler],
    found: &mut Found,
) -> Result<(), AllocError>
    ensures names { OnOk result (names.new ≡ names.old) }
    ensures breaks { OnOk result (found.new
        ≡ with_visits found.old (stmts_visits (stmts_of body.now) (opened names.old)
        ++ (AtHandlers names.old (handlers_of handlers.now)
        ∷ handlers_visits (handlers_of handlers.now) names.old))) }
{
    check_guarded(names, body, found)?;
    ask_handlers(names, handlers, found);
    check_handlers(names, handlers, found)
}

// An `_Enable` or a `_Disable`.
#[cycle(stmt)]
#[tactic(auto, using(crate::proofs::Joined::joining))]
fn check_masked(
    names: &mut Names,
    events: &[EventName],
    body: &Stmt,
    found: &mut Found,
) -> Result<(), AllocError>
    ensures names { OnOk result (names.new ≡ names.old) }
    ensures breaks { OnOk result (found.new
        ≡ with_visits found.old (events_visits names.old events.now
        ++ stmt_visits body.now (opened names.old))) }
{
    check_events(names, events, found);
    check_inner(names, names.around(), body, found)
}

#[cycle(stmt)]
#[tactic(auto, using(crate::proofs::Joined::joining))]
fn check_accept(
    names: &mut Names,
    clauses: &[Clause],
    other: &Option<Box<Stmt>>,
    at: Pos,
    found: &mut Found,
) -> Result<(), AllocError>
    ensures names { OnOk result (names.new ≡ names.old) }
    ensures breaks { OnOk result (found.new
        ≡ with_visits found.old (AtAccept names.old at (clauses_of clauses.now)
        ∷ (clauses_visits (clauses_of clauses.now) names.old
        ++ maybe_stmt_visits (maybe_at other.now) names.old))) }
{
    ask_accept(names, clauses, at, found)?;
    check_clauses(names, clauses, found)?;
    check_maybe_inner(names, other, found)
}

/// The same of a body.
#[cycle(stmt)]
#[tactic(auto, using(crate::proofs::Joined::joining))]
pub fn check_stmts(names: &mut Names, body: &[Stmt], found: &mut Found) -> Result<(), AllocError>
    ensures names { OnOk result (names.new ≡ env_behind names.old (stmts_of body.now)) }
    ensures breaks { OnOk result (found.new
        ≡ with_visits found.old (stmts_visits (stmts_of body.now) names.old)) }
{
    for s in body {
        check_stmt(names, s, found)?;
    }
    Ok(())
}

#[cycle(stmt)]
#[tactic(auto, using(crate::proofs::Joined::joining, crate::proofs::Blocks::blocks))]
fn check_block(names: &mut Names, body: &[Stmt], found: &mut Found) -> Result<(), AllocError>
    ensures names { OnOk result (names.new ≡ names.old) }
    ensures breaks { OnOk result (found.new
        ≡ with_visits found.old (stmts_visits (stmts_of body.now) (block_env names.old))) }
{
    let mark = names.mark();
    open_block(names);
    check_stmts(names, body, found)?;
    names.close(mark);
    Ok(())
}

/// The scope of a block: that of the `for` where it is its statement.
pub fn open_block(names: &mut Names)
    ensures { names.new ≡ block_env names.old }
{
    let around = names.around();
    if around.joins {
        names.set_around(with_joins(false, around));
    } else {
        names.open();
    }
}

// The body of a `try`.
#[cycle(stmt)]
#[tactic(auto, using(crate::proofs::Joined::joining, crate::proofs::Blocks::blocks))]
fn check_guarded(names: &mut Names, body: &[Stmt], found: &mut Found) -> Result<(), AllocError>
    ensures names { OnOk result (names.new ≡ names.old) }
    ensures breaks { OnOk result (found.new
        ≡ with_visits found.old (stmts_visits (stmts_of body.now) (opened names.old))) }
{
    let mark = names.mark();
    names.open();
    check_stmts(names, body, found)?;
    names.close(mark);
    Ok(())
}

// A statement that stands in another one.
#[cycle(stmt)]
#[tactic(auto, using(crate::proofs::Joined::joining, crate::proofs::Blocks::blocks))]
fn check_inner(
    names: &mut Names,
    around: Surroundings,
    s: &Stmt,
    found: &mut Found,
) -> Result<(), AllocError>
    ensures names { OnOk result (names.new ≡ names.old) }
    ensures breaks { OnOk result (found.new
        ≡ with_visits found.old (stmt_visits s.now (opened (with_around names.old around)))) }
{
    let mark = names.mark();
    names.set_around(around);
    names.open();
    check_stmt(names, s, found)?;
    names.close(mark);
    Ok(())
}

#[cycle(stmt)]
#[tactic(auto, using(crate::proofs::Joined::joining))]
fn check_maybe_inner(
    names: &mut Names,
    s: &Option<Box<Stmt>>,
    found: &mut Found,
) -> Result<(), AllocError>
    ensures names { OnOk result (names.new ≡ names.old) }
    ensures breaks { OnOk result (found.new
        ≡ with_visits found.old (maybe_stmt_visits (maybe_at s.now) names.old)) }
{
    match s {
        Some(s) => check_inner(names, names.around(), s, found),
        None => Ok(()),
    }
}

#[cycle(stmt)]
#[tactic(auto, using(crate::proofs::Joined::joining, crate::proofs::Blocks::blocks))]
fn check_for(
    names: &mut Names,
    start: &ForStart,
    test: &Option<Expr>,
    step: &Option<Expr>,
    body: &Stmt,
    found: &mut Found,
) -> Result<(), AllocError>
    ensures names { OnOk result (names.new ≡ names.old) }
    ensures breaks { OnOk result (found.new
        ≡ with_visits found.old (for_visits (opened names.old) start.now
        ++ (maybe_condition_visits (for_declared (opened names.old) start.now) test.now
        ++ (maybe_statement_visits (for_declared (opened names.old) start.now) step.now
        ++ stmt_visits body.now (joined (looped (for_declared (opened names.old) start.now))))))) }
{
    let mark = names.mark();
    names.open();
    check_for_start(names, start, found)?;
    check_maybe_condition(names, test, found);
    check_maybe_statement(names, step, found);
    names.set_around(with_joins(true, in_loop(names.around())));
    check_stmt(names, body, found)?;
    names.close(mark);
    Ok(())
}

#[cycle(stmt)]
#[tactic(auto, using(crate::proofs::Joined::joining, crate::proofs::Blocks::blocks))]
fn check_handler(names: &mut Names, handler: &Handler, found: &mut Found) -> Result<(), AllocError>
    ensures names { OnOk result (names.new ≡ names.old) }
    ensures breaks { OnOk result (found.new
        ≡ with_visits found.old (handler_visits handler.now names.old)) }
{
    let mark = names.mark();
    names.set_around(in_handler(names.around()));
    names.open();
    ask_caught(names, &handler.param, handler.pos, found);
    names.add_caught(&handler.event, &handler.param)?;
    check_stmts(names, &handler.body, found)?;
    names.close(mark);
    Ok(())
}

#[cycle(stmt)]
#[tactic(auto, using(crate::proofs::Joined::joining))]
fn check_handlers(
    names: &mut Names,
    handlers: &[Handler],
    found: &mut Found,
) -> Result<(), AllocError>
    ensures names { OnOk result (names.new ≡ names.old) }
    ensures breaks { OnOk result (found.new
        ≡ with_visits found.old (handlers_visits (handlers_of handlers.now) names.old)) }
{
    for handler in handlers {
        check_handler(names, handler, found)?;
    }
    Ok(())
}

#[cycle(stmt)]
#[tactic(auto, using(crate::proofs::Joined::joining))]
fn check_clause(names: &mut Names, clause: &Clause, found: &mut Found) -> Result<(), AllocError>
    ensures names { OnOk result (names.new ≡ names.old) }
    ensures breaks { OnOk result (found.new
        ≡ with_visits found.old (clause_visits clause.now names.old)) }
{
    check_maybe_condition(names, &clause.guard, found);
    check_inner(names, names.around(), &clause.body, found)
}

#[cycle(stmt)]
#[tactic(auto, using(crate::proofs::Joined::joining))]
fn check_clauses(names: &mut Names, clauses: &[Clause], found: &mut Found) -> Result<(), AllocError>
    ensures names { OnOk result (names.new ≡ names.old) }
    ensures breaks { OnOk result (found.new
        ≡ with_visits found.old (clauses_visits (clauses_of clauses.now) names.old)) }
{
    for clause in clauses {
        check_clause(names, clause, found)?;
    }
    Ok(())
}

// The names in scope at a place of a program.

ghost use Rattle.std.specs.Prelude.{◌≡◌, IfOk, OnOk, Option, Some};
ghost use Rattle.uc_tree.specs.StatementViews.{maybe_at};
ghost use Rattle.uc_tree.specs.Statements.{clauses_of, handlers_of, stmts_of};
ghost use Rattle.uc_rules.specs.Scopes.{Env, all_declared, block_env, env_after, env_behind, for_declared, opened, with_params};
ghost use Rattle.uc_rules.specs.Visits.{looped};
ghost use Rattle.uc_front.specs.Places.{AtBody, AtLeaf, AtStmt, accept_node, accepted_node, behind_node, block_node, body_node, clause_node, declaration_node, env_along, env_from, for_node, handler_node, handling_node, head_node, held_node, if_node, inner_node, lone_node, maybe_node, nth_node, reached, try_node};

use crate::place::Step;
use std::alloc::AllocError;
use uc_check_stmt::stmt::{in_handler, in_loop, open_block, with_joins};
use uc_tree::declare::{Declarator, ForForm, ForStart};
use uc_tree::kinds::{Base, Param};
use uc_tree::stmt::{Clause, Handler, Stmt, StmtForm};
use uc_types::names::Names;

/// Brings these parameters into scope.
pub(crate) fn add_params(names: &mut Names, params: &[Param]) -> Result<(), AllocError>
    ensures { OnOk result (names.new ≡ with_params names.old params.now) }
{
    for param in params {
        names.add_param(param)?;
    }
    Ok(())
}

fn declare_all(names: &mut Names, base: &Base, declarators: &[Declarator]) -> Result<(), AllocError>
    ensures { OnOk result (names.new ≡ all_declared names.old base.now declarators.now) }
{
    for declarator in declarators {
        names.declare(base, declarator)?;
    }
    Ok(())
}

// Brings into scope what a statement declares.
fn pass(names: &mut Names, s: &Stmt) -> Result<(), AllocError>
    ensures { OnOk result (names.new ≡ env_after names.old s.now) }
{
    match &s.form {
        StmtForm::Declare { base, declarators } => {
            declare_all(names, base, declarators)?;
            Ok(())
        }
        StmtForm::Block { .. }
        | StmtForm::Empty
        | StmtForm::Evaluate { .. }
        | StmtForm::If { .. }
        | StmtForm::While { .. }
        | StmtForm::Do { .. }
        | StmtForm::For { .. }
        | StmtForm::Break
        | StmtForm::Continue
        | StmtForm::Return { .. }
        | StmtForm::Try { .. }
        | StmtForm::Throw { .. }
        | StmtForm::Raise { .. }
        | StmtForm::RaiseAt { .. }
        | StmtForm::Enable { .. }
        | StmtForm::Disable { .. }
        | StmtForm::Accept { .. }
        | StmtForm::Print { .. }
        | StmtForm::PrintTogether { .. }
        | StmtForm::Read { .. }
        | StmtForm::Resume
        | StmtForm::Suspend
        | StmtForm::Yield
        | StmtForm::Migrate { .. } => Ok(()),
    }
}

fn pass_all(names: &mut Names, body: &[Stmt]) -> Result<(), AllocError>
    ensures { OnOk result (names.new ≡ env_behind names.old (stmts_of body.now)) }
{
    for s in body {
        pass(names, s)?;
    }
    Ok(())
}

fn declare_start(names: &mut Names, start: &ForStart) -> Result<(), AllocError>
    ensures { OnOk result (names.new ≡ for_declared names.old start.now) }
{
    match &start.form {
        ForForm::Declare {
            base,
            declarators,
            ..
        } => {
            declare_all(names, base, declarators)?;
            Ok(())
        }
        ForForm::Nothing | ForForm::Evaluate { .. } => Ok(()),
    }
}

/// Whether a way ends where nothing stands.
pub(crate) fn is_end(steps: &[Step]) -> bool
    ensures { (env : Env) → env_along (AtLeaf env) steps.now ≡ reached result env }
{
    steps.split_first().is_none()
}

fn is_alone(number: usize, steps: &[Step]) -> bool
    ensures { (env : Env) → env_from (lone_node env number) steps.now ≡ reached result env }
{
    if number == 0 {
        return is_end(steps);
    }
    false
}

fn enter_behind(
    names: &mut Names,
    base: &Base,
    declarators: &[Declarator],
    number: usize,
    steps: &[Step],
) -> Result<bool, AllocError>
    ensures { IfOk result (λ there. env_from
        (behind_node names.old base.now declarators.now number) steps.now
        ≡ reached there names.new) }
{
    if declarators.len() < number {
        return Ok(false);
    }
    declare_all(names, base, &declarators[..number])?;
    Ok(is_end(steps))
}

fn enter_head(
    names: &mut Names,
    start: &ForStart,
    number: usize,
    steps: &[Step],
) -> Result<bool, AllocError>
    ensures { IfOk result (λ there. env_from (head_node names.old start.now number) steps.now
        ≡ reached there names.new) }
{
    match &start.form {
        ForForm::Declare {
            base,
            declarators,
            ..
        } => enter_behind(names, base, declarators, number, steps),
        ForForm::Nothing | ForForm::Evaluate { .. } => Ok(is_alone(number, steps)),
    }
}

/// Goes a way from a body on, and says whether it leads anywhere; then the names are those there.
#[cycle(follow)]
pub(crate) fn follow_body(
    names: &mut Names,
    body: &[Stmt],
    steps: &[Step],
) -> Result<bool, AllocError>
    ensures { IfOk result (λ there. env_along (AtBody names.old (stmts_of body.now)) steps.now
        ≡ reached there names.new) }
{
    match steps.split_first() {
        Some((step, rest)) => enter_body(names, body, *step, rest),
        None => Ok(true),
    }
}

#[cycle(follow)]
fn enter_body(
    names: &mut Names,
    body: &[Stmt],
    step: Step,
    steps: &[Step],
) -> Result<bool, AllocError>
    ensures { IfOk result (λ there. env_from
        (body_node names.old (stmts_of body.now) step) steps.now ≡ reached there names.new) }
{
    match step {
        Step::At { number } => enter_nth(names, body, number, steps),
        Step::Head { .. } | Step::Body | Step::Other | Step::Handler { .. } | Step::Clause { .. } =>
            Ok(false),
    }
}

#[cycle(follow)]
fn enter_nth(
    names: &mut Names,
    body: &[Stmt],
    number: usize,
    steps: &[Step],
) -> Result<bool, AllocError>
    ensures { IfOk result (λ there. env_from
        (nth_node names.old (stmts_of body.now) number) steps.now ≡ reached there names.new) }
{
    if body.len() < number {
        return Ok(false);
    }
    pass_all(names, &body[..number])?;
    match body.get(number) {
        Some(s) => {
            let there = follow_stmt(names, s, steps)?;
            Ok(there)
        }
        None => Ok(is_end(steps)),
    }
}

#[cycle(follow)]
fn follow_stmt(names: &mut Names, s: &Stmt, steps: &[Step]) -> Result<bool, AllocError>
    ensures { IfOk result (λ there. env_along (AtStmt names.old s.now) steps.now
        ≡ reached there names.new) }
{
    match steps.split_first() {
        Some((step, rest)) => enter_stmt(names, s, *step, rest),
        None => Ok(true),
    }
}

#[cycle(follow)]
fn enter_stmt(names: &mut Names, s: &Stmt, step: Step, steps: &[Step]) -> Result<bool, AllocError>
    ensures { IfOk result (λ there. env_from (inner_node names.old s.now step) steps.now
        ≡ reached there names.new) }
{
    match &s.form {
        StmtForm::Block { body } => enter_block(names, body, step, steps),
        StmtForm::Declare { base, declarators } => {
            enter_declaration(names, base, declarators, step, steps)
        }
        StmtForm::If { chosen, other, .. } => enter_if(names, chosen, other, step, steps),
        StmtForm::While { body, .. } => enter_loop(names, body, step, steps),
        StmtForm::Do { body, .. } => enter_loop(names, body, step, steps),
        StmtForm::For { start, body, .. } => enter_for(names, start, body, step, steps),
        StmtForm::Try { body, handlers, .. } => enter_try(names, body, handlers, step, steps),
        StmtForm::Enable { body, .. } => enter_masked(names, body, step, steps),
        StmtForm::Disable { body, .. } => enter_masked(names, body, step, steps),
        StmtForm::Accept { clauses, other } => enter_accept(names, clauses, other, step, steps),
        StmtForm::Empty
        | StmtForm::Evaluate { .. }
        | StmtForm::Break
        | StmtForm::Continue
        | StmtForm::Return { .. }
        | StmtForm::Throw { .. }
        | StmtForm::Raise { .. }
        | StmtForm::RaiseAt { .. }
        | StmtForm::Print { .. }
        | StmtForm::PrintTogether { .. }
        | StmtForm::Read { .. }
        | StmtForm::Resume
        | StmtForm::Suspend
        | StmtForm::Yield
        | StmtForm::Migrate { .. } => Ok(false),
    }
}

#[cycle(follow)]
fn enter_block(
    names: &mut Names,
    body: &[Stmt],
    step: Step,
    steps: &[Step],
) -> Result<bool, AllocError>
    ensures { IfOk result (λ there. env_from
        (block_node (block_env names.old) (stmts_of body.now) step) steps.now
        ≡ reached there names.new) }
{
    match step {
        Step::Body => {
            open_block(names);
            follow_body(names, body, steps)
        }
        Step::At { .. }
        | Step::Head { .. }
        | Step::Other
        | Step::Handler { .. }
        | Step::Clause { .. } => Ok(false),
    }
}

fn enter_declaration(
    names: &mut Names,
    base: &Base,
    declarators: &[Declarator],
    step: Step,
    steps: &[Step],
) -> Result<bool, AllocError>
    ensures { IfOk result (λ there. env_from
        (declaration_node names.old base.now declarators.now step) steps.now
        ≡ reached there names.new) }
{
    match step {
        Step::At { number } => enter_behind(names, base, declarators, number, steps),
        Step::Head { .. } | Step::Body | Step::Other | Step::Handler { .. } | Step::Clause { .. } =>
            Ok(false),
    }
}

#[cycle(follow)]
fn enter_if(
    names: &mut Names,
    chosen: &Stmt,
    other: &Option<Box<Stmt>>,
    step: Step,
    steps: &[Step],
) -> Result<bool, AllocError>
    ensures { IfOk result (λ there. env_from
        (if_node names.old chosen.now (maybe_at other.now) step) steps.now
        ≡ reached there names.new) }
{
    match step {
        Step::Body => enter_inner(names, chosen, steps),
        Step::Other => enter_maybe(names, other, steps),
        Step::At { .. } | Step::Head { .. } | Step::Handler { .. } | Step::Clause { .. } => Ok(
            false,
        ),
    }
}

#[cycle(follow)]
fn enter_loop(
    names: &mut Names,
    body: &Stmt,
    step: Step,
    steps: &[Step],
) -> Result<bool, AllocError>
    ensures { IfOk result (λ there. env_from (held_node (looped names.old) body.now step) steps.now
        ≡ reached there names.new) }
{
    match step {
        Step::Body => {
            names.set_around(in_loop(names.around()));
            enter_inner(names, body, steps)
        }
        Step::At { .. }
        | Step::Head { .. }
        | Step::Other
        | Step::Handler { .. }
        | Step::Clause { .. } => Ok(false),
    }
}

#[cycle(follow)]
fn enter_for(
    names: &mut Names,
    start: &ForStart,
    body: &Stmt,
    step: Step,
    steps: &[Step],
) -> Result<bool, AllocError>
    ensures { IfOk result (λ there. env_from
        (for_node (opened names.old) start.now body.now step) steps.now ≡ reached there names.new) }
{
    names.open();
    match step {
        Step::Head { number } => enter_head(names, start, number, steps),
        Step::Body => {
            declare_start(names, start)?;
            names.set_around(with_joins(true, in_loop(names.around())));
            follow_stmt(names, body, steps)
        }
        Step::At { .. } | Step::Other | Step::Handler { .. } | Step::Clause { .. } => Ok(false),
    }
}

#[cycle(follow)]
fn enter_try(
    names: &mut Names,
    body: &[Stmt],
    handlers: &[Handler],
    step: Step,
    steps: &[Step],
) -> Result<bool, AllocError>
    ensures { IfOk result (λ there. env_from
        (try_node names.old (stmts_of body.now) (handlers_of handlers.now) step) steps.now
        ≡ reached there names.new) }
{
    match step {
        Step::Body => {
            names.open();
            follow_body(names, body, steps)
        }
        Step::Handler { number } => enter_handlers(names, handlers, number, steps),
        Step::At { .. } | Step::Head { .. } | Step::Other | Step::Clause { .. } => Ok(false),
    }
}

#[cycle(follow)]
fn enter_masked(
    names: &mut Names,
    body: &Stmt,
    step: Step,
    steps: &[Step],
) -> Result<bool, AllocError>
    ensures { IfOk result (λ there. env_from (held_node names.old body.now step) steps.now
        ≡ reached there names.new) }
{
    match step {
        Step::Body => enter_inner(names, body, steps),
        Step::At { .. }
        | Step::Head { .. }
        | Step::Other
        | Step::Handler { .. }
        | Step::Clause { .. } => Ok(false),
    }
}

#[cycle(follow)]
fn enter_accept(
    names: &mut Names,
    clauses: &[Clause],
    other: &Option<Box<Stmt>>,
    step: Step,
    steps: &[Step],
) -> Result<bool, AllocError>
    ensures { IfOk result (λ there. env_from
        (accept_node names.old (clauses_of clauses.now) (maybe_at other.now) step) steps.now
        ≡ reached there names.new) }
{
    match step {
        Step::Other => enter_maybe(names, other, steps),
        Step::At { .. } | Step::Head { .. } | Step::Body | Step::Handler { .. } => Ok(false),
        Step::Clause { number } => enter_clauses(names, clauses, number, steps),
    }
}

// A statement that stands in another one.
#[cycle(follow)]
fn enter_inner(names: &mut Names, s: &Stmt, steps: &[Step]) -> Result<bool, AllocError>
    ensures { IfOk result (λ there. env_along (AtStmt (opened names.old) s.now) steps.now
        ≡ reached there names.new) }
{
    names.open();
    follow_stmt(names, s, steps)
}

#[cycle(follow)]
fn enter_maybe(names: &mut Names, s: &Option<Box<Stmt>>, steps: &[Step]) -> Result<bool, AllocError>
    ensures { IfOk result (λ there. env_from (maybe_node names.old (maybe_at s.now)) steps.now
        ≡ reached there names.new) }
{
    match s {
        Some(s) => enter_inner(names, s, steps),
        None => Ok(false),
    }
}

#[cycle(follow)]
fn enter_handlers(
    names: &mut Names,
    handlers: &[Handler],
    number: usize,
    steps: &[Step],
) -> Result<bool, AllocError>
    ensures { IfOk result (λ there. env_from
        (handler_node names.old (handlers_of handlers.now) number) steps.now
        ≡ reached there names.new) }
{
    match handlers.get(number) {
        Some(handler) => {
            let there = enter_handler(names, handler, steps)?;
            Ok(there)
        }
        None => Ok(false),
    }
}

#[cycle(follow)]
fn enter_handler(names: &mut Names, handler: &Handler, steps: &[Step]) -> Result<bool, AllocError>
    ensures { IfOk result (λ there. env_along (handling_node names.old handler.now) steps.now
        ≡ reached there names.new) }
{
    names.set_around(in_handler(names.around()));
    names.open();
    names.add_caught(&handler.event, &handler.param)?;
    follow_body(names, &handler.body, steps)
}

#[cycle(follow)]
fn enter_clauses(
    names: &mut Names,
    clauses: &[Clause],
    number: usize,
    steps: &[Step],
) -> Result<bool, AllocError>
    ensures { IfOk result (λ there. env_from
        (clause_node names.old (clauses_of clauses.now) number) steps.now
        ≡ reached there names.new) }
{
    match clauses.get(number) {
        Some(clause) => {
            let there = enter_clause(names, clause, steps)?;
            Ok(there)
        }
        None => Ok(false),
    }
}

#[cycle(follow)]
fn enter_clause(names: &mut Names, clause: &Clause, steps: &[Step]) -> Result<bool, AllocError>
    ensures { IfOk result (λ there. env_along (accepted_node names.old clause.now) steps.now
        ≡ reached there names.new) }
{
    enter_inner(names, &clause.body, steps)
}

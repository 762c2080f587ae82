// The statements of a body, each before those in it.

ghost use Rattle.std.specs.Prelude.{◌≡◌, ◌++◌, IfOk, OnOk, map};
ghost use Rattle.uc_tree.specs.Statements.{stmts_of, handlers_of, clauses_of};
ghost use Rattle.uc_tree.specs.StatementViews.{maybe_at};
ghost use Rattle.uc_tree.specs.Gathered.{gathered, gathered_all, gathered_maybe, gathered_handler, gathered_handlers, gathered_clause, gathered_clauses};
ghost use Rattle.uc_numbering.specs.Flat.{itself};

use std::alloc::{AllocError, Global};
use uc_tree::stmt::{Clause, Handler, Stmt, StmtForm};

/// The statements of a body in textual order: each before the statements in it.
pub fn statements_of<'a>(alloc: Global, body: &'a [Stmt]) -> Result<Vec<&'a Stmt>, AllocError>
    ensures { IfOk result (λ v. map (λ s. s.now) v.items
        ≡ gathered_all itself (stmts_of body.now)) }
{
    let mut found = Vec::new(alloc);
    push_stmts(&mut found, body)?;
    Ok(found)
}

#[cycle(gathered)]
fn push_stmt<'a>(found: &mut Vec<&'a Stmt>, s: &'a Stmt) -> Result<(), AllocError>
    ensures { OnOk result (map (λ s. s.now) found.new.items
        ≡ map (λ s. s.now) found.old.items ++ gathered itself s.now) }
{
    found.push(s)?;
    match &s.form {
        StmtForm::Block { body } => push_stmts(found, body),
        StmtForm::If { chosen, other, .. } => {
            push_stmt(found, chosen)?;
            push_maybe(found, other)
        }
        StmtForm::Try { body, handlers, .. } => {
            push_stmts(found, body)?;
            push_handlers(found, handlers)
        }
        StmtForm::While { body, .. }
        | StmtForm::Do { body, .. }
        | StmtForm::For { body, .. }
        | StmtForm::Enable { body, .. }
        | StmtForm::Disable { body, .. } => push_stmt(found, body),
        StmtForm::Accept { clauses, other } => {
            push_clauses(found, clauses)?;
            push_maybe(found, other)
        }
        _ => Ok(()),
    }
}

#[cycle(gathered)]
fn push_stmts<'a>(found: &mut Vec<&'a Stmt>, stmts: &'a [Stmt]) -> Result<(), AllocError>
    ensures { OnOk result (map (λ s. s.now) found.new.items
        ≡ map (λ s. s.now) found.old.items ++ gathered_all itself (stmts_of stmts.now)) }
{
    for s in stmts {
        push_stmt(found, s)?;
    }
    Ok(())
}

#[cycle(gathered)]
fn push_handlers<'a>(found: &mut Vec<&'a Stmt>, handlers: &'a [Handler]) -> Result<(), AllocError>
    ensures { OnOk result (map (λ s. s.now) found.new.items
        ≡ map (λ s. s.now) found.old.items ++ gathered_handlers itself (handlers_of handlers.now)) }
{
    for handler in handlers {
        push_handler(found, handler)?;
    }
    Ok(())
}

#[cycle(gathered)]
fn push_clauses<'a>(found: &mut Vec<&'a Stmt>, clauses: &'a [Clause]) -> Result<(), AllocError>
    ensures { OnOk result (map (λ s. s.now) found.new.items
        ≡ map (λ s. s.now) found.old.items ++ gathered_clauses itself (clauses_of clauses.now)) }
{
    for clause in clauses {
        push_clause(found, clause)?;
    }
    Ok(())
}

#[cycle(gathered)]
fn push_maybe<'a>(found: &mut Vec<&'a Stmt>, s: &'a Option<Box<Stmt>>) -> Result<(), AllocError>
    ensures { OnOk result (map (λ s. s.now) found.new.items
        ≡ map (λ s. s.now) found.old.items ++ gathered_maybe itself (maybe_at s.now)) }
{
    match s {
        Some(s) => push_stmt(found, s),
        None => Ok(()),
    }
}

#[cycle(gathered)]
fn push_handler<'a>(found: &mut Vec<&'a Stmt>, handler: &'a Handler) -> Result<(), AllocError>
    ensures { OnOk result (map (λ s. s.now) found.new.items
        ≡ map (λ s. s.now) found.old.items ++ gathered_handler itself handler.now) }
{
    push_stmts(found, &handler.body)
}

#[cycle(gathered)]
fn push_clause<'a>(found: &mut Vec<&'a Stmt>, clause: &'a Clause) -> Result<(), AllocError>
    ensures { OnOk result (map (λ s. s.now) found.new.items
        ≡ map (λ s. s.now) found.old.items ++ gathered_clause itself clause.now) }
{
    push_stmt(found, &clause.body)
}

// `Size`: how large pieces of a program are. Sums stand still at the greatest number.

ghost use Rattle.std.specs.Prelude.{◌≡◌, ◌+◌, ◌<◌};
ghost use Rattle.uc_tree.specs.Capped.{capped};
ghost use Rattle.uc_tree.specs.Expressions.{exprs_of, parts_of, links_of};
ghost use Rattle.uc_tree.specs.ExpressionSizes.{expr_size, exprs_size, part_size, parts_size, link_size, links_size};
ghost use Rattle.uc_tree.specs.Statements.{stmts_of, handlers_of, clauses_of};
ghost use Rattle.uc_tree.specs.StatementSizes.{maybe_expr_size, start_size, declarator_size, declarators_size, raised_size, maybe_raised_size, out_item_size, out_items_size, for_start_size, stmt_size, stmts_size, maybe_stmt_size, handler_size, handlers_size, clause_size, clauses_size};
ghost use Rattle.uc_tree.specs.StatementViews.{maybe_at};

use uc_tree::declare::{Declarator, ForForm, ForStart, OutForm, OutItem, Raised, Start, StartForm};
use uc_tree::expr::{Expr, ExprForm, Link, Part, PartForm};
use uc_tree::stmt::{Clause, Handler, Stmt, StmtForm};

// A node and what its parts count.
fn node(a: u64, b: u64, c: u64) -> u64
    ensures { result ≡ capped (1 + a + b + c) }
{
    a.saturating_add(b).saturating_add(c).saturating_add(1)
}

/// How many expressions, operators of chains and parts an expression has.
#[cycle(size)]
pub fn size_of_expr(e: &Expr) -> u64
    ensures { result ≡ capped (expr_size e.now) }
{
    match &e.form {
        ExprForm::Number { .. }
        | ExprForm::Character { .. }
        | ExprForm::Truth { .. }
        | ExprForm::Name { .. }
        | ExprForm::Cin => 1,
        ExprForm::Postfix { root, parts } => node(size_of_expr(root), size_of_parts(parts), 0),
        ExprForm::Unary { operand, .. } => node(size_of_expr(operand), 0, 0),
        ExprForm::Chain { first, rest } => node(size_of_expr(first), size_of_links(rest), 0),
        ExprForm::Assign { place, value, .. } => node(size_of_expr(place), size_of_expr(value), 0),
    }
}

#[cycle(size)]
fn size_of_parts(parts: &[Part]) -> u64
    ensures { result ≡ capped (parts_size (parts_of parts.now)) }
{
    let mut size: u64 = 0;
    for part in parts {
        size = size.saturating_add(size_of_part(part));
    }
    size
}

#[cycle(size)]
fn size_of_part(part: &Part) -> u64
    ensures { result ≡ capped (part_size part.now) }
{
    match &part.form {
        PartForm::Index { index } => node(size_of_expr(index), 0, 0),
        PartForm::Call { args } => node(size_of_exprs(args), 0, 0),
        PartForm::Field { .. } | PartForm::Step { .. } => 1,
    }
}

#[cycle(size)]
fn size_of_links(links: &[Link]) -> u64
    ensures { result ≡ capped (links_size (links_of links.now)) }
{
    let mut size: u64 = 0;
    for link in links {
        size = size.saturating_add(size_of_link(link));
    }
    size
}

#[cycle(size)]
fn size_of_link(link: &Link) -> u64
    ensures { result ≡ capped (link_size link.now) }
{
    node(size_of_expr(&link.right), 0, 0)
}

/// The sum of the sizes of these expressions.
#[cycle(size)]
pub fn size_of_exprs(exprs: &[Expr]) -> u64
    ensures { result ≡ capped (exprs_size (exprs_of exprs.now)) }
{
    let mut size: u64 = 0;
    for e in exprs {
        size = size.saturating_add(size_of_expr(e));
    }
    size
}

fn size_of_maybe_expr(e: &Option<Expr>) -> u64
    ensures { result ≡ capped (maybe_expr_size e.now) }
{
    match e {
        Some(e) => size_of_expr(e),
        None => 0,
    }
}

fn size_of_start(start: &Start) -> u64
    ensures { result ≡ capped (start_size start.now) }
{
    match &start.form {
        StartForm::Nothing => 0,
        StartForm::Value { value } => size_of_expr(value),
        StartForm::Args { args } => size_of_exprs(args),
    }
}

fn size_of_declarator(declarator: &Declarator) -> u64
    ensures { result ≡ capped (declarator_size declarator.now) }
{
    node(
        size_of_maybe_expr(&declarator.len),
        size_of_start(&declarator.start),
        0,
    )
}

/// The sum of the sizes of these declarators.
pub fn size_of_declarators(declarators: &[Declarator]) -> u64
    ensures { result ≡ capped (declarators_size declarators.now) }
{
    let mut size: u64 = 0;
    for declarator in declarators {
        size = size.saturating_add(size_of_declarator(declarator));
    }
    size
}

fn size_of_raised(raised: &Raised) -> u64
    ensures { result ≡ capped (raised_size raised.now) }
{
    node(size_of_exprs(&raised.args), 0, 0)
}

fn size_of_maybe_raised(raised: &Option<Raised>) -> u64
    ensures { result ≡ capped (maybe_raised_size raised.now) }
{
    match raised {
        Some(raised) => size_of_raised(raised),
        None => 0,
    }
}

fn size_of_out_item(item: &OutItem) -> u64
    ensures { result ≡ capped (out_item_size item.now) }
{
    match &item.form {
        OutForm::Endl => 1,
        OutForm::Literal { .. } => 1,
        OutForm::Value { value } => node(size_of_expr(value), 0, 0),
    }
}

fn size_of_out_items(items: &[OutItem]) -> u64
    ensures { result ≡ capped (out_items_size items.now) }
{
    let mut size: u64 = 0;
    for item in items {
        size = size.saturating_add(size_of_out_item(item));
    }
    size
}

fn size_of_for_start(start: &ForStart) -> u64
    ensures { result ≡ capped (for_start_size start.now) }
{
    match &start.form {
        ForForm::Nothing => 0,
        ForForm::Declare { declarators, .. } => size_of_declarators(declarators),
        ForForm::Evaluate { value } => size_of_expr(value),
    }
}

/// How many declarators, statements, clauses, handlers, raised events, printed items and expressions
/// a statement has, with each operator of a chain and each part of a postfix one more.
#[cycle(stmt_size)]
pub fn size_of_stmt(s: &Stmt) -> u64
    ensures { result ≡ capped (stmt_size s.now) }
{
    match &s.form {
        StmtForm::Block { body } => node(size_of_stmts(body), 0, 0),
        StmtForm::Evaluate { value } => node(size_of_expr(value), 0, 0),
        StmtForm::Declare { declarators, .. } => node(size_of_declarators(declarators), 0, 0),
        StmtForm::If {
            test,
            chosen,
            other,
        } => node(
            size_of_expr(test),
            size_of_stmt(chosen),
            size_of_maybe_stmt(other),
        ),
        StmtForm::While { test, body } => node(size_of_expr(test), size_of_stmt(body), 0),
        StmtForm::Do { body, test } => node(size_of_stmt(body), size_of_expr(test), 0),
        StmtForm::For {
            start,
            test,
            step,
            body,
        } => node(
            size_of_for_start(start),
            size_of_maybe_expr(test).saturating_add(size_of_maybe_expr(step)),
            size_of_stmt(body),
        ),
        StmtForm::Return { value } => node(size_of_maybe_expr(value), 0, 0),
        StmtForm::Try { body, handlers, .. } => node(
            size_of_stmts(body),
            size_of_handlers(handlers),
            0,
        ),
        StmtForm::Throw { raised } => node(size_of_maybe_raised(raised), 0, 0),
        StmtForm::Raise { raised } => node(size_of_maybe_raised(raised), 0, 0),
        StmtForm::RaiseAt { raised, target } => node(
            size_of_raised(raised),
            size_of_expr(target),
            0,
        ),
        StmtForm::Enable { body, .. } => node(size_of_stmt(body), 0, 0),
        StmtForm::Disable { body, .. } => node(size_of_stmt(body), 0, 0),
        StmtForm::Accept { clauses, other } => node(
            size_of_clauses(clauses),
            size_of_maybe_stmt(other),
            0,
        ),
        StmtForm::Print { items } => node(size_of_out_items(items), 0, 0),
        StmtForm::PrintTogether { items } => node(size_of_out_items(items), 0, 0),
        StmtForm::Read { places } => node(size_of_exprs(places), 0, 0),
        StmtForm::Empty
        | StmtForm::Break
        | StmtForm::Continue
        | StmtForm::Resume
        | StmtForm::Suspend
        | StmtForm::Yield => 1,
        StmtForm::Migrate { cluster } => node(size_of_expr(cluster), 0, 0),
    }
}

/// The sum of the sizes of these statements.
#[cycle(stmt_size)]
pub fn size_of_stmts(stmts: &[Stmt]) -> u64
    ensures { result ≡ capped (stmts_size (stmts_of stmts.now)) }
{
    let mut size: u64 = 0;
    for s in stmts {
        size = size.saturating_add(size_of_stmt(s));
    }
    size
}

#[cycle(stmt_size)]
fn size_of_maybe_stmt(s: &Option<Box<Stmt>>) -> u64
    ensures { result ≡ capped (maybe_stmt_size (maybe_at s.now)) }
{
    match s {
        Some(s) => size_of_stmt(s),
        None => 0,
    }
}

#[cycle(stmt_size)]
fn size_of_handlers(handlers: &[Handler]) -> u64
    ensures { result ≡ capped (handlers_size (handlers_of handlers.now)) }
{
    let mut size: u64 = 0;
    for handler in handlers {
        size = size.saturating_add(size_of_handler(handler));
    }
    size
}

#[cycle(stmt_size)]
fn size_of_handler(handler: &Handler) -> u64
    ensures { result ≡ capped (handler_size handler.now) }
{
    node(size_of_stmts(&handler.body), 0, 0)
}

#[cycle(stmt_size)]
fn size_of_clauses(clauses: &[Clause]) -> u64
    ensures { result ≡ capped (clauses_size (clauses_of clauses.now)) }
{
    let mut size: u64 = 0;
    for clause in clauses {
        size = size.saturating_add(size_of_clause(clause));
    }
    size
}

#[cycle(stmt_size)]
fn size_of_clause(clause: &Clause) -> u64
    ensures { result ≡ capped (clause_size clause.now) }
{
    node(
        size_of_maybe_expr(&clause.guard),
        size_of_stmt(&clause.body),
        0,
    )
}

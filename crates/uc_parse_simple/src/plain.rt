// Statements that hold no statement.

ghost use Rattle.std.specs.Prelude.{◌≢◌, ◌+◌, ◌<◌, ◌≤◌, ◌^◌, ℕ, IfOk, IfErr, IsTrue, Some, None, length};
ghost use Rattle.uc_grammar.specs.Form.{Spells, Fails, apply};
ghost use Rattle.uc_parse_expr.specs.Faults.{token_of};
ghost use Rattle.uc_tree.specs.Statements.{Return, Stmt};
ghost use Rattle.uc_grammar.specs.Grammar.{before, postfix_form, maybe_expr, no_arguments, migrate_rest, throw_rest, at_form, raise_rest, stmt_by, inner, faults};
ghost use Rattle.uc_parse_simple.specs.Parts.{is_bare, is_plain};

use crate::declare::{read_maybe_expr, read_simple_stmt};
use crate::event::read_raised;
use crate::print::{read_cin, read_outs, read_together};
use std::alloc::Global;
use uc_grammar::fault::ParseFault;
use uc_grammar::start::StmtStart;
use uc_parse_expr::behind::{followed, kept};
use uc_parse_expr::parse::read_postfix;
use uc_parse_expr::peek::{expect_sign, is_sign, is_word};
use uc_tree::declare::Raised;
use uc_tree::expr::Expr;
use uc_tree::pos::Pos;
use uc_tree::stmt::{Stmt, StmtForm};
use uc_tree::token::{Sign, Token, Word};

// What follows `return`.
fn read_return(
    alloc: Global,
    tokens: &[Token],
    pos: Pos,
    from: u32,
    room: u16,
) -> Result<(Stmt, u32), ParseFault>
    requires begins { from ≤ length tokens.now }
    requires few { length tokens.now < 2 ^ 32 }
    ensures found { IfOk result (λ r. Spells (inner room)
        (apply (Return pos) (maybe_expr Sign.Semicolon)) tokens.now from r.1 r.0) }
    ensures fails { IfErr result
        (λ f. Fails (inner room) (faults room)
        (apply (Return pos) (maybe_expr Sign.Semicolon)) tokens.now from f) }
    ensures moved { IfOk result (λ r. (from < r.1) × (r.1 ≤ length tokens.now)) }
    ensures within { IfErr result (λ f. token_of f ≤ length tokens.now) }
{
    let (value, to) = read_maybe_expr(alloc, tokens, Sign::Semicolon, from, room)?;
    Ok((
        Stmt {
            pos,
            form: StmtForm::Return { value },
        },
        to,
    ))
}

// What follows `_Throw`.
fn read_throw(
    alloc: Global,
    tokens: &[Token],
    pos: Pos,
    from: u32,
    room: u16,
) -> Result<(Stmt, u32), ParseFault>
    requires begins { from ≤ length tokens.now }
    requires few { length tokens.now < 2 ^ 32 }
    ensures found { IfOk result (λ r. Spells (inner room) (throw_rest pos) tokens.now from r.1 r.0) }
    ensures fails { IfErr result
        (λ f. Fails (inner room) (faults room) (throw_rest pos) tokens.now from f) }
    ensures moved { IfOk result (λ r. (from < r.1) × (r.1 ≤ length tokens.now)) }
    ensures within { IfErr result (λ f. token_of f ≤ length tokens.now) }
{
    if is_sign(tokens, from, Sign::Semicolon) {
        return Ok((
            Stmt {
                pos,
                form: StmtForm::Throw { raised: None },
            },
            from + 1,
        ));
    }
    let (raised, at) = read_raised(alloc, tokens, from, room)?;
    let (raised, to) = followed(raised, tokens, at, Sign::Semicolon)?;
    Ok((
        Stmt {
            pos,
            form: StmtForm::Throw {
                raised: Some(raised),
            },
        },
        to,
    ))
}

// What follows `_Resume`.
fn read_raise(
    alloc: Global,
    tokens: &[Token],
    pos: Pos,
    from: u32,
    room: u16,
) -> Result<(Stmt, u32), ParseFault>
    requires begins { from ≤ length tokens.now }
    requires few { length tokens.now < 2 ^ 32 }
    ensures found { IfOk result (λ r. Spells (inner room) (raise_rest pos) tokens.now from r.1 r.0) }
    ensures fails { IfErr result
        (λ f. Fails (inner room) (faults room) (raise_rest pos) tokens.now from f) }
    ensures moved { IfOk result (λ r. (from < r.1) × (r.1 ≤ length tokens.now)) }
    ensures within { IfErr result (λ f. token_of f ≤ length tokens.now) }
{
    if is_sign(tokens, from, Sign::Semicolon) {
        return Ok((
            Stmt {
                pos,
                form: StmtForm::Raise { raised: None },
            },
            from + 1,
        ));
    }
    let (raised, at) = read_raised(alloc, tokens, from, room)?;
    let (s, end) = read_target(alloc, tokens, pos, raised, at, room)?;
    let (s, to) = followed(s, tokens, end, Sign::Semicolon)?;
    Ok((s, to))
}

// What follows the event of `_Resume`: `_At` and whom, or nothing.
fn read_target(
    alloc: Global,
    tokens: &[Token],
    pos: Pos,
    raised: Raised,
    from: u32,
    room: u16,
) -> Result<(Stmt, u32), ParseFault>
    requires begins { from ≤ length tokens.now }
    requires few { length tokens.now < 2 ^ 32 }
    ensures found { IfOk result (λ r. Spells (inner room)
        (at_form pos raised) tokens.now from r.1 r.0) }
    ensures fails { IfErr result
        (λ f. Fails (inner room) (faults room) (at_form pos raised) tokens.now from f) }
    ensures moved { IfOk result (λ r. (from ≤ r.1) × (r.1 ≤ length tokens.now)) }
    ensures within { IfErr result (λ f. token_of f ≤ length tokens.now) }
{
    if !is_word(tokens, from, Word::At) {
        return Ok((
            Stmt {
                pos,
                form: StmtForm::Raise {
                    raised: Some(raised),
                },
            },
            from,
        ));
    }
    let (raised, (target, to)) = kept(raised, read_postfix(alloc, tokens, from + 1, room))?;
    Ok((
        Stmt {
            pos,
            form: StmtForm::RaiseAt { raised, target },
        },
        to,
    ))
}

// A cluster, and then `)`.
fn read_cluster(
    alloc: Global,
    tokens: &[Token],
    from: u32,
    room: u16,
) -> Result<(Expr, u32), ParseFault>
    requires begins { from ≤ length tokens.now }
    requires few { length tokens.now < 2 ^ 32 }
    ensures found { IfOk result (λ r. Spells (inner room)
        (before postfix_form Sign.CloseParen) tokens.now from r.1 r.0) }
    ensures fails { IfErr result
        (λ f. Fails (inner room) (faults room)
        (before postfix_form Sign.CloseParen) tokens.now from f) }
    ensures moved { IfOk result (λ r. (from < r.1) × (r.1 ≤ length tokens.now)) }
    ensures within { IfErr result (λ f. token_of f ≤ length tokens.now) }
{
    let (cluster, at) = read_postfix(alloc, tokens, from, room)?;
    let (cluster, to) = followed(cluster, tokens, at, Sign::CloseParen)?;
    Ok((cluster, to))
}

// What follows `migrate`.
fn read_migrate(
    alloc: Global,
    tokens: &[Token],
    pos: Pos,
    from: u32,
    room: u16,
) -> Result<(Stmt, u32), ParseFault>
    requires begins { from ≤ length tokens.now }
    requires few { length tokens.now < 2 ^ 32 }
    ensures found { IfOk result (λ r. Spells (inner room)
        (migrate_rest pos) tokens.now from r.1 r.0) }
    ensures fails { IfErr result
        (λ f. Fails (inner room) (faults room) (migrate_rest pos) tokens.now from f) }
    ensures moved { IfOk result (λ r. (from < r.1) × (r.1 ≤ length tokens.now)) }
    ensures within { IfErr result (λ f. token_of f ≤ length tokens.now) }
{
    let at = expect_sign(tokens, from, Sign::OpenParen)?;
    let (cluster, end) = read_cluster(alloc, tokens, at, room)?;
    let (cluster, to) = followed(cluster, tokens, end, Sign::Semicolon)?;
    Ok((
        Stmt {
            pos,
            form: StmtForm::Migrate { cluster },
        },
        to,
    ))
}

// The `();` of a statement.
fn read_no_arguments(tokens: &[Token], from: u32) -> Result<u32, ParseFault>
    requires begins { from ≤ length tokens.now }
    requires few { length tokens.now < 2 ^ 32 }
    ensures found { IfOk result (λ to. (room : ℕ) → (s : Stmt) →
        Spells (inner room) (no_arguments s) tokens.now from to s) }
    ensures fails { IfErr result (λ f. (room : ℕ) → (s : Stmt) →
        Fails (inner room) (faults room) (no_arguments s) tokens.now from f) }
    ensures moved { IfOk result (λ to. (from < to) × (to ≤ length tokens.now)) }
    ensures within { IfErr result (λ f. token_of f ≤ length tokens.now) }
{
    let at = expect_sign(tokens, from, Sign::OpenParen)?;
    let end = expect_sign(tokens, at, Sign::CloseParen)?;
    let to = expect_sign(tokens, end, Sign::Semicolon)?;
    Ok(to)
}

// A statement of one word or none, or a declaration or an expression.
fn read_bare(
    alloc: Global,
    tokens: &[Token],
    start: StmtStart,
    pos: Pos,
    from: u32,
    room: u16,
) -> Result<(Stmt, u32), ParseFault>
    requires begins { from ≤ length tokens.now }
    requires few { length tokens.now < 2 ^ 32 }
    requires bare { IsTrue (is_bare start) }
    requires begun { start ≢ StmtStart.Simple → from < length tokens.now }
    ensures found { IfOk result (λ r. Spells (inner room)
        (stmt_by pos start) tokens.now from r.1 r.0) }
    ensures fails { IfErr result
        (λ f. Fails (inner room) (faults room) (stmt_by pos start) tokens.now from f) }
    ensures moved { IfOk result (λ r. (from < r.1) × (r.1 ≤ length tokens.now)) }
    ensures within { IfErr result (λ f. token_of f ≤ length tokens.now) }
{
    match start {
        StmtStart::Empty => {
            let form = StmtForm::Empty;
            Ok((Stmt { pos, form }, from + 1))
        }
        StmtStart::Break => {
            let to = expect_sign(tokens, from + 1, Sign::Semicolon)?;
            let form = StmtForm::Break;
            Ok((Stmt { pos, form }, to))
        }
        StmtStart::Continue => {
            let to = expect_sign(tokens, from + 1, Sign::Semicolon)?;
            let form = StmtForm::Continue;
            Ok((Stmt { pos, form }, to))
        }
        StmtStart::Resume => {
            let to = read_no_arguments(tokens, from + 1)?;
            let form = StmtForm::Resume;
            Ok((Stmt { pos, form }, to))
        }
        StmtStart::Suspend => {
            let to = read_no_arguments(tokens, from + 1)?;
            let form = StmtForm::Suspend;
            Ok((Stmt { pos, form }, to))
        }
        StmtStart::Yield => {
            let to = read_no_arguments(tokens, from + 1)?;
            let form = StmtForm::Yield;
            Ok((Stmt { pos, form }, to))
        }
        _ => {
            let (s, to) = read_simple_stmt(alloc, tokens, from, room)?;
            Ok((s, to))
        }
    }
}

/// A statement that holds no statement and begins as `start` says.
pub fn read_plain(
    alloc: Global,
    tokens: &[Token],
    start: StmtStart,
    pos: Pos,
    from: u32,
    room: u16,
) -> Result<(Stmt, u32), ParseFault>
    requires begins { from ≤ length tokens.now }
    requires few { length tokens.now < 2 ^ 32 }
    requires plain { IsTrue (is_plain start) }
    requires begun { start ≢ StmtStart.Simple → from < length tokens.now }
    ensures found { IfOk result (λ r. Spells (inner room)
        (stmt_by pos start) tokens.now from r.1 r.0) }
    ensures fails { IfErr result
        (λ f. Fails (inner room) (faults room) (stmt_by pos start) tokens.now from f) }
    ensures moved { IfOk result (λ r. (from < r.1) × (r.1 ≤ length tokens.now)) }
    ensures within { IfErr result (λ f. token_of f ≤ length tokens.now) }
{
    match start {
        StmtStart::Return => read_return(alloc, tokens, pos, from + 1, room),
        StmtStart::Throw => read_throw(alloc, tokens, pos, from + 1, room),
        StmtStart::Raise => read_raise(alloc, tokens, pos, from + 1, room),
        StmtStart::Print => {
            let (items, to) = read_outs(alloc, tokens, from + 1, room)?;
            let form = StmtForm::Print { items };
            Ok((Stmt { pos, form }, to))
        }
        StmtStart::PrintTogether => read_together(alloc, tokens, pos, from + 1, room),
        StmtStart::Cin => read_cin(alloc, tokens, pos, from + 1, room),
        StmtStart::Migrate => read_migrate(alloc, tokens, pos, from + 1, room),
        _ => read_bare(alloc, tokens, start, pos, from, room),
    }
}

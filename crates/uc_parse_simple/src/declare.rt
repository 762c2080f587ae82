// Declarations: lengths, starts, declarators, and what is a declaration or an expression.

ghost use Rattle.std.specs.Prelude.{◌+◌, ◌<◌, ◌≤◌, ◌^◌, IfOk, IfErr, Some, None, length};
ghost use Rattle.uc_grammar.specs.Form.{Spells, Fails};
ghost use Rattle.uc_parse_expr.specs.Faults.{token_of};
ghost use Rattle.uc_grammar.specs.Form.{look};
ghost use Rattle.uc_parse_simple.specs.Forms.{named_decl, named_expr};
ghost use Rattle.uc_grammar.specs.Tables.{base_of, word_of};
ghost use Rattle.uc_grammar.specs.Grammar.{length_form, start_form, declarator_form, declarators_form, named_at, based_or_expr, simple_form, simple_stmt_form, for_start_form, maybe_expr, inner, faults};
ghost use Rattle.uc_grammar.specs.Spell.{kind_at};
ghost use Rattle.uc_parse_simple.specs.Parts.{simple_of};

use crate::peek::{base_at, is_name_at};
use std::alloc::Global;
use uc_grammar::fault::ParseFault;
use uc_parse_expr::behind::{followed, kept};
use uc_parse_expr::ops::is_comma_at;
use uc_parse_expr::parse::{
    read_arguments, read_closed_arguments, read_expr, read_expr_from, read_inner_expr,
};
use uc_parse_expr::peek::{is_sign, kind_at, pos_at, read_name, sign_at};
use uc_tree::declare::{Declarator, ForForm, ForStart, Start, StartForm};
use uc_tree::expr::{Expr, ExprForm};
use uc_tree::kinds::Base;
use uc_tree::name::Name;
use uc_tree::pos::Pos;
use uc_tree::stmt::{Stmt, StmtForm};
use uc_tree::token::{Sign, Token, TokenKind};

/// A declaration or an expression, without its `;`.
#[derive(Drop)]
pub enum Simple {
    Declares {
        pos: Pos,
        base: Base,
        declarators: Vec<Declarator>,
    },
    Evaluates {
        pos: Pos,
        value: Expr,
    },
}

/// A length in brackets, or none.
pub fn read_length(
    alloc: Global,
    tokens: &[Token],
    from: u32,
    room: u16,
) -> Result<(Option<Expr>, u32), ParseFault>
    requires begins { from ≤ length tokens.now }
    requires few { length tokens.now < 2 ^ 32 }
    ensures found { IfOk result (λ r. Spells (inner room) length_form tokens.now from r.1 r.0) }
    ensures fails { IfErr result
        (λ f. Fails (inner room) (faults room) length_form tokens.now from f) }
    ensures moved { IfOk result (λ r. (from ≤ r.1) × (r.1 ≤ length tokens.now)) }
    ensures within { IfErr result (λ f. token_of f ≤ length tokens.now) }
{
    if !is_sign(tokens, from, Sign::OpenBracket) {
        return Ok((None, from));
    }
    let (length, at) = read_inner_expr(alloc, tokens, from + 1, room)?;
    let (length, to) = followed(length, tokens, at, Sign::CloseBracket)?;
    Ok((Some(length), to))
}

/// How a variable starts.
pub fn read_start(
    alloc: Global,
    tokens: &[Token],
    from: u32,
    room: u16,
) -> Result<(Start, u32), ParseFault>
    requires begins { from ≤ length tokens.now }
    requires few { length tokens.now < 2 ^ 32 }
    ensures found { IfOk result (λ r. Spells (inner room) start_form tokens.now from r.1 r.0) }
    ensures fails { IfErr result
        (λ f. Fails (inner room) (faults room) start_form tokens.now from f) }
    ensures moved { IfOk result (λ r. (from ≤ r.1) × (r.1 ≤ length tokens.now)) }
    ensures within { IfErr result (λ f. token_of f ≤ length tokens.now) }
{
    match sign_at(tokens, from) {
        Some(Sign::Assign) => {
            let (value, to) = read_expr(alloc, tokens, from + 1, room)?;

            Ok((
                Start {
                    form: StartForm::Value { value },
                },
                to,
            ))
        }
        Some(Sign::OpenParen) => {
            let (args, at) = read_arguments(alloc, tokens, from + 1, room)?;
            let (args, to) = followed(args, tokens, at, Sign::CloseParen)?;

            Ok((
                Start {
                    form: StartForm::Args { args },
                },
                to,
            ))
        }
        Some(Sign::OpenBrace) => {
            let (args, to) = read_closed_arguments(
                alloc,
                tokens,
                Sign::CloseBrace,
                from + 1,
                room,
            )?;

            Ok((
                Start {
                    form: StartForm::Args { args },
                },
                to,
            ))
        }
        _ => Ok((
            Start {
                form: StartForm::Nothing,
            },
            from,
        )),
    }
}

/// A variable.
pub fn read_declarator(
    alloc: Global,
    tokens: &[Token],
    from: u32,
    room: u16,
) -> Result<(Declarator, u32), ParseFault>
    requires begins { from ≤ length tokens.now }
    requires few { length tokens.now < 2 ^ 32 }
    ensures found { IfOk result (λ r. Spells (inner room) declarator_form tokens.now from r.1 r.0) }
    ensures fails { IfErr result
        (λ f. Fails (inner room) (faults room) declarator_form tokens.now from f) }
    ensures moved { IfOk result (λ r. (from < r.1) × (r.1 ≤ length tokens.now)) }
    ensures within { IfErr result (λ f. token_of f ≤ length tokens.now) }
{
    let pos = pos_at(tokens, from);
    let (name, at) = read_name(alloc, tokens, from)?;
    let (len, end) = read_length(alloc, tokens, at, room)?;
    let (len, (start, to)) = kept(len, read_start(alloc, tokens, end, room))?;

    Ok((
        Declarator {
            pos,
            by_ref: false,
            name,
            len,
            start,
        },
        to,
    ))
}

/// One variable or more, parted by commas.
pub fn read_declarators(
    alloc: Global,
    tokens: &[Token],
    from: u32,
    room: u16,
) -> Result<(Vec<Declarator>, u32), ParseFault>
    requires begins { from ≤ length tokens.now }
    requires few { length tokens.now < 2 ^ 32 }
    ensures found { IfOk result (λ r. Spells
        (inner room) declarators_form tokens.now from r.1 r.0.items) }
    ensures fails { IfErr result
        (λ f. Fails (inner room) (faults room) declarators_form tokens.now from f) }
    ensures moved { IfOk result (λ r. (from < r.1) × (r.1 ≤ length tokens.now)) }
    ensures within { IfErr result (λ f. token_of f ≤ length tokens.now) }
{
    let (first, end) = read_declarator(alloc, tokens, from, room)?;
    let mut all = Vec::new(alloc);
    all.push(first)?;
    let mut at = end;
    'items: while is_comma_at(tokens, at) {
        let (next, end) = read_declarator(alloc, tokens, at + 1, room)?;
        all.push(next)?;
        at = end;
    }
    Ok((all, at))
}

/// A declaration or an expression.
pub fn read_simple(
    alloc: Global,
    tokens: &[Token],
    from: u32,
    room: u16,
) -> Result<(Simple, u32), ParseFault>
    requires begins { from ≤ length tokens.now }
    requires few { length tokens.now < 2 ^ 32 }
    ensures found { IfOk result (λ r. Spells (inner room) simple_form tokens.now from r.1
        (simple_of r.0)) }
    ensures fails { IfErr result
        (λ f. Fails (inner room) (faults room) simple_form tokens.now from f) }
    ensures moved { IfOk result (λ r. (from < r.1) × (r.1 ≤ length tokens.now)) }
    ensures within { IfErr result (λ f. token_of f ≤ length tokens.now) }
{
    let pos = pos_at(tokens, from);
    match kind_at(tokens, from) {
        Some(TokenKind::Name(name)) => {
            let (s, to) = read_named(alloc, tokens, pos, name, from + 1, room)?;

            Ok((s, to))
        }
        _ => {
            let (s, to) = read_based(alloc, tokens, pos, from, room)?;

            Ok((s, to))
        }
    }
}

// What begins with the word of a base, which is a declaration, or an expression.
fn read_based(
    alloc: Global,
    tokens: &[Token],
    pos: Pos,
    from: u32,
    room: u16,
) -> Result<(Simple, u32), ParseFault>
    requires begins { from ≤ length tokens.now }
    requires few { length tokens.now < 2 ^ 32 }
    ensures found { IfOk result (λ r. Spells (inner room)
        (based_or_expr pos (base_of (word_of (kind_at tokens.now from)))) tokens.now from r.1
        (simple_of r.0)) }
    ensures fails { IfErr result
        (λ f. Fails (inner room) (faults room)
        (based_or_expr pos (base_of (word_of (kind_at tokens.now from)))) tokens.now from f) }
    ensures moved { IfOk result (λ r. (from < r.1) × (r.1 ≤ length tokens.now)) }
    ensures within { IfErr result (λ f. token_of f ≤ length tokens.now) }
{
    match base_at(tokens, from) {
        Some(base) => {
            let (declarators, to) = read_declarators(alloc, tokens, from + 1, room)?;

            Ok((
                Simple::Declares {
                    pos,
                    base,
                    declarators,
                },
                to,
            ))
        }
        None => {
            let (value, to) = read_expr(alloc, tokens, from, room)?;

            Ok((Simple::Evaluates { pos, value }, to))
        }
    }
}

// What follows the name that a declaration or an expression begins with.
fn read_named(
    alloc: Global,
    tokens: &[Token],
    pos: Pos,
    name: &Name,
    from: u32,
    room: u16,
) -> Result<(Simple, u32), ParseFault>
    requires begins { from ≤ length tokens.now }
    requires few { length tokens.now < 2 ^ 32 }
    ensures found { IfOk result (λ r. Spells (inner room)
        (look (named_at pos name.now)) tokens.now from r.1 (simple_of r.0)) }
    ensures fails { IfErr result
        (λ f. Fails (inner room) (faults room) (look (named_at pos name.now)) tokens.now from f) }
    ensures moved { IfOk result (λ r. (from ≤ r.1) × (r.1 ≤ length tokens.now)) }
    ensures within { IfErr result (λ f. token_of f ≤ length tokens.now) }
{
    if is_name_at(tokens, from) {
        let (s, to) = read_named_decl(alloc, tokens, pos, name, from, room)?;
        return Ok((s, to));
    }
    let (s, to) = read_named_expr(alloc, tokens, pos, name, from, room)?;
    Ok((s, to))
}

// The variables of a declaration whose base has this name.
fn read_named_decl(
    alloc: Global,
    tokens: &[Token],
    pos: Pos,
    name: &Name,
    from: u32,
    room: u16,
) -> Result<(Simple, u32), ParseFault>
    requires begins { from ≤ length tokens.now }
    requires few { length tokens.now < 2 ^ 32 }
    ensures found { IfOk result (λ r. Spells (inner room)
        (named_decl pos name.now) tokens.now from r.1 (simple_of r.0)) }
    ensures fails { IfErr result
        (λ f. Fails (inner room) (faults room) (named_decl pos name.now) tokens.now from f) }
    ensures moved { IfOk result (λ r. (from < r.1) × (r.1 ≤ length tokens.now)) }
    ensures within { IfErr result (λ f. token_of f ≤ length tokens.now) }
{
    let base = name.copy(alloc)?;
    let (declarators, to) = read_declarators(alloc, tokens, from, room)?;

    Ok((
        Simple::Declares {
            pos,
            base: Base::Named(base),
            declarators,
        },
        to,
    ))
}

// What follows the name that an expression begins with.
fn read_named_expr(
    alloc: Global,
    tokens: &[Token],
    pos: Pos,
    name: &Name,
    from: u32,
    room: u16,
) -> Result<(Simple, u32), ParseFault>
    requires begins { from ≤ length tokens.now }
    requires few { length tokens.now < 2 ^ 32 }
    ensures found { IfOk result (λ r. Spells (inner room)
        (named_expr pos name.now) tokens.now from r.1 (simple_of r.0)) }
    ensures fails { IfErr result
        (λ f. Fails (inner room) (faults room) (named_expr pos name.now) tokens.now from f) }
    ensures moved { IfOk result (λ r. (from ≤ r.1) × (r.1 ≤ length tokens.now)) }
    ensures within { IfErr result (λ f. token_of f ≤ length tokens.now) }
{
    let copy = name.copy(alloc)?;
    let primary = Expr {
        pos,
        form: ExprForm::Name { name: copy },
    };
    let (value, to) = read_expr_from(alloc, tokens, pos, primary, from, room)?;

    Ok((Simple::Evaluates { pos, value }, to))
}

/// A declaration or an expression as a statement.
pub fn read_simple_stmt(
    alloc: Global,
    tokens: &[Token],
    from: u32,
    room: u16,
) -> Result<(Stmt, u32), ParseFault>
    requires begins { from ≤ length tokens.now }
    requires few { length tokens.now < 2 ^ 32 }
    ensures found { IfOk result (λ r. Spells (inner room) simple_stmt_form tokens.now from r.1 r.0) }
    ensures fails { IfErr result
        (λ f. Fails (inner room) (faults room) simple_stmt_form tokens.now from f) }
    ensures moved { IfOk result (λ r. (from < r.1) × (r.1 ≤ length tokens.now)) }
    ensures within { IfErr result (λ f. token_of f ≤ length tokens.now) }
{
    let (s, at) = read_simple(alloc, tokens, from, room)?;
    let (s, to) = followed(s, tokens, at, Sign::Semicolon)?;

    match s {
        Simple::Declares {
            pos,
            base,
            declarators,
        } => Ok((
            Stmt {
                pos,
                form: StmtForm::Declare { base, declarators },
            },
            to,
        )),
        Simple::Evaluates { pos, value } => Ok((
            Stmt {
                pos,
                form: StmtForm::Evaluate { value },
            },
            to,
        )),
    }
}

/// What a `for` begins with, and its `;`.
pub fn read_for_start(
    alloc: Global,
    tokens: &[Token],
    from: u32,
    room: u16,
) -> Result<(ForStart, u32), ParseFault>
    requires begins { from ≤ length tokens.now }
    requires few { length tokens.now < 2 ^ 32 }
    ensures found { IfOk result (λ r. Spells (inner room) for_start_form tokens.now from r.1 r.0) }
    ensures fails { IfErr result
        (λ f. Fails (inner room) (faults room) for_start_form tokens.now from f) }
    ensures moved { IfOk result (λ r. (from < r.1) × (r.1 ≤ length tokens.now)) }
    ensures within { IfErr result (λ f. token_of f ≤ length tokens.now) }
{
    if is_sign(tokens, from, Sign::Semicolon) {
        return Ok((
            ForStart {
                form: ForForm::Nothing,
            },
            from + 1,
        ));
    }
    let (s, at) = read_simple(alloc, tokens, from, room)?;
    let (s, to) = followed(s, tokens, at, Sign::Semicolon)?;

    match s {
        Simple::Declares {
            pos,
            base,
            declarators,
        } => Ok((
            ForStart {
                form: ForForm::Declare {
                    pos,
                    base,
                    declarators,
                },
            },
            to,
        )),
        Simple::Evaluates { pos: _, value } => Ok((
            ForStart {
                form: ForForm::Evaluate { value },
            },
            to,
        )),
    }
}

/// An expression or none, and then the sign that closes it.
pub fn read_maybe_expr(
    alloc: Global,
    tokens: &[Token],
    close: Sign,
    from: u32,
    room: u16,
) -> Result<(Option<Expr>, u32), ParseFault>
    requires begins { from ≤ length tokens.now }
    requires few { length tokens.now < 2 ^ 32 }
    ensures found { IfOk result (λ r. Spells (inner room)
        (maybe_expr close) tokens.now from r.1 r.0) }
    ensures fails { IfErr result
        (λ f. Fails (inner room) (faults room) (maybe_expr close) tokens.now from f) }
    ensures moved { IfOk result (λ r. (from < r.1) × (r.1 ≤ length tokens.now)) }
    ensures within { IfErr result (λ f. token_of f ≤ length tokens.now) }
{
    if is_sign(tokens, from, close) {
        return Ok((None, from + 1));
    }
    let (value, at) = read_expr(alloc, tokens, from, room)?;
    let (value, to) = followed(value, tokens, at, close)?;
    Ok((Some(value), to))
}

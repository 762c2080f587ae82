// The parser of expressions: a descent that looks at one token.
//
// Each `read_` function reads one form of the grammar from a token on. `room` is how many further levels may be nested in
// it. It answers what the tokens spell and the number of the next token, or how a reading fails.

ghost use Rattle.std.specs.Prelude.{◌≡◌, ◌+◌, ◌*◌, ◌-◌, ◌<◌, ◌≤◌, ◌^◌, ℕ, IfOk, IfErr, length};
ghost use Rattle.uc_grammar.specs.Form.{Spells, Fails, inside};
ghost use Rattle.uc_grammar.specs.Names.{expr_name, unary_name, right_name};
ghost use Rattle.uc_grammar.specs.Grammar.{primary_form, arguments_form, closed_arguments, part_form, postfix_after, postfix_form, unary_form, link_form, chain_after, sum_form, level_after, operand_form, right_after, right_form, expr_after, expr_form, expr_from, inner, faults};
ghost use Rattle.uc_parse_expr.specs.Faults.{token_of};
ghost use Rattle.uc_parse_expr.specs.Loops.{parts_form, links_form};
ghost use Rattle.uc_grammar.specs.Text.{IsExpr, ExprFails};
ghost use Rattle.uc_parse_expr.specs.Found.{OnlyExpr, NeverExpr, NoExpr, FirstTooDeep};

use crate::behind::{followed, kept};
use crate::ops::{
    PartStart, assign_at, binary_at, is_binary_at, is_comma_at, is_part_at, part_start_at, tighter,
    unary_at,
};
use crate::peek::{is_sign, kind_at, pos_at, read_name};
use std::alloc::Global;
use uc_grammar::fault::ParseFault;
use uc_grammar::level::Level;
use uc_tree::expr::{Expr, ExprForm, Link, Part, PartForm};
use uc_tree::limits::NESTING;
use uc_tree::pos::Pos;
use uc_tree::token::{Sign, Token, TokenKind, Word};

/// The expression at token `from`, which stands inside `depth` levels, and the number of the next token.
pub fn parse_expr(
    alloc: Global,
    tokens: &[Token],
    from: u32,
    depth: u16,
) -> Result<(Expr, u32), ParseFault>
    requires begins { from ≤ length tokens.now }
    requires few { length tokens.now < 2 ^ 32 }
    requires shallow { depth ≤ NESTING }
    ensures found { IfOk result (λ r. IsExpr (NESTING - depth) tokens.now from r.1 r.0) }
    ensures only { IfOk result (λ r. OnlyExpr tokens.now from r.1 r.0) }
    ensures moved { IfOk result (λ r. (from < r.1) × (r.1 ≤ length tokens.now)) }
    ensures fails { IfErr result (λ f. ExprFails (NESTING - depth) tokens.now from f) }
    ensures none { IfErr result (λ f. (f ≡ ParseFault.NoMemory → ⊥) →
        NoExpr (NESTING - depth) tokens.now from) }
    ensures syntax { IfErr result (λ f. (p : ℕ) → f ≡ ParseFault.Syntax p →
        NeverExpr tokens.now p from) }
    ensures deep { IfErr result (λ f. (k : ℕ) → f ≡ ParseFault.TooDeep k →
        NESTING ≤ depth + 2 * (k - from) + 1) }
    ensures first { IfErr result (λ f. (k : ℕ) → f ≡ ParseFault.TooDeep k →
        FirstTooDeep (NESTING - depth) tokens.now from k) }
    ensures within { IfErr result (λ f. token_of f ≤ length tokens.now) }
{
    let (e, to) = read_expr(alloc, tokens, from, NESTING - depth)?;
    Ok((e, to))
}

/// An expression.
#[cycle(expr)]
pub fn read_expr(
    alloc: Global,
    tokens: &[Token],
    from: u32,
    room: u16,
) -> Result<(Expr, u32), ParseFault>
    requires begins { from ≤ length tokens.now }
    requires few { length tokens.now < 2 ^ 32 }
    ensures found { IfOk result (λ r. Spells (inner room) expr_form tokens.now from r.1 r.0) }
    ensures fails { IfErr result
        (λ f. Fails (inner room) (faults room) expr_form tokens.now from f) }
    ensures moved { IfOk result (λ r. (from < r.1) × (r.1 ≤ length tokens.now)) }
    ensures within { IfErr result (λ f. token_of f ≤ length tokens.now) }
{
    let pos = pos_at(tokens, from);
    let (first, at) = read_unary(alloc, tokens, from, room)?;
    let (e, to) = read_expr_after(alloc, tokens, pos, first, at, room)?;
    Ok((e, to))
}

// What follows the first unary of an expression.
#[cycle(expr)]
fn read_expr_after(
    alloc: Global,
    tokens: &[Token],
    pos: Pos,
    first: Expr,
    from: u32,
    room: u16,
) -> Result<(Expr, u32), ParseFault>
    requires begins { from ≤ length tokens.now }
    requires few { length tokens.now < 2 ^ 32 }
    ensures found { IfOk result (λ r. Spells (inner room)
        (expr_after pos first) tokens.now from r.1 r.0) }
    ensures fails { IfErr result
        (λ f. Fails (inner room) (faults room) (expr_after pos first) tokens.now from f) }
    ensures moved { IfOk result (λ r. (from ≤ r.1) × (r.1 ≤ length tokens.now)) }
    ensures within { IfErr result (λ f. token_of f ≤ length tokens.now) }
{
    match assign_at(tokens, from) {
        Some(op) => {
            let sign = pos_at(tokens, from);
            let (first, (value, to)) = kept(first, read_right(alloc, tokens, from + 1, room))?;
            let e = Expr::assign(alloc, pos, sign, op, first, value)?;
            Ok((e, to))
        }
        None => {
            let (e, to) = read_level_after(alloc, tokens, Level::Or, pos, first, from, room)?;
            Ok((e, to))
        }
    }
}

// The right side of an assignment.
#[cycle(expr)]
fn read_right(
    alloc: Global,
    tokens: &[Token],
    from: u32,
    room: u16,
) -> Result<(Expr, u32), ParseFault>
    requires begins { from ≤ length tokens.now }
    requires few { length tokens.now < 2 ^ 32 }
    ensures found { IfOk result (λ r. Spells (inner room) right_form tokens.now from r.1 r.0) }
    ensures fails { IfErr result
        (λ f. Fails (inner room) (faults room) right_form tokens.now from f) }
    ensures moved { IfOk result (λ r. (from < r.1) × (r.1 ≤ length tokens.now)) }
    ensures within { IfErr result (λ f. token_of f ≤ length tokens.now) }
{
    let pos = pos_at(tokens, from);
    let (first, at) = read_unary(alloc, tokens, from, room)?;
    let (e, to) = read_right_after(alloc, tokens, pos, first, at, room)?;
    Ok((e, to))
}

// What follows the first unary of such a right side: a further assignment's right side is one level deeper.
#[cycle(expr)]
fn read_right_after(
    alloc: Global,
    tokens: &[Token],
    pos: Pos,
    first: Expr,
    from: u32,
    room: u16,
) -> Result<(Expr, u32), ParseFault>
    requires begins { from ≤ length tokens.now }
    requires few { length tokens.now < 2 ^ 32 }
    ensures found { IfOk result (λ r. Spells (inner room)
        (right_after pos first) tokens.now from r.1 r.0) }
    ensures fails { IfErr result
        (λ f. Fails (inner room) (faults room) (right_after pos first) tokens.now from f) }
    ensures moved { IfOk result (λ r. (from ≤ r.1) × (r.1 ≤ length tokens.now)) }
    ensures within { IfErr result (λ f. token_of f ≤ length tokens.now) }
{
    match assign_at(tokens, from) {
        Some(op) => {
            let sign = pos_at(tokens, from);
            let (first, (value, to)) = kept(
                first,
                read_inner_right(alloc, tokens, from + 1, room),
            )?;
            let e = Expr::assign(alloc, pos, sign, op, first, value)?;
            Ok((e, to))
        }
        None => {
            let (e, to) = read_level_after(alloc, tokens, Level::Or, pos, first, from, room)?;
            Ok((e, to))
        }
    }
}

/// What follows the primary that an expression begins with, whose first token stands at `pos`.
pub fn read_expr_from(
    alloc: Global,
    tokens: &[Token],
    pos: Pos,
    primary: Expr,
    from: u32,
    room: u16,
) -> Result<(Expr, u32), ParseFault>
    requires begins { from ≤ length tokens.now }
    requires few { length tokens.now < 2 ^ 32 }
    ensures found { IfOk result (λ r. Spells (inner room)
        (expr_from pos primary) tokens.now from r.1 r.0) }
    ensures fails { IfErr result
        (λ f. Fails (inner room) (faults room) (expr_from pos primary) tokens.now from f) }
    ensures moved { IfOk result (λ r. (from ≤ r.1) × (r.1 ≤ length tokens.now)) }
    ensures within { IfErr result (λ f. token_of f ≤ length tokens.now) }
{
    let (first, at) = read_postfix_after(alloc, tokens, pos, primary, from, room)?;
    let (e, to) = read_expr_after(alloc, tokens, pos, first, at, room)?;
    Ok((e, to))
}

/// A sum, as it stands behind `<<`.
pub fn read_sum(
    alloc: Global,
    tokens: &[Token],
    from: u32,
    room: u16,
) -> Result<(Expr, u32), ParseFault>
    requires begins { from ≤ length tokens.now }
    requires few { length tokens.now < 2 ^ 32 }
    ensures found { IfOk result (λ r. Spells (inner room) sum_form tokens.now from r.1 r.0) }
    ensures fails { IfErr result
        (λ f. Fails (inner room) (faults room) sum_form tokens.now from f) }
    ensures moved { IfOk result (λ r. (from < r.1) × (r.1 ≤ length tokens.now)) }
    ensures within { IfErr result (λ f. token_of f ≤ length tokens.now) }
{
    let (e, to) = read_operand(alloc, tokens, Level::Comparison, from, room)?;
    Ok((e, to))
}

/// An expression that stands one level deeper.
#[cycle(expr)]
pub fn read_inner_expr(
    alloc: Global,
    tokens: &[Token],
    from: u32,
    room: u16,
) -> Result<(Expr, u32), ParseFault>
    requires begins { from ≤ length tokens.now }
    requires few { length tokens.now < 2 ^ 32 }
    ensures found { IfOk result (λ r. Spells (inner room)
        (inside expr_name) tokens.now from r.1 r.0) }
    ensures fails { IfErr result
        (λ f. Fails (inner room) (faults room) (inside expr_name) tokens.now from f) }
    ensures moved { IfOk result (λ r. (from < r.1) × (r.1 ≤ length tokens.now)) }
    ensures within { IfErr result (λ f. token_of f ≤ length tokens.now) }
{
    if room == 0 {
        return Err(ParseFault::TooDeep { token: from });
    }
    let (e, to) = read_expr(alloc, tokens, from, room - 1)?;
    Ok((e, to))
}

// An operand that stands one level deeper.
#[cycle(expr)]
fn read_inner_unary(
    alloc: Global,
    tokens: &[Token],
    from: u32,
    room: u16,
) -> Result<(Expr, u32), ParseFault>
    requires begins { from ≤ length tokens.now }
    requires few { length tokens.now < 2 ^ 32 }
    ensures found { IfOk result (λ r. Spells (inner room)
        (inside unary_name) tokens.now from r.1 r.0) }
    ensures fails { IfErr result
        (λ f. Fails (inner room) (faults room) (inside unary_name) tokens.now from f) }
    ensures moved { IfOk result (λ r. (from < r.1) × (r.1 ≤ length tokens.now)) }
    ensures within { IfErr result (λ f. token_of f ≤ length tokens.now) }
{
    if room == 0 {
        return Err(ParseFault::TooDeep { token: from });
    }
    let (e, to) = read_unary(alloc, tokens, from, room - 1)?;
    Ok((e, to))
}

// A right side that stands one level deeper.
#[cycle(expr)]
fn read_inner_right(
    alloc: Global,
    tokens: &[Token],
    from: u32,
    room: u16,
) -> Result<(Expr, u32), ParseFault>
    requires begins { from ≤ length tokens.now }
    requires few { length tokens.now < 2 ^ 32 }
    ensures found { IfOk result (λ r. Spells (inner room)
        (inside right_name) tokens.now from r.1 r.0) }
    ensures fails { IfErr result
        (λ f. Fails (inner room) (faults room) (inside right_name) tokens.now from f) }
    ensures moved { IfOk result (λ r. (from < r.1) × (r.1 ≤ length tokens.now)) }
    ensures within { IfErr result (λ f. token_of f ≤ length tokens.now) }
{
    if room == 0 {
        return Err(ParseFault::TooDeep { token: from });
    }
    let (e, to) = read_right(alloc, tokens, from, room - 1)?;
    Ok((e, to))
}

// An operand of the operators of a level.
#[cycle(expr)]
fn read_operand(
    alloc: Global,
    tokens: &[Token],
    level: Level,
    from: u32,
    room: u16,
) -> Result<(Expr, u32), ParseFault>
    requires begins { from ≤ length tokens.now }
    requires few { length tokens.now < 2 ^ 32 }
    ensures found { IfOk result (λ r. Spells (inner room)
        (operand_form level) tokens.now from r.1 r.0) }
    ensures fails { IfErr result
        (λ f. Fails (inner room) (faults room) (operand_form level) tokens.now from f) }
    ensures moved { IfOk result (λ r. (from < r.1) × (r.1 ≤ length tokens.now)) }
    ensures within { IfErr result (λ f. token_of f ≤ length tokens.now) }
{
    let pos = pos_at(tokens, from);
    let (first, at) = read_unary(alloc, tokens, from, room)?;
    match tighter(level) {
        Some(inner) => {
            let (e, to) = read_level_after(alloc, tokens, inner, pos, first, at, room)?;
            Ok((e, to))
        }
        None => Ok((first, at)),
    }
}

// What follows the first unary of a chain of a level.
#[cycle(expr)]
fn read_level_after(
    alloc: Global,
    tokens: &[Token],
    level: Level,
    pos: Pos,
    first: Expr,
    from: u32,
    room: u16,
) -> Result<(Expr, u32), ParseFault>
    requires begins { from ≤ length tokens.now }
    requires few { length tokens.now < 2 ^ 32 }
    ensures found { IfOk result (λ r. Spells (inner room)
        (level_after level pos first) tokens.now from r.1 r.0) }
    ensures fails { IfErr result
        (λ f. Fails (inner room) (faults room) (level_after level pos first) tokens.now from f) }
    ensures moved { IfOk result (λ r. (from ≤ r.1) × (r.1 ≤ length tokens.now)) }
    ensures within { IfErr result (λ f. token_of f ≤ length tokens.now) }
{
    match tighter(level) {
        Some(inner) => {
            let (left, at) = read_level_after(alloc, tokens, inner, pos, first, from, room)?;
            let (e, to) = read_chain_after(alloc, tokens, level, pos, left, at, room)?;
            Ok((e, to))
        }
        None => {
            let (e, to) = read_chain_after(alloc, tokens, level, pos, first, from, room)?;
            Ok((e, to))
        }
    }
}

// What follows the first operand of a chain of a level.
#[cycle(expr)]
fn read_chain_after(
    alloc: Global,
    tokens: &[Token],
    level: Level,
    pos: Pos,
    first: Expr,
    from: u32,
    room: u16,
) -> Result<(Expr, u32), ParseFault>
    requires begins { from ≤ length tokens.now }
    requires few { length tokens.now < 2 ^ 32 }
    ensures found { IfOk result (λ r. Spells (inner room)
        (chain_after level (operand_form level) pos first) tokens.now from r.1 r.0) }
    ensures fails { IfErr result
        (λ f. Fails (inner room) (faults room)
        (chain_after level (operand_form level) pos first) tokens.now from f) }
    ensures moved { IfOk result (λ r. (from ≤ r.1) × (r.1 ≤ length tokens.now)) }
    ensures within { IfErr result (λ f. token_of f ≤ length tokens.now) }
{
    let (first, (rest, to)) = kept(first, read_links(alloc, tokens, level, from, room))?;
    let e = Expr::chained(alloc, pos, first, rest)?;
    Ok((e, to))
}

// The operators of a level, as long as they go on.
#[cycle(expr)]
fn read_links(
    alloc: Global,
    tokens: &[Token],
    level: Level,
    from: u32,
    room: u16,
) -> Result<(Vec<Link>, u32), ParseFault>
    requires begins { from ≤ length tokens.now }
    requires few { length tokens.now < 2 ^ 32 }
    ensures found { IfOk result (λ r. Spells (inner room)
        (links_form level) tokens.now from r.1 r.0.items) }
    ensures fails { IfErr result
        (λ f. Fails (inner room) (faults room) (links_form level) tokens.now from f) }
    ensures moved { IfOk result (λ r. (from ≤ r.1) × (r.1 ≤ length tokens.now)) }
    ensures within { IfErr result (λ f. token_of f ≤ length tokens.now) }
{
    let mut all = Vec::new(alloc);
    let mut at = from;
    'items: while is_binary_at(tokens, at, level) {
        let (next, end) = read_link(alloc, tokens, level, at, room)?;
        all.push(next)?;
        at = end;
    }
    Ok((all, at))
}

// An operator of a level and its right operand.
#[cycle(expr)]
fn read_link(
    alloc: Global,
    tokens: &[Token],
    level: Level,
    from: u32,
    room: u16,
) -> Result<(Link, u32), ParseFault>
    requires begins { from ≤ length tokens.now }
    requires few { length tokens.now < 2 ^ 32 }
    ensures found { IfOk result (λ r. Spells (inner room)
        (link_form level (operand_form level)) tokens.now from r.1 r.0) }
    ensures fails { IfErr result
        (λ f. Fails (inner room) (faults room)
        (link_form level (operand_form level)) tokens.now from f) }
    ensures moved { IfOk result (λ r. (from < r.1) × (r.1 ≤ length tokens.now)) }
    ensures within { IfErr result (λ f. token_of f ≤ length tokens.now) }
{
    match binary_at(tokens, from, level) {
        Some(op) => {
            let sign = pos_at(tokens, from);
            let (right, to) = read_operand(alloc, tokens, level, from + 1, room)?;
            Ok((Link { sign, op, right }, to))
        }
        None => Err(ParseFault::Syntax { token: from }),
    }
}

// Operators before an operand, and the operand.
#[cycle(expr)]
fn read_unary(
    alloc: Global,
    tokens: &[Token],
    from: u32,
    room: u16,
) -> Result<(Expr, u32), ParseFault>
    requires begins { from ≤ length tokens.now }
    requires few { length tokens.now < 2 ^ 32 }
    ensures found { IfOk result (λ r. Spells (inner room) unary_form tokens.now from r.1 r.0) }
    ensures fails { IfErr result
        (λ f. Fails (inner room) (faults room) unary_form tokens.now from f) }
    ensures moved { IfOk result (λ r. (from < r.1) × (r.1 ≤ length tokens.now)) }
    ensures within { IfErr result (λ f. token_of f ≤ length tokens.now) }
{
    match unary_at(tokens, from) {
        Some(op) => {
            let pos = pos_at(tokens, from);
            let (operand, to) = read_inner_unary(alloc, tokens, from + 1, room)?;
            let e = Expr::unary(alloc, pos, op, operand)?;
            Ok((e, to))
        }
        None => {
            let (e, to) = read_postfix(alloc, tokens, from, room)?;
            Ok((e, to))
        }
    }
}

/// A root and the parts behind it.
#[cycle(expr)]
pub fn read_postfix(
    alloc: Global,
    tokens: &[Token],
    from: u32,
    room: u16,
) -> Result<(Expr, u32), ParseFault>
    requires begins { from ≤ length tokens.now }
    requires few { length tokens.now < 2 ^ 32 }
    ensures found { IfOk result (λ r. Spells (inner room) postfix_form tokens.now from r.1 r.0) }
    ensures fails { IfErr result
        (λ f. Fails (inner room) (faults room) postfix_form tokens.now from f) }
    ensures moved { IfOk result (λ r. (from < r.1) × (r.1 ≤ length tokens.now)) }
    ensures within { IfErr result (λ f. token_of f ≤ length tokens.now) }
{
    let pos = pos_at(tokens, from);
    let (root, at) = read_primary(alloc, tokens, from, room)?;
    let (e, to) = read_postfix_after(alloc, tokens, pos, root, at, room)?;
    Ok((e, to))
}

// The parts behind a root.
#[cycle(expr)]
fn read_postfix_after(
    alloc: Global,
    tokens: &[Token],
    pos: Pos,
    root: Expr,
    from: u32,
    room: u16,
) -> Result<(Expr, u32), ParseFault>
    requires begins { from ≤ length tokens.now }
    requires few { length tokens.now < 2 ^ 32 }
    ensures found { IfOk result (λ r. Spells (inner room)
        (postfix_after pos root) tokens.now from r.1 r.0) }
    ensures fails { IfErr result
        (λ f. Fails (inner room) (faults room) (postfix_after pos root) tokens.now from f) }
    ensures moved { IfOk result (λ r. (from ≤ r.1) × (r.1 ≤ length tokens.now)) }
    ensures within { IfErr result (λ f. token_of f ≤ length tokens.now) }
{
    let (root, (parts, to)) = kept(root, read_parts(alloc, tokens, from, room))?;
    let e = Expr::with_parts(alloc, pos, root, parts)?;
    Ok((e, to))
}

// Parts behind a root, as long as they go on.
#[cycle(expr)]
fn read_parts(
    alloc: Global,
    tokens: &[Token],
    from: u32,
    room: u16,
) -> Result<(Vec<Part>, u32), ParseFault>
    requires begins { from ≤ length tokens.now }
    requires few { length tokens.now < 2 ^ 32 }
    ensures found { IfOk result (λ r. Spells (inner room) parts_form tokens.now from r.1 r.0.items) }
    ensures fails { IfErr result
        (λ f. Fails (inner room) (faults room) parts_form tokens.now from f) }
    ensures moved { IfOk result (λ r. (from ≤ r.1) × (r.1 ≤ length tokens.now)) }
    ensures within { IfErr result (λ f. token_of f ≤ length tokens.now) }
{
    let mut all = Vec::new(alloc);
    let mut at = from;
    'items: while is_part_at(tokens, at) {
        let (next, end) = read_part(alloc, tokens, at, room)?;
        all.push(next)?;
        at = end;
    }
    Ok((all, at))
}

// A part behind a root.
#[cycle(expr)]
fn read_part(
    alloc: Global,
    tokens: &[Token],
    from: u32,
    room: u16,
) -> Result<(Part, u32), ParseFault>
    requires begins { from ≤ length tokens.now }
    requires few { length tokens.now < 2 ^ 32 }
    ensures found { IfOk result (λ r. Spells (inner room) part_form tokens.now from r.1 r.0) }
    ensures fails { IfErr result
        (λ f. Fails (inner room) (faults room) part_form tokens.now from f) }
    ensures moved { IfOk result (λ r. (from < r.1) × (r.1 ≤ length tokens.now)) }
    ensures within { IfErr result (λ f. token_of f ≤ length tokens.now) }
{
    let sign = pos_at(tokens, from);
    match part_start_at(tokens, from) {
        Some(PartStart::Field) => {
            let (name, to) = read_name(alloc, tokens, from + 1)?;
            Ok((
                Part {
                    sign,
                    form: PartForm::Field { name },
                },
                to,
            ))
        }
        Some(PartStart::Index) => {
            let (index, at) = read_inner_expr(alloc, tokens, from + 1, room)?;
            let (index, to) = followed(index, tokens, at, Sign::CloseBracket)?;
            Ok((
                Part {
                    sign,
                    form: PartForm::Index { index },
                },
                to,
            ))
        }
        Some(PartStart::Call) => {
            let (args, to) = read_closed_arguments(
                alloc,
                tokens,
                Sign::CloseParen,
                from + 1,
                room,
            )?;
            Ok((
                Part {
                    sign,
                    form: PartForm::Call { args },
                },
                to,
            ))
        }
        Some(PartStart::Step(op)) => Ok((
            Part {
                sign,
                form: PartForm::Step { op },
            },
            from + 1,
        )),
        None => Err(ParseFault::Syntax { token: from }),
    }
}

/// Arguments, or none, and then the sign that closes them.
#[cycle(expr)]
pub fn read_closed_arguments(
    alloc: Global,
    tokens: &[Token],
    close: Sign,
    from: u32,
    room: u16,
) -> Result<(Vec<Expr>, u32), ParseFault>
    requires begins { from ≤ length tokens.now }
    requires few { length tokens.now < 2 ^ 32 }
    ensures found { IfOk result (λ r. Spells (inner room)
        (closed_arguments close) tokens.now from r.1 r.0.items) }
    ensures fails { IfErr result
        (λ f. Fails (inner room) (faults room) (closed_arguments close) tokens.now from f) }
    ensures moved { IfOk result (λ r. (from < r.1) × (r.1 ≤ length tokens.now)) }
    ensures within { IfErr result (λ f. token_of f ≤ length tokens.now) }
{
    if is_sign(tokens, from, close) {
        return Ok((Vec::new(alloc), from + 1));
    }
    let (all, at) = read_arguments(alloc, tokens, from, room)?;
    let (all, to) = followed(all, tokens, at, close)?;
    Ok((all, to))
}

/// One argument or more, parted by commas.
#[cycle(expr)]
pub fn read_arguments(
    alloc: Global,
    tokens: &[Token],
    from: u32,
    room: u16,
) -> Result<(Vec<Expr>, u32), ParseFault>
    requires begins { from ≤ length tokens.now }
    requires few { length tokens.now < 2 ^ 32 }
    ensures found { IfOk result (λ r. Spells
        (inner room) arguments_form tokens.now from r.1 r.0.items) }
    ensures fails { IfErr result
        (λ f. Fails (inner room) (faults room) arguments_form tokens.now from f) }
    ensures moved { IfOk result (λ r. (from < r.1) × (r.1 ≤ length tokens.now)) }
    ensures within { IfErr result (λ f. token_of f ≤ length tokens.now) }
{
    let (first, end) = read_inner_expr(alloc, tokens, from, room)?;
    let mut all = Vec::new(alloc);
    all.push(first)?;
    let mut at = end;
    'items: while is_comma_at(tokens, at) {
        let (next, end) = read_inner_expr(alloc, tokens, at + 1, room)?;
        all.push(next)?;
        at = end;
    }
    Ok((all, at))
}

// What operators and parts stand around: a literal, a name, `cin` or an expression in parentheses.
#[cycle(expr)]
fn read_primary(
    alloc: Global,
    tokens: &[Token],
    from: u32,
    room: u16,
) -> Result<(Expr, u32), ParseFault>
    requires begins { from ≤ length tokens.now }
    requires few { length tokens.now < 2 ^ 32 }
    ensures found { IfOk result (λ r. Spells (inner room) primary_form tokens.now from r.1 r.0) }
    ensures fails { IfErr result
        (λ f. Fails (inner room) (faults room) primary_form tokens.now from f) }
    ensures moved { IfOk result (λ r. (from < r.1) × (r.1 ≤ length tokens.now)) }
    ensures within { IfErr result (λ f. token_of f ≤ length tokens.now) }
{
    let pos = pos_at(tokens, from);
    match kind_at(tokens, from) {
        Some(TokenKind::Number(value)) => Ok((
            Expr {
                pos,
                form: ExprForm::Number { value: *value },
            },
            from + 1,
        )),
        Some(TokenKind::Character(byte)) => Ok((
            Expr {
                pos,
                form: ExprForm::Character { byte: *byte },
            },
            from + 1,
        )),
        Some(TokenKind::Name(name)) => {
            let name = name.copy(alloc)?;
            Ok((
                Expr {
                    pos,
                    form: ExprForm::Name { name },
                },
                from + 1,
            ))
        }
        Some(TokenKind::Word(Word::True)) => Ok((
            Expr {
                pos,
                form: ExprForm::Truth { value: true },
            },
            from + 1,
        )),
        Some(TokenKind::Word(Word::False)) => Ok((
            Expr {
                pos,
                form: ExprForm::Truth { value: false },
            },
            from + 1,
        )),
        Some(TokenKind::Word(Word::Cin)) => Ok((
            Expr {
                pos,
                form: ExprForm::Cin,
            },
            from + 1,
        )),
        Some(TokenKind::Sign(Sign::OpenParen)) => {
            let (e, at) = read_inner_expr(alloc, tokens, from + 1, room)?;
            let (e, to) = followed(e, tokens, at, Sign::CloseParen)?;
            Ok((e, to))
        }
        _ => Err(ParseFault::Syntax { token: from }),
    }
}

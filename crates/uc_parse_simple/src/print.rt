// Input and output.

ghost use Rattle.std.specs.Prelude.{◌+◌, ◌<◌, ◌≤◌, ◌^◌, IfOk, IfErr, Some, None, length};
ghost use Rattle.uc_grammar.specs.Form.{Spells, Fails};
ghost use Rattle.uc_parse_expr.specs.Faults.{token_of};
ghost use Rattle.uc_grammar.specs.Form.{look};
ghost use Rattle.uc_grammar.specs.Grammar.{out_at, out_form, outs_form, together_rest, cin_rest, inner, faults};
ghost use Rattle.uc_parse_simple.specs.Forms.{out_items_form, places_form};

use crate::peek::{is_in_at, is_out_at, text_at};
use std::alloc::Global;
use uc_grammar::fault::ParseFault;
use uc_parse_expr::behind::followed;
use uc_parse_expr::parse::{read_expr_from, read_postfix, read_sum};
use uc_parse_expr::peek::{expect_sign, expect_word, is_sign, is_word, pos_at};
use uc_tree::declare::{OutForm, OutItem};
use uc_tree::expr::{Expr, ExprForm};
use uc_tree::pos::Pos;
use uc_tree::stmt::{Stmt, StmtForm};
use uc_tree::token::{Sign, Token, Word};

// A printed item, with its `<<`.
fn read_out(
    alloc: Global,
    tokens: &[Token],
    from: u32,
    room: u16,
) -> Result<(OutItem, u32), ParseFault>
    requires begins { from ≤ length tokens.now }
    requires few { length tokens.now < 2 ^ 32 }
    ensures found { IfOk result (λ r. Spells (inner room) out_form tokens.now from r.1 r.0) }
    ensures fails { IfErr result
        (λ f. Fails (inner room) (faults room) out_form tokens.now from f) }
    ensures moved { IfOk result (λ r. (from < r.1) × (r.1 ≤ length tokens.now)) }
    ensures within { IfErr result (λ f. token_of f ≤ length tokens.now) }
{
    let sign = pos_at(tokens, from);
    let at = expect_sign(tokens, from, Sign::ShiftLeft)?;
    let (item, to) = read_item(alloc, tokens, sign, at, room)?;
    Ok((item, to))
}

// What stands behind a `<<`.
fn read_item(
    alloc: Global,
    tokens: &[Token],
    sign: Pos,
    from: u32,
    room: u16,
) -> Result<(OutItem, u32), ParseFault>
    requires begins { from ≤ length tokens.now }
    requires few { length tokens.now < 2 ^ 32 }
    ensures found { IfOk result (λ r. Spells (inner room)
        (look (out_at sign)) tokens.now from r.1 r.0) }
    ensures fails { IfErr result
        (λ f. Fails (inner room) (faults room) (look (out_at sign)) tokens.now from f) }
    ensures moved { IfOk result (λ r. (from < r.1) × (r.1 ≤ length tokens.now)) }
    ensures within { IfErr result (λ f. token_of f ≤ length tokens.now) }
{
    if is_word(tokens, from, Word::Endl) {
        return Ok((
            OutItem {
                sign,
                form: OutForm::Endl,
            },
            from + 1,
        ));
    }
    match text_at(tokens, from) {
        Some(text) => {
            let text = text.copy(alloc)?;
            Ok((
                OutItem {
                    sign,
                    form: OutForm::Literal { text },
                },
                from + 1,
            ))
        }
        None => {
            let (value, to) = read_sum(alloc, tokens, from, room)?;

            Ok((
                OutItem {
                    sign,
                    form: OutForm::Value { value },
                },
                to,
            ))
        }
    }
}

// One printed item or more.
fn read_items(
    alloc: Global,
    tokens: &[Token],
    from: u32,
    room: u16,
) -> Result<(Vec<OutItem>, u32), ParseFault>
    requires begins { from ≤ length tokens.now }
    requires few { length tokens.now < 2 ^ 32 }
    ensures found { IfOk result (λ r. Spells
        (inner room) out_items_form tokens.now from r.1 r.0.items) }
    ensures fails { IfErr result
        (λ f. Fails (inner room) (faults room) out_items_form tokens.now from f) }
    ensures moved { IfOk result (λ r. (from < r.1) × (r.1 ≤ length tokens.now)) }
    ensures within { IfErr result (λ f. token_of f ≤ length tokens.now) }
{
    let (first, end) = read_out(alloc, tokens, from, room)?;
    let mut all = Vec::new(alloc);
    all.push(first)?;
    let mut at = end;
    'items: while is_out_at(tokens, at) {
        let (next, end) = read_out(alloc, tokens, at, room)?;
        all.push(next)?;
        at = end;
    }
    Ok((all, at))
}

/// One printed item or more, and then `;`.
pub fn read_outs(
    alloc: Global,
    tokens: &[Token],
    from: u32,
    room: u16,
) -> Result<(Vec<OutItem>, u32), ParseFault>
    requires begins { from ≤ length tokens.now }
    requires few { length tokens.now < 2 ^ 32 }
    ensures found { IfOk result (λ r. Spells (inner room) outs_form tokens.now from r.1 r.0.items) }
    ensures fails { IfErr result
        (λ f. Fails (inner room) (faults room) outs_form tokens.now from f) }
    ensures moved { IfOk result (λ r. (from < r.1) × (r.1 ≤ length tokens.now)) }
    ensures within { IfErr result (λ f. token_of f ≤ length tokens.now) }
{
    let (items, at) = read_items(alloc, tokens, from, room)?;
    let (items, to) = followed(items, tokens, at, Sign::Semicolon)?;
    Ok((items, to))
}

/// What follows `osacquire`.
pub fn read_together(
    alloc: Global,
    tokens: &[Token],
    pos: Pos,
    from: u32,
    room: u16,
) -> Result<(Stmt, u32), ParseFault>
    requires begins { from ≤ length tokens.now }
    requires few { length tokens.now < 2 ^ 32 }
    ensures found { IfOk result (λ r. Spells (inner room)
        (together_rest pos) tokens.now from r.1 r.0) }
    ensures fails { IfErr result
        (λ f. Fails (inner room) (faults room) (together_rest pos) tokens.now from f) }
    ensures moved { IfOk result (λ r. (from < r.1) × (r.1 ≤ length tokens.now)) }
    ensures within { IfErr result (λ f. token_of f ≤ length tokens.now) }
{
    let open = expect_sign(tokens, from, Sign::OpenParen)?;
    let cout = expect_word(tokens, open, Word::Cout)?;
    let first = expect_sign(tokens, cout, Sign::CloseParen)?;
    let (items, to) = read_outs(alloc, tokens, first, room)?;
    Ok((
        Stmt {
            pos,
            form: StmtForm::PrintTogether { items },
        },
        to,
    ))
}

// One place that is read or more, parted by `>>`.
fn read_places(
    alloc: Global,
    tokens: &[Token],
    from: u32,
    room: u16,
) -> Result<(Vec<Expr>, u32), ParseFault>
    requires begins { from ≤ length tokens.now }
    requires few { length tokens.now < 2 ^ 32 }
    ensures found { IfOk result (λ r. Spells (inner room) places_form tokens.now from r.1 r.0.items) }
    ensures fails { IfErr result
        (λ f. Fails (inner room) (faults room) places_form tokens.now from f) }
    ensures moved { IfOk result (λ r. (from < r.1) × (r.1 ≤ length tokens.now)) }
    ensures within { IfErr result (λ f. token_of f ≤ length tokens.now) }
{
    let (first, end) = read_postfix(alloc, tokens, from, room)?;
    let mut all = Vec::new(alloc);
    all.push(first)?;
    let mut at = end;
    'items: while is_in_at(tokens, at) {
        let (next, end) = read_postfix(alloc, tokens, at + 1, room)?;
        all.push(next)?;
        at = end;
    }
    Ok((all, at))
}

/// What follows `cin`: places that are read, or the rest of an expression.
pub fn read_cin(
    alloc: Global,
    tokens: &[Token],
    pos: Pos,
    from: u32,
    room: u16,
) -> Result<(Stmt, u32), ParseFault>
    requires begins { from ≤ length tokens.now }
    requires few { length tokens.now < 2 ^ 32 }
    ensures found { IfOk result (λ r. Spells (inner room) (cin_rest pos) tokens.now from r.1 r.0) }
    ensures fails { IfErr result
        (λ f. Fails (inner room) (faults room) (cin_rest pos) tokens.now from f) }
    ensures moved { IfOk result (λ r. (from < r.1) × (r.1 ≤ length tokens.now)) }
    ensures within { IfErr result (λ f. token_of f ≤ length tokens.now) }
{
    if is_sign(tokens, from, Sign::ShiftRight) {
        let (places, at) = read_places(alloc, tokens, from + 1, room)?;
        let (places, to) = followed(places, tokens, at, Sign::Semicolon)?;
        return Ok((
            Stmt {
                pos,
                form: StmtForm::Read { places },
            },
            to,
        ));
    }
    let primary = Expr {
        pos,
        form: ExprForm::Cin,
    };
    let (value, at) = read_expr_from(alloc, tokens, pos, primary, from, room)?;
    let (value, to) = followed(value, tokens, at, Sign::Semicolon)?;
    Ok((
        Stmt {
            pos,
            form: StmtForm::Evaluate { value },
        },
        to,
    ))
}

// Events: what handlers take, what is raised, and the names that `_Enable`, `_Disable` and `_Accept` list.

ghost use Rattle.std.specs.Prelude.{◌+◌, ◌<◌, ◌≤◌, ◌^◌, IfOk, IfErr, Some, None, length};
ghost use Rattle.uc_grammar.specs.Form.{Spells, Fails};
ghost use Rattle.uc_parse_expr.specs.Faults.{token_of};
ghost use Rattle.uc_grammar.specs.Grammar.{maybe_name_closed, caught_form, raised_form, event_form, events_form, member_name_form, members_form, guard_form, condition_form, inner, faults};
ghost use Rattle.uc_parse_simple.specs.Parts.{caught_of};
ghost use Rattle.uc_parse_simple.specs.Forms.{one_event_form, member_names_form};

use crate::peek::{is_less_at, skip_sign};
use std::alloc::Global;
use uc_grammar::fault::ParseFault;
use uc_parse_expr::behind::followed;
use uc_parse_expr::ops::is_comma_at;
use uc_parse_expr::parse::{read_closed_arguments, read_expr};
use uc_parse_expr::peek::{expect_sign, expect_word, is_sign, is_word, pos_at, read_name};
use uc_tree::declare::Raised;
use uc_tree::expr::Expr;
use uc_tree::kinds::{EventName, MemberName};
use uc_tree::name::Name;
use uc_tree::token::{Sign, Token, Word};

/// What a handler takes: one event, or any where none is named, and the name that it gives it.
#[derive(Drop)]
pub struct Caught {
    pub event: Option<Name>,
    pub param: Option<Name>,
}

// A name or none, and then `)`.
fn read_param_name(
    alloc: Global,
    tokens: &[Token],
    from: u32,
    room: u16,
) -> Result<(Option<Name>, u32), ParseFault>
    requires begins { from ≤ length tokens.now }
    requires few { length tokens.now < 2 ^ 32 }
    ensures found { IfOk result (λ r. Spells (inner room) maybe_name_closed tokens.now from r.1 r.0) }
    ensures fails { IfErr result
        (λ f. Fails (inner room) (faults room) maybe_name_closed tokens.now from f) }
    ensures moved { IfOk result (λ r. (from < r.1) × (r.1 ≤ length tokens.now)) }
    ensures within { IfErr result (λ f. token_of f ≤ length tokens.now) }
{
    if is_sign(tokens, from, Sign::CloseParen) {
        return Ok((None, from + 1));
    }
    let (name, at) = read_name(alloc, tokens, from)?;
    let to = expect_sign(tokens, at, Sign::CloseParen)?;
    Ok((Some(name), to))
}

/// What a handler takes, and then `)`.
pub fn read_caught(
    alloc: Global,
    tokens: &[Token],
    from: u32,
    room: u16,
) -> Result<(Caught, u32), ParseFault>
    requires begins { from ≤ length tokens.now }
    requires few { length tokens.now < 2 ^ 32 }
    ensures found { IfOk result (λ r. Spells (inner room) caught_form tokens.now from r.1
        (caught_of r.0)) }
    ensures fails { IfErr result
        (λ f. Fails (inner room) (faults room) caught_form tokens.now from f) }
    ensures moved { IfOk result (λ r. (from < r.1) × (r.1 ≤ length tokens.now)) }
    ensures within { IfErr result (λ f. token_of f ≤ length tokens.now) }
{
    if is_sign(tokens, from, Sign::Ellipsis) {
        let to = expect_sign(tokens, from + 1, Sign::CloseParen)?;
        return Ok((
            Caught {
                event: None,
                param: None,
            },
            to,
        ));
    }
    let (caught, to) = read_one_event(alloc, tokens, from, room)?;
    Ok((caught, to))
}

// One event that a handler takes, and then `)`.
fn read_one_event(
    alloc: Global,
    tokens: &[Token],
    from: u32,
    room: u16,
) -> Result<(Caught, u32), ParseFault>
    requires begins { from ≤ length tokens.now }
    requires few { length tokens.now < 2 ^ 32 }
    ensures found { IfOk result (λ r. Spells (inner room) one_event_form tokens.now from r.1
        (caught_of r.0)) }
    ensures fails { IfErr result
        (λ f. Fails (inner room) (faults room) one_event_form tokens.now from f) }
    ensures moved { IfOk result (λ r. (from < r.1) × (r.1 ≤ length tokens.now)) }
    ensures within { IfErr result (λ f. token_of f ≤ length tokens.now) }
{
    let (name, at) = read_name(alloc, tokens, from)?;
    let (_, after) = skip_sign(tokens, at, Sign::And);
    let (param, to) = read_param_name(alloc, tokens, after, room)?;
    Ok((
        Caught {
            event: Some(name),
            param,
        },
        to,
    ))
}

/// An event that is raised, with its arguments.
pub fn read_raised(
    alloc: Global,
    tokens: &[Token],
    from: u32,
    room: u16,
) -> Result<(Raised, u32), ParseFault>
    requires begins { from ≤ length tokens.now }
    requires few { length tokens.now < 2 ^ 32 }
    ensures found { IfOk result (λ r. Spells (inner room) raised_form tokens.now from r.1 r.0) }
    ensures fails { IfErr result
        (λ f. Fails (inner room) (faults room) raised_form tokens.now from f) }
    ensures moved { IfOk result (λ r. (from < r.1) × (r.1 ≤ length tokens.now)) }
    ensures within { IfErr result (λ f. token_of f ≤ length tokens.now) }
{
    let pos = pos_at(tokens, from);
    let (name, at) = read_name(alloc, tokens, from)?;
    let open = expect_sign(tokens, at, Sign::OpenParen)?;
    let (args, to) = read_closed_arguments(alloc, tokens, Sign::CloseParen, open, room)?;
    Ok((Raised { pos, name, args }, to))
}

// A name between `<`, which stands at `from`, and `>`.
fn read_event(
    alloc: Global,
    tokens: &[Token],
    from: u32,
    room: u16,
) -> Result<(EventName, u32), ParseFault>
    requires begins { from ≤ length tokens.now }
    requires few { length tokens.now < 2 ^ 32 }
    requires begun { from < length tokens.now }
    ensures found { IfOk result (λ r. Spells (inner room) event_form tokens.now from r.1 r.0) }
    ensures fails { IfErr result
        (λ f. Fails (inner room) (faults room) event_form tokens.now from f) }
    ensures moved { IfOk result (λ r. (from < r.1) × (r.1 ≤ length tokens.now)) }
    ensures within { IfErr result (λ f. token_of f ≤ length tokens.now) }
{
    let pos = pos_at(tokens, from + 1);
    let (name, at) = read_name(alloc, tokens, from + 1)?;
    let to = expect_sign(tokens, at, Sign::Greater)?;
    Ok((EventName { pos, name }, to))
}

/// Names in `<` and `>`, as long as they go on.
pub fn read_events(
    alloc: Global,
    tokens: &[Token],
    from: u32,
    room: u16,
) -> Result<(Vec<EventName>, u32), ParseFault>
    requires begins { from ≤ length tokens.now }
    requires few { length tokens.now < 2 ^ 32 }
    ensures found { IfOk result (λ r. Spells (inner room) events_form tokens.now from r.1 r.0.items) }
    ensures fails { IfErr result
        (λ f. Fails (inner room) (faults room) events_form tokens.now from f) }
    ensures moved { IfOk result (λ r. (from ≤ r.1) × (r.1 ≤ length tokens.now)) }
    ensures within { IfErr result (λ f. token_of f ≤ length tokens.now) }
{
    let mut all = Vec::new(alloc);
    let mut at = from;
    'items: while is_less_at(tokens, at) {
        let (next, end) = read_event(alloc, tokens, at, room)?;
        all.push(next)?;
        at = end;
    }
    Ok((all, at))
}

// A member that an accept clause lists.
fn read_member_name(
    alloc: Global,
    tokens: &[Token],
    from: u32,
    room: u16,
) -> Result<(MemberName, u32), ParseFault>
    requires begins { from ≤ length tokens.now }
    requires few { length tokens.now < 2 ^ 32 }
    ensures found { IfOk result (λ r. Spells (inner room) member_name_form tokens.now from r.1 r.0) }
    ensures fails { IfErr result
        (λ f. Fails (inner room) (faults room) member_name_form tokens.now from f) }
    ensures moved { IfOk result (λ r. (from < r.1) × (r.1 ≤ length tokens.now)) }
    ensures within { IfErr result (λ f. token_of f ≤ length tokens.now) }
{
    let (destructor, at) = skip_sign(tokens, from, Sign::Tilde);
    let (name, to) = read_name(alloc, tokens, at)?;
    Ok((MemberName { destructor, name }, to))
}

// One such member or more, parted by commas.
fn read_member_names(
    alloc: Global,
    tokens: &[Token],
    from: u32,
    room: u16,
) -> Result<(Vec<MemberName>, u32), ParseFault>
    requires begins { from ≤ length tokens.now }
    requires few { length tokens.now < 2 ^ 32 }
    ensures found { IfOk result (λ r. Spells
        (inner room) member_names_form tokens.now from r.1 r.0.items) }
    ensures fails { IfErr result
        (λ f. Fails (inner room) (faults room) member_names_form tokens.now from f) }
    ensures moved { IfOk result (λ r. (from < r.1) × (r.1 ≤ length tokens.now)) }
    ensures within { IfErr result (λ f. token_of f ≤ length tokens.now) }
{
    let (first, end) = read_member_name(alloc, tokens, from, room)?;
    let mut all = Vec::new(alloc);
    all.push(first)?;
    let mut at = end;
    'items: while is_comma_at(tokens, at) {
        let (next, end) = read_member_name(alloc, tokens, at + 1, room)?;
        all.push(next)?;
        at = end;
    }
    Ok((all, at))
}

/// `_Accept` and the members that it lists.
pub fn read_members(
    alloc: Global,
    tokens: &[Token],
    from: u32,
    room: u16,
) -> Result<(Vec<MemberName>, u32), ParseFault>
    requires begins { from ≤ length tokens.now }
    requires few { length tokens.now < 2 ^ 32 }
    ensures found { IfOk result (λ r. Spells
        (inner room) members_form tokens.now from r.1 r.0.items) }
    ensures fails { IfErr result
        (λ f. Fails (inner room) (faults room) members_form tokens.now from f) }
    ensures moved { IfOk result (λ r. (from < r.1) × (r.1 ≤ length tokens.now)) }
    ensures within { IfErr result (λ f. token_of f ≤ length tokens.now) }
{
    let open = expect_word(tokens, from, Word::Accept)?;
    let first = expect_sign(tokens, open, Sign::OpenParen)?;
    let (members, at) = read_member_names(alloc, tokens, first, room)?;
    let to = expect_sign(tokens, at, Sign::CloseParen)?;
    Ok((members, to))
}

/// An expression in parentheses.
pub fn read_condition(
    alloc: Global,
    tokens: &[Token],
    from: u32,
    room: u16,
) -> Result<(Expr, u32), ParseFault>
    requires begins { from ≤ length tokens.now }
    requires few { length tokens.now < 2 ^ 32 }
    ensures found { IfOk result (λ r. Spells (inner room) condition_form tokens.now from r.1 r.0) }
    ensures fails { IfErr result
        (λ f. Fails (inner room) (faults room) condition_form tokens.now from f) }
    ensures moved { IfOk result (λ r. (from < r.1) × (r.1 ≤ length tokens.now)) }
    ensures within { IfErr result (λ f. token_of f ≤ length tokens.now) }
{
    let at = expect_sign(tokens, from, Sign::OpenParen)?;
    let (test, end) = read_expr(alloc, tokens, at, room)?;
    let (test, to) = followed(test, tokens, end, Sign::CloseParen)?;
    Ok((test, to))
}

/// The guard of a clause, or none.
pub fn read_guard(
    alloc: Global,
    tokens: &[Token],
    from: u32,
    room: u16,
) -> Result<(Option<Expr>, u32), ParseFault>
    requires begins { from ≤ length tokens.now }
    requires few { length tokens.now < 2 ^ 32 }
    ensures found { IfOk result (λ r. Spells (inner room) guard_form tokens.now from r.1 r.0) }
    ensures fails { IfErr result
        (λ f. Fails (inner room) (faults room) guard_form tokens.now from f) }
    ensures moved { IfOk result (λ r. (from ≤ r.1) × (r.1 ≤ length tokens.now)) }
    ensures within { IfErr result (λ f. token_of f ≤ length tokens.now) }
{
    if !is_word(tokens, from, Word::When) {
        return Ok((None, from));
    }
    let (guard, to) = read_condition(alloc, tokens, from + 1, room)?;
    Ok((Some(guard), to))
}

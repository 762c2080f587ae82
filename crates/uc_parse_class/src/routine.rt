// Routines: bases, parameters, initialisers and bodies.

ghost use Rattle.std.specs.Prelude.{◌<◌, ◌≤◌, ◌^◌, IfOk, IfErr, length};
ghost use Rattle.uc_grammar.specs.Form.{Spells, Fails};
ghost use Rattle.uc_parse_expr.specs.Faults.{token_of};
ghost use Rattle.uc_grammar.specs.Grammar.{base_form, param_form, params_rest, params_form, init_form, inits_form, plain_form, maker_form, inner, faults};
ghost use Rattle.uc_parse_class.specs.Forms.{param_list_form, init_list_form};

use std::alloc::Global;
use uc_grammar::fault::ParseFault;
use uc_parse_expr::ops::is_comma_at;
use uc_parse_expr::parse::read_closed_arguments;
use uc_parse_expr::peek::{expect_sign, is_sign, pos_at, read_name};
use uc_parse_simple::peek::{base_at, skip_sign};
use uc_parse_stmt::parse::read_block;
use uc_tree::class::{Init, Routine, Sig};
use uc_tree::kinds::{Base, Param};
use uc_tree::token::{Sign, Token};

// A base.
fn read_base(
    alloc: Global,
    tokens: &[Token],
    from: u32,
    room: u16,
) -> Result<(Base, u32), ParseFault>
    requires begins { from ≤ length tokens.now }
    requires few { length tokens.now < 2 ^ 32 }
    ensures found { IfOk result (λ r. Spells (inner room) base_form tokens.now from r.1 r.0) }
    ensures fails { IfErr result
        (λ f. Fails (inner room) (faults room) base_form tokens.now from f) }
    ensures moved { IfOk result (λ r. (from < r.1) × (r.1 ≤ length tokens.now)) }
    ensures within { IfErr result (λ f. token_of f ≤ length tokens.now) }
{
    match base_at(tokens, from) {
        Some(base) => Ok((base, from + 1)),
        None => {
            let (name, to) = read_name(alloc, tokens, from)?;
            Ok((Base::Named(name), to))
        }
    }
}

// A parameter.
fn read_param(
    alloc: Global,
    tokens: &[Token],
    from: u32,
    room: u16,
) -> Result<(Param, u32), ParseFault>
    requires begins { from ≤ length tokens.now }
    requires few { length tokens.now < 2 ^ 32 }
    ensures found { IfOk result (λ r. Spells (inner room) param_form tokens.now from r.1 r.0) }
    ensures fails { IfErr result
        (λ f. Fails (inner room) (faults room) param_form tokens.now from f) }
    ensures moved { IfOk result (λ r. (from < r.1) × (r.1 ≤ length tokens.now)) }
    ensures within { IfErr result (λ f. token_of f ≤ length tokens.now) }
{
    let pos = pos_at(tokens, from);
    let (base, at) = read_base(alloc, tokens, from, room)?;
    let (by_ref, end) = skip_sign(tokens, at, Sign::And);
    let (name, to) = read_name(alloc, tokens, end)?;
    Ok((
        Param {
            pos,
            base,
            by_ref,
            name,
        },
        to,
    ))
}

// One parameter or more, parted by commas.
fn read_param_list(
    alloc: Global,
    tokens: &[Token],
    from: u32,
    room: u16,
) -> Result<(Vec<Param>, u32), ParseFault>
    requires begins { from ≤ length tokens.now }
    requires few { length tokens.now < 2 ^ 32 }
    ensures found { IfOk result (λ r. Spells
        (inner room) param_list_form tokens.now from r.1 r.0.items) }
    ensures fails { IfErr result
        (λ f. Fails (inner room) (faults room) param_list_form tokens.now from f) }
    ensures moved { IfOk result (λ r. (from < r.1) × (r.1 ≤ length tokens.now)) }
    ensures within { IfErr result (λ f. token_of f ≤ length tokens.now) }
{
    let (first, end) = read_param(alloc, tokens, from, room)?;
    let mut all = Vec::new(alloc);
    all.push(first)?;
    let mut at = end;
    'items: while is_comma_at(tokens, at) {
        let (next, end) = read_param(alloc, tokens, at + 1, room)?;
        all.push(next)?;
        at = end;
    }
    Ok((all, at))
}

/// What follows the `(` of parameters.
pub fn read_params_rest(
    alloc: Global,
    tokens: &[Token],
    from: u32,
    room: u16,
) -> Result<(Vec<Param>, u32), ParseFault>
    requires begins { from ≤ length tokens.now }
    requires few { length tokens.now < 2 ^ 32 }
    ensures found { IfOk result (λ r. Spells (inner room) params_rest tokens.now from r.1 r.0.items) }
    ensures fails { IfErr result
        (λ f. Fails (inner room) (faults room) params_rest tokens.now from f) }
    ensures moved { IfOk result (λ r. (from < r.1) × (r.1 ≤ length tokens.now)) }
    ensures within { IfErr result (λ f. token_of f ≤ length tokens.now) }
{
    if is_sign(tokens, from, Sign::CloseParen) {
        return Ok((Vec::new(alloc), from + 1));
    }
    let (all, at) = read_param_list(alloc, tokens, from, room)?;
    let to = expect_sign(tokens, at, Sign::CloseParen)?;
    Ok((all, to))
}

/// Parameters in parentheses.
pub fn read_params(
    alloc: Global,
    tokens: &[Token],
    from: u32,
    room: u16,
) -> Result<(Vec<Param>, u32), ParseFault>
    requires begins { from ≤ length tokens.now }
    requires few { length tokens.now < 2 ^ 32 }
    ensures found { IfOk result (λ r. Spells (inner room) params_form tokens.now from r.1 r.0.items) }
    ensures fails { IfErr result
        (λ f. Fails (inner room) (faults room) params_form tokens.now from f) }
    ensures moved { IfOk result (λ r. (from < r.1) × (r.1 ≤ length tokens.now)) }
    ensures within { IfErr result (λ f. token_of f ≤ length tokens.now) }
{
    let at = expect_sign(tokens, from, Sign::OpenParen)?;
    let (all, to) = read_params_rest(alloc, tokens, at, room)?;
    Ok((all, to))
}

// An initialiser.
fn read_init(
    alloc: Global,
    tokens: &[Token],
    from: u32,
    room: u16,
) -> Result<(Init, u32), ParseFault>
    requires begins { from ≤ length tokens.now }
    requires few { length tokens.now < 2 ^ 32 }
    ensures found { IfOk result (λ r. Spells (inner room) init_form tokens.now from r.1 r.0) }
    ensures fails { IfErr result
        (λ f. Fails (inner room) (faults room) init_form tokens.now from f) }
    ensures moved { IfOk result (λ r. (from < r.1) × (r.1 ≤ length tokens.now)) }
    ensures within { IfErr result (λ f. token_of f ≤ length tokens.now) }
{
    let pos = pos_at(tokens, from);
    let (name, at) = read_name(alloc, tokens, from)?;
    let open = expect_sign(tokens, at, Sign::OpenParen)?;
    let (args, to) = read_closed_arguments(alloc, tokens, Sign::CloseParen, open, room)?;
    Ok((Init { pos, name, args }, to))
}

// One initialiser or more, parted by commas.
fn read_init_list(
    alloc: Global,
    tokens: &[Token],
    from: u32,
    room: u16,
) -> Result<(Vec<Init>, u32), ParseFault>
    requires begins { from ≤ length tokens.now }
    requires few { length tokens.now < 2 ^ 32 }
    ensures found { IfOk result (λ r. Spells
        (inner room) init_list_form tokens.now from r.1 r.0.items) }
    ensures fails { IfErr result
        (λ f. Fails (inner room) (faults room) init_list_form tokens.now from f) }
    ensures moved { IfOk result (λ r. (from < r.1) × (r.1 ≤ length tokens.now)) }
    ensures within { IfErr result (λ f. token_of f ≤ length tokens.now) }
{
    let (first, end) = read_init(alloc, tokens, from, room)?;
    let mut all = Vec::new(alloc);
    all.push(first)?;
    let mut at = end;
    'items: while is_comma_at(tokens, at) {
        let (next, end) = read_init(alloc, tokens, at + 1, room)?;
        all.push(next)?;
        at = end;
    }
    Ok((all, at))
}

// The initialisers of a constructor or a destructor, or none.
fn read_inits(
    alloc: Global,
    tokens: &[Token],
    from: u32,
    room: u16,
) -> Result<(Vec<Init>, u32), ParseFault>
    requires begins { from ≤ length tokens.now }
    requires few { length tokens.now < 2 ^ 32 }
    ensures found { IfOk result (λ r. Spells (inner room) inits_form tokens.now from r.1 r.0.items) }
    ensures fails { IfErr result
        (λ f. Fails (inner room) (faults room) inits_form tokens.now from f) }
    ensures moved { IfOk result (λ r. (from ≤ r.1) × (r.1 ≤ length tokens.now)) }
    ensures within { IfErr result (λ f. token_of f ≤ length tokens.now) }
{
    if !is_sign(tokens, from, Sign::Colon) {
        return Ok((Vec::new(alloc), from));
    }
    let (all, to) = read_init_list(alloc, tokens, from + 1, room)?;
    Ok((all, to))
}

/// The body of a routine with this signature.
pub fn read_plain(
    alloc: Global,
    tokens: &[Token],
    sig: Sig,
    from: u32,
    room: u16,
) -> Result<(Routine, u32), ParseFault>
    requires begins { from ≤ length tokens.now }
    requires few { length tokens.now < 2 ^ 32 }
    ensures found { IfOk result (λ r. Spells (inner room) (plain_form sig) tokens.now from r.1 r.0) }
    ensures fails { IfErr result
        (λ f. Fails (inner room) (faults room) (plain_form sig) tokens.now from f) }
    ensures moved { IfOk result (λ r. (from < r.1) × (r.1 ≤ length tokens.now)) }
    ensures within { IfErr result (λ f. token_of f ≤ length tokens.now) }
{
    let (block, to) = read_block(alloc, tokens, from, room)?;
    Ok((
        Routine {
            sig,
            inits: Vec::new(alloc),
            brace: block.brace,
            body: block.body,
        },
        to,
    ))
}

/// The initialisers and the body of a constructor or a destructor with this signature.
pub fn read_maker(
    alloc: Global,
    tokens: &[Token],
    sig: Sig,
    from: u32,
    room: u16,
) -> Result<(Routine, u32), ParseFault>
    requires begins { from ≤ length tokens.now }
    requires few { length tokens.now < 2 ^ 32 }
    ensures found { IfOk result (λ r. Spells (inner room) (maker_form sig) tokens.now from r.1 r.0) }
    ensures fails { IfErr result
        (λ f. Fails (inner room) (faults room) (maker_form sig) tokens.now from f) }
    ensures moved { IfOk result (λ r. (from < r.1) × (r.1 ≤ length tokens.now)) }
    ensures within { IfErr result (λ f. token_of f ≤ length tokens.now) }
{
    let (inits, at) = read_inits(alloc, tokens, from, room)?;
    let (block, to) = read_block(alloc, tokens, at, room)?;
    Ok((
        Routine {
            sig,
            inits,
            brace: block.brace,
            body: block.body,
        },
        to,
    ))
}

// Items of programs: classes, constants and routines.

ghost use Rattle.std.specs.Prelude.{◌<◌, ◌≤◌, ◌^◌, IfOk, IfErr, length};
ghost use Rattle.uc_grammar.specs.Form.{Spells, Fails};
ghost use Rattle.uc_parse_expr.specs.Faults.{token_of};
ghost use Rattle.uc_grammar.specs.Spell.{kind_at};
ghost use Rattle.uc_grammar.specs.Tables.{base_of, word_of};
ghost use Rattle.uc_grammar.specs.Grammar.{using_rest, constant_rest, item_end, free_routine, outer_routine, based_item, outer_maker, word_item, item_form, inner, faults};
ghost use Rattle.uc_parse_class.specs.Forms.{value_form, outer_after, maker_after, based_after, named_item};

use crate::class::read_class;
use crate::peek::read_scalar;
use crate::routine::{read_maker, read_params, read_plain};
use std::alloc::Global;
use uc_grammar::fault::ParseFault;
use uc_parse_expr::behind::{followed, kept};
use uc_parse_expr::parse::read_expr;
use uc_parse_expr::peek::{expect_sign, expect_word, is_sign, kind_at, pos_at, read_name};
use uc_parse_simple::peek::{base_at, skip_sign};
use uc_tree::class::Sig;
use uc_tree::expr::Expr;
use uc_tree::kinds::{Base, Owner, Role};
use uc_tree::name::Name;
use uc_tree::pos::Pos;
use uc_tree::program::{Constant, Item, ItemForm};
use uc_tree::token::{Sign, Token, TokenKind, Word};

// What follows `using`.
fn read_using(tokens: &[Token], pos: Pos, from: u32, room: u16) -> Result<(Item, u32), ParseFault>
    requires begins { from ≤ length tokens.now }
    requires few { length tokens.now < 2 ^ 32 }
    ensures found { IfOk result (λ r. Spells (inner room) (using_rest pos) tokens.now from r.1 r.0) }
    ensures fails { IfErr result
        (λ f. Fails (inner room) (faults room) (using_rest pos) tokens.now from f) }
    ensures moved { IfOk result (λ r. (from < r.1) × (r.1 ≤ length tokens.now)) }
    ensures within { IfErr result (λ f. token_of f ≤ length tokens.now) }
{
    let namespace = expect_word(tokens, from, Word::Namespace)?;
    let std = expect_word(tokens, namespace, Word::Std)?;
    let to = expect_sign(tokens, std, Sign::Semicolon)?;
    Ok((
        Item {
            form: ItemForm::Using { pos },
        },
        to,
    ))
}

// The value of a constant, between `=` and `;`.
fn read_value(
    alloc: Global,
    tokens: &[Token],
    from: u32,
    room: u16,
) -> Result<(Expr, u32), ParseFault>
    requires begins { from ≤ length tokens.now }
    requires few { length tokens.now < 2 ^ 32 }
    ensures found { IfOk result (λ r. Spells (inner room) value_form tokens.now from r.1 r.0) }
    ensures fails { IfErr result
        (λ f. Fails (inner room) (faults room) value_form tokens.now from f) }
    ensures moved { IfOk result (λ r. (from < r.1) × (r.1 ≤ length tokens.now)) }
    ensures within { IfErr result (λ f. token_of f ≤ length tokens.now) }
{
    let at = expect_sign(tokens, from, Sign::Assign)?;
    let (value, end) = read_expr(alloc, tokens, at, room)?;
    let (value, to) = followed(value, tokens, end, Sign::Semicolon)?;
    Ok((value, to))
}

// What follows `const`.
fn read_constant(
    alloc: Global,
    tokens: &[Token],
    pos: Pos,
    from: u32,
    room: u16,
) -> Result<(Item, u32), ParseFault>
    requires begins { from ≤ length tokens.now }
    requires few { length tokens.now < 2 ^ 32 }
    ensures found { IfOk result (λ r. Spells (inner room)
        (constant_rest pos) tokens.now from r.1 r.0) }
    ensures fails { IfErr result
        (λ f. Fails (inner room) (faults room) (constant_rest pos) tokens.now from f) }
    ensures moved { IfOk result (λ r. (from < r.1) × (r.1 ≤ length tokens.now)) }
    ensures within { IfErr result (λ f. token_of f ≤ length tokens.now) }
{
    let (base, at) = read_scalar(tokens, from)?;
    let (name, end) = read_name(alloc, tokens, at)?;
    let (name, (value, to)) = kept(name, read_value(alloc, tokens, end, room))?;
    let constant = Constant {
        pos,
        base,
        name,
        value,
    };
    Ok((
        Item {
            form: ItemForm::Constant { constant },
        },
        to,
    ))
}

// What follows the signature of a routine: `;` or a body.
fn read_item_end(
    alloc: Global,
    tokens: &[Token],
    sig: Sig,
    from: u32,
    room: u16,
) -> Result<(Item, u32), ParseFault>
    requires begins { from ≤ length tokens.now }
    requires few { length tokens.now < 2 ^ 32 }
    ensures found { IfOk result (λ r. Spells (inner room) (item_end sig) tokens.now from r.1 r.0) }
    ensures fails { IfErr result
        (λ f. Fails (inner room) (faults room) (item_end sig) tokens.now from f) }
    ensures moved { IfOk result (λ r. (from < r.1) × (r.1 ≤ length tokens.now)) }
    ensures within { IfErr result (λ f. token_of f ≤ length tokens.now) }
{
    if is_sign(tokens, from, Sign::Semicolon) {
        return Ok((
            Item {
                form: ItemForm::Proto { sig },
            },
            from + 1,
        ));
    }
    let (routine, to) = read_plain(alloc, tokens, sig, from, room)?;
    Ok((
        Item {
            form: ItemForm::Routine { routine },
        },
        to,
    ))
}

// What follows the name of a routine outside of classes.
fn read_free_routine(
    alloc: Global,
    tokens: &[Token],
    pos: Pos,
    base: Base,
    name: Name,
    from: u32,
    room: u16,
) -> Result<(Item, u32), ParseFault>
    requires begins { from ≤ length tokens.now }
    requires few { length tokens.now < 2 ^ 32 }
    ensures found { IfOk result (λ r. Spells (inner room)
        (free_routine pos base name) tokens.now from r.1 r.0) }
    ensures fails { IfErr result
        (λ f. Fails (inner room) (faults room) (free_routine pos base name) tokens.now from f) }
    ensures moved { IfOk result (λ r. (from < r.1) × (r.1 ≤ length tokens.now)) }
    ensures within { IfErr result (λ f. token_of f ≤ length tokens.now) }
{
    let (params, at) = read_params(alloc, tokens, from, room)?;
    let sig = Sig {
        pos,
        owner: Owner::Here,
        role: Role::Plain,
        ret: base,
        name,
        params,
    };
    let (item, to) = read_item_end(alloc, tokens, sig, at, room)?;
    Ok((item, to))
}

// What follows the name of a routine that is defined outside its class.
fn read_outer_after(
    alloc: Global,
    tokens: &[Token],
    pos: Pos,
    base: Base,
    owner: Owner,
    name: Name,
    from: u32,
    room: u16,
) -> Result<(Item, u32), ParseFault>
    requires begins { from ≤ length tokens.now }
    requires few { length tokens.now < 2 ^ 32 }
    ensures found { IfOk result (λ r. Spells (inner room)
        (outer_after pos base owner name) tokens.now from r.1 r.0) }
    ensures fails { IfErr result
        (λ f. Fails (inner room) (faults room) (outer_after pos base owner name) tokens.now from f) }
    ensures moved { IfOk result (λ r. (from < r.1) × (r.1 ≤ length tokens.now)) }
    ensures within { IfErr result (λ f. token_of f ≤ length tokens.now) }
{
    let (params, at) = read_params(alloc, tokens, from, room)?;
    let sig = Sig {
        pos,
        owner,
        role: Role::Plain,
        ret: base,
        name,
        params,
    };
    let (routine, to) = read_plain(alloc, tokens, sig, at, room)?;
    Ok((
        Item {
            form: ItemForm::Routine { routine },
        },
        to,
    ))
}

// What follows the `::` of a routine that is defined outside its class.
fn read_outer_routine(
    alloc: Global,
    tokens: &[Token],
    pos: Pos,
    base: Base,
    owner: Owner,
    from: u32,
    room: u16,
) -> Result<(Item, u32), ParseFault>
    requires begins { from ≤ length tokens.now }
    requires few { length tokens.now < 2 ^ 32 }
    ensures found { IfOk result (λ r. Spells (inner room)
        (outer_routine pos base owner) tokens.now from r.1 r.0) }
    ensures fails { IfErr result
        (λ f. Fails (inner room) (faults room) (outer_routine pos base owner) tokens.now from f) }
    ensures moved { IfOk result (λ r. (from < r.1) × (r.1 ≤ length tokens.now)) }
    ensures within { IfErr result (λ f. token_of f ≤ length tokens.now) }
{
    let (name, at) = read_name(alloc, tokens, from)?;
    let (item, to) = read_outer_after(alloc, tokens, pos, base, owner, name, at, room)?;
    Ok((item, to))
}

// What follows the first name behind a base: a member of the class of this name, or a routine.
fn read_based_after(
    alloc: Global,
    tokens: &[Token],
    pos: Pos,
    base: Base,
    name: &Name,
    from: u32,
    room: u16,
) -> Result<(Item, u32), ParseFault>
    requires begins { from ≤ length tokens.now }
    requires few { length tokens.now < 2 ^ 32 }
    ensures found { IfOk result (λ r. Spells (inner room)
        (based_after pos base name.now) tokens.now from r.1 r.0) }
    ensures fails { IfErr result
        (λ f. Fails (inner room) (faults room) (based_after pos base name.now) tokens.now from f) }
    ensures moved { IfOk result (λ r. (from < r.1) × (r.1 ≤ length tokens.now)) }
    ensures within { IfErr result (λ f. token_of f ≤ length tokens.now) }
{
    let name = name.copy(alloc)?;
    if is_sign(tokens, from, Sign::Scope) {
        let owner = Owner::Class(name);
        return read_outer_routine(alloc, tokens, pos, base, owner, from + 1, room);
    }
    read_free_routine(alloc, tokens, pos, base, name, from, room)
}

// What follows the base of a routine.
fn read_based_item(
    alloc: Global,
    tokens: &[Token],
    pos: Pos,
    base: Base,
    from: u32,
    room: u16,
) -> Result<(Item, u32), ParseFault>
    requires begins { from ≤ length tokens.now }
    requires few { length tokens.now < 2 ^ 32 }
    ensures found { IfOk result (λ r. Spells (inner room)
        (based_item pos base) tokens.now from r.1 r.0) }
    ensures fails { IfErr result
        (λ f. Fails (inner room) (faults room) (based_item pos base) tokens.now from f) }
    ensures moved { IfOk result (λ r. (from < r.1) × (r.1 ≤ length tokens.now)) }
    ensures within { IfErr result (λ f. token_of f ≤ length tokens.now) }
{
    match kind_at(tokens, from) {
        Some(TokenKind::Word(Word::UMain)) => {
            let at = expect_sign(tokens, from + 1, Sign::Scope)?;
            let (item, to) = read_outer_routine(alloc, tokens, pos, base, Owner::Main, at, room)?;
            Ok((item, to))
        }
        Some(TokenKind::Name(name)) => {
            let (item, to) = read_based_after(alloc, tokens, pos, base, name, from + 1, room)?;
            Ok((item, to))
        }
        _ => Err(ParseFault::Syntax { token: from }),
    }
}

// What follows the name of a constructor or a destructor that is defined outside its class.
fn read_maker_after(
    alloc: Global,
    tokens: &[Token],
    pos: Pos,
    class: Name,
    destructor: bool,
    name: Name,
    from: u32,
    room: u16,
) -> Result<(Item, u32), ParseFault>
    requires begins { from ≤ length tokens.now }
    requires few { length tokens.now < 2 ^ 32 }
    ensures found { IfOk result (λ r. Spells (inner room)
        (maker_after pos «class» destructor name) tokens.now from r.1 r.0) }
    ensures fails { IfErr result
        (λ f. Fails (inner room) (faults room)
        (maker_after pos «class» destructor name) tokens.now from f) }
    ensures moved { IfOk result (λ r. (from < r.1) × (r.1 ≤ length tokens.now)) }
    ensures within { IfErr result (λ f. token_of f ≤ length tokens.now) }
{
    let (params, at) = read_params(alloc, tokens, from, room)?;
    let role = if destructor {
        Role::Destructor
    } else {
        Role::Constructor
    };
    let sig = Sig {
        pos,
        owner: Owner::Class(class),
        role,
        ret: Base::Void,
        name,
        params,
    };
    let (routine, to) = read_maker(alloc, tokens, sig, at, room)?;
    Ok((
        Item {
            form: ItemForm::Routine { routine },
        },
        to,
    ))
}

// What follows the `::` of a constructor or a destructor that is defined outside its class.
fn read_outer_maker(
    alloc: Global,
    tokens: &[Token],
    pos: Pos,
    class: Name,
    from: u32,
    room: u16,
) -> Result<(Item, u32), ParseFault>
    requires begins { from ≤ length tokens.now }
    requires few { length tokens.now < 2 ^ 32 }
    ensures found { IfOk result (λ r. Spells (inner room)
        (outer_maker pos «class») tokens.now from r.1 r.0) }
    ensures fails { IfErr result
        (λ f. Fails (inner room) (faults room) (outer_maker pos «class») tokens.now from f) }
    ensures moved { IfOk result (λ r. (from < r.1) × (r.1 ≤ length tokens.now)) }
    ensures within { IfErr result (λ f. token_of f ≤ length tokens.now) }
{
    let (destructor, at) = skip_sign(tokens, from, Sign::Tilde);
    let (name, end) = read_name(alloc, tokens, at)?;
    let (item, to) = read_maker_after(alloc, tokens, pos, class, destructor, name, end, room)?;
    Ok((item, to))
}

// What follows the name that an item begins with.
fn read_named_item(
    alloc: Global,
    tokens: &[Token],
    pos: Pos,
    name: &Name,
    from: u32,
    room: u16,
) -> Result<(Item, u32), ParseFault>
    requires begins { from ≤ length tokens.now }
    requires few { length tokens.now < 2 ^ 32 }
    ensures found { IfOk result (λ r. Spells (inner room)
        (named_item pos name.now) tokens.now from r.1 r.0) }
    ensures fails { IfErr result
        (λ f. Fails (inner room) (faults room) (named_item pos name.now) tokens.now from f) }
    ensures moved { IfOk result (λ r. (from < r.1) × (r.1 ≤ length tokens.now)) }
    ensures within { IfErr result (λ f. token_of f ≤ length tokens.now) }
{
    let name = name.copy(alloc)?;
    if is_sign(tokens, from, Sign::Scope) {
        return read_outer_maker(alloc, tokens, pos, name, from + 1, room);
    }
    read_based_item(alloc, tokens, pos, Base::Named(name), from, room)
}

// An item that begins with the word of a base, or a class.
fn read_word_item(
    alloc: Global,
    tokens: &[Token],
    pos: Pos,
    from: u32,
    room: u16,
) -> Result<(Item, u32), ParseFault>
    requires begins { from ≤ length tokens.now }
    requires few { length tokens.now < 2 ^ 32 }
    ensures found { IfOk result (λ r. Spells (inner room)
        (word_item pos (base_of (word_of (kind_at tokens.now from)))) tokens.now from r.1 r.0) }
    ensures fails { IfErr result
        (λ f. Fails (inner room) (faults room)
        (word_item pos (base_of (word_of (kind_at tokens.now from)))) tokens.now from f) }
    ensures moved { IfOk result (λ r. (from < r.1) × (r.1 ≤ length tokens.now)) }
    ensures within { IfErr result (λ f. token_of f ≤ length tokens.now) }
{
    match base_at(tokens, from) {
        Some(base) => read_based_item(alloc, tokens, pos, base, from + 1, room),
        None => read_class(alloc, tokens, pos, from, room),
    }
}

/// An item.
pub fn read_item(
    alloc: Global,
    tokens: &[Token],
    from: u32,
    room: u16,
) -> Result<(Item, u32), ParseFault>
    requires begins { from ≤ length tokens.now }
    requires few { length tokens.now < 2 ^ 32 }
    ensures found { IfOk result (λ r. Spells (inner room) item_form tokens.now from r.1 r.0) }
    ensures fails { IfErr result
        (λ f. Fails (inner room) (faults room) item_form tokens.now from f) }
    ensures moved { IfOk result (λ r. (from < r.1) × (r.1 ≤ length tokens.now)) }
    ensures within { IfErr result (λ f. token_of f ≤ length tokens.now) }
{
    let pos = pos_at(tokens, from);
    match kind_at(tokens, from) {
        Some(TokenKind::Word(Word::Using)) => read_using(tokens, pos, from + 1, room),
        Some(TokenKind::Word(Word::Const)) => read_constant(alloc, tokens, pos, from + 1, room),
        Some(TokenKind::Name(name)) => read_named_item(alloc, tokens, pos, name, from + 1, room),
        _ => read_word_item(alloc, tokens, pos, from, room),
    }
}

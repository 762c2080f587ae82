// Members of classes.

ghost use Rattle.std.specs.Prelude.{◌<◌, ◌≤◌, ◌^◌, IfOk, IfErr, length};
ghost use Rattle.uc_grammar.specs.Form.{Spells, Fails};
ghost use Rattle.uc_parse_expr.specs.Faults.{token_of};
ghost use Rattle.uc_tree.specs.ProgramViews.{member_form_at};
ghost use Rattle.uc_grammar.specs.Spell.{kind_at};
ghost use Rattle.uc_grammar.specs.Tables.{base_of, word_of};
ghost use Rattle.uc_grammar.specs.Grammar.{field_rest, field_form, fields_rest, member_end, maker_end, member_routine, member_maker, based_member, word_member, member_form, inner, faults};
ghost use Rattle.uc_parse_class.specs.Forms.{field_list_form, based_rest, destructor_form, named_member};

use crate::routine::{read_maker, read_params_rest, read_plain};
use std::alloc::Global;
use uc_grammar::fault::ParseFault;
use uc_parse_expr::ops::is_comma_at;
use uc_parse_expr::peek::{expect_sign, is_sign, kind_at, pos_at, read_name};
use uc_parse_simple::declare::read_length;
use uc_parse_simple::peek::{base_at, skip_sign};
use uc_tree::class::{MemberForm, Sig};
use uc_tree::declare::{Declarator, Start, StartForm};
use uc_tree::kinds::{Base, Owner, Role};
use uc_tree::name::Name;
use uc_tree::pos::Pos;
use uc_tree::token::{Sign, Token, TokenKind};

/// What stands before the length of a field.
#[derive(Drop)]
pub struct FieldStart {
    pub pos: Pos,
    pub by_ref: bool,
    pub name: Name,
}

// The length of a field.
fn read_field_rest(
    alloc: Global,
    tokens: &[Token],
    start: FieldStart,
    from: u32,
    room: u16,
) -> Result<(Declarator, u32), ParseFault>
    requires begins { from ≤ length tokens.now }
    requires few { length tokens.now < 2 ^ 32 }
    ensures found { IfOk result (λ r. Spells (inner room)
        (field_rest start.pos start.by_ref start.name) tokens.now from r.1 r.0) }
    ensures fails { IfErr result
        (λ f. Fails (inner room) (faults room)
        (field_rest start.pos start.by_ref start.name) tokens.now from f) }
    ensures moved { IfOk result (λ r. (from ≤ r.1) × (r.1 ≤ length tokens.now)) }
    ensures within { IfErr result (λ f. token_of f ≤ length tokens.now) }
{
    let (len, to) = read_length(alloc, tokens, from, room)?;
    Ok((
        Declarator {
            pos: start.pos,
            by_ref: start.by_ref,
            name: start.name,
            len,
            start: Start {
                form: StartForm::Nothing,
            },
        },
        to,
    ))
}

// A field.
fn read_field(
    alloc: Global,
    tokens: &[Token],
    from: u32,
    room: u16,
) -> Result<(Declarator, u32), ParseFault>
    requires begins { from ≤ length tokens.now }
    requires few { length tokens.now < 2 ^ 32 }
    ensures found { IfOk result (λ r. Spells (inner room) field_form tokens.now from r.1 r.0) }
    ensures fails { IfErr result
        (λ f. Fails (inner room) (faults room) field_form tokens.now from f) }
    ensures moved { IfOk result (λ r. (from < r.1) × (r.1 ≤ length tokens.now)) }
    ensures within { IfErr result (λ f. token_of f ≤ length tokens.now) }
{
    let pos = pos_at(tokens, from);
    let (by_ref, at) = skip_sign(tokens, from, Sign::And);
    let (name, end) = read_name(alloc, tokens, at)?;
    let start = FieldStart { pos, by_ref, name };
    let (field, to) = read_field_rest(alloc, tokens, start, end, room)?;
    Ok((field, to))
}

// What follows the name of the first of one field or more, which are parted by commas.
fn read_field_list(
    alloc: Global,
    tokens: &[Token],
    start: FieldStart,
    from: u32,
    room: u16,
) -> Result<(Vec<Declarator>, u32), ParseFault>
    requires begins { from ≤ length tokens.now }
    requires few { length tokens.now < 2 ^ 32 }
    ensures found { IfOk result (λ r. Spells (inner room)
        (field_list_form start.pos start.by_ref start.name) tokens.now from r.1 r.0.items) }
    ensures fails { IfErr result
        (λ f. Fails (inner room) (faults room)
        (field_list_form start.pos start.by_ref start.name) tokens.now from f) }
    ensures moved { IfOk result (λ r. (from ≤ r.1) × (r.1 ≤ length tokens.now)) }
    ensures within { IfErr result (λ f. token_of f ≤ length tokens.now) }
{
    let (first, end) = read_field_rest(alloc, tokens, start, from, room)?;
    let mut all = Vec::new(alloc);
    all.push(first)?;
    let mut at = end;
    'items: while is_comma_at(tokens, at) {
        let (next, end) = read_field(alloc, tokens, at + 1, room)?;
        all.push(next)?;
        at = end;
    }
    Ok((all, at))
}

// What follows the name of the first of the fields of a base, which stands at `place`.
fn read_fields_rest(
    alloc: Global,
    tokens: &[Token],
    place: Pos,
    base: Base,
    start: FieldStart,
    from: u32,
    room: u16,
) -> Result<(MemberForm, u32), ParseFault>
    requires begins { from ≤ length tokens.now }
    requires few { length tokens.now < 2 ^ 32 }
    ensures found { IfOk result (λ r. Spells (inner room)
        (fields_rest place base start.pos start.by_ref start.name) tokens.now from r.1
        (member_form_at r.0)) }
    ensures fails { IfErr result
        (λ f. Fails (inner room) (faults room)
        (fields_rest place base start.pos start.by_ref start.name) tokens.now from f) }
    ensures moved { IfOk result (λ r. (from < r.1) × (r.1 ≤ length tokens.now)) }
    ensures within { IfErr result (λ f. token_of f ≤ length tokens.now) }
{
    let (declarators, at) = read_field_list(alloc, tokens, start, from, room)?;
    let to = expect_sign(tokens, at, Sign::Semicolon)?;
    Ok((
        MemberForm::Fields {
            at: place,
            base,
            declarators,
        },
        to,
    ))
}

// What follows the signature of a member: `;` or a body.
fn read_member_end(
    alloc: Global,
    tokens: &[Token],
    sig: Sig,
    from: u32,
    room: u16,
) -> Result<(MemberForm, u32), ParseFault>
    requires begins { from ≤ length tokens.now }
    requires few { length tokens.now < 2 ^ 32 }
    ensures found { IfOk result (λ r. Spells (inner room) (member_end sig) tokens.now from r.1
        (member_form_at r.0)) }
    ensures fails { IfErr result
        (λ f. Fails (inner room) (faults room) (member_end sig) tokens.now from f) }
    ensures moved { IfOk result (λ r. (from < r.1) × (r.1 ≤ length tokens.now)) }
    ensures within { IfErr result (λ f. token_of f ≤ length tokens.now) }
{
    if is_sign(tokens, from, Sign::Semicolon) {
        return Ok((MemberForm::Proto { sig }, from + 1));
    }
    let (routine, to) = read_plain(alloc, tokens, sig, from, room)?;
    Ok((MemberForm::Routine { routine }, to))
}

// What follows the signature of a constructor or a destructor: `;` or a body.
fn read_maker_end(
    alloc: Global,
    tokens: &[Token],
    sig: Sig,
    from: u32,
    room: u16,
) -> Result<(MemberForm, u32), ParseFault>
    requires begins { from ≤ length tokens.now }
    requires few { length tokens.now < 2 ^ 32 }
    ensures found { IfOk result (λ r. Spells (inner room) (maker_end sig) tokens.now from r.1
        (member_form_at r.0)) }
    ensures fails { IfErr result
        (λ f. Fails (inner room) (faults room) (maker_end sig) tokens.now from f) }
    ensures moved { IfOk result (λ r. (from < r.1) × (r.1 ≤ length tokens.now)) }
    ensures within { IfErr result (λ f. token_of f ≤ length tokens.now) }
{
    if is_sign(tokens, from, Sign::Semicolon) {
        return Ok((MemberForm::Proto { sig }, from + 1));
    }
    let (routine, to) = read_maker(alloc, tokens, sig, from, room)?;
    Ok((MemberForm::Routine { routine }, to))
}

// What follows the `(` of a routine.
fn read_member_routine(
    alloc: Global,
    tokens: &[Token],
    place: Pos,
    base: Base,
    name: Name,
    from: u32,
    room: u16,
) -> Result<(MemberForm, u32), ParseFault>
    requires begins { from ≤ length tokens.now }
    requires few { length tokens.now < 2 ^ 32 }
    ensures found { IfOk result (λ r. Spells (inner room)
        (member_routine place base name) tokens.now from r.1 (member_form_at r.0)) }
    ensures fails { IfErr result
        (λ f. Fails (inner room) (faults room) (member_routine place base name) tokens.now from f) }
    ensures moved { IfOk result (λ r. (from < r.1) × (r.1 ≤ length tokens.now)) }
    ensures within { IfErr result (λ f. token_of f ≤ length tokens.now) }
{
    let (params, at) = read_params_rest(alloc, tokens, from, room)?;
    let sig = Sig {
        pos: place,
        owner: Owner::Here,
        role: Role::Plain,
        ret: base,
        name,
        params,
    };
    let (form, to) = read_member_end(alloc, tokens, sig, at, room)?;
    Ok((form, to))
}

// What follows the `(` of a constructor or a destructor.
fn read_member_maker(
    alloc: Global,
    tokens: &[Token],
    pos: Pos,
    role: Role,
    name: Name,
    from: u32,
    room: u16,
) -> Result<(MemberForm, u32), ParseFault>
    requires begins { from ≤ length tokens.now }
    requires few { length tokens.now < 2 ^ 32 }
    ensures found { IfOk result (λ r. Spells (inner room)
        (member_maker pos role name) tokens.now from r.1 (member_form_at r.0)) }
    ensures fails { IfErr result
        (λ f. Fails (inner room) (faults room) (member_maker pos role name) tokens.now from f) }
    ensures moved { IfOk result (λ r. (from < r.1) × (r.1 ≤ length tokens.now)) }
    ensures within { IfErr result (λ f. token_of f ≤ length tokens.now) }
{
    let (params, at) = read_params_rest(alloc, tokens, from, room)?;
    let sig = Sig {
        pos,
        owner: Owner::Here,
        role,
        ret: Base::Void,
        name,
        params,
    };
    let (form, to) = read_maker_end(alloc, tokens, sig, at, room)?;
    Ok((form, to))
}

// What follows the first name behind a base: a routine, or fields.
fn read_based_rest(
    alloc: Global,
    tokens: &[Token],
    place: Pos,
    base: Base,
    pos: Pos,
    name: &Name,
    from: u32,
    room: u16,
) -> Result<(MemberForm, u32), ParseFault>
    requires begins { from ≤ length tokens.now }
    requires few { length tokens.now < 2 ^ 32 }
    ensures found { IfOk result (λ r. Spells (inner room)
        (based_rest place base pos name.now) tokens.now from r.1 (member_form_at r.0)) }
    ensures fails { IfErr result
        (λ f. Fails (inner room) (faults room)
        (based_rest place base pos name.now) tokens.now from f) }
    ensures moved { IfOk result (λ r. (from < r.1) × (r.1 ≤ length tokens.now)) }
    ensures within { IfErr result (λ f. token_of f ≤ length tokens.now) }
{
    let name = name.copy(alloc)?;
    if is_sign(tokens, from, Sign::OpenParen) {
        return read_member_routine(alloc, tokens, place, base, name, from + 1, room);
    }
    let start = FieldStart {
        pos,
        by_ref: false,
        name,
    };
    read_fields_rest(alloc, tokens, place, base, start, from, room)
}

// What follows the base of a member, which stands at `place`.
fn read_based_member(
    alloc: Global,
    tokens: &[Token],
    place: Pos,
    base: Base,
    from: u32,
    room: u16,
) -> Result<(MemberForm, u32), ParseFault>
    requires begins { from ≤ length tokens.now }
    requires few { length tokens.now < 2 ^ 32 }
    ensures found { IfOk result (λ r. Spells (inner room)
        (based_member place base) tokens.now from r.1 (member_form_at r.0)) }
    ensures fails { IfErr result
        (λ f. Fails (inner room) (faults room) (based_member place base) tokens.now from f) }
    ensures moved { IfOk result (λ r. (from < r.1) × (r.1 ≤ length tokens.now)) }
    ensures within { IfErr result (λ f. token_of f ≤ length tokens.now) }
{
    let pos = pos_at(tokens, from);
    match kind_at(tokens, from) {
        Some(TokenKind::Sign(Sign::And)) => {
            let (name, at) = read_name(alloc, tokens, from + 1)?;
            let start = FieldStart {
                pos,
                by_ref: true,
                name,
            };
            let (form, to) = read_fields_rest(alloc, tokens, place, base, start, at, room)?;
            Ok((form, to))
        }
        Some(TokenKind::Name(name)) => {
            let (form, to) = read_based_rest(
                alloc,
                tokens,
                place,
                base,
                pos,
                name,
                from + 1,
                room,
            )?;
            Ok((form, to))
        }
        _ => Err(ParseFault::Syntax { token: from }),
    }
}

// What follows the name that a member begins with: a constructor, or a member with this base.
fn read_named_member(
    alloc: Global,
    tokens: &[Token],
    pos: Pos,
    name: &Name,
    from: u32,
    room: u16,
) -> Result<(MemberForm, u32), ParseFault>
    requires begins { from ≤ length tokens.now }
    requires few { length tokens.now < 2 ^ 32 }
    ensures found { IfOk result (λ r. Spells (inner room)
        (named_member pos name.now) tokens.now from r.1 (member_form_at r.0)) }
    ensures fails { IfErr result
        (λ f. Fails (inner room) (faults room) (named_member pos name.now) tokens.now from f) }
    ensures moved { IfOk result (λ r. (from < r.1) × (r.1 ≤ length tokens.now)) }
    ensures within { IfErr result (λ f. token_of f ≤ length tokens.now) }
{
    let name = name.copy(alloc)?;
    if is_sign(tokens, from, Sign::OpenParen) {
        return read_member_maker(alloc, tokens, pos, Role::Constructor, name, from + 1, room);
    }
    read_based_member(alloc, tokens, pos, Base::Named(name), from, room)
}

// A member that begins with the word of a base.
fn read_word_member(
    alloc: Global,
    tokens: &[Token],
    pos: Pos,
    from: u32,
    room: u16,
) -> Result<(MemberForm, u32), ParseFault>
    requires begins { from ≤ length tokens.now }
    requires few { length tokens.now < 2 ^ 32 }
    ensures found { IfOk result (λ r. Spells (inner room)
        (word_member pos (base_of (word_of (kind_at tokens.now from)))) tokens.now from r.1
        (member_form_at r.0)) }
    ensures fails { IfErr result
        (λ f. Fails (inner room) (faults room)
        (word_member pos (base_of (word_of (kind_at tokens.now from)))) tokens.now from f) }
    ensures moved { IfOk result (λ r. (from < r.1) × (r.1 ≤ length tokens.now)) }
    ensures within { IfErr result (λ f. token_of f ≤ length tokens.now) }
{
    match base_at(tokens, from) {
        Some(base) => read_based_member(alloc, tokens, pos, base, from + 1, room),
        None => Err(ParseFault::Syntax { token: from }),
    }
}

// What follows the `~` of a destructor.
fn read_destructor(
    alloc: Global,
    tokens: &[Token],
    pos: Pos,
    from: u32,
    room: u16,
) -> Result<(MemberForm, u32), ParseFault>
    requires begins { from ≤ length tokens.now }
    requires few { length tokens.now < 2 ^ 32 }
    ensures found { IfOk result (λ r. Spells (inner room) (destructor_form pos) tokens.now from r.1
        (member_form_at r.0)) }
    ensures fails { IfErr result
        (λ f. Fails (inner room) (faults room) (destructor_form pos) tokens.now from f) }
    ensures moved { IfOk result (λ r. (from < r.1) × (r.1 ≤ length tokens.now)) }
    ensures within { IfErr result (λ f. token_of f ≤ length tokens.now) }
{
    let (name, at) = read_name(alloc, tokens, from)?;
    let open = expect_sign(tokens, at, Sign::OpenParen)?;
    let (form, to) = read_member_maker(alloc, tokens, pos, Role::Destructor, name, open, room)?;
    Ok((form, to))
}

/// A member without its mark.
pub fn read_member(
    alloc: Global,
    tokens: &[Token],
    from: u32,
    room: u16,
) -> Result<(MemberForm, u32), ParseFault>
    requires begins { from ≤ length tokens.now }
    requires few { length tokens.now < 2 ^ 32 }
    ensures found { IfOk result (λ r. Spells (inner room) member_form tokens.now from r.1
        (member_form_at r.0)) }
    ensures fails { IfErr result
        (λ f. Fails (inner room) (faults room) member_form tokens.now from f) }
    ensures moved { IfOk result (λ r. (from < r.1) × (r.1 ≤ length tokens.now)) }
    ensures within { IfErr result (λ f. token_of f ≤ length tokens.now) }
{
    let pos = pos_at(tokens, from);
    match kind_at(tokens, from) {
        Some(TokenKind::Sign(Sign::Tilde)) => read_destructor(alloc, tokens, pos, from + 1, room),
        Some(TokenKind::Name(name)) => read_named_member(alloc, tokens, pos, name, from + 1, room),
        _ => read_word_member(alloc, tokens, pos, from, room),
    }
}

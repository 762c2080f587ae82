// Classes.

ghost use Rattle.std.specs.Prelude.{◌≡◌, ◌<◌, ◌≤◌, ◌^◌, IfOk, IfErr, length};
ghost use Rattle.uc_grammar.specs.Form.{Spells, Fails, inside};
ghost use Rattle.uc_parse_expr.specs.Faults.{token_of};
ghost use Rattle.std.specs.Prelude.{[], ◌∷◌, ◌++◌};
ghost use Rattle.uc_grammar.specs.Names.{part_name};
ghost use Rattle.uc_grammar.specs.Grammar.{class_part_form, members_of, class_rest, class_form, inner, faults};
ghost use Rattle.uc_parse_class.specs.Forms.{marked_form, class_members_form, class_after};
ghost use Rattle.uc_parse_class.specs.Parts.{part_of, access_after};

use crate::member::read_member;
use crate::peek::{access_at, read_kind, skip_mark};
use std::alloc::Global;
use uc_grammar::fault::ParseFault;
use uc_parse_expr::peek::{expect_sign, is_sign, pos_at, read_name};
use uc_parse_stmt::peek::in_braces_at;
use uc_tree::class::{Class, Member, MemberForm};
use uc_tree::kinds::{Access, Forward, Kind, MutexMark};
use uc_tree::name::Name;
use uc_tree::pos::Pos;
use uc_tree::program::{Item, ItemForm};
use uc_tree::token::{Sign, Token};

/// What stands between the braces of a class: the access of the members behind it, or a member.
#[derive(Drop)]
pub enum Part {
    Access(Access),
    Member {
        pos: Pos,
        mark: MutexMark,
        form: MemberForm,
    },
}

// A member with its mark.
fn read_marked(
    alloc: Global,
    tokens: &[Token],
    pos: Pos,
    from: u32,
    room: u16,
) -> Result<(Part, u32), ParseFault>
    requires begins { from ≤ length tokens.now }
    requires few { length tokens.now < 2 ^ 32 }
    ensures found { IfOk result (λ r. Spells (inner room) (marked_form pos) tokens.now from r.1
        (part_of r.0)) }
    ensures fails { IfErr result
        (λ f. Fails (inner room) (faults room) (marked_form pos) tokens.now from f) }
    ensures moved { IfOk result (λ r. (from < r.1) × (r.1 ≤ length tokens.now)) }
    ensures within { IfErr result (λ f. token_of f ≤ length tokens.now) }
{
    let (mark, at) = skip_mark(tokens, from);
    let (form, to) = read_member(alloc, tokens, at, room)?;
    Ok((Part::Member { pos, mark, form }, to))
}

// A part of a class.
fn read_part(
    alloc: Global,
    tokens: &[Token],
    from: u32,
    room: u16,
) -> Result<(Part, u32), ParseFault>
    requires begins { from ≤ length tokens.now }
    requires few { length tokens.now < 2 ^ 32 }
    ensures found { IfOk result (λ r. Spells (inner room) class_part_form tokens.now from r.1
        (part_of r.0)) }
    ensures fails { IfErr result
        (λ f. Fails (inner room) (faults room) class_part_form tokens.now from f) }
    ensures moved { IfOk result (λ r. (from < r.1) × (r.1 ≤ length tokens.now)) }
    ensures within { IfErr result (λ f. token_of f ≤ length tokens.now) }
{
    let pos = pos_at(tokens, from);
    match access_at(tokens, from) {
        Some(access) => {
            let to = expect_sign(tokens, from + 1, Sign::Colon)?;
            Ok((Part::Access(access), to))
        }
        None => {
            let (part, to) = read_marked(alloc, tokens, pos, from, room)?;
            Ok((part, to))
        }
    }
}

// A part of a class, which stands one level deeper.
fn read_inner_part(
    alloc: Global,
    tokens: &[Token],
    from: u32,
    room: u16,
) -> Result<(Part, u32), ParseFault>
    requires begins { from ≤ length tokens.now }
    requires few { length tokens.now < 2 ^ 32 }
    ensures found { IfOk result (λ r. Spells (inner room) (inside part_name) tokens.now from r.1
        (part_of r.0)) }
    ensures fails { IfErr result
        (λ f. Fails (inner room) (faults room) (inside part_name) tokens.now from f) }
    ensures moved { IfOk result (λ r. (from < r.1) × (r.1 ≤ length tokens.now)) }
    ensures within { IfErr result (λ f. token_of f ≤ length tokens.now) }
{
    if room == 0 {
        return Err(ParseFault::TooDeep { token: from });
    }
    let (part, to) = read_part(alloc, tokens, from, room - 1)?;
    Ok((part, to))
}

// Joins a part to the members before it, which `access` is that of, and answers the access of what follows.
fn add_part(members: &mut Vec<Member>, access: Access, part: Part) -> Result<Access, ParseFault>
    ensures joined { IfOk result (λ a. members.new.items
        ≡ members.old.items ++ members_of access (part_of part ∷ [])) }
    ensures last { IfOk result (λ a. a ≡ access_after access (part_of part ∷ [])) }
    ensures fails { IfErr result (λ f. f ≡ ParseFault.NoMemory) }
{
    match part {
        Part::Access(next) => Ok(next),
        Part::Member { pos, mark, form } => {
            members.push(Member {
                pos,
                access,
                mark,
                form,
            })?;
            Ok(access)
        }
    }
}

// Members up to a `}`, each with the access that was written last before it.
fn read_members(
    alloc: Global,
    tokens: &[Token],
    from: u32,
    room: u16,
) -> Result<(Vec<Member>, u32), ParseFault>
    requires begins { from ≤ length tokens.now }
    requires few { length tokens.now < 2 ^ 32 }
    ensures found { IfOk result (λ r. Spells
        (inner room) class_members_form tokens.now from r.1 r.0.items) }
    ensures fails { IfErr result
        (λ f. Fails (inner room) (faults room) class_members_form tokens.now from f) }
    ensures moved { IfOk result (λ r. (from ≤ r.1) × (r.1 ≤ length tokens.now)) }
    ensures within { IfErr result (λ f. token_of f ≤ length tokens.now) }
{
    let mut members = Vec::new(alloc);
    let mut access = Access::Private;
    let mut at = from;
    'parts: while in_braces_at(tokens, at) {
        let (part, end) = read_inner_part(alloc, tokens, at, room)?;
        access = add_part(&mut members, access, part)?;
        at = end;
    }
    Ok((members, at))
}

// What follows the `{` of a class.
fn read_class_rest(
    alloc: Global,
    tokens: &[Token],
    pos: Pos,
    kind: Kind,
    name: Name,
    from: u32,
    room: u16,
) -> Result<(Item, u32), ParseFault>
    requires begins { from ≤ length tokens.now }
    requires few { length tokens.now < 2 ^ 32 }
    ensures found { IfOk result (λ r. Spells (inner room)
        (class_rest pos kind name) tokens.now from r.1 r.0) }
    ensures fails { IfErr result
        (λ f. Fails (inner room) (faults room) (class_rest pos kind name) tokens.now from f) }
    ensures moved { IfOk result (λ r. (from < r.1) × (r.1 ≤ length tokens.now)) }
    ensures within { IfErr result (λ f. token_of f ≤ length tokens.now) }
{
    let (members, at) = read_members(alloc, tokens, from, room)?;
    let end = expect_sign(tokens, at, Sign::CloseBrace)?;
    let to = expect_sign(tokens, end, Sign::Semicolon)?;
    let class = Class {
        pos,
        kind,
        name,
        members,
    };
    Ok((
        Item {
            form: ItemForm::Class { class },
        },
        to,
    ))
}

// What follows the name of a class: `;` or its members.
fn read_class_after(
    alloc: Global,
    tokens: &[Token],
    pos: Pos,
    kind: Kind,
    name: Name,
    from: u32,
    room: u16,
) -> Result<(Item, u32), ParseFault>
    requires begins { from ≤ length tokens.now }
    requires few { length tokens.now < 2 ^ 32 }
    ensures found { IfOk result (λ r. Spells (inner room)
        (class_after pos kind name) tokens.now from r.1 r.0) }
    ensures fails { IfErr result
        (λ f. Fails (inner room) (faults room) (class_after pos kind name) tokens.now from f) }
    ensures moved { IfOk result (λ r. (from < r.1) × (r.1 ≤ length tokens.now)) }
    ensures within { IfErr result (λ f. token_of f ≤ length tokens.now) }
{
    if is_sign(tokens, from, Sign::Semicolon) {
        let forward = Forward { pos, kind, name };
        return Ok((
            Item {
                form: ItemForm::Forward { forward },
            },
            from + 1,
        ));
    }
    let at = expect_sign(tokens, from, Sign::OpenBrace)?;
    let (item, to) = read_class_rest(alloc, tokens, pos, kind, name, at, room)?;
    Ok((item, to))
}

/// A class, or its name alone.
pub fn read_class(
    alloc: Global,
    tokens: &[Token],
    pos: Pos,
    from: u32,
    room: u16,
) -> Result<(Item, u32), ParseFault>
    requires begins { from ≤ length tokens.now }
    requires few { length tokens.now < 2 ^ 32 }
    ensures found { IfOk result (λ r. Spells (inner room) (class_form pos) tokens.now from r.1 r.0) }
    ensures fails { IfErr result
        (λ f. Fails (inner room) (faults room) (class_form pos) tokens.now from f) }
    ensures moved { IfOk result (λ r. (from < r.1) × (r.1 ≤ length tokens.now)) }
    ensures within { IfErr result (λ f. token_of f ≤ length tokens.now) }
{
    let (kind, at) = read_kind(tokens, from)?;
    let (name, end) = read_name(alloc, tokens, at)?;
    let (item, to) = read_class_after(alloc, tokens, pos, kind, name, end, room)?;
    Ok((item, to))
}

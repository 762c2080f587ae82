// The rules on expressions.

ghost use Rattle.std.specs.Prelude.{◌≡◌, ◌&&◌, [], drop, if◌then◌else◌};
ghost use Rattle.uc_tree.specs.Expressions.{exprs_of, links_of, parts_of};
ghost use Rattle.uc_rules.specs.Entities.{are_sound, call_follows, chain_entity, entity_of, expected, field_follows, has_fitting, is_call, is_cin, is_field, is_input, link_entity, part_entity, parts_entity};
ghost use Rattle.uc_rules.specs.Visits.{arg_visits, args_visits, chain_visits, link_visits, part_visits, parts_visits, root_entity, visits};
ghost use Rattle.uc_types.specs.FirstBreak.{with_visits};

use crate::ask::{
    ask_argument, ask_assign, ask_call, ask_change, ask_index, ask_member, ask_operands, ask_unary,
    ask_use,
};
use crate::entity::{call_target, expected_of};
use crate::found::Found;
use crate::names::Names;
use uc_rules::rule::Rule;
use uc_rules::rules::{Entity, Sort, Target};
use uc_tree::expr::{Expr, ExprForm, Link, Part, PartForm};

fn is_field(part: &Part) -> bool
    ensures { result ≡ is_field part.now }
{
    matches!(&part.form, PartForm::Field { .. })
}

fn is_call(part: &Part) -> bool
    ensures { result ≡ is_call part.now }
{
    matches!(&part.form, PartForm::Call { .. })
}

fn field_follows(parts: &[Part]) -> bool
    ensures { result ≡ field_follows (parts_of parts.now) }
{
    match parts.first() {
        Some(part) => is_field(part),
        None => false,
    }
}

fn call_follows(parts: &[Part], place: usize) -> bool
    ensures { result ≡ call_follows (parts_of (drop place parts.now)) }
{
    match parts.get(place) {
        Some(part) => is_call(part),
        None => false,
    }
}

fn is_cin(e: &Expr) -> bool
    ensures { result ≡ is_cin e.now }
{
    matches!(&e.form, ExprForm::Cin)
}

fn is_input(root: &Expr, parts: &[Part]) -> bool
    ensures { result ≡ is_input root.now (parts_of parts.now) }
{
    is_cin(root) && field_follows(parts)
}

/// What an expression stands for, with its breaks noted.
#[cycle(expr)]
#[tactic(auto, using(crate::proofs::Noted::noting))]
pub fn check_expr(names: &Names, e: &Expr, found: &mut Found) -> Option<Entity>
    ensures entity { result ≡ entity_of names.now e.now }
    ensures breaks { found.new ≡ with_visits found.old (visits names.now e.now) }
{
    match &e.form {
        ExprForm::Number { .. } => Some(Entity::Value { sort: Sort::Int }),
        ExprForm::Character { .. } => Some(Entity::Value { sort: Sort::Char }),
        ExprForm::Truth { .. } => Some(Entity::Value { sort: Sort::Bool }),
        ExprForm::Name { name } => ask_use(names, name, e.pos, found),
        ExprForm::Cin => {
            found.note(Rule::S24, e.pos);
            None
        }
        ExprForm::Postfix { root, parts } => {
            let entity = check_root(names, root, parts, found);
            check_parts(names, entity, parts, found)
        }
        ExprForm::Unary { op, operand } => {
            let entity = check_expr(names, operand, found);
            ask_unary(*op, entity, e.pos, found)
        }
        ExprForm::Chain { first, rest } => {
            let left = check_expr(names, first, found);
            check_chain(names, left, rest, found)
        }
        ExprForm::Assign {
            sign,
            place,
            value,
            ..
        } => {
            let place = check_expr(names, place, found);
            let value = check_expr(names, value, found);
            ask_assign(place, value, *sign, found)
        }
    }
}

#[cycle(expr)]
#[tactic(auto, using(crate::proofs::Noted::noting))]
fn check_root(names: &Names, root: &Expr, parts: &[Part], found: &mut Found) -> Option<Entity>
    ensures entity { result ≡ root_entity names.now root.now (parts_of parts.now) }
    ensures breaks { found.new ≡ with_visits found.old (if is_input root.now (parts_of parts.now)
        then [] else visits names.now root.now) }
{
    if is_input(root, parts) {
        Some(Entity::Input)
    } else {
        check_expr(names, root, found)
    }
}

#[cycle(expr)]
#[tactic(auto, using(crate::proofs::Noted::noting))]
fn check_parts(
    names: &Names,
    root: Option<Entity>,
    parts: &[Part],
    found: &mut Found,
) -> Option<Entity>
    ensures entity { result ≡ parts_entity names.now (parts_of parts.now) root }
    ensures breaks { found.new ≡ with_visits found.old
        (parts_visits names.now (parts_of parts.now) root) }
{
    let mut entity = root;
    for (place, part) in parts.iter().enumerate() {
        let called = call_follows(parts, place + 1);
        entity = check_part(names, entity, part, called, found);
    }
    entity
}

#[cycle(expr)]
#[tactic(auto, using(crate::proofs::Noted::noting))]
fn check_part(
    names: &Names,
    root: Option<Entity>,
    part: &Part,
    called: bool,
    found: &mut Found,
) -> Option<Entity>
    ensures entity { result ≡ part_entity names.now part.now called root }
    ensures breaks { found.new ≡ with_visits found.old
        (part_visits names.now part.now called root) }
{
    match &part.form {
        PartForm::Field { name } => ask_member(names, called, name, root, part.sign, found),
        PartForm::Index { index } => {
            let index = check_expr(names, index, found);
            ask_index(root, index, part.sign, found)
        }
        PartForm::Call { args } => {
            let sound = check_args(names, args, call_target(root), found);
            ask_call(names, sound, args.len(), root, part.sign, found)
        }
        PartForm::Step { .. } => ask_change(root, part.sign, found),
    }
}

#[cycle(expr)]
#[tactic(auto, using(crate::proofs::Noted::noting))]
fn check_chain(
    names: &Names,
    first: Option<Entity>,
    rest: &[Link],
    found: &mut Found,
) -> Option<Entity>
    ensures entity { result ≡ chain_entity names.now (links_of rest.now) first }
    ensures breaks { found.new ≡ with_visits found.old
        (chain_visits names.now (links_of rest.now) first) }
{
    let mut left = first;
    for link in rest {
        left = check_link(names, left, link, found);
    }
    left
}

#[cycle(expr)]
#[tactic(auto, using(crate::proofs::Noted::noting))]
fn check_link(names: &Names, left: Option<Entity>, link: &Link, found: &mut Found) -> Option<Entity>
    ensures entity { result ≡ link_entity names.now link.now left }
    ensures breaks { found.new ≡ with_visits found.old (link_visits names.now link.now left) }
{
    let right = check_expr(names, &link.right, found);
    ask_operands(link.op, left, right, link.sign, found)
}

#[cycle(expr)]
#[tactic(auto, using(crate::proofs::Noted::noting))]
fn check_arg(names: &Names, arg: &Expr, target: Target, place: usize, found: &mut Found) -> bool
    ensures sound { result ≡ has_fitting (expected names.now.program target place)
        (entity_of names.now arg.now) }
    ensures breaks { found.new ≡ with_visits found.old
        (arg_visits names.now arg.now (expected names.now.program target place)) }
{
    let entity = check_expr(names, arg, found);
    let expected = expected_of(names.tables(), target, place);
    ask_argument(arg.first_token(), expected, entity, found)
}

/// Notes the breaks of these arguments; says whether all are what is asked of them.
#[cycle(expr)]
#[tactic(auto, using(crate::proofs::Noted::noting))]
pub fn check_args(names: &Names, args: &[Expr], target: Target, found: &mut Found) -> bool
    ensures sound { result ≡ are_sound names.now (exprs_of args.now) target 0 }
    ensures breaks { found.new ≡ with_visits found.old
        (args_visits names.now (exprs_of args.now) target 0) }
{
    let mut sound = true;
    for (place, arg) in args.iter().enumerate() {
        let fits = check_arg(names, arg, target, place, found);
        sound = both(sound, fits);
    }
    sound
}

fn both(a: bool, b: bool) -> bool
    ensures { result ≡ a && b }
{
    a && b
}

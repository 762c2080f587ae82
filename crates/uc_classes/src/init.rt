// The rules on initialisers.

ghost use Rattle.std.specs.Prelude.{◌≡◌, None, [], ◌∷◌, ◌++◌};
ghost use Rattle.uc_tree.specs.Expressions.{exprs_of};
ghost use Rattle.uc_rules.specs.Entities.{entity_of, expected};
ghost use Rattle.uc_rules.specs.ExpressionBreaks.{are_single};
ghost use Rattle.uc_rules.specs.ProgramVisits.{argument_env, bound_of, bound_target, field_of, home_member, init_arg_visits, init_args_visits, init_target, inits_visits, is_name, is_reference, maybe_bound_target, meant_target, origin_target};
ghost use Rattle.uc_rules.specs.Scopes.{in_argument};
ghost use Rattle.uc_rules.specs.Visits.{AtInit};
ghost use Rattle.uc_types.specs.FirstBreak.{with_visits};

use crate::ask::ask_init;
use uc_check_decl::init::{home_member, last_field, meant_field};
use uc_check_stmt::declare::{is_scalar_of, single_target};
use uc_owner::judge::note_bound;
use uc_rules::rules::{
    Bound, Entity, Expected, FieldPlace, NameMeaning, Origin, Surroundings, Target,
};
use uc_tree::class::Init;
use uc_tree::expr::{Expr, ExprForm};
use uc_tree::name::Name;
use uc_types::ask::{ask_argument, is_reference};
use uc_types::entity::expected_of;
use uc_types::expr::check_expr;
use uc_types::found::Found;
use uc_types::names::Names;

fn bound_target(by_ref: bool, entity: Entity) -> Target
    ensures { result ≡ bound_target by_ref entity }
{
    match entity {
        Entity::Place { sort } => {
            if by_ref {
                Target::Reference { sort }
            } else {
                single_target(sort)
            }
        }
        _ => Target::Unknown,
    }
}

fn maybe_bound_target(by_ref: bool, entity: Option<Entity>) -> Target
    ensures { result ≡ maybe_bound_target by_ref entity }
{
    match entity {
        Some(entity) => bound_target(by_ref, entity),
        None => Target::Unknown,
    }
}

fn origin_target(entity: Option<Entity>, origin: Origin) -> Target
    ensures { result ≡ origin_target entity origin }
{
    match origin {
        Origin::Field { by_ref, .. } => maybe_bound_target(by_ref, entity),
        _ => Target::Unknown,
    }
}

fn meant_target(meant: Option<NameMeaning>) -> Target
    ensures { result ≡ meant_target meant }
{
    match meant {
        Some(meant) => origin_target(meant.entity, meant.origin),
        None => Target::Unknown,
    }
}

fn is_name(e: &Expr) -> bool
    ensures { result ≡ is_name e.now }
{
    matches!(&e.form, ExprForm::Name { .. })
}

fn bound_of(e: &Expr, expected: Expected, field: FieldPlace) -> Bound
    ensures { result ≡ bound_of e.now expected field }
{
    Bound {
        pos: e.first_token(),
        field,
        whole: is_name(e) && is_reference(expected),
    }
}

fn in_argument(bound: Bound, around: Surroundings) -> Surroundings
    ensures { result ≡ in_argument bound around }
{
    Surroundings {
        bound: Some(bound),
        ..around
    }
}

fn enter_argument(names: &mut Names, field: Option<FieldPlace>, e: &Expr, expected: Expected)
    ensures { names.new ≡ argument_env names.old field e.now expected }
{
    match field {
        Some(field) => {
            let around = names.around();
            names.set_around(in_argument(bound_of(e, expected, field), around));
        }
        None => {}
    }
}

#[tactic(auto, using(uc_check_stmt::proofs::Joined::joining))]
fn check_init_arg(
    names: &mut Names,
    field: Option<FieldPlace>,
    e: &Expr,
    expected: Expected,
    found: &mut Found,
) -> Option<Entity>
    ensures names { names.new ≡ names.old }
    ensures entity { result ≡ entity_of names.old e.now }
    ensures breaks { found.new ≡ with_visits found.old
        (init_arg_visits names.old field e.now expected) }
{
    let around = names.around();
    enter_argument(names, field, e, expected);
    let entity = check_expr(names, e, found);
    names.set_around(around);
    let _fits = ask_argument(e.first_token(), expected, entity, found);
    note_bound(names, e, expected, found);
    entity
}

#[tactic(auto, using(uc_check_stmt::proofs::Joined::joining))]
fn check_init_args(
    names: &mut Names,
    field: Option<FieldPlace>,
    args: &[Expr],
    target: Target,
    found: &mut Found,
)
    ensures names { names.new ≡ names.old }
    ensures breaks { found.new ≡ with_visits found.old
        (init_args_visits names.old field (exprs_of args.now) target 0) }
{
    for (place, arg) in args.iter().enumerate() {
        let expected = expected_of(names.tables(), target, place);
        let _entity = check_init_arg(names, field, arg, expected, found);
    }
}

// The arguments of an initialiser; the answer is whether there is none, or one alone that is a scalar.
#[tactic(auto, using(uc_check_stmt::proofs::Joined::joining))]
fn check_values(
    names: &mut Names,
    field: Option<FieldPlace>,
    args: &[Expr],
    target: Target,
    found: &mut Found,
) -> bool
    ensures names { names.new ≡ names.old }
    ensures single { result ≡ are_single names.old (exprs_of args.now) }
    ensures breaks { found.new ≡ with_visits found.old
        (init_args_visits names.old field (exprs_of args.now) target 0) }
{
    if args.len() == 1 {
        let expected = expected_of(names.tables(), target, 0);
        let entity = check_init_arg(names, field, &args[0], expected, found);
        return is_scalar_of(entity);
    }
    check_init_args(names, field, args, target, found);
    args.is_empty()
}

// An initialiser behind others, of which `last` is the last field that they name; the answer is the field that it names.
#[tactic(auto, using(uc_check_stmt::proofs::Joined::joining))]
fn check_init(
    names: &mut Names,
    init: &Init,
    last: Option<FieldPlace>,
    found: &mut Found,
) -> Option<FieldPlace>
    ensures names { names.new ≡ names.old }
    ensures field { result ≡ field_of names.old init.now.name }
    ensures breaks { found.new ≡ with_visits found.old
        (init_args_visits names.old (field_of names.old init.now.name) init.now.args
        (init_target names.old init.now.name) 0 ++ AtInit names.old init.now last ∷ []) }
{
    let meant = home_member(names.tables(), names.around().home, &init.name);
    let field = meant_field(meant);
    let single = check_values(names, field, &init.args, meant_target(meant), found);
    ask_init(names, init, last, meant, single, found);
    field
}

/// The initialisers of a routine.
#[tactic(auto, using(uc_check_stmt::proofs::Joined::joining))]
pub fn check_inits(names: &mut Names, inits: &[Init], found: &mut Found)
    ensures names { names.new ≡ names.old }
    ensures breaks { found.new ≡ with_visits found.old (inits_visits names.old None inits.now) }
{
    let mut last = None;
    for init in inits {
        let field = check_init(names, init, last, found);
        last = last_field(last, field);
    }
}

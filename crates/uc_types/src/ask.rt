// What the rules ask at one place in an expression.

ghost use Rattle.std.specs.Prelude.{◌≡◌, List, None, if◌then◌else◌, is_some, ℕ};
ghost use Rattle.uc_rules.specs.Firsts.{after};
ghost use Rattle.uc_rules.specs.ProgramVisits.{is_reference};
ghost use Rattle.uc_rules.specs.Entities.{binary_gives, both_scalars, by_path, has_fitting, is_home, is_object, is_open, meant_entity, of_assign, of_both, of_call, of_field, of_index, of_missing, of_place, of_scalar, open_entity, unary_entity};
ghost use Rattle.uc_rules.specs.ExpressionBreaks.{is_open_member};
ghost use Rattle.uc_rules.specs.OwnerBreaks.{is_condition_of, is_mutex_field, is_mutex_field_of, may_be_called, may_use, may_use_field, may_use_origin, names_condition, use_breaks};
ghost use Rattle.uc_rules.specs.Scopes.{named};
ghost use Rattle.uc_rules.specs.Visits.{AtArgument, AtAssign, AtCall, AtChange, AtIndex, AtMember, AtOperand, AtOperands, AtUse, unary_visit};
ghost use Rattle.uc_types.specs.FirstBreak.{first_break_after};

use crate::entity::{
    binary_gives, built_in, element, fits, is_array, is_main, is_object, is_of_conditions,
    is_place, is_scalar, operation_result, path_member, takes, value_of,
};
use crate::found::Found;
use crate::names::Names;
use crate::sort::{is_coroutine, is_mutex, is_public};
use crate::spans::{class_allows, is_field_before};
use crate::tables::Tables;
use uc_rules::rule::Rule;
use uc_rules::rules::{Bound, Entity, Expected, FieldPlace, NameMeaning, Origin, OwnClass, Sort};
use uc_tree::name::Name;
use uc_tree::ops::{BinaryOp, UnaryOp};
use uc_tree::pos::Pos;

fn ask_operand(entity: Option<Entity>, gives: Entity, at: Pos, found: &mut Found) -> Option<Entity>
    ensures entity { result ≡ of_scalar entity gives }
    ensures breaks { found.new ≡ first_break_after found.old (AtOperand at entity) }
{
    let entity = entity?;
    if is_scalar(entity) {
        Some(gives)
    } else {
        found.note(Rule::S8, at);
        None
    }
}

/// What an operator on one operand gives.
pub fn ask_unary(op: UnaryOp, entity: Option<Entity>, at: Pos, found: &mut Found) -> Option<Entity>
    ensures entity { result ≡ unary_entity op entity }
    ensures breaks { found.new ≡ first_break_after found.old (unary_visit at op entity) }
{
    match op {
        UnaryOp::Minus | UnaryOp::Plus => ask_operand(
            entity,
            Entity::Value { sort: Sort::Int },
            at,
            found,
        ),
        UnaryOp::Not => ask_operand(entity, Entity::Value { sort: Sort::Bool }, at, found),
        UnaryOp::Increment | UnaryOp::Decrement => ask_change(entity, at, found),
    }
}

/// What an operator on two operands gives.
pub fn ask_operands(
    op: BinaryOp,
    left: Option<Entity>,
    right: Option<Entity>,
    sign: Pos,
    found: &mut Found,
) -> Option<Entity>
    ensures entity { result ≡ of_both both_scalars left right (binary_gives op) }
    ensures breaks { found.new ≡ first_break_after found.old (AtOperands sign left right) }
{
    let left = left?;
    let right = right?;
    if is_scalar(left) && is_scalar(right) {
        Some(binary_gives(op))
    } else {
        found.note(Rule::S8, sign);
        None
    }
}

/// What `++` and `--` give.
pub fn ask_change(entity: Option<Entity>, sign: Pos, found: &mut Found) -> Option<Entity>
    ensures entity { result ≡ of_place entity }
    ensures breaks { found.new ≡ first_break_after found.old (AtChange sign entity) }
{
    let entity = entity?;
    found.note_unless(is_scalar(entity), Rule::S8, sign);
    found.note_unless(is_place(entity) || !is_scalar(entity), Rule::S9, sign);
    value_of(entity)
}

/// What an assignment gives.
pub fn ask_assign(
    place: Option<Entity>,
    value: Option<Entity>,
    sign: Pos,
    found: &mut Found,
) -> Option<Entity>
    ensures entity { result ≡ of_assign place value }
    ensures breaks { found.new ≡ first_break_after found.old (AtAssign sign place value) }
{
    let place = place?;
    let value = value?;
    found.note_unless(is_scalar(place) && is_scalar(value), Rule::S8, sign);
    found.note_unless(is_place(place) || !is_scalar(place), Rule::S9, sign);
    found.note_unless(!is_object(place) && !is_object(value), Rule::O7, sign);
    if is_scalar(value) {
        value_of(place)
    } else {
        None
    }
}

/// An element of an array.
pub fn ask_index(
    array: Option<Entity>,
    index: Option<Entity>,
    sign: Pos,
    found: &mut Found,
) -> Option<Entity>
    ensures entity { result ≡ of_index array index }
    ensures breaks { found.new ≡ first_break_after found.old (AtIndex sign array index) }
{
    let array = array?;
    let index = index?;
    found.note_unless(is_array(array) && is_scalar(index), Rule::S8, sign);
    if is_scalar(index) {
        element(array)
    } else {
        None
    }
}

fn is_home(home: Option<OwnClass>, class: usize) -> bool
    ensures { result ≡ is_home home class }
{
    match home {
        Some(home) => home.class == class,
        None => false,
    }
}

fn is_open(home: Option<OwnClass>, origin: Origin) -> bool
    ensures { result ≡ is_open home origin }
{
    match origin {
        Origin::Field {
            class,
            kind,
            access,
            ..
        } => !is_coroutine(kind) && (is_public(access) || is_home(home, class)),
        Origin::Method { class, access } => is_public(access) || is_home(home, class),
        _ => true,
    }
}

fn is_mutex_field(origin: Origin) -> bool
    ensures { result ≡ is_mutex_field origin }
{
    match origin {
        Origin::Field { kind, .. } => is_mutex(kind),
        _ => false,
    }
}

fn is_condition_of(entity: Option<Entity>) -> bool
    ensures { result ≡ is_condition_of entity }
{
    match entity {
        Some(entity) => is_of_conditions(entity),
        None => false,
    }
}

fn is_mutex_field_of(meant: Option<NameMeaning>) -> bool
    ensures { result ≡ is_mutex_field_of meant }
{
    match meant {
        Some(meant) => is_mutex_field(meant.origin),
        None => false,
    }
}

fn names_condition(meant: Option<NameMeaning>) -> bool
    ensures { result ≡ names_condition meant }
{
    match meant {
        Some(meant) => is_condition_of(meant.entity),
        None => false,
    }
}

fn is_open_member(home: Option<OwnClass>, meant: Option<NameMeaning>) -> bool
    ensures { result ≡ is_open_member home meant }
{
    match meant {
        Some(meant) => is_open(home, meant.origin),
        None => true,
    }
}

fn by_path(entity: Entity) -> Entity
    ensures { result ≡ by_path entity }
{
    match entity {
        Entity::Method {
            class,
            member,
            inner,
            ..
        } => Entity::Method {
            class,
            member,
            inner,
            by_path: true,
        },
        Entity::Value { .. }
        | Entity::Place { .. }
        | Entity::Array { .. }
        | Entity::Input
        | Entity::Fail
        | Entity::Operation { .. }
        | Entity::Main
        | Entity::Routine { .. }
        | Entity::ClassName
        | Entity::Missing => entity,
    }
}

fn open_entity(home: Option<OwnClass>, meant: NameMeaning) -> Option<Entity>
    ensures { result ≡ open_entity home meant }
{
    if !is_open(home, meant.origin) {
        return None;
    }
    let entity = meant.entity?;
    Some(by_path(entity))
}

fn other_member(called: bool, entity: Entity, built_in: Option<Entity>) -> Option<Entity>
    ensures { result ≡ (if is_some built_in then built_in
        else (if is_object entity then None else of_missing called)) }
{
    if built_in.is_some() {
        return built_in;
    }
    if called && !is_object(entity) {
        Some(Entity::Missing)
    } else {
        None
    }
}

/// What a member behind a `.` stands for.
pub fn ask_member(
    names: &Names,
    called: bool,
    name: &Name,
    entity: Option<Entity>,
    sign: Pos,
    found: &mut Found,
) -> Option<Entity>
    ensures entity { result ≡ of_field names.now called name.now entity }
    ensures breaks { found.new ≡ first_break_after found.old
        (AtMember names.now sign called name.now entity) }
{
    let entity = entity?;
    let member = path_member(names.tables(), entity, name);
    let built_in = built_in(entity, name);
    let home = names.around().home;
    found.note_unless(
        member.is_some() || (built_in.is_some() || (called && !is_object(entity))),
        Rule::S1,
        sign,
    );
    found.note_unless(is_open_member(home, member), Rule::S18, sign);
    found.note_unless(!is_mutex_field_of(member), Rule::O2, sign);
    found.note_unless(!names_condition(member), Rule::O4, sign);
    match member {
        Some(meant) => open_entity(home, meant),
        None => other_member(called, entity, built_in),
    }
}

fn may_be_called(inner: bool, entity: Entity) -> bool
    ensures { result ≡ may_be_called inner entity }
{
    match entity {
        Entity::Method {
            inner: inner_only,
            by_path,
            ..
        } => !inner_only || (inner && !by_path),
        _ => true,
    }
}

/// What a call gives, with so many arguments, which are all as they are to be where `sound`.
pub fn ask_call(
    names: &Names,
    sound: bool,
    count: usize,
    entity: Option<Entity>,
    sign: Pos,
    found: &mut Found,
) -> Option<Entity>
    ensures entity { result ≡ of_call names.now.program sound count entity }
    ensures breaks { found.new ≡ first_break_after found.old (AtCall names.now sign count entity) }
{
    let entity = entity?;
    let tables = names.tables();
    let is_main = is_main(tables, entity);
    let takes = takes(tables, count, entity);
    found.note_unless(!is_main, Rule::S7, sign);
    found.note_unless(takes, Rule::S10, sign);
    found.note_unless(may_be_called(names.around().inner, entity), Rule::O3, sign);
    if sound && (takes && !is_main) {
        operation_result(tables, entity)
    } else {
        None
    }
}

/// Whether a reference is bound to it.
pub fn is_reference(expected: Expected) -> bool
    ensures { result ≡ is_reference expected }
{
    matches!(expected, Expected::Reference { .. })
}

/// Whether an argument is what is asked of it.
pub fn ask_argument(at: Pos, expected: Expected, entity: Option<Entity>, found: &mut Found) -> bool
    ensures sound { result ≡ has_fitting expected entity }
    ensures breaks { found.new ≡ first_break_after found.old (AtArgument at expected entity) }
{
    match entity {
        Some(entity) => {
            let fits = fits(expected, entity);
            found.note_unless(fits, Rule::S11, at);
            found.note_unless(!is_of_conditions(entity), Rule::O4, at);
            found.note_unless(is_reference(expected) || !is_object(entity), Rule::O7, at);
            fits
        }
        None => false,
    }
}

fn may_use_field(tables: &Tables, bound: Bound, class: usize, field: FieldPlace) -> bool
    ensures { result ≡ may_use_field tables.now bound class field }
{
    is_field_before(field, bound.field)
        || (bound.whole
            && (is_field_before(bound.field, field)
                && class_allows(tables, bound.field, field, class)))
}

fn may_use_origin(tables: &Tables, bound: Bound, origin: Origin) -> bool
    ensures { result ≡ may_use_origin tables.now bound origin }
{
    match origin {
        Origin::Field { class, field, .. } => may_use_field(tables, bound, class, field),
        Origin::Method { .. } => false,
        _ => true,
    }
}

fn may_use(tables: &Tables, bound: Bound, meant: Option<NameMeaning>) -> bool
    ensures { result ≡ may_use tables.now bound meant }
{
    match meant {
        Some(meant) => may_use_origin(tables, bound, meant.origin),
        None => true,
    }
}

fn note_bound(names: &Names, meant: Option<NameMeaning>, found: &mut Found)
    ensures { (name : List ℕ) → meant ≡ named names.now name →
        found.new ≡ after found.old (use_breaks names.now names.now.around.bound name) }
{
    match names.around().bound {
        Some(bound) => {
            let tables = names.tables();
            found.note_unless(may_use(tables, bound, meant), Rule::O6, bound.pos);
        }
        None => {}
    }
}

fn entity_of(meant: Option<NameMeaning>) -> Option<Entity>
    ensures { result ≡ meant_entity meant }
{
    let meant = meant?;
    meant.entity
}

/// What a name stands for.
pub fn ask_use(names: &Names, name: &Name, at: Pos, found: &mut Found) -> Option<Entity>
    ensures entity { result ≡ meant_entity (named names.now name.now) }
    ensures breaks { found.new ≡ first_break_after found.old (AtUse names.now at name.now) }
{
    let meant = names.named(name);
    let inner = names.around().inner;
    found.note_unless(meant.is_some(), Rule::S1, at);
    found.note_unless(inner || !is_mutex_field_of(meant), Rule::O2, at);
    found.note_unless(
        !names_condition(meant) || (inner && is_mutex_field_of(meant)),
        Rule::O4,
        at,
    );
    note_bound(names, meant, found);
    entity_of(meant)
}

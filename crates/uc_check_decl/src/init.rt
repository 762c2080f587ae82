// Tests of initialisers, by the field that they name.

ghost use Rattle.std.specs.Prelude.{◌≡◌, option_and_then};
ghost use Rattle.uc_rules.specs.ClassBreaks.{entity_takes, is_behind, is_by_ref, is_from, may_init, may_start, maybe_start, sort_takes};
ghost use Rattle.uc_rules.specs.declared.rules.Entity.TheVariants as entity;
ghost use Rattle.uc_rules.specs.ProgramVisits.{field_place, home_member, last_field, later_field};

use crate::class::count_params;
use uc_rules::rules::{Entity, FieldPlace, NameMeaning, Origin, OwnClass, Sort};
use uc_tree::name::Name;
use uc_types::entity::{is_array, is_of_conditions};
use uc_types::spans::is_field_before;
use uc_types::tables::Tables;

fn sort_takes(tables: &Tables, count: usize, single: bool, sort: Sort) -> bool
    ensures { result ≡ sort_takes tables.now count single sort }
{
    match sort {
        Sort::Int | Sort::Char | Sort::Bool => single,
        Sort::Processor => count == 1,
        Sort::Object { class, .. } => count == count_params(tables, class),
        _ => true,
    }
}

fn place_takes(tables: &Tables, by_ref: bool, count: usize, single: bool, sort: Sort) -> bool
    ensures { result ≡ entity_takes tables.now by_ref count single (entity.Place sort) }
{
    if by_ref {
        count == 1
    } else {
        sort_takes(tables, count, single, sort)
    }
}

/// Whether a field takes so many values in an initialiser, where `single` says whether one alone is a scalar.
pub fn entity_takes(
    tables: &Tables,
    by_ref: bool,
    count: usize,
    single: bool,
    entity: Entity,
) -> bool
    ensures { result ≡ entity_takes tables.now by_ref count single entity }
{
    match entity {
        Entity::Place { sort } => place_takes(tables, by_ref, count, single, sort),
        _ => true,
    }
}

/// Whether it is a reference.
pub fn is_by_ref(origin: Origin) -> bool
    ensures { result ≡ is_by_ref origin }
{
    match origin {
        Origin::Parameter { by_ref } => by_ref,
        Origin::Field { by_ref, .. } => by_ref,
        _ => false,
    }
}

fn may_start(entity: Entity) -> bool
    ensures { result ≡ may_start entity }
{
    !(is_array(entity) || is_of_conditions(entity))
}

fn maybe_start(entity: Option<Entity>) -> bool
    ensures { result ≡ maybe_start entity }
{
    match entity {
        Some(entity) => may_start(entity),
        None => true,
    }
}

fn is_behind(last: Option<FieldPlace>, field: FieldPlace) -> bool
    ensures { result ≡ is_behind last field }
{
    match last {
        Some(last) => is_field_before(last, field),
        None => true,
    }
}

fn is_from(last: Option<FieldPlace>, origin: Origin) -> bool
    ensures { result ≡ is_from last origin }
{
    match origin {
        Origin::Field { field, .. } => is_behind(last, field),
        _ => false,
    }
}

/// Whether an initialiser may name it behind one of the field `last`.
pub fn may_init(last: Option<FieldPlace>, meant: Option<NameMeaning>) -> bool
    ensures { result ≡ may_init last meant }
{
    match meant {
        Some(meant) => is_from(last, meant.origin) && maybe_start(meant.entity),
        None => false,
    }
}

fn field_place(origin: Origin) -> Option<FieldPlace>
    ensures { result ≡ field_place origin }
{
    match origin {
        Origin::Field { field, .. } => Some(field),
        _ => None,
    }
}

/// The place of a field among those of its class; none for what is no field.
pub fn meant_field(meant: Option<NameMeaning>) -> Option<FieldPlace>
    ensures { result ≡ option_and_then (λ m. field_place m.origin) meant }
{
    let meant = meant?;
    field_place(meant.origin)
}

/// A member of the class in whose routine something stands.
pub fn home_member(tables: &Tables, home: Option<OwnClass>, name: &Name) -> Option<NameMeaning>
    ensures { result ≡ home_member tables.now home name.now }
{
    match home {
        Some(home) => tables.member_named(home.class, name),
        None => None,
    }
}

fn later_field(a: FieldPlace, b: FieldPlace) -> FieldPlace
    ensures { result ≡ later_field a b }
{
    if is_field_before(a, b) { b } else { a }
}

/// The last of the fields that are named.
pub fn last_field(last: Option<FieldPlace>, field: Option<FieldPlace>) -> Option<FieldPlace>
    ensures { result ≡ last_field last field }
{
    match last {
        None => field,
        Some(last) => match field {
            None => Some(last),
            Some(field) => Some(later_field(last, field)),
        },
    }
}

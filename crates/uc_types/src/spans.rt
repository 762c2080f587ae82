// Which fields an argument of an initialiser may use.

ghost use Rattle.std.specs.Prelude.{◌≡◌, ◌&&◌};
ghost use Rattle.std.specs.List.{list_all};
ghost use Rattle.uc_tree.specs.ProgramViews.{member_form_at};
ghost use Rattle.uc_rules.specs.Names.{is_field_before};
ghost use Rattle.uc_rules.specs.OwnerBreaks.{class_allows, fields_allow, form_allows, form_is_simple, is_bare_class, is_bare_field, is_bare_sort, is_inside, is_outside, is_simple_class, is_simple_field, is_simple_sort, may_stand_between, members_allow, span_allows};
ghost use Rattle.uc_rules.specs.Sorts.{class_at};

use crate::sort::{is_coroutine, is_scalar_sort};
use crate::tables::Tables;
use uc_rules::rules::{FieldPlace, Sort};
use uc_tree::class::{Member, MemberForm};
use uc_tree::declare::Declarator;
use uc_tree::kinds::{Base, Kind};

/// Whether a field stands before another one of its class.
pub fn is_field_before(a: FieldPlace, b: FieldPlace) -> bool
    ensures { result ≡ is_field_before a b }
{
    a.member < b.member || (a.member == b.member && a.index < b.index)
}

fn is_outside(from: FieldPlace, to: FieldPlace, place: FieldPlace) -> bool
    ensures { result ≡ is_outside from to place }
{
    is_field_before(place, from) || is_field_before(to, place)
}

fn is_inside(from: FieldPlace, to: FieldPlace, place: FieldPlace) -> bool
    ensures { result ≡ is_inside from to place }
{
    is_field_before(from, place) && is_field_before(place, to)
}

fn is_simple_sort(sort: Option<Sort>) -> bool
    ensures { result ≡ is_simple_sort sort }
{
    match sort {
        Some(sort) => is_scalar_sort(sort),
        None => false,
    }
}

fn is_simple_field(tables: &Tables, base: &Base, declarator: &Declarator) -> bool
    ensures { result ≡ is_simple_field tables.now base.now declarator.now }
{
    declarator.by_ref || is_simple_sort(tables.sort_of(base))
}

fn are_simple(tables: &Tables, base: &Base, declarators: &[Declarator]) -> bool
    ensures { result ≡ list_all (is_simple_field tables.now base.now) declarators.now }
{
    for declarator in declarators {
        if !is_simple_field(tables, base, declarator) {
            return false;
        }
    }
    true
}

fn is_simple_form(tables: &Tables, form: &MemberForm) -> bool
    ensures { result ≡ form_is_simple tables.now (member_form_at form.now) }
{
    match form {
        MemberForm::Fields {
            base,
            declarators,
            ..
        } => are_simple(tables, base, declarators),
        _ => true,
    }
}

fn are_simple_members(tables: &Tables, members: &[Member]) -> bool
    ensures { result ≡ list_all (λ m. form_is_simple tables.now m.form) members.now }
{
    for member in members {
        if !is_simple_form(tables, &member.form) {
            return false;
        }
    }
    true
}

fn is_simple_class(tables: &Tables, class: usize) -> bool
    ensures { result ≡ is_simple_class tables.now (class_at tables.now class) }
{
    match tables.class_at(class) {
        Some(class) => are_simple_members(tables, &class.members),
        None => false,
    }
}

fn is_bare_class(tables: &Tables, class: usize, kind: Kind) -> bool
    ensures { result ≡ is_bare_class tables.now class kind }
{
    is_coroutine(kind) && is_simple_class(tables, class)
}

fn is_bare_object(tables: &Tables, sort: Sort) -> bool
    ensures { result ≡ is_bare_sort tables.now (Some sort) }
{
    match sort {
        Sort::Object { class, kind } => is_bare_class(tables, class, kind),
        _ => false,
    }
}

fn is_bare_sort(tables: &Tables, sort: Option<Sort>) -> bool
    ensures { result ≡ is_bare_sort tables.now sort }
{
    match sort {
        Some(sort) => is_bare_object(tables, sort),
        None => false,
    }
}

fn is_bare_field(tables: &Tables, base: &Base, declarator: &Declarator) -> bool
    ensures { result ≡ is_bare_field tables.now base.now declarator.now }
{
    !declarator.by_ref && (!declarator.len.is_some() && is_bare_sort(tables, tables.sort_of(base)))
}

fn may_stand_between(tables: &Tables, base: &Base, declarator: &Declarator) -> bool
    ensures { result ≡ may_stand_between tables.now base.now declarator.now }
{
    is_bare_field(tables, base, declarator) || is_simple_field(tables, base, declarator)
}

fn span_allows(
    tables: &Tables,
    from: FieldPlace,
    to: FieldPlace,
    place: FieldPlace,
    base: &Base,
    declarator: &Declarator,
) -> bool
    ensures { result ≡ span_allows tables.now from to place base.now declarator.now }
{
    is_outside(from, to, place)
        || (is_bare_field(tables, base, declarator)
            || (is_inside(from, to, place) && may_stand_between(tables, base, declarator)))
}

fn fields_allow(
    tables: &Tables,
    from: FieldPlace,
    to: FieldPlace,
    member: usize,
    base: &Base,
    declarators: &[Declarator],
) -> bool
    ensures { result ≡ fields_allow tables.now from to member 0 base.now declarators.now }
{
    for (index, declarator) in declarators.iter().enumerate() {
        let place = FieldPlace { member, index };
        if !span_allows(tables, from, to, place, base, declarator) {
            return false;
        }
    }
    true
}

fn form_allows(
    tables: &Tables,
    from: FieldPlace,
    to: FieldPlace,
    member: usize,
    form: &MemberForm,
) -> bool
    ensures { result ≡ form_allows tables.now from to member (member_form_at form.now) }
{
    match form {
        MemberForm::Fields {
            base,
            declarators,
            ..
        } => fields_allow(tables, from, to, member, base, declarators),
        _ => true,
    }
}

fn members_allow(tables: &Tables, from: FieldPlace, to: FieldPlace, members: &[Member]) -> bool
    ensures { result ≡ members_allow tables.now from to 0 members.now }
{
    for (place, member) in members.iter().enumerate() {
        if !form_allows(tables, from, to, place, &member.form) {
            return false;
        }
    }
    true
}

/// Whether a field may be bound to a later one of its class: both are bare coroutines, and what is between them may stand there.
pub fn class_allows(tables: &Tables, from: FieldPlace, to: FieldPlace, class: usize) -> bool
    ensures { result ≡ class_allows tables.now from to (class_at tables.now class) }
{
    match tables.class_at(class) {
        Some(class) => members_allow(tables, from, to, &class.members),
        None => false,
    }
}

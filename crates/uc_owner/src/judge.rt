// The rules on who owns what, at one parameter, field or argument.

ghost use Rattle.std.specs.Prelude.{◌≡◌, IfOk, OnOk, Some, not};
ghost use Rattle.uc_rules.specs.Asked.{of_sort, unless};
ghost use Rattle.uc_rules.specs.declared.rule.Rule.TheVariants.{O4, O5};
ghost use Rattle.uc_rules.specs.Firsts.{after};
ghost use Rattle.uc_rules.specs.OwnerBreaks.{begins_well, condition_field_breaks, is_home_of, is_no_condition_sort, is_root, is_root_origin, is_shared, is_unshared, lone_condition, may_refer, reference_breaks, root_name, shared_breaks, unbound_reference, unshared_reference};
ghost use Rattle.uc_rules.specs.Visits.{AtBound, AtField, AtParam};
ghost use Rattle.uc_tree.specs.declared.kinds.Access.{Access};
ghost use Rattle.uc_rules.specs.Sorts.{sort_of};
ghost use Rattle.uc_tree.specs.Numbering.{is_mutex};
ghost use Rattle.uc_types.specs.FirstBreak.{first_break_after};
ghost use Rattle.uc_rules.specs.declared.rules.FieldPlace.{FieldPlace};
ghost use Rattle.uc_rules.specs.declared.rules.OwnClass as rules;
ghost use Rattle.uc_tree.specs.declared.kinds.Base as base;
ghost use Rattle.uc_owner.specs.Bound.{AreBound};

use crate::bind::{BoundFields, is_bound_inside, root_name};
use std::alloc::AllocError;
use uc_rules::rule::Rule;
use uc_rules::rules::{Expected, NameMeaning, Origin, OwnClass, Sort};
use uc_tree::class::Class;
use uc_tree::declare::Declarator;
use uc_tree::expr::Expr;
use uc_tree::kinds::{Base, Param};
use uc_tree::pos::Pos;
use uc_types::ask::is_reference;
use uc_types::found::Found;
use uc_types::names::Names;
use uc_types::sort::{
    is_cluster, is_condition, is_constructor, is_mutex, is_mutex_sort, is_plain_sort,
    is_scalar_sort,
};
use uc_types::tables::Tables;

fn is_shared(sort: Sort) -> bool
    ensures { result ≡ is_shared sort }
{
    is_cluster(sort) || is_mutex_sort(sort)
}

fn is_home_of_mutex(home: Option<OwnClass>) -> bool
    ensures { result ≡ is_home_of is_mutex home }
{
    match home {
        Some(home) => is_mutex(home.kind),
        None => false,
    }
}

fn note_condition(sort: Option<Sort>, at: Pos, found: &mut Found)
    ensures { found.new ≡ after found.old (of_sort sort is_no_condition_sort O4 at) }
{
    match sort {
        Some(sort) => found.note_unless(!is_condition(sort), Rule::O4, at),
        None => {}
    }
}

fn note_shared(names: &Names, sort: Option<Sort>, param: &Param, found: &mut Found)
    requires sort { sort ≡ sort_of names.now.program param.now.base }
    ensures { found.new ≡ after found.old (shared_breaks names.now param.now) }
{
    let around = names.around();
    if param.by_ref && (is_constructor(around.role) && is_home_of_mutex(around.home)) {
        match sort {
            Some(sort) => found.note_unless(is_shared(sort), Rule::O1, param.pos),
            None => {}
        }
    }
}

/// What these rules ask of a parameter.
pub fn note_param(names: &Names, param: &Param, found: &mut Found)
    ensures { found.new ≡ after (after found.old (unshared_reference (AtParam names.now param.now)))
        (lone_condition (AtParam names.now param.now)) }
{
    let sort = names.tables().sort_of(&param.base);
    note_shared(names, sort, param, found);
    note_condition(sort, param.pos, found);
}

fn is_unshared(sort: Sort) -> bool
    ensures { result ≡ is_unshared sort }
{
    is_scalar_sort(sort) || is_plain_sort(sort)
}

fn may_refer(
    names: &Names,
    class: &Class,
    place: usize,
    bound: BoundFields,
    declarator: &Declarator,
    sort: Sort,
) -> Result<bool, AllocError>
    requires { AreBound names.now.program class.now place bound.known bound.names.now }
    ensures { IfOk result (λ holds. holds
        ≡ may_refer names.now.program class.now place declarator.now.name sort) }
{
    if !is_unshared(sort) {
        return Ok(true);
    }
    is_bound_inside(
        names.alloc(),
        names.tables(),
        class,
        place,
        bound,
        &declarator.name,
    )
}

// Behind another break nothing is asked.
fn note_referred(
    names: &Names,
    class: &Class,
    place: usize,
    bound: BoundFields,
    declarator: &Declarator,
    sort: Sort,
    found: &mut Found,
) -> Result<(), AllocError>
    requires { AreBound names.now.program class.now place bound.known bound.names.now }
    ensures { OnOk result (found.new
        ≡ after found.old
        (unless (may_refer names.now.program class.now place declarator.now.name sort) O5
        declarator.now.pos)) }
{
    if !found.is_open(Rule::O5, declarator.pos) {
        return Ok(());
    }
    let holds = may_refer(names, class, place, bound, declarator, sort)?;
    found.note_unless(holds, Rule::O5, declarator.pos);
    Ok(())
}

fn note_unshared(
    names: &Names,
    class: &Class,
    place: usize,
    bound: BoundFields,
    sort: Option<Sort>,
    declarator: &Declarator,
    found: &mut Found,
) -> Result<(), AllocError>
    requires { AreBound names.now.program class.now place bound.known bound.names.now }
    ensures { OnOk result (found.new
        ≡ after found.old
        (of_sort sort
        (may_refer names.now.program class.now place declarator.now.name) O5 declarator.now.pos)) }
{
    match sort {
        Some(sort) => note_referred(names, class, place, bound, declarator, sort, found),
        None => Ok(()),
    }
}

// A field of a class that has this place and kind.
fn note_home(
    names: &Names,
    class: &Class,
    home: OwnClass,
    bound: BoundFields,
    sort: Option<Sort>,
    declarator: &Declarator,
    found: &mut Found,
) -> Result<(), AllocError>
    requires bound { AreBound names.now.program class.now home.class bound.known bound.names.now }
    ensures { OnOk result ((b : base.Base) → sort ≡ sort_of names.now.program b →
        found.new ≡ after found.old
        (reference_breaks names.now class.now (Some home) b declarator.now)) }
{
    if declarator.by_ref && is_mutex(home.kind) {
        note_unshared(names, class, home.class, bound, sort, declarator, found)?;
        return Ok(());
    }
    Ok(())
}

fn note_reference(
    names: &Names,
    class: &Class,
    bound: BoundFields,
    sort: Option<Sort>,
    declarator: &Declarator,
    found: &mut Found,
) -> Result<(), AllocError>
    requires bound { (home : rules.OwnClass) → names.now.around.home ≡ Some home →
        AreBound names.now.program class.now home.class bound.known bound.names.now }
    ensures { OnOk result ((b : base.Base) → sort ≡ sort_of names.now.program b →
        found.new ≡ after found.old
        (reference_breaks names.now class.now names.now.around.home b declarator.now)) }
{
    match names.around().home {
        Some(home) => {
            note_home(names, class, home, bound, sort, declarator, found)?;
            Ok(())
        }
        None => Ok(()),
    }
}

/// What these rules ask of a field.
pub fn note_field(
    names: &Names,
    class: &Class,
    bound: BoundFields,
    base: &Base,
    declarator: &Declarator,
    found: &mut Found,
) -> Result<(), AllocError>
    requires bound { (home : rules.OwnClass) → names.now.around.home ≡ Some home →
        AreBound names.now.program class.now home.class bound.known bound.names.now }
    ensures { OnOk result ((access : Access) (field : FieldPlace) →
        found.new ≡ after
        (after found.old
        (lone_condition (AtField names.now class.now access base.now declarator.now field)))
        (unbound_reference (AtField names.now class.now access base.now declarator.now field))) }
{
    let sort = names.tables().sort_of(base);
    note_field_condition(names, sort, declarator, found);
    note_reference(names, class, bound, sort, declarator, found)
}

fn note_field_condition(
    names: &Names,
    sort: Option<Sort>,
    declarator: &Declarator,
    found: &mut Found,
)
    ensures { (b : base.Base) → sort ≡ sort_of names.now.program b →
        found.new ≡ after found.old (condition_field_breaks names.now b declarator.now) }
{
    if !is_home_of_mutex(names.around().home) {
        note_condition(sort, declarator.pos, found);
    }
}

fn is_root_origin(origin: Origin) -> bool
    ensures { result ≡ is_root_origin origin }
{
    match origin {
        Origin::Parameter { by_ref } => by_ref,
        Origin::Field { .. } => true,
        _ => false,
    }
}

fn is_root(meant: Option<NameMeaning>) -> bool
    ensures { result ≡ is_root meant }
{
    match meant {
        Some(meant) => is_root_origin(meant.origin),
        None => false,
    }
}

fn begins_well(names: &Names, e: &Expr) -> bool
    ensures { result ≡ begins_well names.now (root_name e.now) }
{
    match root_name(e) {
        Some(name) => is_root(names.named(name)),
        None => false,
    }
}

/// What these rules ask of the argument of an initialiser.
pub fn note_bound(names: &Names, e: &Expr, expected: Expected, found: &mut Found)
    ensures { found.new ≡ first_break_after found.old (AtBound names.now e.now expected) }
{
    let holds = !is_reference(expected) || begins_well(names, e);
    found.note_unless(holds, Rule::O6, e.first_token());
}

// What references are bound to.

ghost use Rattle.std.specs.Prelude.{◌≡◌, ◌<◌, ◌||◌, ℕ, List, IfOk, MatchOption, None, OnOk, Some, is_some, length, map};
ghost use Rattle.std.specs.List.{list_any};
ghost use Rattle.uc_names.specs.Blocks.{found};
ghost use Rattle.uc_tree.specs.Expressions.{exprs_of};
ghost use Rattle.uc_tree.specs.Names.{same_name};
ghost use Rattle.uc_tree.specs.ProgramViews.{member_form_at};
ghost use Rattle.uc_rules.specs.OwnerBreaks.{binds_own, form_binds, init_binds, is_bound_inside, is_field_meant, is_field_origin, names_own_field, root_name, routine_binds};
ghost use Rattle.uc_owner.specs.Bound.{AreBound};

use std::alloc::{AllocError, Global};
use uc_names::scope::Scope;
use uc_rules::rules::{NameMeaning, Origin};
use uc_tree::class::{Class, Init, Member, MemberForm, Routine};
use uc_tree::expr::{Expr, ExprForm};
use uc_tree::name::Name;
use uc_types::sets::{has_name, names_of_params, no_names, note_name};
use uc_types::sort::is_constructor;
use uc_types::tables::Tables;

/// The name that a path begins with.
pub fn root_name(e: &Expr) -> Option<&Name>
    ensures { MatchOption result (root_name e.now ≡ None) (λ n. root_name e.now ≡ Some n.now) }
{
    match &e.form {
        ExprForm::Name { name } => Some(name),
        ExprForm::Postfix { root, .. } => root_name(root),
        _ => None,
    }
}

fn is_field_origin(origin: Origin) -> bool
    ensures { result ≡ is_field_origin origin }
{
    matches!(origin, Origin::Field { .. })
}

fn is_field_meant(meant: Option<NameMeaning>) -> bool
    ensures { result ≡ is_field_meant meant }
{
    match meant {
        Some(meant) => is_field_origin(meant.origin),
        None => false,
    }
}

// A constructor of the class with this place, with the names of its parameters.
#[derive(Clone, Copy)]
struct ConstructorNames<'a> {
    tables: &'a Tables<'a>,
    class: usize,
    routine: &'a Routine,
    params: &'a Scope,
    ghost params_are: { (x : List ℕ) → is_some (found params.now x) ≡ list_any (λ p. same_name p.name x) routine.now.sig.params },
}

// Whether a name stands for a field of the class in the constructor.
fn is_own_field(built: &ConstructorNames, name: &Name) -> bool
    ensures { result ≡ names_own_field built.now.tables.now built.now.class built.now.routine.now
        (Some name.now) }
{
    !has_name(built.params, name) && is_field_meant(built.tables.member_named(built.class, name))
}

fn begins_with_own(built: &ConstructorNames, e: &Expr) -> bool
    ensures { result ≡ names_own_field built.now.tables.now built.now.class built.now.routine.now
        (root_name e.now) }
{
    match root_name(e) {
        Some(name) => is_own_field(built, name),
        None => false,
    }
}

fn binds_own(built: &ConstructorNames, args: &[Expr]) -> bool
    ensures { result ≡ binds_own built.now.tables.now built.now.class built.now.routine.now
        (exprs_of args.now) }
{
    args.len() == 1 && begins_with_own(built, &args[0])
}

fn note_init(names: &mut Scope, built: &ConstructorNames, init: &Init) -> Result<(), AllocError>
    requires { 0 < length names.old }
    ensures open { OnOk result (0 < length names.new) }
    ensures noted { OnOk result ((x : List ℕ) →
        is_some (found names.new x)
        ≡ (is_some (found names.old x)
        || init_binds built.now.tables.now built.now.class x built.now.routine.now init.now)) }
{
    if binds_own(built, &init.args) {
        note_name(names, &init.name)?;
        return Ok(());
    }
    Ok(())
}

fn note_inits(names: &mut Scope, built: &ConstructorNames, inits: &[Init]) -> Result<(), AllocError>
    requires { 0 < length names.old }
    ensures open { OnOk result (0 < length names.new) }
    ensures noted { OnOk result ((x : List ℕ) →
        is_some (found names.new x)
        ≡ (is_some (found names.old x)
        || list_any (init_binds built.now.tables.now built.now.class x built.now.routine.now)
        inits.now)) }
{
    for init in inits {
        note_init(names, built, init)?;
    }
    Ok(())
}

fn note_constructor(
    alloc: Global,
    names: &mut Scope,
    tables: &Tables,
    class: usize,
    routine: &Routine,
) -> Result<(), AllocError>
    requires { 0 < length names.old }
    ensures open { OnOk result (0 < length names.new) }
    ensures noted { OnOk result ((x : List ℕ) →
        is_some (found names.new x)
        ≡ (is_some (found names.old x)
        || list_any (init_binds tables.now class x routine.now) routine.now.inits)) }
{
    let params = names_of_params(alloc, &routine.sig.params)?;
    let built = ConstructorNames {
        tables,
        class,
        routine,
        params: &params,
    };
    let noted = note_inits(names, &built, &routine.inits);
    drop(params);
    noted
}

fn note_routine(
    alloc: Global,
    names: &mut Scope,
    tables: &Tables,
    class: usize,
    routine: &Routine,
) -> Result<(), AllocError>
    requires { 0 < length names.old }
    ensures open { OnOk result (0 < length names.new) }
    ensures noted { OnOk result ((x : List ℕ) →
        is_some (found names.new x)
        ≡ (is_some (found names.old x) || routine_binds tables.now class x routine.now)) }
{
    if is_constructor(routine.sig.role) {
        note_constructor(alloc, names, tables, class, routine)?;
        return Ok(());
    }
    Ok(())
}

fn note_form(
    alloc: Global,
    names: &mut Scope,
    tables: &Tables,
    class: usize,
    form: &MemberForm,
) -> Result<(), AllocError>
    requires { 0 < length names.old }
    ensures open { OnOk result (0 < length names.new) }
    ensures noted { OnOk result ((x : List ℕ) →
        is_some (found names.new x)
        ≡ (is_some (found names.old x) || form_binds tables.now class x (member_form_at form.now))) }
{
    match form {
        MemberForm::Routine { routine } => {
            note_routine(alloc, names, tables, class, routine)?;
            Ok(())
        }
        MemberForm::Fields { .. } | MemberForm::Proto { .. } => Ok(()),
    }
}

fn note_members(
    alloc: Global,
    names: &mut Scope,
    tables: &Tables,
    class: usize,
    members: &[Member],
) -> Result<(), AllocError>
    requires { 0 < length names.old }
    ensures open { OnOk result (0 < length names.new) }
    ensures noted { OnOk result ((x : List ℕ) →
        is_some (found names.new x)
        ≡ (is_some (found names.old x)
        || list_any (λ m. form_binds tables.now class x m.form) members.now)) }
{
    for member in members {
        note_form(alloc, names, tables, class, &member.form)?;
    }
    Ok(())
}

fn note_routines(
    alloc: Global,
    names: &mut Scope,
    tables: &Tables,
    class: usize,
    routines: &[&Routine],
) -> Result<(), AllocError>
    requires { 0 < length names.old }
    ensures open { OnOk result (0 < length names.new) }
    ensures noted { OnOk result ((x : List ℕ) →
        is_some (found names.new x)
        ≡ (is_some (found names.old x)
        || list_any (routine_binds tables.now class x) (map (λ r. r.now) routines.now))) }
{
    for routine in routines {
        note_routine(alloc, names, tables, class, routine)?;
    }
    Ok(())
}

/// The names of the fields of a class that its constructors bind to fields of the same object.
pub fn names_bound(
    alloc: Global,
    tables: &Tables,
    class: &Class,
    place: usize,
) -> Result<Scope, AllocError>
    ensures { IfOk result (λ names. (x : List ℕ) →
        is_some (found names x) ≡ is_bound_inside tables.now class.now place x) }
{
    let mut names = no_names(alloc)?;
    note_members(alloc, &mut names, tables, place, &class.members)?;
    note_routines(
        alloc,
        &mut names,
        tables,
        place,
        tables.constructors_of(&class.name),
    )?;
    Ok(names)
}

/// The same where they are asked for; else none are known.
pub fn bound_fields(
    alloc: Global,
    tables: &Tables,
    class: &Class,
    place: usize,
    known: bool,
) -> Result<Scope, AllocError>
    ensures { IfOk result (λ names. AreBound tables.now class.now place known names) }
{
    if known {
        return names_bound(alloc, tables, class, place);
    }
    Ok(Scope::new(alloc))
}

/// The fields of a class that its constructors bind to fields of the same object, where they are known.
#[derive(Clone, Copy)]
pub struct BoundFields<'a> {
    pub known: bool,
    pub names: &'a Scope,
}

/// Whether a constructor of a class binds the field of this name to a field of the same object.
pub fn is_bound_inside(
    alloc: Global,
    tables: &Tables,
    class: &Class,
    place: usize,
    bound: BoundFields,
    name: &Name,
) -> Result<bool, AllocError>
    requires { AreBound tables.now class.now place bound.known bound.names.now }
    ensures { IfOk result (λ inside. inside ≡ is_bound_inside tables.now class.now place name.now) }
{
    if bound.known {
        return Ok(has_name(bound.names, name));
    }
    let names = names_bound(alloc, tables, class, place)?;
    let inside = has_name(&names, name);
    drop(names);
    Ok(inside)
}

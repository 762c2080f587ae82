// Whether a member of a class is the first of its name.

ghost use Rattle.std.specs.Prelude.{◌≡◌, ◌||◌, Some, take};
ghost use Rattle.std.specs.List.{list_any};
ghost use Rattle.uc_tree.specs.ProgramViews.{member_form_at};
ghost use Rattle.uc_rules.specs.ClassBreaks.{builds, fields_at, is_kept, is_new_field, is_new_routine_by};
ghost use Rattle.uc_rules.specs.Names.{member_named, place_in};
ghost use Rattle.uc_rules.specs.Sorts.{class_at};
ghost use Rattle.uc_check_decl.specs.Earlier.{entity_before, meant_before, method_before, stands_before};

use uc_rules::rules::{Entity, FieldPlace, NameMeaning, Origin};
use uc_tree::class::{Class, Member, MemberForm};
use uc_tree::kinds::Role;
use uc_tree::name::Name;
use uc_types::bases::is_given;
use uc_types::sort::is_constructor;
use uc_types::spans::is_field_before;
use uc_types::tables::Tables;

fn entity_before(place: FieldPlace, entity: Entity) -> bool
    ensures { result ≡ entity_before place entity }
{
    match entity {
        Entity::Method { member, .. } => member < place.member,
        _ => false,
    }
}

fn method_before(place: FieldPlace, entity: Option<Entity>) -> bool
    ensures { result ≡ method_before place entity }
{
    match entity {
        Some(entity) => entity_before(place, entity),
        None => false,
    }
}

fn meant_before(place: FieldPlace, meant: NameMeaning) -> bool
    ensures { result ≡ meant_before place meant }
{
    match meant.origin {
        Origin::Field { field, .. } => is_field_before(field, place),
        Origin::Method { .. } => method_before(place, meant.entity),
        _ => false,
    }
}

// Whether a member stands before this place in its class.
fn stands_before(place: FieldPlace, meant: Option<NameMeaning>) -> bool
    ensures { result ≡ stands_before place meant }
{
    match meant {
        Some(meant) => meant_before(place, meant),
        None => false,
    }
}

// Whether a member or field of the class with this place that stands before a place in it has a name.
fn is_named_before(tables: &Tables, home: usize, place: FieldPlace, name: &Name) -> bool
    ensures { result ≡ stands_before place (member_named tables.now home name.now) }
{
    stands_before(place, tables.member_named(home, name))
}

fn builds(form: &MemberForm) -> bool
    ensures { result ≡ builds (member_form_at form.now) }
{
    match form {
        MemberForm::Fields { .. } => false,
        MemberForm::Routine { routine } => is_constructor(routine.sig.role),
        MemberForm::Proto { sig } => is_constructor(sig.role),
    }
}

fn any_builds(members: &[Member], count: usize) -> bool
    ensures { result ≡ list_any (λ m. builds m.form) (take count members.now) }
{
    members.iter().take(count).any(|m| builds(&m.form))
}

// Whether a member with this place may not have a name, whatever stands before it.
fn is_kept(class: &Class, member: usize, name: &Name) -> bool
    ensures { result ≡ is_kept class.now member name.now }
{
    is_given(name) || (name.is(class.name.bytes()) && any_builds(&class.members, member))
}

fn is_taken(tables: &Tables, home: usize, class: &Class, place: FieldPlace, name: &Name) -> bool
    ensures { result ≡ (stands_before place (member_named tables.now home name.now)
        || is_kept class.now place.member name.now) }
{
    is_named_before(tables, home, place, name) || is_kept(class, place.member, name)
}

/// Whether no member or field before it declares the name of a field of the class with this place.
pub fn is_new_field(
    tables: &Tables,
    home: usize,
    class: &Class,
    place: FieldPlace,
    name: &Name,
) -> bool
    ensures { class_at tables.now home ≡ Some class.now →
        result ≡ is_new_field class.now place (fields_at class.now place.member) name.now }
{
    let taken = is_taken(tables, home, class, place, name);
    !taken
}

/// Whether no member before it declares the name of a routine of this role in the class with this place. Destructors have none.
pub fn is_new_routine(
    tables: &Tables,
    home: usize,
    class: &Class,
    member: usize,
    role: Role,
    name: &Name,
) -> bool
    ensures { class_at tables.now home ≡ Some class.now →
        result ≡ is_new_routine_by role class.now member name.now }
{
    let place = FieldPlace { member, index: 0 };
    match role {
        Role::Plain => {
            let taken = is_taken(tables, home, class, place, name);
            !taken
        }
        Role::Constructor => {
            let named = is_named_before(tables, home, place, name);
            !named
        }
        Role::Destructor => true,
    }
}

// What classes hold.

ghost use Rattle.std.specs.Prelude.{◌≡◌, ◌+◌, ◌++◌, IfOk, OnOk, Some, None, if◌then◌else◌, map};
ghost use Rattle.uc_tree.specs.Constants.{sound_length, elements};
ghost use Rattle.uc_tree.specs.Cells.{object_of_kind, object_named, object_of, held_by, member_held, members_held, leading_cells};
ghost use Rattle.uc_tree.specs.ProgramViews.{member_form_at};
ghost use Rattle.uc_tree.specs.Numbering.{is_event};
ghost use Rattle.uc_tree.specs.Objects.{event_from};
ghost use Rattle.uc_layout.specs.FieldContents.{event_in, row_by, rows_by};

use crate::eval::value_by;
use crate::known::{HiddenByTable, names_of_members};
use crate::named::NameValues;
use crate::places::{Classes, ConstantValues};
use std::alloc::{AllocError, Global};
use uc_tree::class::{Class, Member, MemberForm};
use uc_tree::declare::Declarator;
use uc_tree::kinds::{Base, Kind};
use uc_tree::limits::ARRAY_LENGTH;
use uc_tree::name::Name;
use uc_tree::rows::{ClassLayout, FieldClass, FieldLayout};

/// A length of 1 to `ARRAY_LENGTH`; a broken one counts as 1.
pub fn sound_length(value: Option<i64>) -> u32
    ensures { result ≡ sound_length value }
{
    match value {
        Some(length) => {
            if 1 <= length && length <= i64::from(ARRAY_LENGTH) {
                length as u32
            } else {
                1
            }
        }
        None => 1,
    }
}

/// How many elements a declarator declares.
pub fn elements_of<N: NameValues>(named: &N, declarator: &Declarator) -> u32
    ensures { result ≡ elements (N.value_named named.now) declarator.now }
{
    if declarator.by_ref {
        return 1;
    }
    match &declarator.len {
        Some(length) => sound_length(value_by(length, named)),
        None => 1,
    }
}

fn object_of_kind(class: usize, kind: Kind) -> Option<FieldClass>
    ensures { result ≡ object_of_kind class kind }
{
    match kind {
        Kind::Class => Some(FieldClass { class, plain: true }),
        Kind::Coroutine => Some(FieldClass { class, plain: true }),
        Kind::Monitor => Some(FieldClass {
            class,
            plain: false,
        }),
        Kind::Cormonitor => Some(FieldClass {
            class,
            plain: false,
        }),
        Kind::Task => Some(FieldClass {
            class,
            plain: false,
        }),
        Kind::Event => None,
    }
}

fn object_named(classes: &Classes, name: &Name) -> Option<FieldClass>
    ensures { result ≡ object_named (map (λ c. c.now) classes.now.list.now) 0 name.now }
{
    match classes.place_of(name) {
        Some(place) => {
            let class = classes.list[place];
            object_of_kind(place, class.kind)
        }
        None => None,
    }
}

// An event, by the place that it has.
fn event_of_kind(place: usize, kind: Kind) -> Option<usize>
    ensures { result ≡ (if is_event kind then Some place else None) }
{
    match kind {
        Kind::Class => None,
        Kind::Coroutine => None,
        Kind::Monitor => None,
        Kind::Cormonitor => None,
        Kind::Task => None,
        Kind::Event => Some(place),
    }
}

/// The event of a name, by its place, or none.
pub fn event_named(classes: &Classes, name: &Name) -> Option<usize>
    ensures { result ≡ event_from (map (λ c. c.now) classes.now.list.now) 0 name.now }
{
    match classes.place_of(name) {
        Some(place) => {
            let class = classes.list[place];
            event_of_kind(place, class.kind)
        }
        None => None,
    }
}

/// The event that a base names, by its place, or none.
pub fn event_of(classes: &Classes, base: &Base) -> Option<usize>
    ensures { result ≡ event_in (map (λ c. c.now) classes.now.list.now) base.now }
{
    match base {
        Base::Void => None,
        Base::Int => None,
        Base::Char => None,
        Base::Bool => None,
        Base::Condition => None,
        Base::Cluster => None,
        Base::Processor => None,
        Base::Named(name) => event_named(classes, name),
    }
}

/// The object that a field or a variable of this base is, or none.
pub fn object_of(classes: &Classes, base: &Base) -> Option<FieldClass>
    ensures { result ≡ object_of (map (λ c. c.now) classes.now.list.now) base.now }
{
    match base {
        Base::Void => None,
        Base::Int => None,
        Base::Char => None,
        Base::Bool => None,
        Base::Condition => None,
        Base::Cluster => None,
        Base::Processor => None,
        Base::Named(name) => object_named(classes, name),
    }
}

/// What a declarator holds.
pub fn held_by<N: NameValues>(
    classes: &Classes,
    named: &N,
    base: &Base,
    declarator: &Declarator,
) -> FieldLayout
    ensures { result ≡ held_by (map (λ c. c.now) classes.now.list.now)
        (N.value_named named.now) base.now declarator.now }
{
    let object = if declarator.by_ref {
        None
    } else {
        object_of(classes, base)
    };
    FieldLayout {
        count: elements_of(named, declarator),
        object,
    }
}

fn push_fields<N: NameValues>(
    held: &mut Vec<FieldLayout>,
    classes: &Classes,
    named: &N,
    base: &Base,
    declarators: &[Declarator],
) -> Result<(), AllocError>
    ensures { OnOk result (held.new.items
        ≡ held.old.items
        ++ map (held_by (map (λ c. c.now) classes.now.list.now) (N.value_named named.now) base.now)
        declarators.now) }
{
    for declarator in declarators {
        held.push(held_by(classes, named, base, declarator))?;
    }
    Ok(())
}

fn push_member<N: NameValues>(
    held: &mut Vec<FieldLayout>,
    classes: &Classes,
    named: &N,
    form: &MemberForm,
) -> Result<(), AllocError>
    ensures { OnOk result (held.new.items
        ≡ held.old.items ++ member_held (map (λ c. c.now) classes.now.list.now)
        (N.value_named named.now) (member_form_at form.now)) }
{
    match form {
        MemberForm::Fields {
            base,
            declarators,
            ..
        } => {
            push_fields(held, classes, named, base, declarators)?;
            Ok(())
        }
        MemberForm::Routine { .. } => Ok(()),
        MemberForm::Proto { .. } => Ok(()),
    }
}

fn members_held<N: NameValues>(
    alloc: Global,
    classes: &Classes,
    named: &N,
    members: &[Member],
) -> Result<Vec<FieldLayout>, AllocError>
    ensures { IfOk result (λ v. v.items
        ≡ members_held (map (λ c. c.now) classes.now.list.now)
        (N.value_named named.now) members.now) }
{
    let mut held = Vec::new(alloc);
    for member in members {
        push_member(&mut held, classes, named, &member.form)?;
    }
    Ok(held)
}

/// The cells before the fields of an object of a class of this kind.
pub fn leading_cells(kind: Kind) -> u32
    ensures { result ≡ leading_cells kind }
{
    match kind {
        Kind::Class => 0,
        Kind::Coroutine => 1,
        Kind::Monitor => 0,
        Kind::Cormonitor => 1,
        Kind::Task => 0,
        Kind::Event => 0,
    }
}

fn row_of(
    alloc: Global,
    classes: &Classes,
    known: &ConstantValues,
    class: &Class,
) -> Result<ClassLayout, AllocError>
    ensures { IfOk result (λ r. r
        ≡ row_by (map (λ c. c.now) classes.now.list.now)
        (map (λ c. c.now) known.now.constants.now) known.now.values.now class.now) }
{
    let members = names_of_members(alloc, &class.members)?;
    let inside = HiddenByTable {
        known: *known,
        members: &members,
    };
    let held = members_held(alloc, classes, &inside, &class.members)?;
    Ok(ClassLayout {
        leading: leading_cells(class.kind),
        held,
    })
}

/// What each of these classes holds.
pub fn rows_of(
    alloc: Global,
    classes: &Classes,
    known: &ConstantValues,
) -> Result<Vec<ClassLayout>, AllocError>
    ensures { IfOk result (λ v. v.items
        ≡ rows_by (map (λ c. c.now) classes.now.list.now)
        (map (λ c. c.now) known.now.constants.now) known.now.values.now) }
{
    let mut rows = Vec::new(alloc);
    for class in classes.list {
        rows.push(row_of(alloc, classes, known, class)?)?;
    }
    Ok(rows)
}

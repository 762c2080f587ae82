// The names that classes and programs declare, in order, with what they mean.

ghost use Rattle.std.specs.Prelude.{◌≡◌, ◌++◌, ◌∷◌, [], IfOk, OnOk, is_some, map, ℕ, List};
ghost use Rattle.std.specs.List.{list_any};
ghost use Rattle.uc_tree.specs.Cells.{classes_of, member_form_named, seen_in};
ghost use Rattle.uc_tree.specs.Constants.{constants_of, elements};
ghost use Rattle.uc_tree.specs.ProgramViews.{member_form_at};
ghost use Rattle.uc_names.specs.Blocks.{found};
ghost use Rattle.uc_rules.specs.Names.{field_meant, is_here, outer};
ghost use Rattle.uc_types.specs.Lengths.{lengths_by};
ghost use Rattle.uc_types.specs.Listings.{class_seen, classes_seen, fields_seen, form_seen, item_seen, items_seen, members_seen, method_meant, method_seen, routine_seen, seen};

use crate::bases::Bases;
use crate::directory::NameTable;
use crate::sort::{is_inner_only, is_plain};
use std::alloc::{AllocError, Global};
use uc_layout::held::elements_of;
use uc_layout::known::names_of_members;
use uc_layout::named::NameValues;
use uc_layout::sizes::Sizes;
use uc_names::scope::Scope;
use uc_rules::rules::{Entity, FieldPlace, LocalName, NameMeaning, Origin};
use uc_tree::class::{Class, Member, MemberForm, Sig};
use uc_tree::declare::Declarator;
use uc_tree::kinds::{Access, Base, MutexMark, Owner};
use uc_tree::name::Name;
use uc_tree::program::{Item, ItemForm};

/// The values of constants where members of these names hide them.
#[derive(Clone, Copy)]
pub struct Lengths<'a> {
    pub sizes: &'a Sizes<'a>,
    pub members: &'a Scope,
}

impl<'a> NameValues for Lengths<'a> {
    ghost value_named = { lengths_by };

    fn value(&self, name: &Name) -> Option<i64> {
        if self.members.find(name.bytes()).is_some() {
            return None;
        }
        let value = self.sizes.value_of(name);
        value
    }
}

// A class whose members are listed, by its place, with its lengths.
#[derive(Clone, Copy)]
struct Listed<'a> {
    bases: &'a Bases<'a>,
    place: usize,
    class: &'a Class,
    lengths: Lengths<'a>,
    ghost lengths_are: { lengths_by lengths ≡ seen_in (constants_of bases.now.items) class.now },
}

fn push_name(
    alloc: Global,
    list: &mut Vec<LocalName>,
    name: &Name,
    meant: NameMeaning,
) -> Result<(), AllocError>
    ensures { OnOk result (list.new.items ≡ list.old.items ++ seen name.now meant ∷ []) }
{
    let name = name.copy(alloc)?;
    list.push(LocalName { name, meant })?;
    Ok(())
}

fn count_of(listed: &Listed, declarator: &Declarator) -> u32
    ensures { result ≡ elements
        (seen_in (constants_of listed.now.bases.now.items) listed.now.class.now) declarator.now }
{
    elements_of(&listed.lengths, declarator)
}

fn field_meant(
    listed: &Listed,
    access: Access,
    field: FieldPlace,
    base: &Base,
    declarator: &Declarator,
) -> NameMeaning
    ensures { result ≡ field_meant listed.now.bases.now
        (record { place = listed.now.place; class = listed.now.class.now }) access field base.now
        declarator.now }
{
    let count = count_of(listed, declarator);
    let class = listed.class;
    NameMeaning {
        entity: listed.bases.declared_entity(base, declarator, count),
        origin: Origin::Field {
            class: listed.place,
            kind: class.kind,
            access,
            by_ref: declarator.by_ref,
            field,
        },
    }
}

fn push_fields(
    alloc: Global,
    list: &mut Vec<LocalName>,
    listed: &Listed,
    access: Access,
    member: usize,
    base: &Base,
    declarators: &[Declarator],
) -> Result<(), AllocError>
    ensures { OnOk result (list.new.items
        ≡ list.old.items
        ++ fields_seen listed.now.bases.now
        (record { place = listed.now.place; class = listed.now.class.now }) access member 0 base.now
        declarators.now) }
{
    for (index, declarator) in declarators.iter().enumerate() {
        let field = FieldPlace { member, index };
        let meant = field_meant(listed, access, field, base, declarator);
        push_name(alloc, list, &declarator.name, meant)?;
    }
    Ok(())
}

fn method_meant(listed: &Listed, mark: MutexMark, access: Access, member: usize) -> NameMeaning
    ensures { result ≡ method_meant
        (record { place = listed.now.place; class = listed.now.class.now }) mark access member }
{
    let class = listed.class;
    let entity = Entity::Method {
        class: listed.place,
        member,
        inner: is_inner_only(class.kind, mark, access),
        by_path: false,
    };
    NameMeaning {
        entity: Some(entity),
        origin: Origin::Method {
            class: listed.place,
            access,
        },
    }
}

fn push_method(
    alloc: Global,
    list: &mut Vec<LocalName>,
    listed: &Listed,
    mark: MutexMark,
    access: Access,
    member: usize,
    sig: &Sig,
) -> Result<(), AllocError>
    ensures { OnOk result (list.new.items
        ≡ list.old.items
        ++ method_seen
        (record { place = listed.now.place; class = listed.now.class.now }) mark access member
        sig.now) }
{
    if is_plain(sig.role) {
        let meant = method_meant(listed, mark, access, member);
        push_name(alloc, list, &sig.name, meant)?;
    }
    Ok(())
}

fn push_form(
    alloc: Global,
    list: &mut Vec<LocalName>,
    listed: &Listed,
    place: usize,
    member: &Member,
) -> Result<(), AllocError>
    ensures { OnOk result (list.new.items
        ≡ list.old.items
        ++ form_seen listed.now.bases.now
        (record { place = listed.now.place; class = listed.now.class.now }) member.now.mark
        member.now.access place member.now.form) }
{
    let access = member.access;
    let mark = member.mark;
    match &member.form {
        MemberForm::Fields {
            base,
            declarators,
            ..
        } => {
            push_fields(alloc, list, listed, access, place, base, declarators)?;
            Ok(())
        }
        MemberForm::Routine { routine } => {
            push_method(alloc, list, listed, mark, access, place, &routine.sig)?;
            Ok(())
        }
        MemberForm::Proto { sig } => {
            push_method(alloc, list, listed, mark, access, place, sig)?;
            Ok(())
        }
    }
}

fn members_in(
    alloc: Global,
    listed: &Listed,
    members: &[Member],
) -> Result<Vec<LocalName>, AllocError>
    ensures { IfOk result (λ v. v.items
        ≡ members_seen listed.now.bases.now
        (record { place = listed.now.place; class = listed.now.class.now }) 0 members.now) }
{
    let mut list = Vec::new(alloc);
    for (place, member) in members.iter().enumerate() {
        push_form(alloc, &mut list, listed, place, member)?;
    }
    Ok(list)
}

// The names of the members of the class with this place.
fn names_in_class<'x>(
    alloc: Global,
    bases: &'x Bases<'x>,
    place: usize,
    class: &'x Class,
) -> Result<NameTable, AllocError>
    ensures { IfOk result (λ d. d ≡ class_seen bases.now place class.now) }
{
    let names = names_of_members(alloc, &class.members)?;
    let lengths = Lengths {
        sizes: bases.sizes(),
        members: &names,
    };
    let listed = Listed {
        bases,
        place,
        class,
        lengths,
    };
    let list = members_in(alloc, &listed, &class.members);
    drop(names);
    NameTable::new(alloc, list?)
}

fn names_in_each<'x>(
    alloc: Global,
    bases: &'x Bases<'x>,
    classes: &'x [&'x Class],
) -> Result<Vec<NameTable>, AllocError>
    ensures { IfOk result (λ v. v.items ≡ classes_seen bases.now 0 (map (λ c. c.now) classes.now)) }
{
    let mut directories = Vec::new(alloc);
    for (place, class) in classes.iter().enumerate() {
        directories.push(names_in_class(alloc, bases, place, class)?)?;
    }
    Ok(directories)
}

/// The names of the members of each class of the program.
pub fn names_in_classes<'x>(
    alloc: Global,
    bases: &'x Bases<'x>,
) -> Result<Vec<NameTable>, AllocError>
    ensures { IfOk result (λ v. v.items ≡ classes_seen bases.now 0 (classes_of bases.now.items)) }
{
    names_in_each(alloc, bases, bases.classes())
}

fn is_here(owner: &Owner) -> bool
    ensures { result ≡ is_here owner.now }
{
    matches!(owner, Owner::Here)
}

/// What stands outside of classes.
pub fn outer(entity: Entity) -> NameMeaning
    ensures { result ≡ outer entity }
{
    NameMeaning {
        entity: Some(entity),
        origin: Origin::Outer,
    }
}

fn push_routine(
    alloc: Global,
    list: &mut Vec<LocalName>,
    item: usize,
    sig: &Sig,
) -> Result<(), AllocError>
    ensures { OnOk result (list.new.items ≡ list.old.items ++ routine_seen item sig.now) }
{
    if is_here(&sig.owner) {
        push_name(alloc, list, &sig.name, outer(Entity::Routine { item }))?;
    }
    Ok(())
}

fn push_item(
    alloc: Global,
    list: &mut Vec<LocalName>,
    bases: &Bases,
    place: usize,
    item: &Item,
) -> Result<(), AllocError>
    ensures { OnOk result (list.new.items ≡ list.old.items ++ item_seen bases.now place item.now) }
{
    match &item.form {
        ItemForm::Class { class } => {
            push_name(alloc, list, &class.name, outer(Entity::ClassName))?;
            Ok(())
        }
        ItemForm::Routine { routine } => {
            push_routine(alloc, list, place, &routine.sig)?;
            Ok(())
        }
        ItemForm::Constant { constant } => {
            push_name(alloc, list, &constant.name, bases.constant_meant(constant))?;
            Ok(())
        }
        ItemForm::Proto { sig } => {
            push_routine(alloc, list, place, sig)?;
            Ok(())
        }
        ItemForm::Forward { forward } => {
            push_name(alloc, list, &forward.name, outer(Entity::ClassName))?;
            Ok(())
        }
        ItemForm::Using { .. } => Ok(()),
    }
}

fn items_in(alloc: Global, bases: &Bases, items: &[Item]) -> Result<Vec<LocalName>, AllocError>
    ensures { IfOk result (λ v. v.items ≡ items_seen bases.now 0 items.now) }
{
    let mut list = Vec::new(alloc);
    for (place, item) in items.iter().enumerate() {
        push_item(alloc, &mut list, bases, place, item)?;
    }
    Ok(list)
}

/// The names that all of the program sees.
pub fn names_outside(alloc: Global, bases: &Bases) -> Result<NameTable, AllocError>
    ensures { IfOk result (λ d. d ≡ items_seen bases.now 0 bases.now.items) }
{
    let program = bases.program();
    let list = items_in(alloc, bases, &program.items)?;
    NameTable::new(alloc, list)
}

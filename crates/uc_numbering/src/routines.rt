// The routines of a program in textual order.

ghost use Rattle.std.specs.Prelude.{◌≡◌, ◌<◌, ◌+◌, ◌++◌, [], IfOk, IfSome, OnOk, length, map, unwrap_or};
ghost use Rattle.uc_tree.specs.ProgramViews.{member_form_at};
ghost use Rattle.uc_tree.specs.declared.limits.TheConstants.{LAST_CLASS};
ghost use Rattle.uc_tree.specs.Numbering.{at_most, place_from, routines_of};
ghost use Rattle.uc_layout.specs.Places.{IsPlaces};
ghost use Rattle.uc_numbering.specs.Routines.{AreObjects, defined_at, objects_of, in_classes, owned, form_in, members_in, item_in, items_in};

use crate::classes::is_event;
use std::alloc::{AllocError, Global};
use uc_layout::lists::classes_in;
use uc_layout::places::{place_in, places_of_classes};
use uc_names::scope::Scope;
use uc_tree::class::{Class, Member, MemberForm, Routine};
use uc_tree::kinds::Owner;
use uc_tree::limits::LAST_CLASS;
use uc_tree::name::Name;
use uc_tree::program::{Item, ItemForm, Program};

/// A routine with its body, with its class and the number of that, which is 0 outside of classes.
#[derive(Clone, Copy)]
pub struct Defined<'a> {
    pub class: Option<&'a Class>,
    pub number: u32,
    pub routine: &'a Routine,
}

// The classes that are no events.
fn objects_in<'a>(alloc: Global, classes: &[&'a Class]) -> Result<Vec<&'a Class>, AllocError>
    ensures { IfOk result (λ v. map (λ c. c.now) v.items
        ≡ objects_of (map (λ c. c.now) classes.now)) }
{
    let mut objects = Vec::new(alloc);
    for class in classes {
        if !is_event(class.kind) {
            objects.push(*class)?;
        }
    }
    Ok(objects)
}

// The number of the class with this place among those that are no events, or 0 beyond the last number.
fn number_at(place: usize) -> u32
    ensures { result ≡ unwrap_or (at_most LAST_CLASS (place + 1)) 0 }
{
    if place < LAST_CLASS as usize {
        place as u32 + 1
    } else {
        0
    }
}

fn place_among(classes: &[&Class], places: &Scope, name: &Name) -> Option<usize>
    requires { IsPlaces (map (λ c. c.now.name) classes.now) places.now }
    ensures place { result ≡ place_from 0 (map (λ c. c.now.name) classes.now) name.now }
    ensures within { IfSome result (λ p. p < length classes.now) }
{
    let place = place_in(places, name);
    place
}

fn in_class<'a>(
    classes: &[&'a Class],
    places: &Scope,
    name: &Name,
    routine: &'a Routine,
) -> Defined<'a>
    requires placed { IsPlaces (map (λ c. c.now.name) classes.now) places.now }
    requires objects { AreObjects (map (λ c. c.now) classes.now) }
    ensures { defined_at result ≡ in_classes (map (λ c. c.now) classes.now) name.now routine.now }
{
    match place_among(classes, places, name) {
        Some(place) => Defined {
            class: Some(classes[place]),
            number: number_at(place),
            routine,
        },
        None => outside(routine),
    }
}

fn outside<'a>(routine: &'a Routine) -> Defined<'a>
    ensures { defined_at result ≡ owned [] Owner.Here routine.now }
{
    Defined {
        class: None,
        number: 0,
        routine,
    }
}

fn defined_by<'a>(classes: &[&'a Class], places: &Scope, routine: &'a Routine) -> Defined<'a>
    requires placed { IsPlaces (map (λ c. c.now.name) classes.now) places.now }
    requires objects { AreObjects (map (λ c. c.now) classes.now) }
    ensures { defined_at result
        ≡ owned (map (λ c. c.now) classes.now) routine.now.sig.owner routine.now }
{
    match &routine.sig.owner {
        Owner::Here => outside(routine),
        Owner::Main => outside(routine),
        Owner::Class(name) => in_class(classes, places, name, routine),
    }
}

fn push_form<'a>(
    found: &mut Vec<Defined<'a>>,
    classes: &[&'a Class],
    places: &Scope,
    name: &Name,
    form: &'a MemberForm,
) -> Result<(), AllocError>
    requires placed { IsPlaces (map (λ c. c.now.name) classes.now) places.now }
    requires objects { AreObjects (map (λ c. c.now) classes.now) }
    ensures { OnOk result (map defined_at found.new.items
        ≡ map defined_at found.old.items ++ form_in (map (λ c. c.now) classes.now) name.now
        (member_form_at form.now)) }
{
    match form {
        MemberForm::Fields { .. } => Ok(()),
        MemberForm::Routine { routine } => {
            found.push(in_class(classes, places, name, routine))?;
            Ok(())
        }
        MemberForm::Proto { .. } => Ok(()),
    }
}

fn push_members<'a>(
    found: &mut Vec<Defined<'a>>,
    classes: &[&'a Class],
    places: &Scope,
    name: &Name,
    members: &'a [Member],
) -> Result<(), AllocError>
    requires placed { IsPlaces (map (λ c. c.now.name) classes.now) places.now }
    requires objects { AreObjects (map (λ c. c.now) classes.now) }
    ensures { OnOk result (map defined_at found.new.items
        ≡ map defined_at found.old.items
        ++ members_in (map (λ c. c.now) classes.now) name.now members.now) }
{
    for member in members {
        push_form(found, classes, places, name, &member.form)?;
    }
    Ok(())
}

fn push_item<'a>(
    found: &mut Vec<Defined<'a>>,
    classes: &[&'a Class],
    places: &Scope,
    item: &'a Item,
) -> Result<(), AllocError>
    requires placed { IsPlaces (map (λ c. c.now.name) classes.now) places.now }
    requires objects { AreObjects (map (λ c. c.now) classes.now) }
    ensures { OnOk result (map defined_at found.new.items
        ≡ map defined_at found.old.items ++ item_in (map (λ c. c.now) classes.now) item.now) }
{
    match &item.form {
        ItemForm::Class { class } => {
            push_members(found, classes, places, &class.name, &class.members)
        }
        ItemForm::Routine { routine } => {
            found.push(defined_by(classes, places, routine))?;
            Ok(())
        }
        ItemForm::Constant { .. } => Ok(()),
        ItemForm::Proto { .. } => Ok(()),
        ItemForm::Forward { .. } => Ok(()),
        ItemForm::Using { .. } => Ok(()),
    }
}

fn routines_in<'a>(
    alloc: Global,
    classes: &[&'a Class],
    places: &Scope,
    items: &'a [Item],
) -> Result<Vec<Defined<'a>>, AllocError>
    requires placed { IsPlaces (map (λ c. c.now.name) classes.now) places.now }
    requires objects { AreObjects (map (λ c. c.now) classes.now) }
    ensures { IfOk result (λ v. map defined_at v.items
        ≡ items_in (map (λ c. c.now) classes.now) items.now) }
{
    let mut found = Vec::new(alloc);
    for item in items {
        push_item(&mut found, classes, places, item)?;
    }
    Ok(found)
}

/// The routines of a program with bodies, in textual order: the place of one is its number.
pub fn routines_of<'a>(alloc: Global, program: &'a Program) -> Result<Vec<Defined<'a>>, AllocError>
    ensures { IfOk result (λ v. map defined_at v.items ≡ routines_of program.now) }
{
    let classes = classes_in(alloc, &program.items)?;
    let objects = objects_in(alloc, &classes)?;
    let places = places_of_classes(alloc, &objects)?;
    let found = routines_in(alloc, &objects, &places, &program.items);
    drop(places);
    found
}

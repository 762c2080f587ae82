// The constructors that stand outside of their classes, by the name of the class.

ghost use Rattle.std.specs.Prelude.{◌≡◌, ◌++◌, ◌∷◌, [], ℕ, List, IfOk, OnOk, map, option_map, slice_get, unwrap_or};
ghost use Rattle.uc_types.specs.OuterConstructors.{ArePlaced, constructor_in, constructors_in, group_named, grown, grown_at, routine_in};

use crate::sort::is_constructor;
use std::alloc::{AllocError, Global};
use std::marker::Model;
use uc_layout::places::{no_places, note_place, place_in};
use uc_names::scope::Scope;
use uc_tree::class::Routine;
use uc_tree::kinds::Owner;
use uc_tree::name::Name;
use uc_tree::program::{Item, ItemForm};

// The constructors of one class, with its name.
#[derive(Drop)]
struct ClassConstructors<'a> {
    owner: &'a Name,
    routines: Vec<&'a Routine>,
}

impl<'a> Model for ClassConstructors<'a> {
    ghost use Rattle.std.specs.Coded.{codes};
    ghost use Rattle.std.specs.Prelude.{map};
    ghost use Rattle.uc_tree.specs.ProgramCodes.{routine_coded};
    ghost use Rattle.uc_types.specs.OuterConstructors.{ClassConstructors};

    ghost Value = { ClassConstructors };

    ghost coded = { Prim.hlevel (codes, routine_coded) };

    ghost view = { λ a. record { owner = a.owner.now; routines = map (λ r. r.now) a.routines.items } };
}

impl<'a> ClassConstructors<'a> {
    fn push(&mut self, routine: &'a Routine) -> Result<(), AllocError>
        ensures { OnOk result (self.new
            ≡ record { owner = self.old.owner; routines = self.old.routines ++ routine.now ∷ [] }) }
    {
        self.routines.push(routine)?;
        Ok(())
    }
}

/// The constructors that stand outside of their classes, by the name of the class. Contracts see the items of the program.
#[derive(Drop)]
pub struct OuterConstructors<'a> {
    items: &'a [Item],
    groups: Vec<ClassConstructors<'a>>,
    places: Scope,
}

impl<'a> Model for OuterConstructors<'a> {
    ghost use Rattle.std.specs.Coded.{codes};
    ghost use Rattle.std.specs.Prelude.{List};
    ghost use Rattle.uc_tree.specs.ProgramCodes.{item_coded};
    ghost use Rattle.uc_tree.specs.Programs.{Item};
    ghost use Rattle.uc_types.specs.OuterConstructors.{AreGrouped, ArePlaced};

    ghost Value = { List Item };

    ghost coded = { Prim.hlevel (codes, item_coded) };

    ghost view = { λ a. a.items.now };

    ghost invariant = { λ a. ArePlaced a.groups.items a.places × AreGrouped a.groups.items a.items.now };
}

// One more constructor of a class that has a group.
fn grow<'a>(
    groups: &mut Vec<ClassConstructors<'a>>,
    place: usize,
    routine: &'a Routine,
) -> Result<(), AllocError>
    ensures { OnOk result (groups.new.items ≡ grown_at groups.old.items place routine.now) }
{
    match groups.get_mut(place) {
        Some(group) => {
            group.push(routine)?;
            Ok(())
        }
        None => Ok(()),
    }
}

// The first constructor of a class.
fn begin<'a>(
    alloc: Global,
    groups: &mut Vec<ClassConstructors<'a>>,
    owner: &'a Name,
    routine: &'a Routine,
) -> Result<(), AllocError>
    ensures { OnOk result (groups.new.items
        ≡ groups.old.items ++ record { owner = owner.now; routines = routine.now ∷ [] } ∷ []) }
{
    let mut routines = Vec::new(alloc);
    routines.push(routine)?;
    groups.push(ClassConstructors { owner, routines })?;
    Ok(())
}

fn push<'a>(
    alloc: Global,
    groups: &mut Vec<ClassConstructors<'a>>,
    places: &mut Scope,
    owner: &'a Name,
    routine: &'a Routine,
) -> Result<(), AllocError>
    requires { ArePlaced groups.old.items places.old }
    ensures placed { OnOk result (ArePlaced groups.new.items places.new) }
    ensures grown { OnOk result ((name : List ℕ) →
        group_named groups.new.items name
        ≡ group_named groups.old.items name ++ grown owner.now name routine.now) }
{
    match place_in(places, owner) {
        Some(place) => {
            grow(groups, place, routine)?;
            Ok(())
        }
        None => {
            note_place(places, owner, groups.len())?;
            begin(alloc, groups, owner, routine)?;
            Ok(())
        }
    }
}

fn push_owned<'a>(
    alloc: Global,
    groups: &mut Vec<ClassConstructors<'a>>,
    places: &mut Scope,
    routine: &'a Routine,
) -> Result<(), AllocError>
    requires { ArePlaced groups.old.items places.old }
    ensures placed { OnOk result (ArePlaced groups.new.items places.new) }
    ensures grown { OnOk result ((name : List ℕ) →
        group_named groups.new.items name
        ≡ group_named groups.old.items name ++ routine_in name routine.now) }
{
    match &routine.sig.owner {
        Owner::Here | Owner::Main => Ok(()),
        Owner::Class(owner) => {
            if is_constructor(routine.sig.role) {
                push(alloc, groups, places, owner, routine)?;
                return Ok(());
            }
            Ok(())
        }
    }
}

fn push_item<'a>(
    alloc: Global,
    groups: &mut Vec<ClassConstructors<'a>>,
    places: &mut Scope,
    item: &'a Item,
) -> Result<(), AllocError>
    requires { ArePlaced groups.old.items places.old }
    ensures placed { OnOk result (ArePlaced groups.new.items places.new) }
    ensures grown { OnOk result ((name : List ℕ) →
        group_named groups.new.items name
        ≡ group_named groups.old.items name ++ constructor_in name item.now) }
{
    match &item.form {
        ItemForm::Routine { routine } => {
            push_owned(alloc, groups, places, routine)?;
            Ok(())
        }
        ItemForm::Class { .. }
        | ItemForm::Constant { .. }
        | ItemForm::Proto { .. }
        | ItemForm::Forward { .. }
        | ItemForm::Using { .. } => Ok(()),
    }
}

fn push_items<'a>(
    alloc: Global,
    groups: &mut Vec<ClassConstructors<'a>>,
    places: &mut Scope,
    items: &'a [Item],
) -> Result<(), AllocError>
    requires { ArePlaced groups.old.items places.old }
    ensures placed { OnOk result (ArePlaced groups.new.items places.new) }
    ensures grown { OnOk result ((name : List ℕ) →
        group_named groups.new.items name
        ≡ group_named groups.old.items name ++ constructors_in name items.now) }
{
    for item in items {
        push_item(alloc, groups, places, item)?;
    }
    Ok(())
}

fn routines_at<'x>(groups: &'x [ClassConstructors<'x>], place: usize) -> &'x [&'x Routine]
    ensures { map (λ r. r.now) result.now
        ≡ unwrap_or (option_map (λ g. g.routines) (slice_get groups.now place)) [] }
{
    if let Some(group) = groups.get(place) {
        return group.routines.as_slice();
    }
    &[]
}

fn find<'x>(groups: &'x [ClassConstructors<'x>], places: &Scope, name: &Name) -> &'x [&'x Routine]
    requires { ArePlaced groups.now places.now }
    ensures { map (λ r. r.now) result.now ≡ group_named groups.now name.now }
{
    match place_in(places, name) {
        Some(place) => routines_at(groups, place),
        None => &[],
    }
}

impl<'a> OuterConstructors<'a> {
    /// The constructors among these items.
    pub fn new(alloc: Global, items: &'a [Item]) -> Result<OuterConstructors<'a>, AllocError>
        ensures { IfOk result (λ c. c ≡ items.now) }
    {
        let mut places = no_places(alloc)?;
        let mut groups = Vec::new(alloc);
        push_items(alloc, &mut groups, &mut places, items)?;
        Ok(OuterConstructors {
            items,
            groups,
            places,
        })
    }

    /// Those of the class of this name, in order.
    pub fn of_class<'x>(&'x self, name: &Name) -> &'x [&'x Routine]
        ensures { map (λ r. r.now) result.now ≡ constructors_in name.now self.now }
    {
        let routines = find(&self.groups, &self.places, name);
        routines
    }
}

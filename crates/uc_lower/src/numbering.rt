// What is numbered in a program, for names; and the cells of its classes.

ghost use Rattle.std.specs.Prelude.{◌≡◌, ◌++◌, [], ◌∷◌, length, map, IfOk, OnOk};
ghost use Rattle.uc_tree.specs.Cells.{classes_of};
ghost use Rattle.uc_tree.specs.Numbering.{routines_of};
ghost use Rattle.uc_tree.specs.Objects.{unwritten_of};
ghost use Rattle.uc_tree.specs.Programs.{Program};
ghost use Rattle.uc_resolve.specs.Resolve.{all_classes, classes_meant};
ghost use Rattle.uc_layout.specs.Places.{IsPlaces};
ghost use Rattle.uc_lower_expr.specs.Numbered.{AreExclusive, IsNumbering};
ghost use Rattle.uc_numbering.specs.Routines.{defined_at};
ghost use Rattle.uc_implicit.specs.Unwritten.{number_of_class, unwritten_as};

use std::alloc::{AllocError, Global};
use uc_checked::checked::Checked;
use uc_implicit::unwritten::{Unwritten, numbers_of};
use uc_layout::lists::classes_in;
use uc_layout::places::{no_places, note_place};
use uc_lower_expr::numbering::Numbering;
use uc_lower_expr::program_names::ProgramNames;
use uc_names::scope::Scope;
use uc_numbering::classes::is_event;
use uc_numbering::routines::Defined;
use uc_tree::class::{Class, Routine};
use uc_tree::kinds::Role;
use uc_tree::name::Name;
use uc_tree::program::Program;

// The routines alone.
fn routines_in<'a>(alloc: Global, defined: &[Defined<'a>]) -> Result<Vec<&'a Routine>, AllocError>
    ensures { IfOk result (λ v. map (λ r. r.now) v.items
        ≡ map (λ d. d.routine) (map defined_at defined.now)) }
{
    let mut routines = Vec::new(alloc);
    for d in defined {
        routines.push(d.routine)?;
    }
    Ok(routines)
}

// The numbers of their classes.
fn owners_in(alloc: Global, defined: &[Defined]) -> Result<Vec<u32>, AllocError>
    ensures { IfOk result (λ v. v.items ≡ map (λ d. d.number) (map defined_at defined.now)) }
{
    let mut owners = Vec::new(alloc);
    for d in defined {
        owners.push(d.number)?;
    }
    Ok(owners)
}

// The places of these names by themselves.
fn places_of_names(alloc: Global, names: &[&Name]) -> Result<Scope, AllocError>
    ensures { IfOk result (λ places. IsPlaces (map (λ n. n.now) names.now) places) }
{
    let mut places = no_places(alloc)?;
    for (place, name) in names.iter().enumerate() {
        note_place(&mut places, name, place)?;
    }
    Ok(places)
}

/// The places of the mutex members of the classes of a program by their names, as far as they have numbers. It has so many classes.
pub(crate) fn members_of_classes(
    alloc: Global,
    checked: &Checked,
    count: usize,
) -> Result<Vec<Scope>, AllocError>
    requires { count ≡ length (classes_of checked.now.items) }
    ensures { IfOk result (λ v. AreExclusive checked.now v.items) }
{
    let mut members = Vec::new(alloc);
    for class in 0..count {
        members.push(places_of_names(alloc, checked.mutex_members(class))?)?;
    }
    Ok(members)
}

/// The numbering of a program with these routines, so many; `classes` are the numbers of its classes by their places, and `members` the
/// places of their mutex members by name.
pub(crate) fn numbering_of<'a>(
    alloc: Global,
    defined: &[Defined<'a>],
    count: u32,
    unwritten: &[Unwritten],
    classes: Vec<u32>,
    members: Vec<Scope>,
) -> Result<Numbering<'a>, AllocError>
    requires count { count ≡ length defined.now }
    ensures { IfOk result (λ n. (p : Program) → map defined_at defined.now ≡ routines_of p →
        map unwritten_as unwritten.now ≡ unwritten_of p →
        classes.items ≡ map (number_of_class p) (classes_of p.items) →
        AreExclusive p members.items → IsNumbering p n) }
{
    let routines = routines_in(alloc, defined)?;
    let owners = owners_in(alloc, defined)?;
    let constructors = numbers_of(alloc, unwritten, Role::Constructor, classes.len(), count)?;
    let destructors = numbers_of(alloc, unwritten, Role::Destructor, classes.len(), count)?;
    Ok(Numbering {
        routines,
        owners,
        classes,
        constructors,
        destructors,
        members,
    })
}

// Those of one class more, which has this place; an event has none.
fn push_cells(
    cells: &mut Vec<u32>,
    names: &ProgramNames,
    place: usize,
    class: &Class,
) -> Result<(), AllocError>
    ensures { OnOk result (cells.new.items
        ≡ cells.old.items ++ map (λ c. c.cells) (classes_meant names.now place (class.now ∷ []))) }
{
    if is_event(class.kind) {
        return Ok(());
    }
    cells.push(names.cells_of_class(place))?;
    Ok(())
}

// The cells of these classes, events apart.
fn cells_in(alloc: Global, names: &ProgramNames, classes: &[&Class]) -> Result<Vec<u32>, AllocError>
    requires classes { map (λ c. c.now) classes.now ≡ classes_of names.now.items }
    ensures { IfOk result (λ v. v.items ≡ map (λ c. c.cells) (all_classes names.now)) }
{
    let mut cells = Vec::new(alloc);
    cells.push(0)?;
    for (place, class) in classes.iter().enumerate() {
        push_cells(&mut cells, names, place, class)?;
    }
    Ok(cells)
}

/// The cells of uMain, which has no fields, and of the classes of a program, events apart, in textual order.
pub(crate) fn cells_of_classes(
    alloc: Global,
    program: &Program,
    names: &ProgramNames,
) -> Result<Vec<u32>, AllocError>
    requires names { names.now ≡ program.now }
    ensures { IfOk result (λ v. v.items ≡ map (λ c. c.cells) (all_classes program.now)) }
{
    let classes = classes_in(alloc, &program.items)?;
    cells_in(alloc, names, &classes)
}

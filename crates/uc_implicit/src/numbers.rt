// The numbers of classes by their places.

ghost use Rattle.std.specs.Prelude.{◌≡◌, ◌+◌, ℕ, List, IfOk, map, unwrap_or};
ghost use Rattle.uc_tree.specs.declared.limits.TheConstants.{LAST_CLASS};
ghost use Rattle.uc_tree.specs.Cells.{classes_of};
ghost use Rattle.uc_tree.specs.Numbering.{at_most};
ghost use Rattle.uc_layout.specs.Places.{IsPlaces};
ghost use Rattle.uc_implicit.specs.Numbers.{number_by, objects_of};
ghost use Rattle.uc_implicit.specs.Unwritten.{number_of_class};

use std::alloc::{AllocError, Global};
use uc_layout::lists::classes_in;
use uc_layout::places::{place_in, places_of_classes};
use uc_names::scope::Scope;
use uc_numbering::classes::is_event;
use uc_tree::class::Class;
use uc_tree::limits::LAST_CLASS;
use uc_tree::name::Name;
use uc_tree::program::Program;

// The classes that are no events.
fn objects_in<'a>(alloc: Global, classes: &[&'a Class]) -> Result<Vec<&'a Class>, AllocError>
    ensures { IfOk result (λ v. map (λ c. c.now) v.items
        ≡ objects_of (map (λ c. c.now) classes.now)) }
{
    let mut objects = Vec::new(alloc);
    for class in classes {
        if !is_event(class.kind) {
            objects.push(*class)?;
        }
    }
    Ok(objects)
}

// The number of the class with this place among those that are no events; 0 beyond the last number.
fn number_at(place: usize) -> u32
    ensures { result ≡ unwrap_or (at_most LAST_CLASS (place + 1)) 0 }
{
    if place < LAST_CLASS as usize {
        place as u32 + 1
    } else {
        0
    }
}

// The number of a name by the places of classes that are no events; 0 where there is none.
fn number_among(places: &Scope, name: &Name) -> u32
    ensures { (names : List (List ℕ)) → IsPlaces names places.now →
        result ≡ number_by names name.now }
{
    match place_in(places, name) {
        Some(place) => number_at(place),
        None => 0,
    }
}

fn numbers_in(alloc: Global, classes: &[&Class], places: &Scope) -> Result<Vec<u32>, AllocError>
    ensures { IfOk result (λ v. (names : List (List ℕ)) → IsPlaces names places.now →
        v.items ≡ map (λ c. number_by names c.now.name) classes.now) }
{
    let mut numbers = Vec::new(alloc);
    for class in classes {
        numbers.push(number_among(places, &class.name))?;
    }
    Ok(numbers)
}

/// The numbers of the classes of a program by their places, 0 for an event.
pub fn numbers_of_classes(alloc: Global, program: &Program) -> Result<Vec<u32>, AllocError>
    ensures { IfOk result (λ v. v.items
        ≡ map (number_of_class program.now) (classes_of program.now.items)) }
{
    let classes = classes_in(alloc, &program.items)?;
    let objects = objects_in(alloc, &classes)?;
    let places = places_of_classes(alloc, &objects)?;
    let numbers = numbers_in(alloc, &classes, &places);
    drop(places);
    numbers
}

// Tables of the places of classes and constants, by name.

ghost use Rattle.std.specs.Prelude.{◌≡◌, ◌<◌, ◌++◌, ◌∷◌, [], ℕ, List, IfOk, IfSome, OnOk, length, map};
ghost use Rattle.uc_tree.specs.Numbering.{place_from};
ghost use Rattle.uc_layout.specs.Places.{IsPlaces};

use std::alloc::{AllocError, Global};
use uc_names::scope::Scope;
use uc_tree::class::Class;
use uc_tree::name::Name;
use uc_tree::program::Constant;

/// A table of no names.
pub fn no_places(alloc: Global) -> Result<Scope, AllocError>
    ensures { IfOk result (λ places. IsPlaces [] places) }
{
    let mut places = Scope::new(alloc);
    places.open()?;
    Ok(places)
}

/// One more name, with this place. Memory is wanting where the place is not below 2^32.
pub fn note_place(places: &mut Scope, name: &Name, place: usize) -> Result<(), AllocError>
    requires { length places.old ≡ 1 }
    ensures { OnOk result ((names : List (List ℕ)) → length names ≡ place →
        IsPlaces names places.old → IsPlaces (names ++ name.now ∷ []) places.new) }
{
    match u32::try_from(place) {
        Ok(id) => {
            places.declare(name.bytes(), id)?;
            Ok(())
        }
        Err(_) => Err(AllocError),
    }
}

/// The places of these classes by name.
pub fn places_of_classes(alloc: Global, classes: &[&Class]) -> Result<Scope, AllocError>
    ensures { IfOk result (λ places. IsPlaces (map (λ c. c.now.name) classes.now) places) }
{
    let mut places = no_places(alloc)?;
    for (place, class) in classes.iter().enumerate() {
        note_place(&mut places, &class.name, place)?;
    }
    Ok(places)
}

/// The places of these constants by name.
pub fn places_of_constants(alloc: Global, constants: &[&Constant]) -> Result<Scope, AllocError>
    ensures { IfOk result (λ places. IsPlaces (map (λ c. c.now.name) constants.now) places) }
{
    let mut places = no_places(alloc)?;
    for (place, constant) in constants.iter().enumerate() {
        note_place(&mut places, &constant.name, place)?;
    }
    Ok(places)
}

/// The place of a name in the list that a table was made of.
pub fn place_in(places: &Scope, name: &Name) -> Option<usize>
    ensures { (names : List (List ℕ)) → IsPlaces names places.now →
        result ≡ place_from 0 names name.now }
{
    match places.find(name.bytes()) {
        Some(place) => Some(place as usize),
        None => None,
    }
}

/// Classes, with their places by name.
#[derive(Clone, Copy)]
pub struct Classes<'a> {
    pub list: &'a [&'a Class],
    pub places: &'a Scope,
    ghost placed: { IsPlaces (map (λ c. c.now.name) list.now) places.now },
}

impl<'a> Classes<'a> {
    /// The place of the first class of a name.
    pub fn place_of(&self, name: &Name) -> Option<usize>
        ensures place { result ≡ place_from 0 (map (λ c. c.now.name) self.now.list.now) name.now }
        ensures within { IfSome result (λ p. p < length self.now.list.now) }
    {
        let place = place_in(self.places, name);
        place
    }
}

/// Constants, with their places by name.
#[derive(Clone, Copy)]
pub struct Constants<'a> {
    pub list: &'a [&'a Constant],
    pub places: &'a Scope,
    ghost placed: { IsPlaces (map (λ c. c.now.name) list.now) places.now },
}

impl<'a> Constants<'a> {
    /// The place of the first constant of a name.
    pub fn place_of(&self, name: &Name) -> Option<usize>
        ensures { result ≡ place_from 0 (map (λ c. c.now.name) self.now.list.now) name.now }
    {
        let place = place_in(self.places, name);
        place
    }
}

/// The values of constants, with a value or none for each in the table.
#[derive(Clone, Copy)]
pub struct ConstantValues<'a> {
    pub constants: &'a [&'a Constant],
    pub places: &'a Scope,
    pub values: &'a [Option<i64>],
    ghost placed: { IsPlaces (map (λ c. c.now.name) constants.now) places.now },
}

// Tables of names with what they mean.

ghost use Rattle.std.specs.Prelude.{◌≡◌, IfOk, map, option_map, slice_get};
ghost use Rattle.uc_layout.specs.Places.{IsPlaces};
ghost use Rattle.uc_types.specs.Listings.{first_named};

use std::alloc::{AllocError, Global};
use std::marker::Model;
use uc_layout::places::{no_places, note_place, place_in};
use uc_names::scope::Scope;
use uc_rules::rules::{LocalName, NameMeaning};
use uc_tree::name::Name;

/// Names with what they mean; of two with one name the first counts. Contracts see the list.
#[derive(Drop)]
pub struct NameTable {
    seen: Vec<LocalName>,
    places: Scope,
}

impl Model for NameTable {
    ghost use Rattle.std.specs.Prelude.{List, map};
    ghost use Rattle.uc_rules.specs.declared.rules.LocalName.{LocalName};
    ghost use Rattle.uc_layout.specs.Places.{IsPlaces};

    ghost Value = { List LocalName };

    ghost view = { λ a. a.seen.items };

    ghost invariant = { λ a. IsPlaces (map (λ s. s.name) a.seen.items) a.places };
}

fn places_of(alloc: Global, seen: &[LocalName]) -> Result<Scope, AllocError>
    ensures { IfOk result (λ places. IsPlaces (map (λ s. s.name) seen.now) places) }
{
    let mut places = no_places(alloc)?;
    for (place, one) in seen.iter().enumerate() {
        note_place(&mut places, &one.name, place)?;
    }
    Ok(places)
}

/// What the name with this place means.
pub fn meant_at(seen: &[LocalName], place: usize) -> Option<NameMeaning>
    ensures { result ≡ option_map (λ s. s.meant) (slice_get seen.now place) }
{
    match seen.get(place) {
        Some(one) => Some(one.meant),
        None => None,
    }
}

fn find(seen: &[LocalName], places: &Scope, name: &Name) -> Option<NameMeaning>
    requires { IsPlaces (map (λ s. s.name) seen.now) places.now }
    ensures { result ≡ first_named seen.now name.now }
{
    match place_in(places, name) {
        Some(place) => meant_at(seen, place),
        None => None,
    }
}

impl NameTable {
    /// The table of these names.
    pub fn new(alloc: Global, seen: Vec<LocalName>) -> Result<NameTable, AllocError>
        ensures { IfOk result (λ d. d ≡ seen.items) }
    {
        let places = places_of(alloc, &seen)?;
        Ok(NameTable { seen, places })
    }

    /// What a name means.
    pub fn find(&self, name: &Name) -> Option<NameMeaning>
        ensures { result ≡ first_named self.now name.now }
    {
        find(&self.seen, &self.places, name)
    }
}

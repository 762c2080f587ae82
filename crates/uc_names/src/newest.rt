// The names that were seen, each with the place of its newest declaration.

ghost use Rattle.std.specs.Prelude.{◌≡◌, ◌<◌, IfOk, IfSome, OnErr, OnOk, None, length, get_or, slice_set};
ghost use Rattle.uc_names.specs.Seen.{Distinct, no_names, number_in, place_in, with_name};

use indexmap::IndexMap;
use std::alloc::{AllocError, Global};
use std::marker::Model;

/// The names that were seen, numbered from 0 in the order in which they were first seen. Each has the place of its newest
/// declaration, or none. A number is kept for good, so a name that is declared again takes no memory.
#[derive(Drop)]
pub struct Newest {
    places: IndexMap<Vec<u8>, Option<usize>>,
}

impl Model for Newest {
    ghost use Rattle.std.specs.Prelude.{map};
    ghost use Rattle.uc_names.specs.Seen.{Distinct, Seen, bytes_of};

    ghost Value = { Seen };

    ghost view = { λ a. record { names = map bytes_of a.places.entries; places = map (λ e. e.1) a.places.entries } };

    ghost invariant = { λ a. Distinct (map bytes_of a.places.entries) };
}

impl Newest {
    /// No name.
    pub fn new(alloc: Global) -> Newest
        ensures { result ≡ no_names }
    {
        Newest {
            places: IndexMap::new(alloc),
        }
    }

    /// The number of a name that was seen.
    pub fn number_of(&self, name: &[u8]) -> Option<usize>
        ensures number { result ≡ number_in self.now.names name.now }
        ensures within { IfSome result (λ n. n < length self.now.names) }
        ensures distinct { Distinct self.now.names }
    {
        self.places.get_index_of(name)
    }

    /// The place of the newest declaration of the name with this number.
    pub fn place(&self, number: usize) -> Option<usize>
        requires { number < length self.now.names }
        ensures { result ≡ get_or self.now.places number None }
    {
        self.places[number]
    }

    /// The place of the newest declaration of a name.
    pub fn place_of(&self, name: &[u8]) -> Option<usize>
        ensures place { result ≡ place_in self.now name.now }
        ensures distinct { Distinct self.now.names }
    {
        match self.number_of(name) {
            Some(number) => self.place(number),
            None => None,
        }
    }

    /// Sets the place of the newest declaration of the name with this number.
    pub fn set_place(&mut self, number: usize, place: Option<usize>)
        requires { number < length self.old.names }
        ensures names { self.new.names ≡ self.old.names }
        ensures places { self.new.places ≡ slice_set self.old.places number place }
    {
        self.places[number] = place;
    }

    /// The number of a name, which is the next one where it was not seen.
    pub fn see(&mut self, name: &[u8]) -> Result<usize, AllocError>
        ensures number { IfOk result (λ n. number_in self.new.names name.now ≡ Some n) }
        ensures within { IfOk result (λ n. n < length self.new.names) }
        ensures distinct { OnOk result (Distinct self.new.names) }
        ensures seen { OnOk result (self.new ≡ with_name self.old name.now) }
        ensures err { OnErr result (self.new ≡ self.old) }
    {
        match self.number_of(name) {
            Some(number) => Ok(number),
            None => {
                let number = self.add(name)?;
                Ok(number)
            }
        }
    }

    fn add(&mut self, name: &[u8]) -> Result<usize, AllocError>
        requires { number_in self.old.names name.now ≡ None }
        ensures number { IfOk result (λ n. number_in self.new.names name.now ≡ Some n) }
        ensures within { IfOk result (λ n. n < length self.new.names) }
        ensures distinct { OnOk result (Distinct self.new.names) }
        ensures added { OnOk result (self.new ≡ with_name self.old name.now) }
        ensures err { OnErr result (self.new ≡ self.old) }
    {
        let bytes = copy_of(*self.places.allocator(), name)?;
        let number = self.places.len();
        self.places.insert(bytes, None)?;
        Ok(number)
    }
}

fn copy_of(alloc: Global, bytes: &[u8]) -> Result<Vec<u8>, AllocError>
    ensures { IfOk result (λ copy. copy.items ≡ bytes.now) }
{
    let copy = bytes.to_vec(alloc)?;
    Ok(copy)
}

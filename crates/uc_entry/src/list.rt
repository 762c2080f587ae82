// Lists with room that is taken beforehand.

ghost use Rattle.std.specs.Prelude.{◌≡◌, ◌+◌, ◌≤◌, ◌<◌, ◌++◌, ◌∷◌, [], length, slice_index_or, remove, ◌==◌, OnOk, OnErr};
ghost use Rattle.std.specs.Borrow.{sem};
ghost use Rattle.uc_entry.specs.Lending.{LendsItem};

use std::alloc::{AllocError, Global};
use std::marker::Model;

/// A list of at most `u32::MAX` items. Contracts see its items and `spare`, how many more it takes
/// without memory.
#[derive(Drop)]
pub struct List<X> {
    items: Vec<X>,
}

impl<X> Model for List<X> {
    ghost use Rattle.std.specs.Prelude.{◌-◌, ◌<◌, ◌^◌, min, vec_len, vec_capacity};
    ghost use Rattle.uc_entry.specs.Listed.{Listed};

    ghost Value = { Listed X };

    ghost view = { λ l. record { items = l.items.items; spare = min (vec_capacity l.items) (2 ^ 32 - 1) - vec_len l.items } };

    ghost invariant = { λ l. vec_len l.items < 2 ^ 32 };
}

impl<X> List<X> {
    /// The empty list.
    pub fn new(alloc: Global) -> List<X>
        ensures { result.items ≡ [] }
    {
        List {
            items: Vec::new(alloc),
        }
    }

    /// How many items there are.
    pub fn len(&self) -> u32
        ensures { result ≡ length self.now.items }
    {
        self.items.len() as u32
    }

    /// Whether there is no item.
    pub fn is_empty(&self) -> bool
        ensures { result ≡ (length self.now.items == 0) }
    {
        self.items.is_empty()
    }

    /// Takes memory for one more item where there is none. A list of `u32::MAX` items has no more.
    pub fn room(&mut self) -> Result<(), AllocError>
        ensures items { self.new.items ≡ self.old.items }
        ensures ok { OnOk result (1 ≤ self.new.spare) }
        ensures err { OnErr result (self.new.spare ≡ self.old.spare) }
    {
        if self.items.len() as u32 == u32::MAX {
            return Err(AllocError);
        }
        self.items.reserve(1)?;
        Ok(())
    }

    /// Puts an item at the end.
    pub fn push(&mut self, x: X)
        requires { 1 ≤ self.old.spare }
        ensures items { self.new.items ≡ self.old.items ++ x ∷ [] }
        ensures spare { self.new.spare + 1 ≡ self.old.spare }
    {
        self.items.push_reserved(x);
    }

    /// The item at a place.
    pub fn get(&self, at: u32) -> &X
        requires { at < length self.now.items }
        ensures { result.now ≡ slice_index_or self.now.items at result.now }
    {
        &self.items[at as usize]
    }

    /// The item at a place, to be changed. What is written to it stays.
    pub fn get_mut(&mut self, at: u32) -> &mut X
        requires { at < length self.old.items }
        ensures* writes_back { sem 𝓛 (LendsItem X.row self.entry at result) }
        ensures value { result.now ≡ slice_index_or self.old.items at result.now }
    {
        &mut self.items[at as usize]
    }

    /// Takes the item at a place out; the others keep their order.
    pub fn take(&mut self, at: u32) -> X
        requires { at < length self.old.items }
        ensures value { result ≡ slice_index_or self.old.items at result }
        ensures items { self.new.items ≡ remove self.old.items at }
        ensures spare { self.new.spare ≡ self.old.spare + 1 }
    {
        self.items.remove(at as usize)
    }
}

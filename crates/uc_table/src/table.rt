//! Values by number, with room for all from the start.
ghost use Rattle.std.specs.Prelude.{◌≡◌, ◌<◌, length, replicate, slice_index_or, slice_set, IfOk};

use std::alloc::{AllocError, Global};
use std::marker::Model;

/// So many values by number, all of them blank at first.
///
/// `new` takes all memory, and writes to none of it: what lies behind the greatest number that was set is not written.
#[derive(Drop)]
pub struct Table<T: Copy> {
    // The others are blank.
    items: Vec<T>,
    blank: T,
    size: u32,
}

impl<T: Copy> Model for Table<T> {
    ghost use Rattle.std.specs.Prelude.{List, ◌≤◌, length};
    ghost use Rattle.std.specs.Vec.{vec_capacity};
    ghost use Rattle.uc_table.specs.Padded.{padded};

    ghost Value = { List T };

    ghost view = { λ t. padded t.size t.blank t.items.items };

    ghost invariant = { λ t. (t.size ≤ vec_capacity t.items) × (length t.items.items ≤ t.size) };
}

impl<T: Copy> Table<T> {
    /// So many values, all blank.
    pub fn new(alloc: Global, size: u32, blank: T) -> Result<Table<T>, AllocError>
        ensures { IfOk result (λ t. t ≡ replicate size blank) }
    {
        Ok(Table {
            items: Vec::with_capacity(alloc, size as usize)?,
            blank,
            size,
        })
    }

    /// How many values there are.
    pub fn len(&self) -> usize
        ensures { result ≡ length self.now }
    {
        self.size as usize
    }

    /// The value of a number.
    pub fn get(&self, number: usize) -> T
        requires { number < length self.now }
        ensures { result ≡ slice_index_or self.now number result }
    {
        match self.items.get(number) {
            Some(item) => *item,
            None => self.blank,
        }
    }

    /// Gives a number another value.
    #[inline(always)]
    pub fn set(&mut self, number: usize, value: T)
        requires { number < length self.old }
        ensures { self.new ≡ slice_set self.old number value }
    {
        let written = self.items.len();
        for _ in 0..(number + 1).saturating_sub(written) {
            self.items.push_reserved(self.blank);
        }
        self.items[number] = value;
    }
}

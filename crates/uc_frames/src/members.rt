// What is at home in a mutex object or in a task.

ghost use Rattle.std.specs.Prelude.{◌≡◌, [], ◌∷◌, replicate, None, Some, IfOk, OnOk, OnErr, MatchOption, slice_index_or};
ghost use Rattle.uc_machine.specs.Executions.{joined, frame_changed, frames_changed};
ghost use Rattle.uc_entry.specs.Keyed.{find};
ghost use Rattle.std.specs.List.{list_any};
ghost use Rattle.uc_machine.specs.Insides.{is_engaged};
ghost use Rattle.uc_machine.specs.Switches.{one_more, slot_set, slot_gone, links_changed};
ghost use Rattle.uc_frames.specs.Engaged.{engaged_in};
ghost use Rattle.uc_frames.specs.Machine.{nought, cell_written, lively, pended};

use crate::cell::Cell;
use crate::frames::{put, zeros};
use crate::numbered::position_in_order;
use crate::parked::ParkedStack;
use std::alloc::{AllocError, Global};
use std::marker::Model;
use std::mem;
use uc_entry::list::List;
use uc_machine::exec::Pending;

/// What is at home in a mutex object, in a place of its own, so that it is handed on without being moved.
#[derive(Drop)]
pub struct Members {
    pub(crate) house: Box<House>,
}

impl Model for Members {
    ghost use Rattle.uc_frames.specs.Machine.{Members};

    ghost Value = { Members };

    ghost view = { λ m. m.house.value };
}

impl Members {
    /// Of a new mutex object: its fields are 0, and no execution was made here.
    pub fn new(alloc: Global, cells: u32) -> Result<Members, AllocError>
        ensures { IfOk result (λ m. m ≡ record { values = replicate cells nought; serial = 0; parked = [] }) }
    {
        let cells = zeros(alloc, cells)?;
        let house = House {
            cells,
            serial: 0,
            parked: List::new(alloc),
            engaged: 0,
        };
        let house = Box::new(alloc, house)?;
        Ok(Members { house })
    }
}

/// The fields, how many executions were made here, and those that are left, in the order of their numbers, with nothing for one that runs.
/// How many of them hold a task up is counted, so that nobody searches them.
#[derive(Drop)]
pub struct House {
    cells: Vec<Cell>,
    serial: u64,
    parked: List<(u64, Option<ParkedStack>)>,
    engaged: u64,
}

impl Model for House {
    ghost use Rattle.uc_frames.specs.Machine.{Members};
    ghost use Rattle.uc_frames.specs.Engaged.{AreLeft};

    ghost Value = { Members };

    ghost view = { λ m. record { values = m.cells.items; serial = m.serial; parked = m.parked.items } };

    ghost invariant = { λ m. AreLeft m.serial m.engaged m.parked.items };
}

impl House {
    // Of a task whose main begins: its own execution was made here, and runs.
    pub(crate) fn first(alloc: Global) -> Result<House, AllocError>
        ensures { IfOk result (λ m. m ≡ record { values = []; serial = 1; parked = (0, None) ∷ [] }) }
    {
        let mut parked = List::new(alloc);
        parked.room()?;
        parked.push((0, None));
        Ok(House {
            cells: Vec::new(alloc),
            serial: 1,
            parked,
            engaged: 0,
        })
    }

    // The field at a place, if there is one.
    pub(crate) fn field(&self, at: u64) -> Option<&Cell>
        ensures { MatchOption result (slice_index_or self.now.values at nought ≡ nought) (λ c. slice_index_or self.now.values at nought ≡ c.now) }
    {
        self.cells.get(at as usize)
    }

    // A cell is written to a field; a binding stays.
    pub(crate) fn write_field(&mut self, at: u64, cell: Cell)
        ensures { self.new ≡ record self.old { values = cell_written at cell self.old.values } }
    {
        put(&mut self.cells, at, cell);
    }

    // The execution of that number, if it is left and does not run.
    pub(crate) fn parked(&self, serial: u64) -> Option<&ParkedStack>
        ensures { MatchOption result (joined (find serial self.now.parked) ≡ None) (λ s. joined (find serial self.now.parked) ≡ Some s.now) }
    {
        match position_in_order(&self.parked, serial) {
            None => None,
            Some(i) => self.parked.get(i).1.as_ref(),
        }
    }

    // A cell is written to a frame of that execution, if it is left and does not run.
    pub(crate) fn write(&mut self, serial: u64, depth: u32, at: u64, cell: Cell)
        ensures { self.new ≡ frames_changed serial (frame_changed depth (cell_written at cell)) self.old }
    {
        if let Some(i) = position_in_order(&self.parked, serial) {
            let slot = self.parked.get_mut(i);
            if let Some(stack) = &mut slot.1 {
                stack.write(depth, at, cell);
            }
        }
    }

    // Whether an execution that is left here and does not run has a mutex call that has not ended, or builds a mutex object.
    pub(crate) fn has_engaged(&self) -> bool
        ensures { result ≡ list_any (λ p. is_engaged p.1) self.now.parked }
    {
        0 < self.engaged
    }

    // How many executions were made here; so the next one is numbered.
    pub(crate) fn serial(&self) -> u64
        ensures { result ≡ self.now.serial }
    {
        self.serial
    }

    // One more execution is left here. A home at which `u64::MAX` were made has no more.
    pub(crate) fn add(&mut self, stack: ParkedStack) -> Result<(), AllocError>
        ensures ok { OnOk result (self.new ≡ one_more stack self.old) }
        ensures err { OnErr result (self.new ≡ self.old) }
    {
        if self.serial == u64::MAX {
            return Err(AllocError);
        }
        self.parked.room()?;
        let slot = Some(stack);
        self.engaged += engaged_in(&slot);
        self.parked.push((self.serial, slot));
        self.serial += 1;
        Ok(())
    }

    // That execution is left here as this, or runs where it is nothing. What was left of it is handed over.
    #[inline(always)]
    pub(crate) fn exchange(&mut self, serial: u64, slot: Option<ParkedStack>) -> Option<ParkedStack>
        ensures value { result ≡ joined (find serial self.old.parked) }
        ensures after { self.new ≡ slot_set serial slot self.old }
    {
        match position_in_order(&self.parked, serial) {
            None => None,
            Some(i) => {
                let more = engaged_in(&slot);
                let place = self.parked.get_mut(i);
                let left = mem::replace(&mut place.1, slot);
                self.engaged = self.engaged - engaged_in(&left) + more;
                left
            }
        }
    }

    // That execution is no more.
    pub(crate) fn remove(&mut self, serial: u64)
        ensures { self.new ≡ slot_gone serial self.old }
    {
        if let Some(i) = position_in_order(&self.parked, serial) {
            let gone = self.parked.take(i);
            self.engaged -= engaged_in(&gone.1);
        }
    }

    // The coroutine of that execution is live; or it is no more, and its main does not begin, or go on, any more. An execution that is not
    // left, or runs, stays.
    pub(crate) fn set_live(&mut self, serial: u64, live: bool)
        ensures { self.new ≡ links_changed (lively live) serial self.old }
    {
        if let Some(i) = position_in_order(&self.parked, serial) {
            let slot = self.parked.get_mut(i);
            if let Some(stack) = &mut slot.1 {
                stack.set_live(live);
            }
        }
    }

    // One more event is pending at that execution, if it is left and does not run.
    pub(crate) fn add_pending(&mut self, serial: u64, event: Pending) -> Result<(), AllocError>
        ensures ok { OnOk result (self.new ≡ links_changed (pended event) serial self.old) }
        ensures err { OnErr result (self.new ≡ self.old) }
    {
        if let Some(i) = position_in_order(&self.parked, serial) {
            let slot = self.parked.get_mut(i);
            if let Some(stack) = &mut slot.1 {
                stack.add_pending(event)?;
            }
        }
        Ok(())
    }
}

// 1 of an execution that has a mutex call that has not ended, or builds a mutex object; else 0.
fn engaged_in(slot: &Option<ParkedStack>) -> u64
    ensures { result ≡ engaged_in slot.now }
{
    match slot {
        None => 0,
        Some(stack) => u64::from(stack.stack.links.is_engaged()),
    }
}

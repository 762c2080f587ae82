// The events that are pending.

ghost use Rattle.std.specs.Prelude.{◌≡◌, ◌==◌, ◌+◌, ◌++◌, ◌∷◌, [], ℕ, OnOk, length, if◌then◌else◌};
ghost use Rattle.std.specs.Ordering.{nat_cmp};
ghost use Rattle.std.specs.BTreeMap.{get};
ghost use Rattle.uc_acts.specs.Fit.{IsFit};
ghost use Rattle.uc_acts.specs.Journal.{Journal, holds};
ghost use Rattle.uc_acts.specs.Pending.{pending, oldest_in, drop_first};
ghost use Rattle.uc_judge.specs.PendingEvents.{ArePending, events_of};

use crate::effects::number;
use crate::offers::has_bit;
use std::alloc::{AllocError, Global};
use std::collections::BTreeMap;
use uc_entry::entry::{Entry, EntryKind};

/// The events that are pending at each task behind the entries that were added: raised there, and not delivered by a poll.
#[derive(Drop)]
pub struct Pending {
    alloc: Global,
    // The number of each event with its two fields, oldest first.
    tasks: BTreeMap<u32, Vec<(u8, i64, i64)>>,
}

impl Pending {
    /// Of a journal without entries.
    pub fn new(alloc: Global) -> Pending
        ensures { ArePending result [] }
    {
        Pending {
            alloc,
            tasks: BTreeMap::new(alloc),
        }
    }

    /// Adds the next entry of the journal. After want of memory it is spent.
    pub fn add(&mut self, e: &Entry) -> Result<(), AllocError>
        requires { IsFit e.now }
        ensures { OnOk result ((j : Journal) → ArePending self.old j →
            ArePending self.new (j ++ e.now ∷ [])) }
    {
        match e.kind {
            EntryKind::Raise => {
                let event = (number(e.b) as u8, e.c, e.d);
                raise(&mut self.tasks, self.alloc, number(e.a) as u32, event)?;
                Ok(())
            }
            EntryKind::Poll => {
                deliver(&mut self.tasks, e.task, e.a);
                Ok(())
            }
            _ => Ok(()),
        }
    }

    /// How many events are pending at a task.
    pub fn count(&self, task: u32) -> usize
        ensures { (j : Journal) → ArePending self.now j → result ≡ length (pending task j) }
    {
        match self.tasks.get(&task) {
            Some(events) => events.len(),
            None => 0,
        }
    }

    /// The oldest event in a mask that is pending at a task: its number and its two fields.
    pub fn oldest_in(&self, mask: u64, task: u32) -> Option<(u8, i64, i64)>
        ensures { (j : Journal) → ArePending self.now j → result ≡ oldest_in mask (pending task j) }
    {
        match self.tasks.get(&task) {
            Some(events) => first_in(mask, events),
            None => None,
        }
    }
}

// The first of some events that a mask has.
fn first_in(mask: u64, events: &[(u8, i64, i64)]) -> Option<(u8, i64, i64)>
    ensures { result ≡ oldest_in mask events.now }
{
    for event in events {
        if has_bit(usize::from(event.0), mask) {
            return Some(*event);
        }
    }
    None
}

// Puts an event behind those that are pending at a task.
fn raise(
    tasks: &mut BTreeMap<u32, Vec<(u8, i64, i64)>>,
    alloc: Global,
    task: u32,
    event: (u8, i64, i64),
) -> Result<(), AllocError>
    ensures { OnOk result ((t : ℕ) →
        events_of (get nat_cmp tasks.new t)
        ≡ (if task == t then events_of (get nat_cmp tasks.old t) ++ event ∷ []
        else events_of (get nat_cmp tasks.old t))) }
{
    match tasks.get_mut(&task) {
        Some(events) => {
            events.push(event)?;
            Ok(())
        }
        None => {
            let mut events = Vec::new(alloc);
            events.push(event)?;
            let _before = tasks.insert(task, events)?;
            Ok(())
        }
    }
}

// Takes out what a poll has delivered to a task: the oldest event whose number is one less than this field.
fn deliver(tasks: &mut BTreeMap<u32, Vec<(u8, i64, i64)>>, task: u32, field: i64)
    ensures { (t : ℕ) → events_of (get nat_cmp tasks.new t)
        ≡ (if task == t
        then drop_first (λ r. holds (r.0 + 1) field) (events_of (get nat_cmp tasks.old t))
        else events_of (get nat_cmp tasks.old t)) }
{
    match tasks.get_mut(&task) {
        Some(events) => take_out(events, field),
        None => {}
    }
}

// Takes out the first event whose number is one less than a field.
fn take_out(events: &mut Vec<(u8, i64, i64)>, field: i64)
    ensures { events.new.items ≡ drop_first (λ r. holds (r.0 + 1) field) events.old.items }
{
    for at in 0..events.len() {
        if i64::from(events[at].0) + 1 == field {
            let _event = events.remove(at);
            return;
        }
    }
}

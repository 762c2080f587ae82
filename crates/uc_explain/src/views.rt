// What stands at every object.

ghost use Rattle.std.specs.Prelude.{◌≡◌, ◌++◌, ◌∷◌, [], ℕ, OnOk, OnErr};
ghost use Rattle.uc_acts.specs.Fit.{IsFit};
ghost use Rattle.uc_acts.specs.Journal.{Journal, inside};
ghost use Rattle.uc_acts.specs.Queues.{waiting, stacked, next};
ghost use Rattle.uc_acts.specs.Doors.{blocked, open_at, has_others};
ghost use Rattle.uc_explain.specs.Shown.{in_order, accept_of};
ghost use Rattle.uc_explain.specs.Seen.{AreViewsOf, seen_at};

use crate::door::Door;
use std::alloc::{AllocError, Global};
use std::collections::BTreeMap;
use uc_entry::entry::Entry;

/// What stands at the mutex objects behind the entries that were added. An object of which no entry tells has nobody.
#[derive(Drop)]
pub struct Views {
    alloc: Global,
    doors: BTreeMap<u32, Door>,
}

impl Views {
    /// Of a journal without entries.
    pub fn new(alloc: Global) -> Views
        ensures { AreViewsOf result [] }
    {
        Views {
            alloc,
            doors: BTreeMap::new(alloc),
        }
    }

    /// Adds the next entry of the journal. For want of memory nothing changes.
    pub fn add(&mut self, e: &Entry) -> Result<(), AllocError>
        requires { IsFit e.now }
        ensures ok { OnOk result ((j : Journal) → AreViewsOf self.old j →
            AreViewsOf self.new (j ++ e.now ∷ [])) }
        ensures err { OnErr result ((o : ℕ) → seen_at self.new o ≡ seen_at self.old o) }
    {
        match self.doors.get_mut(&e.object) {
            Some(door) => {
                door.add(e)?;
                Ok(())
            }
            None => {
                let mut door = Door::new(self.alloc);
                door.add(e)?;
                let _before = self.doors.insert(e.object, door)?;
                Ok(())
            }
        }
    }

    /// Who is inside an object, in order of their numbers.
    pub fn inside(&self, object: u32) -> &[u32]
        ensures { (j : Journal) → AreViewsOf self.now j →
            result.now ≡ in_order (λ t. t) (inside object j) }
    {
        match self.doors.get(&object) {
            Some(door) => &door.inside,
            None => &[],
        }
    }

    /// Who waits at an object, each with the member called, oldest first.
    pub fn waiting(&self, object: u32) -> &[(u32, u8)]
        ensures { (j : Journal) → AreViewsOf self.now j → result.now ≡ waiting object j }
    {
        match self.doors.get(&object) {
            Some(door) => &door.waiting,
            None => &[],
        }
    }

    /// The stack of an object, newest first.
    pub fn stacked(&self, object: u32) -> &[u32]
        ensures { (j : Journal) → AreViewsOf self.now j → result.now ≡ stacked object j }
    {
        match self.doors.get(&object) {
            Some(door) => &door.stacked,
            None => &[],
        }
    }

    /// Who is blocked on a condition, each with the number given, oldest first.
    pub fn blocked(&self, object: u32, cond: u16) -> &[(u32, i64)]
        ensures { (j : Journal) → AreViewsOf self.now j → result.now ≡ blocked object cond j }
    {
        match self.doors.get(&object) {
            Some(door) => door.blocked_on(u64::from(cond)),
            None => &[],
        }
    }

    /// Whether a task other than this one waits, is stacked or is blocked at an object.
    pub fn has_others(&self, object: u32, task: u32) -> bool
        ensures { (j : Journal) → AreViewsOf self.now j → result ≡ has_others object task j }
    {
        match self.doors.get(&object) {
            Some(door) => door.has_others(task),
            None => false,
        }
    }

    /// The site and the mask of the accept that is open at an object.
    pub fn open(&self, object: u32) -> Option<(u64, u64)>
        ensures { (j : Journal) → AreViewsOf self.now j → result ≡ accept_of (open_at object j) }
    {
        match self.doors.get(&object) {
            Some(door) => door.accept,
            None => None,
        }
    }

    /// Who is let in next at an object, and the way.
    pub fn next(&self, object: u32) -> Option<(u32, u8)>
        ensures { (j : Journal) → AreViewsOf self.now j → result ≡ next object j }
    {
        match self.doors.get(&object) {
            Some(door) => door.next(),
            None => None,
        }
    }
}

//! The events that are pending at the tasks of a run.
ghost use Rattle.std.specs.Prelude.{◌≡◌, ◌<◌, [], length, replicate, ◌++◌, ◌∷◌, ◌-◌, OnOk, OnErr};
ghost use Rattle.uc_acts.specs.Pending.{oldest_in};
ghost use Rattle.uc_events.specs.Pending.{pending_at, without_oldest, has_room, raised, with_pending};
ghost use Rattle.uc_tree.specs.declared.limits.TheConstants.{EVENTS};

use crate::raised::Raised;
use std::alloc::{AllocError, Global};
use std::marker::Model;
use uc_tree::limits::EVENTS;

/// The events that are pending at each task: raised there, and not yet delivered by a poll.
///
/// Contracts see one list for each known task, with the oldest event first: its number and its two fields.
#[derive(Drop)]
pub struct Events {
    tasks: Vec<Raised>,
}

impl Model for Events {
    ghost use Rattle.std.specs.Prelude.{List};
    ghost use Rattle.uc_events.specs.Pending.{Event};

    ghost Value = { List (List Event) };

    ghost view = { λ e. e.tasks.items };
}

impl Events {
    /// No task is known.
    pub fn new(alloc: Global) -> Events
        ensures { result ≡ [] }
    {
        Events {
            tasks: Vec::new(alloc),
        }
    }

    /// Takes memory for as many tasks. Those that were not known have nothing pending.
    pub fn reserve(&mut self, tasks: u32) -> Result<(), AllocError>
        ensures ok { OnOk result (self.new ≡ self.old ++ replicate (tasks - length self.old) []) }
        ensures err { OnErr result (self.new ≡ self.old) }
    {
        let known = self.tasks.len();
        for _ in 0..(tasks as usize).saturating_sub(known) {
            if self.add_task().is_err() {
                self.tasks.truncate(known);
                return Err(AllocError);
            }
        }
        Ok(())
    }

    /// How many tasks are known.
    pub fn count(&self) -> usize
        ensures { result ≡ length self.now }
    {
        self.tasks.len()
    }

    fn add_task(&mut self) -> Result<(), AllocError>
        ensures ok { OnOk result (self.new ≡ self.old ++ [] ∷ []) }
        ensures err { OnErr result (self.new ≡ self.old) }
    {
        let alloc = *self.tasks.allocator();
        let raised = Raised::new(alloc)?;
        self.tasks.push(raised)?;
        Ok(())
    }

    /// Raises an event at a task. False, and nothing changes, where as many are pending there as may be.
    pub fn raise(&mut self, task: u32, event: u8, x: i64, y: i64) -> bool
        requires task { task < length self.old }
        requires event { event < EVENTS }
        ensures value { result ≡ has_room (pending_at self.old task) }
        ensures events { self.new ≡ with_pending self.old task
            (raised (event, x, y) (pending_at self.old task)) }
    {
        self.tasks[task as usize].push(event, x, y)
    }

    /// Takes out the oldest event in the mask that is pending at a task. `None`, and nothing changes, where there is none.
    pub fn poll(&mut self, task: u32, mask: u64) -> Option<(u8, i64, i64)>
        requires task { task < length self.old }
        ensures value { result ≡ oldest_in mask (pending_at self.old task) }
        ensures events { self.new ≡ with_pending self.old task
            (without_oldest mask (pending_at self.old task)) }
    {
        self.tasks[task as usize].take(mask)
    }
}

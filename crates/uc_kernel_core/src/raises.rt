//! Events that a task raises at another.
ghost use Rattle.std.specs.Prelude.{◌≡◌, ◌<◌, [], true, false, length};
ghost use Rattle.uc_tree.specs.declared.limits.TheConstants.{EVENTS};
ghost use Rattle.uc_acts.specs.Journal.{first_or_0, is_over};
ghost use Rattle.uc_acts.specs.KernelRuns.{IsMade};
ghost use Rattle.uc_acts.specs.Known.{object_count, owner};
ghost use Rattle.uc_entry.specs.declared.request.Request.TheVariants as ask;
ghost use Rattle.uc_kernel_core.specs.Mirrors.{Appended, MayAct, rows};

use crate::entries::{Actor, fault_entry, raise_entry};
use crate::kernel_core::KernelCore;

impl KernelCore {
    /// Whether an object is some task's own, while the run goes on.
    pub fn is_owned(&self, object: u32) -> bool
        requires going { is_over self.now.journal ≡ false }
        requires known { object < object_count self.now.journal }
        ensures nobody { result ≡ false → owner object self.now.journal ≡ [] }
        ensures one { result ≡ true → length (owner object self.now.journal) ≡ 1 }
    {
        match self.owners[object as usize] {
            None => false,
            Some(_) => true,
        }
    }

    /// The task whose own object this is, or 0.
    fn owner_of(&self, object: u32) -> u32
        requires going { is_over self.now.journal ≡ false }
        requires known { object < object_count self.now.journal }
        ensures { result ≡ first_or_0 (owner object self.now.journal) }
    {
        match self.owners[object as usize] {
            None => 0,
            Some(task) => task,
        }
    }

    /// A task raises an event at the task whose own object this is.
    pub(crate) fn raise(&mut self, who: Actor, object: u32, event: u8, x: i64, y: i64)
        requires may { MayAct self.old who.processor who.task }
        requires made { IsMade object self.old.journal }
        requires owned { length (owner object self.old.journal) ≡ 1 }
        requires event { event < EVENTS }
        ensures { Appended self.old self.new
            (rows self.old who.processor who.task who.ticks who.line (ask.Raise object event x y)) }
    {
        let target = self.owner_of(object);
        if self.events.raise(target, event, x, y) {
            self.journal
                .push(raise_entry(who, object, target, event, x, y));
        } else {
            self.journal.push(fault_entry(who, 17));
        }
    }
}

//! Objects and tasks are made, for which memory is taken first.
ghost use Rattle.std.specs.Prelude.{◌≡◌, ◌∷◌, [], OnOk, OnErr};
ghost use Rattle.uc_acts.specs.Acts.{fault};
ghost use Rattle.uc_acts.specs.Journal.{cost};
ghost use Rattle.uc_entry.specs.Faults.{fault_number};
ghost use Rattle.uc_acts.specs.KernelRuns.{IsAt};
ghost use Rattle.uc_acts.specs.Known.{owner};
ghost use Rattle.uc_entry.specs.declared.request.Request.TheVariants as ask;
ghost use Rattle.uc_kernel_core.specs.Mirrors.{Appended, MayAct, rows};

use crate::entries::{Actor, fault_entry, object_entry};
use crate::kernel_core::KernelCore;
use std::alloc::AllocError;
use uc_entry::entry::EntryKind;
use uc_entry::fault::RunFault;
use uc_tree::limits::{OBJECTS, TASKS};

impl KernelCore {
    /// One thing too many is asked for.
    fn too_many(&mut self, who: Actor, what: RunFault)
        requires may { MayAct self.old who.processor who.task }
        ensures { Appended self.old self.new
            (fault who.processor who.task (cost who.ticks who.line) (fault_number what) who.line
            ∷ []) }
    {
        self.put_ending(fault_entry(who, what.number()));
    }

    /// A task makes an object. Where memory is wanting nothing changes.
    pub(crate) fn make(&mut self, who: Actor, class: u32) -> Result<(), AllocError>
        requires may { MayAct self.old who.processor who.task }
        ensures ok { OnOk result (Appended self.old self.new
            (rows self.old who.processor who.task who.ticks who.line (ask.Make class))) }
        ensures err { OnErr result (self.new ≡ self.old) }
    {
        if self.inside_marks.len() >= OBJECTS as usize {
            self.too_many(who, RunFault::TooManyObjects);
            return Ok(());
        }
        let object = self.inside_marks.len() as u32;
        self.conditions.reserve(0, object + 1)?;
        self.owners.reserve(1)?;
        self.inside_marks.reserve(1)?;
        self.entries.add_object(who.task)?;
        self.owners.push_reserved(None);
        self.inside_marks.push_reserved(false);
        self.journal
            .push(object_entry(EntryKind::Make, who, object, class));
        Ok(())
    }

    /// A task is made for an object, and is inside it in place of its creator. Where memory is wanting nothing changes.
    pub(crate) fn add_child(&mut self, who: Actor, object: u32) -> Result<(), AllocError>
        requires may { MayAct self.old who.processor who.task }
        requires at { IsAt who.task object self.old.journal }
        requires unowned { owner object self.old.journal ≡ [] }
        ensures ok { OnOk result (Appended self.old self.new
            (rows self.old who.processor who.task who.ticks who.line (ask.Spawn object))) }
        ensures err { OnErr result (self.new ≡ self.old) }
    {
        if self.events.count() >= TASKS as usize {
            self.too_many(who, RunFault::TooManyTasks);
            return Ok(());
        }
        let child = self.events.count() as u32;
        self.conditions.reserve(child + 1, 0)?;
        self.entries.reserve(child + 1)?;
        self.events.reserve(child + 1)?;
        self.journal
            .push(object_entry(EntryKind::Spawn, who, object, child));
        self.entries.hand_on(object, child);
        self.clusters.add_task(child, who.task);
        self.clusters.ready(child);
        self.owners[object as usize] = Some(child);
        self.own[child as usize] = object;
        self.inside_marks[object as usize] = false;
        Ok(())
    }
}

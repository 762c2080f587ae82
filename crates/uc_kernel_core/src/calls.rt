//! Calls of members.
ghost use Rattle.std.specs.Prelude.{◌≡◌, ◌≤◌};
ghost use Rattle.uc_tree.specs.declared.limits.TheConstants.{MEMBERS};
ghost use Rattle.uc_acts.specs.KernelRuns.{IsOutside};
ghost use Rattle.uc_entry.specs.declared.request.Request.TheVariants as ask;
ghost use Rattle.uc_kernel_core.specs.Mirrors.{Appended, MayAct, rows};

use crate::entries::{Actor, admit_entry, busy_entry, call_entry, push_entry};
use crate::kernel_core::{KernelCore, destroys_busy};
use uc_mutex::called::Called;
use uc_tree::limits::DESTRUCTOR;

impl KernelCore {
    /// A task calls a member of an object that it is not inside.
    pub(crate) fn call(&mut self, who: Actor, object: u32, member: u8)
        requires may { MayAct self.old who.processor who.task }
        requires outside { IsOutside who.task object self.old.journal }
        requires member { member ≤ MEMBERS }
        ensures { Appended self.old self.new
            (rows self.old who.processor who.task who.ticks who.line (ask.Call object member)) }
    {
        let destroys = member == DESTRUCTOR;
        let called = self.entries.call(object, member, who.task);
        self.journal.push(call_entry(who, object, member));
        self.marks[who.task as usize] = destroys;
        match called {
            Called::Waits => self.clusters.free(u32::from(who.processor)),
            Called::In(way) => {
                if destroys_busy(destroys, &self.entries, &self.conditions, object) {
                    self.journal.push(busy_entry(who));
                    return;
                }
                self.journal
                    .push(admit_entry(who, who.task, object, way, 0));
                self.inside_marks[object as usize] = destroys;
            }
            Called::Pushed { acceptor, clause } => {
                // The caller is on the stack, so whoever called the destructor before is cut off.
                let mark = self.marks[acceptor as usize];
                if mark {
                    self.journal.push(busy_entry(who));
                    return;
                }
                self.journal
                    .push(admit_entry(who, acceptor, object, 3, clause));
                self.journal.push(push_entry(who, who.task, object));
                self.clusters.free(u32::from(who.processor));
                self.clusters.ready(acceptor);
                self.inside_marks[object as usize] = mark;
            }
        }
    }
}

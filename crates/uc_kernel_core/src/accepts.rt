//! Accept statements.
ghost use Rattle.std.specs.Prelude.{◌≡◌, ◌<◌, ◌^◌, length};
ghost use Rattle.uc_acts.specs.Doors.{site_at};
ghost use Rattle.uc_acts.specs.KernelRuns.{IsAt};
ghost use Rattle.uc_entry.specs.declared.request.Request.TheVariants as ask;
ghost use Rattle.uc_kernel_core.specs.Mirrors.{Appended, MayAct, rows};

use crate::entries::{Actor, accept_entry, admit_entry, push_entry};
use crate::kernel_core::KernelCore;
use crate::uncounted::accept_at;
use uc_accept::Accepted;

impl KernelCore {
    /// A task accepts at a statement, with a mask of its true clauses.
    pub(crate) fn accept(&mut self, who: Actor, object: u32, site: u32, mask: u32)
        requires may { MayAct self.old who.processor who.task }
        requires at { IsAt who.task object self.old.journal }
        requires site { site < length self.old.sites }
        requires mask { mask < 2 ^ length (site_at self.old.sites site).clauses }
        ensures { Appended self.old self.new
            (rows self.old who.processor who.task who.ticks who.line (ask.Accept object site mask)) }
    {
        let statement = &self.journal.sites()[site as usize];
        let has_else = statement.has_else;
        let accepted = accept_at(&mut self.entries, object, who.task, statement, mask);
        match accepted {
            Accepted::Opened => {
                self.journal
                    .push(accept_entry(who, object, site, mask, has_else, 0));
                self.clusters.free(u32::from(who.processor));
                self.marks[who.task as usize] = self.inside_marks[object as usize];
            }
            Accepted::Caller { task, clause } => {
                let _clause = clause;
                self.journal
                    .push(accept_entry(who, object, site, mask, has_else, 1));
                self.journal.push(admit_entry(who, task, object, 1, 0));
                self.clusters.free(u32::from(who.processor));
                self.clusters.ready(task);
                self.marks[who.task as usize] = self.inside_marks[object as usize];
                self.inside_marks[object as usize] = false;
            }
            Accepted::Else => {
                self.journal
                    .push(accept_entry(who, object, site, mask, has_else, 2));
            }
            Accepted::Destroyer { task, clause } => {
                let _clause = clause;
                self.journal
                    .push(accept_entry(who, object, site, mask, has_else, 3));
                self.journal.push(push_entry(who, task, object));
            }
        }
    }
}

//! A free processor is given the front of its cluster's ready queue.
ghost use Rattle.std.specs.Prelude.{◌≡◌, IfSome, IfNone};
ghost use Rattle.uc_kernel_core.specs.CoreActs.{Gave, GaveNone, IsReady};

use crate::entries::{closing_entry, dispatch_entry};
use crate::kernel_core::KernelCore;
use uc_entry::entry::EntryKind;

impl KernelCore {
    /// The least processor that is open and free and whose cluster has a ready task is given the front of that cluster's queue:
    /// the processor and the task. `None`, exactly where there is no such processor, and nothing changes, or where there is no
    /// room for a dispatch and one entry more, and the limit ends the run.
    pub fn dispatch(&mut self) -> Option<(u32, u32)>
        requires ready { IsReady self.old }
        ensures some { IfSome result (λ r. Gave self.old self.new r.0 r.1) }
        ensures none { IfNone result (GaveNone self.old self.new) }
    {
        match self.clusters.dispatch() {
            None => None,
            Some(given) => {
                if self.journal.len() + 2 > self.opts.entries as usize {
                    self.journal.push(closing_entry(EntryKind::Limit, 0, 0));
                    return None;
                }
                self.journal.push(dispatch_entry(given.0 as u8, given.1));
                Some(given)
            }
        }
    }
}

//! The end of an act: the ending, if the run ends there, or the limit in the place of an act that leaves no room.
ghost use Rattle.std.specs.Prelude.{◌≡◌, ◌<◌, ◌≤◌, ◌+◌, ◌++◌, [], false, length, drop, take, nat_le, Some, None, if◌then◌else◌};
ghost use Rattle.uc_tree.specs.declared.limits.TheConstants.{TASKS};
ghost use Rattle.uc_entry.specs.declared.entry.EntryKind.TheVariants as kind;
ghost use Rattle.uc_acts.specs.Journal.{is_over};
ghost use Rattle.uc_acts.specs.Queues.{all_ticks};
ghost use Rattle.uc_acts.specs.Acts.{closing, fitted, verdict};
ghost use Rattle.uc_kernel_core.specs.Mirrors.{Appended};
ghost use Rattle.uc_kernel_core.specs.CoreActs.{Replaced};

use crate::entries::{Actor, closing_entry};
use crate::kernel_core::KernelCore;
use uc_cluster::Stalled;
use uc_entry::entry::EntryKind;

impl KernelCore {
    /// Ends the act whose entries stand behind the first `before`.
    #[inline(always)]
    pub(crate) fn finish(&mut self, who: Actor, before: usize)
        requires task { who.task < TASKS }
        requires begun { (1 ≤ before) × (before ≤ length self.old.journal) }
        requires ready { before < self.old.opts.entries }
        requires room { length self.old.journal < self.old.opts.entries + 40 }
        ensures { Replaced self.old self.new before
            (fitted self.old.opts (take before self.old.journal) who.processor who.task
            (drop before self.old.journal
            ++ (if is_over self.old.journal then []
            else closing who.processor who.task (verdict self.old.opts self.old.journal)))) }
    {
        self.close(who);
        self.fit(who, before);
    }

    /// The ending, if the run ends here.
    #[inline(always)]
    fn close(&mut self, who: Actor)
        requires task { who.task < TASKS }
        requires room { length self.old.journal < self.old.opts.entries + 40 }
        ensures { Appended self.old self.new (if is_over self.old.journal then []
            else closing who.processor who.task (verdict self.old.opts self.old.journal)) }
    {
        if self.journal.is_over() {
            return;
        }
        match self.verdict() {
            None => {}
            Some(kind) => self.put_ending(closing_entry(kind, who.processor, who.task)),
        }
    }

    /// The limit in the place of an act that leaves no room for one entry more.
    fn fit(&mut self, who: Actor, before: usize)
        requires begun { (1 ≤ before) × (before ≤ length self.old.journal) }
        requires ready { before < self.old.opts.entries }
        ensures { Replaced self.old self.new before
            (fitted self.old.opts (take before self.old.journal) who.processor who.task
            (drop before self.old.journal)) }
    {
        if self.journal.len() < self.opts.entries as usize {
            return;
        }
        self.journal.end_at(
            before,
            closing_entry(EntryKind::Limit, who.processor, who.task),
        );
    }

    /// How the run ends, by the first that holds.
    #[inline(always)]
    fn verdict(&self) -> Option<EntryKind>
        requires going { is_over self.now.journal ≡ false }
        ensures { result ≡ verdict self.now.opts self.now.journal }
    {
        if self.journal.first_ended() {
            return Some(EntryKind::Done);
        }
        match self.clusters.stalled() {
            Stalled::Deadlock => Some(EntryKind::Deadlock),
            Stalled::NoProcessor => Some(EntryKind::NoProcessor),
            Stalled::No => self.ticks_verdict(),
        }
    }

    fn ticks_verdict(&self) -> Option<EntryKind>
        requires going { is_over self.now.journal ≡ false }
        ensures { result ≡ (if nat_le self.now.opts.ticks (all_ticks self.now.journal)
            then Some kind.Limit else None) }
    {
        if self.opts.ticks <= self.journal.ticks() {
            return Some(EntryKind::Limit);
        }
        None
    }
}

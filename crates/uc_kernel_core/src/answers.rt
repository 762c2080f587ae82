//! What the journal tells of its tasks and its end, at once.
ghost use Rattle.std.specs.Prelude.{◌≡◌, ◌<◌, false, IfSome};
ghost use Rattle.std.specs.Option.{option_to_list};
ghost use Rattle.uc_tree.specs.declared.limits.TheConstants.{PROCESSORS, TASKS};
ghost use Rattle.uc_acts.specs.Answers.{answer_to};
ghost use Rattle.uc_acts.specs.Journal.{is_over};
ghost use Rattle.uc_acts.specs.Queues.{running};
ghost use Rattle.uc_acts.specs.Serves.{left};

use crate::kernel_core::KernelCore;
use uc_entry::request::Answer;

impl KernelCore {
    /// Whether the run is over: its last entry ends it.
    pub fn is_over(&self) -> bool
        ensures { result ≡ is_over self.now.journal }
    {
        self.journal.is_over()
    }

    /// What a task is told to go on with, if it is.
    pub fn answer(&self, task: u32) -> Option<Answer>
        requires going { is_over self.now.journal ≡ false }
        requires task { task < TASKS }
        ensures { result ≡ answer_to self.now.sites task self.now.journal }
    {
        self.journal.answer(task)
    }

    /// The ticks that a task has left of its slice.
    pub fn left(&self, task: u32) -> u32
        requires going { is_over self.now.journal ≡ false }
        requires task { task < TASKS }
        ensures { result ≡ left self.now.opts self.now.journal task }
    {
        let used = self.journal.ticks_since_dispatch(task);
        u64::from(self.opts.slice).saturating_sub(used) as u32
    }

    /// The task that runs on a processor, if one does. A processor on which one does is below `PROCESSORS`.
    pub fn runner(&self, processor: u32) -> Option<u32>
        requires going { is_over self.now.journal ≡ false }
        ensures runs { option_to_list result ≡ running processor self.now.journal }
        ensures known { IfSome result (λ t. processor < PROCESSORS) }
    {
        self.clusters.task_on(processor)
    }
}

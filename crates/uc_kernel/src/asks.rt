//! Who may act.
ghost use Rattle.std.specs.Prelude.{◌≡◌, ◌<◌, [], true, false, length, IfNone, IfSome};
ghost use Rattle.uc_tree.specs.declared.limits.TheConstants.{TASKS};
ghost use Rattle.uc_acts.specs.Journal;
ghost use Rattle.uc_acts.specs.Known.{object_count, owner};
ghost use Rattle.uc_acts.specs.Queues.{running};
ghost use Rattle.uc_kernel.specs.Asks.{IsRunner};

use crate::kernel::Kernel;

/// A task that runs, and the ticks that it has left.
#[derive(Clone, Copy)]
pub struct RunningTask {
    pub task: u32,
    pub left: u32,
}

impl<T, M> Kernel<T, M> {
    /// Who runs on a processor. None where nobody does, or the run is over.
    pub fn runner(&self, processor: u32) -> Option<RunningTask>
        ensures none { IfNone result (Journal.is_over self.now.journal ≡ false →
            running processor self.now.journal ≡ []) }
        ensures some { IfSome result (λ r. IsRunner self.now.opts self.now.journal processor r) }
        ensures small { IfSome result (λ r. r.task < TASKS) }
    {
        if self.book.is_over() {
            return None;
        }
        match self.book.runner(processor) {
            None => None,
            Some(task) => Some(RunningTask {
                task,
                left: self.book.left(task),
            }),
        }
    }

    /// The own object of a task, while the run goes on.
    pub fn own_object(&self, task: u32) -> u32
        requires going { Journal.is_over self.now.journal ≡ false }
        requires known { task < TASKS }
        ensures { result ≡ Journal.own_object task self.now.journal }
    {
        self.book.own_object(task)
    }

    /// Whether an object is some task's own, while the run goes on.
    pub fn is_owned(&self, object: u32) -> bool
        requires going { Journal.is_over self.now.journal ≡ false }
        requires known { object < object_count self.now.journal }
        ensures nobody { result ≡ false → owner object self.now.journal ≡ [] }
        ensures one { result ≡ true → length (owner object self.now.journal) ≡ 1 }
    {
        self.book.is_owned(object)
    }
}

//! The tasks that are ready on a cluster.
ghost use Rattle.std.specs.Prelude.{◌≡◌, ◌<◌, ◌++◌, ◌∷◌, [], length, IfOk};
ghost use Rattle.uc_cluster.specs.Standing.{front_or_0, rest_of, is_nobody};
ghost use Rattle.uc_tree.specs.declared.limits.TheConstants.{TASKS};

use std::alloc::{AllocError, Global};
use std::collections::VecDeque;
use std::marker::Model;
use uc_tree::limits::TASKS;

/// The tasks that are ready on a cluster, oldest first, with room for all tasks of a run.
#[derive(Drop)]
pub(crate) struct Queue {
    tasks: VecDeque<u32>,
}

impl Model for Queue {
    ghost use Rattle.std.specs.Prelude.{List, ℕ, ◌≤◌};
    ghost use Rattle.std.specs.VecDeque.{deque_capacity};
    ghost use Rattle.uc_tree.specs.declared.limits.TheConstants.{TASKS};

    ghost Value = { List ℕ };

    ghost view = { λ q. q.tasks.items };

    ghost invariant = { λ q. TASKS ≤ deque_capacity q.tasks };
}

impl Queue {
    /// No task is ready.
    pub fn new(alloc: Global) -> Result<Queue, AllocError>
        ensures { IfOk result (λ q. q ≡ []) }
    {
        Ok(Queue {
            tasks: VecDeque::with_capacity(alloc, TASKS as usize)?,
        })
    }

    /// A task goes to the back.
    pub fn push(&mut self, task: u32)
        requires { length self.old < TASKS }
        ensures { self.new ≡ self.old ++ task ∷ [] }
    {
        self.tasks.push_back_reserved(task);
    }

    /// Takes the front out.
    pub fn shift(&mut self) -> u32
        requires { 0 < length self.old }
        ensures value { result ≡ front_or_0 self.old }
        ensures rest { self.new ≡ rest_of self.old }
    {
        match self.tasks.pop_front() {
            Some(task) => task,
            None => 0,
        }
    }

    /// Whether no task is ready.
    pub fn is_empty(&self) -> bool
        ensures { result ≡ is_nobody self.now }
    {
        self.tasks.is_empty()
    }
}

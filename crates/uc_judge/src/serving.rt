// Which task a processor may be given.

ghost use Rattle.std.specs.Prelude.{◌≡◌, ◌==◌, ◌&&◌, List, true, false, not};
ghost use Rattle.std.specs.List.{list_any};
ghost use Rattle.uc_tree.specs.Programs.{Site};
ghost use Rattle.uc_acts.specs.Journal.{Journal};
ghost use Rattle.uc_acts.specs.Laws.{IsServed};
ghost use Rattle.uc_acts.specs.Queues.{is_nobody, ready, running};
ghost use Rattle.uc_acts.specs.Serves.{Serves};
ghost use Rattle.uc_judge.specs.Scheduled.{IsSchedule, is_first};
ghost use Rattle.uc_judge.specs.Ledgers.{IsLedger};

use crate::ledger::Ledger;
use crate::schedule::Schedule;

impl Ledger {
    /// Whether a processor may be given a task: it is open and free, and its cluster's queue begins with the task.
    pub fn serves(&self, processor: u8, task: u32) -> bool
        ensures yes { result ≡ true → (sites : List Site) → IsLedger self.now sites →
            Serves self.now.opts self.now.entries.items processor task }
        ensures no { result ≡ false → (sites : List Site) → IsLedger self.now sites →
            Serves self.now.opts self.now.entries.items processor task → ⊥ }
    {
        if self.schedule.first_running(processor).is_some() {
            return false;
        }
        any_serves(
            &self.schedule,
            self.processors.open(),
            u32::from(processor),
            task,
        )
    }

    /// Whether any processor may be given any task.
    pub(crate) fn serves_any(&self) -> bool
        ensures yes { result ≡ true → (sites : List Site) → IsLedger self.now sites →
            IsServed self.now.opts self.now.entries.items }
        ensures no { result ≡ false → (sites : List Site) → IsLedger self.now sites →
            IsServed self.now.opts self.now.entries.items → ⊥ }
    {
        any_waits(&self.schedule, self.processors.open())
    }
}

// Whether one of some processors has no task, and its cluster's queue has one.
fn any_waits(schedule: &Schedule, processors: &[(u32, u32)]) -> bool
    ensures { (j : Journal) → IsSchedule schedule.now j →
        result ≡ list_any
        (λ x. is_nobody (running x.0 j) && not (is_nobody (ready x.1 j))) processors.now }
{
    for row in processors {
        if schedule.waits_for(row.0, row.1) {
            return true;
        }
    }
    false
}

// Whether one of some processors has this number, and a task is the first of its cluster's queue.
fn any_serves(schedule: &Schedule, processors: &[(u32, u32)], processor: u32, task: u32) -> bool
    ensures { (j : Journal) → IsSchedule schedule.now j →
        result ≡ list_any (λ x. (x.0 == processor) && is_first task (ready x.1 j)) processors.now }
{
    for row in processors {
        if row_serves(schedule, *row, processor, task) {
            return true;
        }
    }
    false
}

fn row_serves(schedule: &Schedule, row: (u32, u32), processor: u32, task: u32) -> bool
    ensures { (j : Journal) → IsSchedule schedule.now j →
        result ≡ ((row.0 == processor) && is_first task (ready row.1 j)) }
{
    if row.0 == processor {
        return is_first_ready(schedule, row.1, task);
    }
    false
}

// Whether a task is the first of a cluster's queue.
fn is_first_ready(schedule: &Schedule, cluster: u32, task: u32) -> bool
    ensures { (j : Journal) → IsSchedule schedule.now j → result ≡ is_first task (ready cluster j) }
{
    match schedule.first_ready(u64::from(cluster)) {
        Some(first) => first == task,
        None => false,
    }
}

// What comes next for a worker.

use uc_frames::members::Members;
use uc_frames::task::Task;
use uc_kernel::given::Given;

/// What comes next for a worker: a task goes on, it has none, or the run is over or was abandoned.
#[derive(Drop)]
pub enum Step {
    Going(Given<Task, Members>),
    Idle,
    Over,
}

// Samples of texts that are well typed, computed by the checker. Each function does nothing: its contract is the sample.

ghost use Rattle.uc_sound.specs.Samples.{account_text, task_text, IsWellTypedText};

/// A task with a constructor that takes a constant, and with a handler of all events.
pub fn sample_of_tasks()
    ensures { IsWellTypedText task_text }
{}

/// A monitor, and two tasks that have a reference to it in a field.
pub fn sample_of_monitors()
    ensures { IsWellTypedText account_text }
{}

// A sample of the lines, which the checker works out.

ghost use Rattle.std.specs.Prelude.{◌≡◌};
ghost use Rattle.uc_acts.specs.Samples.{destructor_journal};
ghost use Rattle.uc_explain.specs.Explained.{explained};
ghost use Rattle.uc_explain.specs.Sample.{destructor_lines};

/// The lines of a journal in which a task accepts the caller of its own destructor, at the object of that task.
pub fn accepted_destructor()
    ensures { explained 1 destructor_journal ≡ destructor_lines }
{}

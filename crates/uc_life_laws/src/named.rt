// The laws: each is a function whose contract is the law.

ghost use Rattle.uc_life_laws.specs.NamedRuns.{LawNamedRuns};
ghost use Rattle.uc_life_laws.specs.RunningRuns.{LawRunningRuns};

/// In each run in which all that was asked so far fits, of whatever source, each name that is there is
/// of an execution that was made, and each execution that is made has a name of its own.
pub fn law_named_runs()
    ensures { LawNamedRuns }
{}

/// As long as no step takes away the running execution, that of each task is there, at home in the task
/// or in an object in its hand, without what it has to do, and no other in hand is so.
pub fn law_running_runs()
    ensures { LawRunningRuns }
{}

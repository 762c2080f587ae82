// The laws: each is a function whose contract is the law.

ghost use Rattle.uc_running_laws.specs.OwnPrograms.{LawOwnPrograms};
ghost use Rattle.uc_running_laws.specs.Running.{LawRunning};
ghost use Rattle.uc_running_laws.specs.Away.{LawAway};

/// In each run of a program that breaks no rule in which all that was asked so far fits, nothing else
/// is owed to what tasks let go of, and no step forgets the execution that runs, the running execution
/// of each task is there, at home in the task or in an object in its hand, without what it has to do,
/// and no other execution in hand is so.
pub fn law_running()
    ensures { LawRunning }
{}

/// So who runs has a name of its own there: no other execution of the world has it.
pub fn law_own_programs()
    ensures { LawOwnPrograms }
{}

/// In each run of a program that breaks no rule in which all that was asked so far fits, and nothing else
/// is owed to what is let go of, who builds or destroys an object is not at home there.
pub fn law_away()
    ensures { LawAway }
{}

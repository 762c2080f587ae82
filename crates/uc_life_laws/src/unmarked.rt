// The laws: each is a function whose contract is the law.

ghost use Rattle.uc_life_laws.specs.Ending.{LawBegins, LawLeft};
ghost use Rattle.uc_life_laws.specs.Unmarked.{LawOwn, LawRuns, LawSteps, LawUnmarked};

/// What is an execution's own is no other's.
pub fn law_own()
    ensures { LawOwn }
{}

/// Marks go on to be for what is their execution's own, and none goes on to stand around what is being built or
/// destroyed, as long as it is so where a mark is put.
pub fn law_steps()
    ensures { LawSteps }
{}

/// An object that whoever runs has no mark around is in nobody's mark, where marks are for what is their
/// execution's own.
pub fn law_unmarked()
    ensures { LawUnmarked }
{}

/// So in runs nobody has a mark around what goes.
pub fn law_runs()
    ensures { LawRuns }
{}

/// Who leaves the scope of a mutex object has no other mark around it, up to where it enters the object.
pub fn law_left()
    ensures { LawLeft }
{}

/// What destroys or builds such an object begins with a mark that is put so.
pub fn law_begins()
    ensures { LawBegins }
{}

// The laws: each is a function whose contract is the law.

ghost use Rattle.uc_state_laws.specs.Addressed.{LawAddressed};
ghost use Rattle.uc_state_laws.specs.AddressFrameRuns.{LawRuns};
ghost use Rattle.uc_state_laws.specs.FrameSteps.{LawSteps};
ghost use Rattle.uc_state_laws.specs.Limits.{LawLimits};

/// In any source of which no routine takes more cells than a number, or has more parameters, a task
/// begins with frames of no more, and each quiet step and each answer keep that, of all its executions.
pub fn law_steps()
    ensures { LawSteps }
{}

/// So it is in each run of such a source: of each task at rest, of what is at home in each object, and
/// in each state to which whoever runs comes before it asks.
pub fn law_runs()
    ensures { LawRuns }
{}

/// In the source of each program within its limits no routine takes more cells than a frame may have
/// of variables, and three hidden ones for each unit that a program may count.
pub fn law_limits()
    ensures { LawLimits }
{}

/// So in each run of such a program, and on the way to each state to which whoever runs comes, scopes
/// open where all cells of the frame have addresses.
pub fn law_addressed()
    ensures { LawAddressed }
{}

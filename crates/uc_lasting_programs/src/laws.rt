// The laws: each is a function whose contract is the law.

ghost use Rattle.uc_lasting_programs.specs.Asking.{LawAskedAt};
ghost use Rattle.uc_lasting_programs.specs.CallsRuns.{LawCallsRuns};
ghost use Rattle.uc_lasting_programs.specs.Finding.{LawFinding};
ghost use Rattle.uc_lasting_programs.specs.Forgetting.{LawForgetsPrograms};
ghost use Rattle.uc_lasting_programs.specs.LastingPrograms.{LawLastingPrograms};
ghost use Rattle.uc_lasting_programs.specs.Telling.{LawTelling};
ghost use Rattle.uc_lasting_programs.specs.Ways.{LawWays};

/// What a step asks: a call is that of the mutex member at the head, and an event is raised at an object
/// that is the newest operand.
pub fn law_asked_at()
    ensures { LawAskedAt }
{}

/// In each run of a program that breaks no rule in which all that was asked so far fits, and nothing else
/// is owed to what tasks let go of, the routines that are named are there, unwindings have reasons and no
/// main is called; and what is bound is in no frame of another execution, as far as each step finds what
/// is left to find where objects are bound and marks are put.
pub fn law_finding()
    ensures { LawFinding }
{}

/// In runs of programs that break no rule, and on the way to what is asked next, what is called, made and spawned
/// is had, as long as steps find what they are to find.
pub fn law_calls_runs()
    ensures { LawCallsRuns }
{}

/// So nobody else has at hand what is let go of, so far and on the way to what is asked next, as long as what
/// executions have of others is elsewhere; and behind each act by which an object goes nobody has its home at
/// hand, if nobody has that of others there.
pub fn law_ways()
    ensures { LawWays }
{}

/// So nobody has at hand what has gone, in such runs, as long as no step forgets an execution that is at
/// home elsewhere, and who acts builds and destroys no more what goes.
pub fn law_forgets_programs()
    ensures { LawForgetsPrograms }
{}

/// What a run of a program that breaks no rule tells of numbers and of homes, with bases that are places,
/// is what the laws of runs may be asked with.
pub fn law_telling()
    ensures { LawTelling }
{}

/// So all that a program which breaks no rule and is within its limits asks fits, where in its runs what is
/// listed there holds.
pub fn law_lasting_programs()
    ensures { LawLastingPrograms }
{}

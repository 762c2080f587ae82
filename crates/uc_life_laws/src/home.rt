// The laws: each is a function whose contract is the law.

ghost use Rattle.uc_life_laws.specs.HomedRuns.{LawRuns, LawSteps};
ghost use Rattle.uc_life_laws.specs.HomedReading.{LawReading};
ghost use Rattle.uc_life_laws.specs.Homes.{LawHomes, LawOnce};
ghost use Rattle.uc_life_laws.specs.BoundRuns.{LawBinds};

/// In each run in which all that was asked so far fits, of whatever source, who is told the number of an object
/// that it has asked for has the home of that object below the arguments of its constructor.
pub fn law_homes()
    ensures { LawHomes }
{}

/// No act changes the home of an object that was made before it.
pub fn law_once()
    ensures { LawOnce }
{}

/// So who binds a made object has just been told it, and binds it where it is at home.
pub fn law_binds()
    ensures { LawBinds }
{}

/// Mutex objects that are at home in what is in scope stay there, whatever a step does, where scopes open so.
pub fn law_steps()
    ensures { LawSteps }
{}

/// So it is in each run of a program that breaks no rule in which each scope opens so.
pub fn law_runs()
    ensures { LawRuns }
{}

/// So what is read at a binding to a mutex object, within what is in scope, is at home there.
pub fn law_reading()
    ensures { LawReading }
{}

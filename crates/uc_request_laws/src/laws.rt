// The laws: each is a function whose contract is the law.

ghost use Rattle.uc_request_laws.specs.RequestLaws.{LawEvents, LawNames};
ghost use Rattle.uc_request_laws.specs.Holds.{LawHolds, LawTexts};
ghost use Rattle.uc_request_laws.specs.ApartRuns.{LawApartRuns};
ghost use Rattle.uc_request_laws.specs.Lasting.{LawLasting};
ghost use Rattle.uc_request_laws.specs.Remaining.{LawRemaining};

/// In every run of a program what a task asks names a mutex member by a number of at most 31, and
/// an accept statement of the program, with a mask of its clauses.
pub fn law_names()
    ensures { LawNames }
{}

/// In every run of a program that breaks no rule, as long as all that was asked before fits, what
/// is raised at a task is an event by a number below 64.
pub fn law_events()
    ensures { LawEvents }
{}

/// What a program that breaks no rule asks in its runs fits where, as long as all before fits, each
/// object of which something is asked is in hand, or is made and not in hand where it is called, and
/// where the tasks, clusters and processors that it names are there.
pub fn law_holds()
    ensures { LawHolds }
{}

/// So does the program of every accepted text.
pub fn law_texts()
    ensures { LawTexts }
{}

/// Where nothing else is owed to the objects that tasks let go of, each object of which something is
/// asked is in hand, and what is spawned has no owner yet: then what a program that breaks no rule asks
/// fits where what it calls, and raises events at, is made, and the tasks, clusters and processors that
/// it names are there.
pub fn law_remaining()
    ensures { LawRemaining }
{}

/// In each run of a program that breaks no rule in which all that was asked so far fits, and each step
/// found what it was to find, nothing else is owed to what tasks let go of, as long as nobody else has
/// that at hand.
pub fn law_apart_runs()
    ensures { LawApartRuns }
{}

/// Where each step finds what it is to find, so that all is known that an execution can come by, what
/// a task names was made, and where nobody else has at hand what is let go of, hands need not be shown:
/// then what a program that breaks no rule asks fits where what it calls, and raises events at, is not
/// gone, and what events are raised at has a task.
pub fn law_lasting()
    ensures { LawLasting }
{}

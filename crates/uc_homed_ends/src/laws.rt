// The laws: each is a function whose contract is the law.

ghost use Rattle.uc_homed_ends.specs.ArrayLaws.{LawArrays, LawArraySteps};
ghost use Rattle.uc_homed_ends.specs.BoundLaws.{LawAwaits, LawBoundSteps, LawOpens, LawSet};
ghost use Rattle.uc_homed_ends.specs.Ended.{LawEnded};
ghost use Rattle.uc_homed_ends.specs.EndLaws.{LawCode, LawWays};
ghost use Rattle.uc_homed_ends.specs.Found.{LawFound};
ghost use Rattle.uc_homed_ends.specs.Freeing.{LawFreeing};
ghost use Rattle.uc_homed_ends.specs.HomedEnds.{LawFair, LawReads};
ghost use Rattle.uc_homed_ends.specs.Sited.{LawSited};
ghost use Rattle.uc_homed_ends.specs.Swept.{LawSwept};

/// In the source of every program that breaks no rule mutex objects are ended by clean-ups alone.
pub fn law_code()
    ensures { LawCode }
{}

/// So it is in each run in which scopes open where their mutex objects are at home, and who is on the way to read what it ends was at the clean-up
/// with the same memory.
pub fn law_ways()
    ensures { LawWays }
{}

/// What is read of a variable before the mutex object there ends is at home at that variable.
pub fn law_reads()
    ensures { LawReads }
{}

/// So of homes nothing is left to find for marks that are put but where fields and elements end.
pub fn law_fair()
    ensures { LawFair }
{}

/// A variable that is a mutex object holds a number until it is bound, and from then on, up to its scope,
/// the object that is at home there, for which its constructor is called: of a task as it begins, and each step that finds what it is to find,
/// and each answer, keep that.
pub fn law_bound_steps()
    ensures { LawBoundSteps }
{}

/// So in each run of a program of the grammar that breaks no rule and is within its limits, as long as all
/// that was asked fits, the object is at home at the variable where its scope opens, by the homes that the
/// run tells in the end.
pub fn law_set()
    ensures { LawSet }
{}

/// So where an activation waits, and the scope of such a variable opens next, what it waits for is of the
/// object that the variable holds.
pub fn law_awaits()
    ensures { LawAwaits }
{}

/// An activation behind which the scope of such a variable opens next builds the object for which it is called, and that is the last thing that it does: of a task as it
/// begins, and each step that finds what it is to find, and each answer, keep that. So none of them lets
/// go of the object as one that it destroys.
pub fn law_freeing()
    ensures { LawFreeing }
{}

/// So each scope opens where the mutex objects that it is of are at home, as long as those of objects and
/// of arrays do.
pub fn law_opens()
    ensures { LawOpens }
{}

/// An element of an array of mutex objects that is a variable holds a number, or the object that is at home
/// there, up to the scope of the array: of a task as it begins, and each step that finds what it is to find,
/// and each answer, keep that.
pub fn law_array_steps()
    ensures { LawArraySteps }
{}

/// So in each run of a program of the grammar that breaks no rule and is within its limits, as long as all
/// that was asked fits, each element is at home in the array where the scope of that opens, by the homes
/// that the run tells in the end.
pub fn law_arrays()
    ensures { LawArrays }
{}

/// What is entered to be destroyed is not gone, where it was not as it was loaded for that.
pub fn law_ended()
    ensures { LawEnded }
{}

/// So it is of an element of an array, where the last one that stood was not gone as the array was to go on being destroyed.
pub fn law_swept()
    ensures { LawSwept }
{}

/// In the source of every program that breaks no rule what is built, destroyed and bound stands where its
/// routine has it.
pub fn law_sited()
    ensures { LawSited }
{}

/// So where all is known nothing of homes is left to find for marks that are put: in each run of such a
/// program that is within its limits, and in what is asked next.
pub fn law_found()
    ensures { LawFound }
{}

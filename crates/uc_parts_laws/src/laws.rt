// The laws: each is a function whose contract is the law.

ghost use Rattle.uc_parts_laws.specs.BoundAside.{LawBoundAside};
ghost use Rattle.uc_parts_laws.specs.ClearedFrames.{LawClearedFrames};
ghost use Rattle.uc_parts_laws.specs.FramesStay.{LawFramesStay};
ghost use Rattle.uc_parts_laws.specs.GoingApart.{LawGoesApart};
ghost use Rattle.uc_parts_laws.specs.KeptObjects.{LawKeptObjects, LawLodgers};
ghost use Rattle.uc_parts_laws.specs.Leaving.{LawLeaving};
ghost use Rattle.uc_parts_laws.specs.Lodging.{LawLodging};
ghost use Rattle.uc_parts_laws.specs.LoneSweeps.{LawLoneSweeps};
ghost use Rattle.uc_parts_laws.specs.Naming.{LawNaming};
ghost use Rattle.uc_parts_laws.specs.PartsLaws.{LawParts, LawPartsSources};
ghost use Rattle.uc_parts_laws.specs.PartsRuns.{LawKeptParts, LawPartsRuns};
ghost use Rattle.uc_parts_laws.specs.UndoingLaws.{LawTaking, LawUndoing};
ghost use Rattle.uc_parts_laws.specs.Returning.{LawReturns, LawReturnsRuns};
ghost use Rattle.uc_parts_laws.specs.Standing.{LawStanding};
ghost use Rattle.uc_parts_laws.specs.StandingPrograms.{LawStandingPrograms};
ghost use Rattle.uc_parts_laws.specs.StandingRuns.{LawStandingRuns};

/// In the source of every program that breaks no rule parts of objects are built by constructors alone, outside all
/// other statements, and where elements of an array are built their clean-up stands next.
pub fn law_parts_sources()
    ensures { LawPartsSources }
{}

/// Parts of objects under construction are taken over by who waits for the constructors, as far as those are that a
/// routine which is called is to build.
pub fn law_parts()
    ensures { LawParts }
{}

/// In each state of runs of programs parts are taken over, and on the way to what is asked next, as long as all that was
/// asked before fits.
pub fn law_parts_runs()
    ensures { LawPartsRuns }
{}

/// Where parts are taken over, executions are held soon behind each step that takes their marks away or makes them,
/// as far as those are up no more whose coroutines are forgotten, and mutex objects that hold one are read where they
/// are destroyed.
pub fn law_leaving()
    ensures { LawLeaving }
{}

/// So it is in rides and runs.
pub fn law_kept_parts()
    ensures { LawKeptParts }
{}

/// In the source of every program that breaks no rule constructors that build parts are called where the destructor
/// that takes these over stands next: at a variable, at a field, or at each element of an array there.
pub fn law_undoing()
    ensures { LawUndoing }
{}

/// In every task of such a source the place at which a constructor is called lies among the operands, so what it is to
/// build is taken over by what stands behind the call.
pub fn law_taking()
    ensures { LawTaking }
{}

/// Of those that are still there at the end of a way no coroutine was forgotten on it, where the first cell of each
/// names its execution as that is made.
pub fn law_naming()
    ensures { LawNaming }
{}

/// Where an activation ends, its frame holds no coroutine of which the execution is held by others, or that is to be
/// cleaned up by who waits.
pub fn law_frames_stay()
    ensures { LawFramesStay }
{}

/// Where cells of the newest frame start anew, they lie behind the first cells of all coroutines there of which the
/// executions are held; so it is in the frames of programs that break no rule.
pub fn law_cleared_frames()
    ensures { LawClearedFrames }
{}

/// A coroutine stands, as an object that has an execution, in what a destructor that comes to the end of it is called
/// for.
pub fn law_lodging()
    ensures { LawLodging }
{}

/// A return of a handler that unwinds an activation is over before what that builds is left: of every source, where
/// parts are taken over, in steps and answers.
pub fn law_returns()
    ensures { LawReturns }
{}

/// So in each run of a program that breaks no rule nothing that is built is left by a return of a handler to the
/// activation that builds it.
pub fn law_returns_runs()
    ensures { LawReturnsRuns }
{}

/// Elements that stand of arrays of mutex objects that are variables are not gone: in steps and answers, where none is as
/// it is built, as the clean-up of its array begins, and as something is bound.
pub fn law_standing()
    ensures { LawStanding }
{}

/// So in each run, by what is gone behind each act, as far as what goes is no element that stands.
pub fn law_standing_runs()
    ensures { LawStandingRuns }
{}

/// In each run of a program that breaks no rule what goes is none.
pub fn law_goes_apart()
    ensures { LawGoesApart }
{}

/// So in each run of such a program, as long as what is in scope and what is bound is not gone, no element that stands is
/// gone.
pub fn law_standing_programs()
    ensures { LawStandingPrograms }
{}

/// What is bound, but to a new mutex object, is bound aside of all elements of arrays that are being destroyed, where own
/// cells hold what is at home there.
pub fn law_bound_aside()
    ensures { LawBoundAside }
{}

/// Where an activation destroys the elements of an array of mutex objects that is a variable, older activations build and
/// destroy nothing that is at home in that array.
pub fn law_lone_sweeps()
    ensures { LawLoneSweeps }
{}

/// In runs what the maker of a mutex object was to clean up outwards of it as it let others in, or spawned it, stays the
/// outermost of what it is to clean up, as long as each step that takes the object's mark away leads to where it is
/// held soon, and the object does not go.
pub fn law_kept_objects()
    ensures { LawKeptObjects }
{}

/// So each step does where parts of objects are taken over, if what is loaded to be destroyed where the object is at
/// home is that object; and its maker holds it soon as it lets others in.
pub fn law_lodgers()
    ensures { LawLodgers }
{}

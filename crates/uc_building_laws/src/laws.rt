// The laws: each is a function whose contract is the law.

ghost use Rattle.uc_building_laws.specs.Awaiting.{LawAwaited};
ghost use Rattle.uc_building_laws.specs.BuildingLaws.{LawClears, LawKept, LawSteps};
ghost use Rattle.uc_building_laws.specs.BuildingRuns.{LawBuilt, LawHeads};
ghost use Rattle.uc_building_laws.specs.BuiltEndings.{LawBuiltEndings};
ghost use Rattle.uc_building_laws.specs.BuiltLasting.{LawBuiltLasting};
ghost use Rattle.uc_building_laws.specs.BuiltReads.{LawBuiltReads};
ghost use Rattle.uc_building_laws.specs.BuiltRuns.{LawBuiltRuns};
ghost use Rattle.uc_building_laws.specs.ScopedReads.{LawScopedReads};

/// Of an object whose scope opens behind its constructor, each field that is told holds what is known once
/// the statement that binds it is done, and nothing is bound there before, from where the cells of the
/// variable start anew on; so the object holds what is known once the constructor has come to its end. By
/// any kinds of frames: a task begins so, each step keeps it that finds what it is to find and behind which
/// the same execution goes on, and so does each answer.
pub fn law_steps()
    ensures { LawSteps }
{}

/// By the kinds of frames, which go along steps: each step of a sound source keeps all that is known, with
/// what constructors have bound, as far as it finds what it is to find; and where the scope of an object
/// opens, the fields that its constructor bound in its first statements hold what is known there.
pub fn law_kept()
    ensures { LawKept }
{}

/// Cells that start anew lie behind what is being built in their frame, where things lie within their
/// cells and activations that use one frame stay behind one another.
pub fn law_clears()
    ensures { LawClears }
{}

/// The constructor of a class of which variables are declared binds each field that it is told of in its
/// first statements to what is of the type that stands there, before it calls anything; and a variable has
/// all cells of its object. What it is given is at hand outwards of the scope that opens behind its call,
/// whatever is being built or destroyed. A field that is known by its number holds what is known as soon as
/// its cell holds an object.
pub fn law_heads()
    ensures { LawHeads }
{}

/// Where the scope of an object that is a variable opens next, what its constructor builds is waited for.
pub fn law_awaited()
    ensures { LawAwaited }
{}

/// So objects hold what is known where their scopes open, in each run of a program of the grammar that
/// breaks no rule and is within its limits, as long as all that was asked before fits and each step found
/// what it is to find: of what constructors bind that is nothing.
pub fn law_built()
    ensures { LawBuilt }
{}

/// So it is where of the states in which a clean-up comes to the variable that it ends, and reads it,
/// nothing is asked.
pub fn law_built_endings()
    ensures { LawBuiltEndings }
{}

/// Where nobody has at hand what has gone, what constructors have bound is not gone: in each such run, as far
/// as each step found what it was to find with the numbers of what is not gone.
pub fn law_built_lasting()
    ensures { LawBuiltLasting }
{}

/// So in each such run of a program within its limits, as long as all that was asked before fits: all is
/// known of whoever runs in each state to which it comes before it asks, what is in scope holds what is
/// known, and what the next step reads of bindings is of its type. What binds leaves what it is to leave.
pub fn law_built_runs()
    ensures { LawBuiltRuns }
{}

/// In the constructor of an object that is a variable what a field is bound to of which it is told is known
/// where it is read, once no statement is left that may bind it: so such a step finds what it is to find.
pub fn law_built_reads()
    ensures { LawBuiltReads }
{}

/// What is read of an object in scope that is a variable, or of an array of such, is known where that is one
/// of the running execution; and where it is one of another that does not run in its task, what is read is
/// of its type, and a number passes.
pub fn law_scoped_reads()
    ensures { LawScopedReads }
{}

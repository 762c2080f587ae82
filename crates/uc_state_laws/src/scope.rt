// The laws: each is a function whose contract is the law.

ghost use Rattle.uc_state_laws.specs.ScopeFrameRuns.{LawFrameRuns, LawFrames};
ghost use Rattle.uc_state_laws.specs.Opening.{LawOpening};
ghost use Rattle.uc_state_laws.specs.RoomRuns.{LawRuns};
ghost use Rattle.uc_state_laws.specs.ScopeLaws.{LawAccepted, LawClears, LawSource, LawSteps};

/// In the source of every program whose locals are no references, all code keeps to its rooms: each
/// declaration takes cells behind those of all objects in scope, the handlers of a guarded block take
/// theirs behind those of the block, and all lie in the frame of the routine. What is bound or made is
/// a place that is being built there, so none that is in scope. What is known by its number is declared,
/// bound and in scope by what stands right behind each other, and so is an array of such.
pub fn law_source()
    ensures { LawSource }
{}

/// So does the code of every program that breaks no rule.
pub fn law_accepted()
    ensures { LawAccepted }
{}

/// Where all code of a source keeps to its rooms, so does all that a task has to do, from its start
/// on: each quiet step keeps that, and each answer.
pub fn law_steps()
    ensures { LawSteps }
{}

/// So the cells that a step clears for a variable lie behind those of all objects whose clean-up
/// the running activation has still to do.
pub fn law_clears()
    ensures { LawClears }
{}

/// In each run of a program that breaks no rule each task keeps to its rooms, at rest and in all
/// states to which it comes, and so what it clears lies behind all objects in scope.
pub fn law_runs()
    ensures { LawRuns }
{}

/// Where all code of a source keeps to its rooms, each step and each answer keeps of all executions of
/// a task that activations which use one frame stay behind one another: a handler of resumptions uses
/// that of the routine in which it stands. So what a step clears lies behind the objects of all
/// activations of the execution that use the frame, and of what those that wait are about to build
/// there; and the rooms of each activation end within it.
pub fn law_frames()
    ensures { LawFrames }
{}

/// So it is in each run of a program that breaks no rule, of tasks at rest and in each state to which
/// whoever runs comes before it asks.
pub fn law_frame_runs()
    ensures { LawFrameRuns }
{}

/// In the source of every program the scope of an object opens right behind the statement that builds
/// it, and is left by what destroys the object at the same place; so it is with the parts of an object
/// that is under construction, and with arrays. A destructor alone has fields in scope that others
/// built.
pub fn law_opening()
    ensures { LawOpening }
{}

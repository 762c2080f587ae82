// The laws: each is a function whose contract is the law.

ghost use Rattle.uc_state_laws.specs.Makers.{LawMakers};
ghost use Rattle.uc_state_laws.specs.Opens.{LawCounts, LawEnds, LawFair, LawRuns};
ghost use Rattle.uc_state_laws.specs.Reading.{LawReading};
ghost use Rattle.uc_state_laws.specs.ValueLaws.{LawSteps};

/// What is in scope and known by its number is there: the variable that its clean-up ends holds an
/// object, whatever is written meanwhile and whoever runs. So does a variable from the step that binds
/// it on, before its scope opens; from its declaration to that step it holds no place and no execution.
/// So do the elements of an array, one by one as they are bound.
pub fn law_steps()
    ensures { LawSteps }
{}

/// In a task whose to-do lists are typed and in which all is there, a variable in scope that is known by
/// its number holds an object of its class, a cluster or a processor; so does each element of an array. In
/// scope of a handler of resumptions is also what its routine has. So what is read of it is of its type.
pub fn law_reading()
    ensures { LawReading }
{}

/// Where activations that use one frame stay behind one another, a step finds what it is to find as soon
/// as what binds a variable takes, what is no object is bound aside of variables and elements that are
/// still to be bound, what builds elements takes no arguments, and scopes open in frames of which all
/// cells have addresses; of clusters nothing is asked.
pub fn law_fair()
    ensures { LawFair }
{}

/// So in each run of a program that breaks no rule, as long as all that was asked so far fits, all is
/// there that is in scope and known by its number, of all tasks that have not ended, at rest and in each
/// state to which whoever runs comes before it asks, as long as that is so at each step.
pub fn law_runs()
    ensures { LawRuns }
{}

/// There each cluster that is a variable has a number below the count of clusters.
pub fn law_counts()
    ensures { LawCounts }
{}

/// So who comes to the end of such a variable asks for the end of a cluster that there is, by quiet
/// steps alone.
pub fn law_ends()
    ensures { LawEnds }
{}

/// In the source of every program constructors alone bind fields of the object at hand, build parts of it
/// and give it an execution, and they do so behind each other and not within the statements that they
/// are written with.
pub fn law_makers()
    ensures { LawMakers }
{}

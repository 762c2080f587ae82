// Samples of the definitions, which the checker works out: runs of a kernel, and rows of the table of acts.

ghost use Rattle.uc_acts.specs.Samples.{FirstProgram, AcceptedDestructor, Sliced, Unserved, CallSamples, ConditionSamples, AcceptSamples, BusySamples, EventSamples, OtherSamples, BoundSamples};

/// The journal of a program that prints one line is a run of a kernel.
pub fn first_program()
    ensures { FirstProgram }
{}

/// So is that of a task that accepts the caller of its own destructor.
pub fn accepted_destructor()
    ensures { AcceptedDestructor }
{}

/// So is that of a loop without end, with slices, up to the bound on ticks.
pub fn sliced()
    ensures { Sliced }
{}

/// So is that of a task on a cluster without a processor.
pub fn unserved()
    ensures { Unserved }
{}

/// Calls and leaves.
pub fn calls()
    ensures { CallSamples }
{}

/// Waits and signals.
pub fn conditions()
    ensures { ConditionSamples }
{}

/// Accepts, and calls that they take.
pub fn accepts()
    ensures { AcceptSamples }
{}

/// Destructions of what is in use.
pub fn destructions()
    ensures { BusySamples }
{}

/// Raises and polls.
pub fn events()
    ensures { EventSamples }
{}

/// Prints, reads, clusters, processors, and the endings deadlock and no processor.
pub fn others()
    ensures { OtherSamples }
{}

/// Numbers at their bounds.
pub fn bounds()
    ensures { BoundSamples }
{}

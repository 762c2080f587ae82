// Samples of the definitions, which the checker works out: runs of programs.

ghost use Rattle.uc_meaning.specs.SamplePrograms.{FirstRun, LoopRun, CallRun};
ghost use Rattle.uc_meaning.specs.ObjectSamples.{NestedRun, ArrayRun, MemberRun, UnwrittenRun, ReferenceRun};
ghost use Rattle.uc_meaning.specs.RaisingSamples.{ThrownRun, ResumedRun, EscapedRun, ReturnedRun};
ghost use Rattle.uc_meaning.specs.CoroutineSamples.{SwitchedRun, DestroyedRun, EndedRun, LeftRun};
ghost use Rattle.uc_meaning.specs.MonitorSamples.{ToldRun, Ping_pongRun, Two_stepsRun, GuardedRun, LateRun, SignalledRun, PolledRun, MigratedRun, FailedRun, BankRun};

/// That journal is a run of that program: `cout << 3 << endl;` in its main.
pub fn first_run()
    ensures { FirstRun }
{}

/// The journal of a program with a loop, under a slice of two ticks, is a run of it.
pub fn loop_run()
    ensures { LoopRun }
{}

/// So is that of a program with two calls, of which the second divides by 0.
pub fn call_run()
    ensures { CallRun }
{}

/// The journal of a program whose objects have objects as fields is a run of it: fields are built in order and before the body,
/// and destroyed in reverse and behind it.
pub fn nested_run()
    ensures { NestedRun }
{}

/// So is that of a program in which `break` leaves an array of objects.
pub fn array_run()
    ensures { ArrayRun }
{}

/// So is that of a program with a member that calls another one, and that stands outside of its class.
pub fn member_run()
    ensures { MemberRun }
{}

/// So is that of a program with a class of which neither constructor nor destructor is written.
pub fn unwritten_run()
    ensures { UnwrittenRun }
{}

/// So is that of a program with references as parameters and fields, and with a fault in an initialiser.
pub fn reference_run()
    ensures { ReferenceRun }
{}

/// So is that of a program that throws an event out of the scope of an object and catches it.
pub fn thrown_run()
    ensures { ThrownRun }
{}

/// So is that of a program with two handlers of a resumption, of which the inner one raises the event again.
pub fn resumed_run()
    ensures { ResumedRun }
{}

/// So is that of a program in which an event escapes from a destructor while its block is unwound.
pub fn escaped_run()
    ensures { EscapedRun }
{}

/// So is that of a program in which a resumption handler returns: all from the raise on is unwound.
pub fn returned_run()
    ensures { ReturnedRun }
{}

/// So is that of a program whose expression resumes a coroutine twice: its operands wait, and what is left of the coroutine is unwound
/// as it is destroyed.
pub fn switched_run()
    ensures { SwitchedRun }
{}

/// So is that of a program that destroys a coroutine in a guarded block of its main: an object there is destroyed, and no handler runs.
pub fn destroyed_run()
    ensures { DestroyedRun }
{}

/// So is that of a program in which the main of a coroutine ends behind another resumer than the first: its starter goes on.
pub fn ended_run()
    ensures { EndedRun }
{}

/// So is that of a program with an event that leaves the main of a coroutine, which is resumed once more.
pub fn left_run()
    ensures { LeftRun }
{}

// Programs with mutex objects and tasks.

/// So is that of a program with a task that accepts its destructor.
pub fn told_run()
    ensures { ToldRun }
{}

/// So is that of two coroutines that resume each other: the main that ends activates its starter.
pub fn ping_pong_run()
    ensures { Ping_pongRun }
{}

/// So is that of two tasks that resume one cormonitor, whose starter is gone when its main ends.
pub fn two_steps_run()
    ensures { Two_stepsRun }
{}

/// So is that of a buffer as a task, whose accept statements have guards.
pub fn guarded_run()
    ensures { GuardedRun }
{}

/// So is that of tasks that wait on two conditions of a monitor, of one that signals both, and of one that calls meanwhile.
pub fn late_run()
    ensures { LateRun }
{}

/// So is that of a task that signals whom it accepted.
pub fn signalled_run()
    ensures { SignalledRun }
{}

/// So is that of events raised at a task that enables them one after the other.
pub fn polled_run()
    ensures { PolledRun }
{}

/// So is that of a task that migrates to where no processor is.
pub fn migrated_run()
    ensures { MigratedRun }
{}

/// So is that of a task whose accepted call ends by an event.
pub fn failed_run()
    ensures { FailedRun }
{}

/// So is that of two tasks that call one monitor.
pub fn bank_run()
    ensures { BankRun }
{}

// Samples of the judgements.

ghost use Rattle.uc_typing.specs.Samples.{EventSound, SampleSound};

/// The resolved tree of a program with a task, whose destructor its main accepts, is in order for a
/// table of its routines and classes.
pub fn sound_task()
    ensures { SampleSound }
{}

/// So is that of a program with an event, where an object without fields and the event that is built
/// stand at one cell; it reads no binding but parameters.
pub fn sound_event()
    ensures { EventSound }
{}

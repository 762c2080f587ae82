// The laws: each is a function whose contract is the law.

ghost use Rattle.uc_source_laws.specs.Initialising.{LawInitialises};
ghost use Rattle.uc_source_laws.specs.SourceLaws.{LawInner, LawShared};

/// In the source of every program that breaks no rule, waits, signals and accepts stand where the
/// task is inside the object at hand: in a scope that lets go of that, in a helper of the object, or
/// in the main of a cormonitor or a task. A helper is called on the object at hand alone, where the
/// task is inside it; what builds a mutex object is called by its making alone; and no main is called.
/// The main of the program is none of these. Each call is of a routine that is there, with as many
/// arguments as that has parameters; tasks and coroutines begin with routines that end as mains do;
/// and only what builds a mutex object frees it.
pub fn law_inner()
    ensures { LawInner }
{}

/// What builds a mutex object of a program that breaks no rule takes numbers, mutex objects and
/// clusters alone.
pub fn law_shared()
    ensures { LawShared }
{}

/// In every constructor of a program that breaks no rule fields are initialised in their order, before
/// its body, and an initialiser names no fields of the object that is built but those before its own
/// field, or one field alone, which a reference may be bound to. It names neither the object as a
/// whole nor a member of it. The elements of an array are built without arguments.
pub fn law_initialises()
    ensures { LawInitialises }
{}

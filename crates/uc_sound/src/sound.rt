// The laws of programs that break no rule: each is a function whose contract is the law.

ghost use Rattle.uc_sound.specs.Routines.{LawRoutines};
ghost use Rattle.uc_sound.specs.Sounds.{LawMains, LawRuns, LawSound};
ghost use Rattle.uc_sound.specs.Statements.{LawStatements};
ghost use Rattle.uc_sound.specs.Told.{LawTold};
ghost use Rattle.uc_typing.specs.Typing.{Sig, Table};

/// The table of a program that breaks no rule tells its routines, its classes, their fields and
/// members, and what builds and destroys their objects.
pub fn law_told()
    ensures { LawTold }
{}

/// Statements that break no rule are in order: declarations of scalars, of objects and of arrays,
/// the scope of a `for`, events that are raised by name, handlers with and without a parameter,
/// statements that enable events, and all others, in one another.
pub fn law_statements()
    ensures { (t : Table) → (g : Sig) → LawStatements t g }
{}

/// In a program that breaks no rule each routine that is no constructor is in order under its
/// signature in the table: routines outside of classes, members, mains and destructors, those that
/// nobody wrote among them; and the table tells how many routines there are.
pub fn law_routines()
    ensures { LawRoutines }
{}

/// The resolved tree of every program that breaks no rule is sound for the table of the program:
/// each routine is in order under its signature, constructors with the initialisers of their fields
/// among them.
pub fn law_sound()
    ensures { LawSound }
{}

/// All that a task of such a program reaches from the start of its main is in order, whatever it is
/// answered, as long as what it reads of bindings is of its type.
pub fn law_runs()
    ensures { LawRuns }
{}

/// The mains with which tasks begin, that of the program and those of its task classes, are mains of
/// tasks: so all that is reached from their start is in order, as `law_runs` says.
pub fn law_mains()
    ensures { LawMains }
{}

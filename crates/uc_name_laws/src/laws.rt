// The laws: each is a function whose contract is the law.

ghost use Rattle.uc_name_laws.specs.NameSteps.{LawSteps, LawNew, LawTold};

/// No quiet step brings a name of an execution that was not made, in whatever source: each is one of
/// so many that its home has made.
pub fn law_steps()
    ensures { LawSteps }
{}

/// So the name of a new execution is none that is there.
pub fn law_new()
    ensures { LawNew }
{}

/// No answer brings a name either, and a task begins with that of its own execution alone.
pub fn law_told()
    ensures { LawTold }
{}

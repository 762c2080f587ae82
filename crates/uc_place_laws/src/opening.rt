// The laws: each is a function whose contract is the law.

ghost use Rattle.uc_place_laws.specs.OpeningLaws.{LawCalled, LawOpened, LawSteps};
ghost use Rattle.uc_place_laws.specs.OpeningRuns.{LawRuns};

/// In the source of every program the scope of an object that is a variable, and no mutex object, stands
/// right behind the statement that calls a constructor at that variable: the one of the class whose
/// destructor ends the scope. So it is of a field of the object at hand that is a part of it.
pub fn law_opened()
    ensures { LawOpened }
{}

/// Of any source in which arguments are counted and scopes stand so: the place of the variable lies
/// among the operands below the arguments where that constructor is called, from the start of a task on,
/// and no such scope opens next but behind that. Each quiet step keeps it, and each answer of the form
/// that was asked for.
pub fn law_steps()
    ensures { LawSteps }
{}

/// In each such state nothing but a constructor of the class is called where the scope of an object opens
/// next, and that at its variable; and where a field is a part next, that at the field. Behind each step
/// such a scope opens next, and a field is a part, only once the value of the statement before it is
/// dropped, behind the end of the activation that was called. Where one waits for such an object, the
/// activation above it has that at hand.
pub fn law_called()
    ensures { LawCalled }
{}

/// So it is in each run of a program of the grammar that breaks no rule, in each state of each ride, and on
/// the way to each state to which whoever runs comes before it asks, as long as all that was asked before
/// fits.
pub fn law_runs()
    ensures { LawRuns }
{}

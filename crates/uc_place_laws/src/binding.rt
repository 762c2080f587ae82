// The laws: each is a function whose contract is the law.

ghost use Rattle.uc_place_laws.specs.Addresses.{LawAddresses};
ghost use Rattle.uc_place_laws.specs.BindingLaws.{LawBound, LawSteps};
ghost use Rattle.uc_place_laws.specs.BindingRuns.{LawRuns};
ghost use Rattle.uc_place_laws.specs.OpenRuns.{LawOpens, LawThere};
ghost use Rattle.uc_place_laws.specs.Taking.{LawTaken, LawTakenRuns};

/// In any source in which arguments are counted and scopes open behind what builds their objects, the
/// place that is bound lies among the operands where it is expected, from the start of a task on: each
/// quiet step of an activation that keeps to its rooms keeps that, and each answer of the form that
/// was asked for.
pub fn law_steps()
    ensures { LawSteps }
{}

/// So what is bound is a place that the statement has named in its own frame or in the object at hand,
/// and all that is in scope lies before it. A scope that opens right behind the statement is of that
/// place, and what is bound there is an object; so is what is bound anywhere but at a field of the
/// object at hand, and what is made.
pub fn law_bound()
    ensures { LawBound }
{}

/// So it is in each run of a program of the grammar that breaks no rule, in each state to which
/// whoever runs comes before it asks, as long as all that was asked before fits.
pub fn law_runs()
    ensures { LawRuns }
{}

/// Where rooms lie within their frames too, a binding takes: behind the step that binds the variable
/// of a scope, that holds an object, unless it held a place or an execution before. The scope opens
/// right behind the statement; a mutex object is bound before its constructor is called.
pub fn law_taken()
    ensures { LawTaken }
{}

/// So it is in each run of a program of the grammar that breaks no rule, in each state to which
/// whoever runs comes before it asks, as long as all that was asked before fits.
pub fn law_taken_runs()
    ensures { LawTakenRuns }
{}

/// So where the program is within its limits, a variable of a mutex object or a processor holds an
/// object behind the step that binds it, and what is bound otherwise lies aside: in each such run, on
/// the way to each state to which whoever runs comes before it asks, and there.
pub fn law_opens()
    ensures { LawOpens }
{}

/// So all is there in each such state that is in scope and known by its number, clusters that are
/// variables have numbers below their count, and who leaves the scope of such a one, at a cell before
/// the last address, asks for the end of a cluster that there is.
pub fn law_there()
    ensures { LawThere }
{}

/// In each run of a program within its limits all cells of all frames of whoever runs have addresses, on the
/// way to each state to which it comes before it asks, and there.
pub fn law_addresses()
    ensures { LawAddresses }
{}

// The laws: each is a function whose contract is the law.

ghost use Rattle.uc_place_laws.specs.AsideLaws.{LawPuts, LawSited, LawSteps};
ghost use Rattle.uc_place_laws.specs.AsideRuns.{LawRuns};
ghost use Rattle.uc_place_laws.specs.Seating.{LawReaches, LawSeating, LawSeats};
ghost use Rattle.uc_place_laws.specs.Sparing.{LawSpares, LawSparing};

/// In the source of every program of the grammar that breaks no rule an object is built where its
/// scope opens right behind that, as a field of the object at hand of a constructor, or as an event in
/// the hidden cells of its statement; nothing else calls a constructor at an object, and nothing else
/// gives an object an execution.
pub fn law_sited()
    ensures { LawSited }
{}

/// Of any source in which arguments are counted and objects are built so: the places that are bound, and
/// the objects of the constructors that are called, lie aside of what older activations have still to
/// bind, from the start of a task on. Each quiet step of a task whose activations stay behind one another
/// in their frames keeps that, and so does each answer of the form that was asked for.
pub fn law_steps()
    ensures { LawSteps }
{}

/// In such a task what is bound, also to what is new, lies aside of all variables that are still to be
/// bound; and so does the object at hand that gets an execution.
pub fn law_puts()
    ensures { LawPuts }
{}

/// So it is in each run of a program of the grammar that breaks no rule, in each state of each ride, and on
/// the way to each state to which whoever runs comes before it asks, as long as all that was asked before
/// fits.
pub fn law_runs()
    ensures { LawRuns }
{}

/// Where what is bound lies aside and is the place of a name, it leaves alone all objects whose constructors
/// are still to be called, by who runs or by who waits: it lies behind them, or in another frame. So does
/// the object at hand that gets an execution.
pub fn law_spares()
    ensures { LawSpares }
{}

/// So it is in each run of a program of the grammar that breaks no rule, in each state of each ride, and on
/// the way to each state to which whoever runs comes before it asks, as long as all that was asked before
/// fits.
pub fn law_sparing()
    ensures { LawSparing }
{}

/// Where what is bound lies aside, it is a variable of who runs, or lies in the object at hand, which is so
/// of who called that, and so on, down to a variable behind all objects for whose scopes older activations
/// of its frame wait; or that is in no frame. So is the object at hand that gets an execution.
pub fn law_seats()
    ensures { LawSeats }
{}

/// So it is in each run of a program of the grammar that breaks no rule, in each state of each ride, and on
/// the way to each state to which whoever runs comes before it asks, as long as all that was asked before
/// fits.
pub fn law_seating()
    ensures { LawSeating }
{}

/// So what is bound leaves objects alone for whose scopes older activations of its frame wait, but those in
/// which it lies: it lies behind each other one.
pub fn law_reaches()
    ensures { LawReaches }
{}

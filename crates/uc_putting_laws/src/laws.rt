// The laws: each is a function whose contract is the law.

ghost use Rattle.uc_putting_laws.specs.PuttingLaws.{LawCalling, LawPuts, LawSteps};
ghost use Rattle.uc_putting_laws.specs.OwnPlaces.{LawOwnPlaces};
ghost use Rattle.uc_putting_laws.specs.PuttingRuns.{LawRuns};
ghost use Rattle.uc_putting_laws.specs.Fields.{LawSole};
ghost use Rattle.uc_putting_laws.specs.LoneObjects.{LawLoneObjects};
ghost use Rattle.uc_putting_laws.specs.ApartElements.{LawApartElements};

/// In the source of every program of the grammar that breaks no rule constructors and destructors are
/// called at variables and at fields of the object at hand alone, by what builds the object or by a
/// clean-up; and what ends a mutex object stands in clean-ups alone.
pub fn law_calling()
    ensures { LawCalling }
{}

/// Of any such source in which arguments are counted: what is called at an object finds it the execution's
/// own, and where it destroys or builds a mutex object, nothing that is still to be cleaned up stands
/// around that. Each quiet step that finds what is left to find keeps it, and so does each answer of the
/// form that was asked for.
pub fn law_steps()
    ensures { LawSteps }
{}

/// In such a task a mark that is put next is put for what is the execution's own.
pub fn law_puts()
    ensures { LawPuts }
{}

/// So it is in each run of a program of the grammar that breaks no rule, as long as all that was asked
/// before fits and each step finds what is left to find; and behind each act by which an object goes
/// nobody has a mark around it, if who acts has its name alone.
pub fn law_runs()
    ensures { LawRuns }
{}

/// Nothing outwards stands around a field of the object at hand, where nothing that older activations
/// have to clean up stands in the object, which is the execution's own, and the activation itself cleans
/// up other fields alone.
pub fn law_sole()
    ensures { LawSole }
{}

/// What is bound, by a binding, to a new mutex object or to a new execution, is a place of the
/// execution's own, in each state in which this is known of operands, and so in each such run.
pub fn law_own_places()
    ensures { LawOwnPlaces }
{}

/// An object that has been built, and one that is entered to be destroyed, is at home in what is the execution's
/// own, and nothing that is still to be cleaned up stands around it, in each state in which this is known of
/// operands.
pub fn law_lone_objects()
    ensures { LawLoneObjects }
{}

/// Where an object goes, it is at home in no element that still stands of an array of mutex objects, a variable, of
/// which older activations of the execution build or destroy others.
pub fn law_apart_elements()
    ensures { LawApartElements }
{}

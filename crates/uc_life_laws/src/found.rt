// The laws: each is a function whose contract is the law.

ghost use Rattle.uc_life_laws.specs.FoundRuns.{LawFound, LawFoundObjects, LawNamesMade};

/// In each run of a program that breaks no rule, as long as all that was asked so far fits, each step finds
/// what it is to find, as far as scopes open as they are to and what is read elsewhere, or of what is being
/// built or destroyed, is known.
pub fn law_found()
    ensures { LawFound }
{}

/// So it is where of scopes only those of plain objects are asked, and numbers are not tested.
pub fn law_found_objects()
    ensures { LawFoundObjects }
{}

/// So each object, cluster and processor that is named in a request was made.
pub fn law_names_made()
    ensures { LawNamesMade }
{}

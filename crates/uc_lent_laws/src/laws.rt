// The laws: each is a function whose contract is the law.

ghost use Rattle.uc_lent_laws.specs.LentRuns.{LawLent};

/// In each run of any source the cells of mutex objects hold numbers, names of executions, nothing, or what was
/// told of a place or an object as it was bound there: in what each task has in hand, in each state to which it
/// comes, and in what is at home in objects.
pub fn law_lent()
    ensures { LawLent }
{}

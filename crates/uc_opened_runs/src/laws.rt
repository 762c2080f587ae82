// The laws: each is a function whose contract is the law.

ghost use Rattle.uc_opened_runs.specs.OpenedRuns.{LawOpened};

/// In each run of a program of the grammar that breaks no rule and is within its limits, as long as all
/// that was asked before fits, objects hold what is known where their scopes open, and each step found
/// what it is to find: all is known of whoever runs in each state to which it comes before it asks,
/// what is in scope holds what is known, and what the next step reads of bindings is of its type.
pub fn law_opened()
    ensures { LawOpened }
{}

// The laws of types over runs of programs. Each function does nothing: its contract is the law.

ghost use Rattle.uc_typed_runs.specs.FoundTexts.{LawFoundTexts};
ghost use Rattle.uc_typed_runs.specs.TypedRuns.{LawTypedRuns, LawTypedTexts};

/// In a run of a sound source, in which all that was asked fits and all that was read of bindings is
/// of its type, the world is in order while the run goes on. So is whoever runs, with its answer and
/// its hand, in each state to which it comes before it asks, as long as it reads so, and each piece
/// finds there what it takes.
pub fn law_typed_runs()
    ensures { LawTypedRuns }
{}

/// So it is in each run of a program whose text is accepted in which all that was asked fits, scopes
/// opened in frames of which all cells have addresses, and all is of its type that was read at places
/// and of fields of the object at hand, but by clean-ups of variables.
pub fn law_typed_texts()
    ensures { LawTypedTexts }
{}

/// So it is where only that is asked of what is read which no state tells: what is read in frames of other
/// executions and in mutex objects, and of what is being built or destroyed, and what plain objects hold as
/// their scopes open. There all is known that whoever runs can come by.
pub fn law_found_texts()
    ensures { LawFoundTexts }
{}

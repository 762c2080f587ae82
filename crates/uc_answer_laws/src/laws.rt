// The laws of answers. Each function does nothing: its contract is the law.

ghost use Rattle.uc_answer_laws.specs.Suiting.{LawAsking, LawSuiting};

/// While a run of a kernel goes on, the answer of each task has the form that the entry by which it
/// asked last asks for.
pub fn law_suiting()
    ensures { LawSuiting }
{}

/// While a run of a kernel goes on, the form for which a task has asked last is that of its last
/// request: an act asks for the form of its own request, and changes that of nobody else.
pub fn law_asking()
    ensures { LawAsking }
{}

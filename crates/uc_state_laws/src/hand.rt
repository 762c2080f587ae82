// The laws: each is a function whose contract is the law.

ghost use Rattle.uc_state_laws.specs.DeepSteps.{LawDeepSteps};
ghost use Rattle.uc_state_laws.specs.HandLaws.{LawDeep, LawAsksDeep, LawCalls};

/// Only what a step asks changes the objects in which its task is deep, in whatever source: a call
/// of an object in which it is not makes it so, and a leave, `Made`, `Spawn` and `Gone` end that. An
/// answer brings the new object where that is bound next.
pub fn law_deep_steps()
    ensures { LawDeepSteps }
{}

/// In a run of a program in which all that was asked so far fits, each task that has not ended is
/// deep in just the objects that it is inside, by the journal, or waits at for its call, on the
/// stack or on a condition, but for one that it has just made; in each of them once.
pub fn law_deep()
    ensures { LawDeep }
{}

/// So what a task asks, it asks from a state in which it was deep in just what it has in hand.
pub fn law_asks_deep()
    ensures { LawAsksDeep }
{}

/// So what a task calls is not in its hand.
pub fn law_calls()
    ensures { LawCalls }
{}

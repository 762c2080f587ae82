//! The queues are those that a journal tells of, entry by entry: each law is a function whose contract is the law.
ghost use Rattle.uc_condition.specs.Laws.{LawOpening, LawWait, LawTake, LawElsewhere, LawOthers};

/// Before the first entry nobody waits, here and in a journal.
pub fn law_opening()
    ensures { LawOpening }
{}

/// Where the queues are what a journal tells is blocked, they are so with a wait more that was made here too.
pub fn law_wait()
    ensures { LawWait }
{}

/// The same of a push or an admission of the task that was taken from its queue.
pub fn law_take()
    ensures { LawTake }
{}

/// A push or an admission of a task that waits on no condition leaves them the journal's.
pub fn law_elsewhere()
    ensures { LawElsewhere }
{}

/// So does an entry of any other kind but a wait.
pub fn law_others()
    ensures { LawOthers }
{}

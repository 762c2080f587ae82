//! The lists are those that a journal tells of, entry by entry: each law is a function whose contract is the law.
ghost use Rattle.uc_events.specs.Laws.{LawOpening, LawRaise, LawPoll, LawOthers};

/// Before the first entry nothing is pending, here and in a journal.
pub fn law_opening()
    ensures { LawOpening }
{}

/// Where the lists are the events that a journal tells are pending, they are those of the journal with a raise more once it
/// was raised here too.
pub fn law_raise()
    ensures { LawRaise }
{}

/// The same of a poll, whether it delivers an event or none.
pub fn law_poll()
    ensures { LawPoll }
{}

/// An entry that is neither a raise nor a poll leaves them the journal's.
pub fn law_others()
    ensures { LawOthers }
{}

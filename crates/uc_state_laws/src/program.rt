// The laws: each is a function whose contract is the law.

ghost use Rattle.uc_state_laws.specs.ByHand.{LawByHand};
ghost use Rattle.uc_state_laws.specs.Laws.{LawProcessor, LawLeft, LawAlive, LawEnds, LawHand, LawHome, LawNames, LawOthers, LawThrough, LawSeat};

/// Each entry of an act names the processor of its task, and gives no processor.
pub fn law_processor()
    ensures { LawProcessor }
{}

/// While the run of a kernel goes on, who runs has a tick left, where each act came before the last
/// tick of its task or asked for another slice.
pub fn law_left()
    ensures { LawLeft }
{}

/// While the run of a kernel goes on, who runs has not ended.
pub fn law_alive()
    ensures { LawAlive }
{}

/// A task that has not ended by its act, behind which the run goes on, asked neither its end nor a
/// fault.
pub fn law_ends()
    ensures { LawEnds }
{}

/// In a run of a program in which all that was asked so far fits, a task asks with just the objects
/// in hand that it is inside, in the order in which it entered them, and before the last tick that
/// it has left, or for another slice. What it prints has 1 to 32 items, and what it reads one of two
/// forms.
pub fn law_hand()
    ensures { LawHand }
{}

/// In every run of a source of which all names are known, what a task asks names a mutex member by a
/// number of at most 31, and an accept statement that is known, with a mask of its clauses.
pub fn law_names()
    ensures { LawNames }
{}

/// What a program asks in its runs fits where, as long as all before fits, each object of which
/// something is asked is in hand, or is made and not in hand where it is called, and where what else
/// it names is known.
pub fn law_by_hand()
    ensures { LawByHand }
{}

/// Where what a program asks fits, acts of others leave a task that runs where it runs, as it is,
/// with its answer and its ticks.
pub fn law_others()
    ensures { LawOthers }
{}

/// In such a run each object that is made and not gone is at home in the world that the journal
/// leaves, but for one that a task has just made; and nothing else is.
pub fn law_home()
    ensures { LawHome }
{}

/// Where what a program asks fits, a run of it passes through each earlier one: its acts go on where
/// that ended.
pub fn law_through()
    ensures { LawThrough }
{}

/// So of two runs of which one begins with the other: whoever runs on a processor that no later
/// entry names runs there still, as it was, with its answer and its ticks.
pub fn law_seat()
    ensures { LawSeat }
{}

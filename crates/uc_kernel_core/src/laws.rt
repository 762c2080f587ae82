//! A door is what a journal tells of its object, entry by entry: each law is a function whose contract is the law.
ghost use Rattle.uc_kernel_core.specs.CallLaws.{LawAccepted, LawCalled, LawNext};
ghost use Rattle.uc_kernel_core.specs.DoorLaws.{LawOpening, LawMake, LawSpawn, LawStill, LawElsewhere, LawCall, LawOut, LawLeave, LawOpens, LawAccepts, LawSignalBlock, LawPush, LawAdmit, LawMeets};

/// Before the first entry nobody is at any door, and after it task 0 is inside object 0.
pub fn law_opening()
    ensures { LawOpening }
{}

/// With an entry more that makes an object, its creator is inside.
pub fn law_make()
    ensures { LawMake }
{}

/// With a spawn more the new task is inside in place of its creator.
pub fn law_spawn()
    ensures { LawSpawn }
{}

/// With one entry more that tells nothing of its object's door, the door is as it was.
pub fn law_still()
    ensures { LawStill }
{}

/// Where a door is its object's in a journal, it is so with one entry more at another object.
pub fn law_elsewhere()
    ensures { LawElsewhere }
{}

/// With a call more the caller waits behind the others.
pub fn law_call()
    ensures { LawCall }
{}

/// With an entry more by which the task inside goes out, nobody is inside.
pub fn law_out()
    ensures { LawOut }
{}

/// With a leave more nobody is inside, and the call is over: the acceptor whose accept it met is told whether it has failed.
pub fn law_leave()
    ensures { LawLeave }
{}

/// With an accept more that stays open, its acceptor is on top of the stack, and it is open for what it offers.
pub fn law_opens()
    ensures { LawOpens }
{}

/// With an accept more that takes a caller, its acceptor is on top of the stack.
pub fn law_accepts()
    ensures { LawAccepts }
{}

/// With a signalBlock more that found somebody, the signaller is on top of the stack.
pub fn law_signal_block()
    ensures { LawSignalBlock }
{}

/// With a push more its task leaves the queue and is on top of the stack.
pub fn law_push()
    ensures { LawPush }
{}

/// With an admission more, by any way but 1, its task is inside and in no list, and nothing is open.
pub fn law_admit()
    ensures { LawAdmit }
{}

/// With an admission by way 1 the accept of the task on top is met as well, by the first clause that lists the caller's member.
pub fn law_meets()
    ensures { LawMeets }
{}

/// `Entries::call` answers what the journal tells of a call, and leaves the doors that are the journal's then.
pub fn law_called()
    ensures { LawCalled }
{}

/// So does `Entries::next` of whoever is let in next.
pub fn law_next()
    ensures { LawNext }
{}

/// So does `accept` of an accept.
pub fn law_accepted()
    ensures { LawAccepted }
{}

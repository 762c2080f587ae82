// The laws: each is a function whose contract is the law.

ghost use Rattle.uc_step_laws.specs.StepLaws.{LawSteps, LawTold, LawRides};

/// No quiet step changes which objects are in the hand of a task, in whatever source. Where no piece
/// binds what was made, none does behind it, but the next one of a task that asks for an object.
/// What it prints has 1 to 32 items, and what it reads is of one of two forms.
pub fn law_steps()
    ensures { LawSteps }
{}

/// No more does an answer, but for one that tells of a new object where that is bound next: it comes
/// into the hand as the last one.
pub fn law_told()
    ensures { LawTold }
{}

/// So a ride asks with the objects in hand with which it began. It makes no more ticks than it may,
/// and fewer where it asks for anything but a slice.
pub fn law_rides()
    ensures { LawRides }
{}

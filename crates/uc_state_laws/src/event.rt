// The laws: each is a function whose contract is the law.

ghost use Rattle.uc_state_laws.specs.EventLaws.{LawCounted, LawEvents, LawSteps};

/// A source that is in order for a table of types, and of which all names are known, has calls with
/// as many arguments as their routines have parameters, and raises at others events by numbers below
/// 64.
pub fn law_counted()
    ensures { LawCounted }
{}

/// Where each call of a source has as many arguments as its routine has parameters, and events that
/// are raised at others are written with numbers below 64, the number of such an event lies among the
/// operands where it is expected, from the start of a task on: each quiet step keeps that, and each
/// answer that suits what was asked.
pub fn law_steps()
    ensures { LawSteps }
{}

/// So in every run of such a source, as long as all that was asked before fits, what is raised at a
/// task is an event by a number below 64.
pub fn law_events()
    ensures { LawEvents }
{}

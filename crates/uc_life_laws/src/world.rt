// The laws: each is a function whose contract is the law.

ghost use Rattle.uc_life_laws.specs.Called.{LawCalled};
ghost use Rattle.uc_life_laws.specs.Fewer.{LawFewer};
ghost use Rattle.uc_life_laws.specs.Lasting.{LawLasting, LawRaised};
ghost use Rattle.uc_life_laws.specs.Rooted.{LawRooted};

/// Where fewer numbers are told and nobody has at hand what had the others, all that is known stays so.
pub fn law_fewer()
    ensures { LawFewer }
{}

/// What has gone is at hand of nobody, where nobody has to clean up that in which it is at home, and what
/// executions have of others stands in the things of those that were there before.
pub fn law_rooted()
    ensures { LawRooted }
{}

/// So in each run of a program that breaks no rule, as long as all that was asked so far fits and nobody has at
/// hand what has gone, what is known is not gone.
pub fn law_lasting()
    ensures { LawLasting }
{}

/// So that is not gone at which whoever runs raises an event.
pub fn law_raised()
    ensures { LawRaised }
{}

/// So that is not gone of which whoever runs calls a member that is no destructor.
pub fn law_called()
    ensures { LawCalled }
{}

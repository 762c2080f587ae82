// The laws: each is a function whose contract is the law.

ghost use Rattle.uc_life_laws.specs.OwnNames.{LawOwnNames};

/// In each run in which all that was asked so far fits, no step forgets the running execution and nobody
/// leaves its home for good, who runs has a name of its own: no other execution of the world has it.
pub fn law_own_names()
    ensures { LawOwnNames }
{}

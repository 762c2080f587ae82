// The laws: each is a function whose contract is the law.

ghost use Rattle.uc_life_laws.specs.Claims.{LawClaims};
ghost use Rattle.uc_life_laws.specs.Completing.{LawCompleting};
ghost use Rattle.uc_life_laws.specs.HeldLaws.{LawHeld};
ghost use Rattle.uc_life_laws.specs.Ways.{LawWays};

/// What an execution has of others stands outwards of the mark for its object, as long as it is so where a mark
/// is put.
pub fn law_claims()
    ensures { LawClaims }
{}

/// Those that executions have made are held by what these are to clean up, or quiet steps lead to where they are,
/// as long as that is so behind each step that takes a mark away which holds one.
pub fn law_held()
    ensures { LawHeld }
{}

/// So it is behind each step that takes such a mark away, where clean-ups call destructors, as far as executions
/// are up no more where their coroutines are forgotten, and those of a part of an object are held soon where
/// that part is left.
pub fn law_ways()
    ensures { LawWays }
{}

/// Where a constructor ends, what its object held is held soon where who waits for it takes it over; and so is an
/// execution that has just been made.
pub fn law_completing()
    ensures { LawCompleting }
{}

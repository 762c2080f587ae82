// The laws: each is a function whose contract is the law.

ghost use Rattle.uc_apart_laws.specs.Before.{LawBefore};
ghost use Rattle.uc_apart_laws.specs.Clear.{LawClear};
ghost use Rattle.uc_apart_laws.specs.Own.{LawOwn};

/// Who neither builds nor destroys an object, nor has at hand that in which it is at home, or the object
/// as one that is not whole, does not have it at hand; and so it is just before it is let go of.
pub fn law_clear()
    ensures { LawClear }
{}

/// Who has no mark around an object that is at home in what is its own has nothing at hand in which that
/// is at home, where what it has of others is not its own.
pub fn law_own()
    ensures { LawOwn }
{}

/// Where just before an object is let go of nobody of whom that is asked has at hand that in which it is at
/// home, nobody else has the object at hand.
pub fn law_before()
    ensures { LawBefore }
{}

// The laws: each is a function whose contract is the law.

ghost use Rattle.uc_inner_laws.specs.InnerLaws.{LawFair, LawInside, LawMakes, LawSteps};

/// Where code waits, signals and accepts only in routines that hold their object, or that are called
/// on it by such ones, who does so has a mark of that object, in its own activation or in an older
/// one, or is at home there: from the start of a task on, through each quiet step and each answer.
/// And where a task asks to end, nothing holds it up in its own object.
pub fn law_steps()
    ensures { LawSteps }
{}

/// So just before a task waits, signals or accepts in an object it is inside that, and at its end
/// nothing holds it up in its own object. And it is not at home in an object whose building it gives
/// up.
pub fn law_inside()
    ensures { LawInside }
{}

/// A new object finds its place below the arguments of its constructor.
pub fn law_fair()
    ensures { LawFair }
{}

/// Who makes an object calls next what builds it, a routine that is called for that alone.
pub fn law_makes()
    ensures { LawMakes }
{}

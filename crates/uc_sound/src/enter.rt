// The laws: each is a function whose contract is the law.

ghost use Rattle.uc_sound.specs.EnterLaws.{LawEntered, LawFair};

/// In the source of every program that breaks no rule, a routine whose statements are, as a whole, in
/// a scope that lets go of its object is called by what enters that object alone: a mutex member, a
/// constructor and a destructor of a mutex class. No other statements stand in such a scope, and no
/// main is such a routine. Tasks and coroutines begin with routines that end as mains do.
pub fn law_entered()
    ensures { LawEntered }
{}

/// Where types are in order, a step finds what the laws of depths ask, as soon as an object that is
/// let go of however deep the task is, is owed nothing else: a new object finds its place.
pub fn law_fair()
    ensures { LawFair }
{}

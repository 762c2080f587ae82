// The laws: each is a function whose contract is the law.

ghost use Rattle.uc_depth_laws.specs.DepthLaws.{LawAlone, LawDrawn, LawFree, LawInside, LawRenewed, LawSteps};

/// Where objects are entered by their calls, a task is as deep in each object as it is owed, or
/// deeper, and each execution has as many mutex calls and buildings as marks, or more: from its start
/// on, through each quiet step that finds what it is to find, and through each answer. So a task that
/// asks to let go of an object is inside it.
pub fn law_steps()
    ensures { LawSteps }
{}

/// Who has a mark in the running activation is inside its object.
pub fn law_inside()
    ensures { LawInside }
{}

/// What does not run in an object where nothing is engaged owes nothing to any object.
pub fn law_free()
    ensures { LawFree }
{}

/// A hand that is drawn again and owes no more keeps that.
pub fn law_drawn()
    ensures { LawDrawn }
{}

/// So does another test of what is new, which tells at least as much to be so; and behind what spawns
/// an object one may tell that it is new no more.
pub fn law_renewed()
    ensures { LawRenewed }
{}

/// Who lets go of an object, however deep the task is, has no other mark of it in the running
/// activation, and what has been built is new: nothing else is owed to it as soon as what does not
/// run owes it nothing. Where it is gone, older activations are asked too.
pub fn law_alone()
    ensures { LawAlone }
{}

// The laws: each is a function whose contract is the law.

ghost use Rattle.uc_life_laws.specs.AtHand.{LawOwes, LawApart};

/// Who owes an object anything has it at hand: an execution that does not run, and the older
/// activations of one that runs.
pub fn law_owes()
    ensures { LawOwes }
{}

/// So nothing else is owed to an object that a task lets go of, where no execution that may go on has
/// it at hand, and where it is gone no older activation, and it is not the own object of the task.
pub fn law_apart()
    ensures { LawApart }
{}

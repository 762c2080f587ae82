// The laws: each is a function whose contract is the law.

ghost use Rattle.uc_letting_laws.specs.LettingLaws.{LawInHand, LawLeaving, LawOwners};

/// In a run of a source in which objects are entered by their calls and code waits, signals and
/// accepts only where its task is inside, a task has in hand all objects of which it asks something,
/// but those that it calls and at which it raises an event: as long as all that was asked before fits,
/// and nothing else is owed to an object that is let go of however deep its task is.
pub fn law_in_hand()
    ensures { LawInHand }
{}

/// There what a task spawns is of no task yet, and an object at which it raises an event is of one at
/// most.
pub fn law_owners()
    ensures { LawOwners }
{}

/// There whoever takes an object out is not at home in it, and at its end nothing holds a task up in
/// its own object.
pub fn law_leaving()
    ensures { LawLeaving }
{}

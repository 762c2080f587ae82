// The laws of typing: each is a function whose contract is the law.

ghost use Rattle.uc_typing.specs.Laws.{LawAnswered, LawFinds, LawNoBinding, LawReached, LawSpawned, LawTyped};

/// A quiet step of a state that is in order leads to one that is: each piece finds operands of the
/// types that it takes, the object at hand is one of its class, and whoever waits, or runs no more
/// for now, is in order too. What the step reads of a binding that is no parameter is taken to be
/// of its type.
pub fn law_typed()
    ensures { LawTyped }
{}

/// Each piece of a state that is in order finds what it takes: as many operands, a place where it
/// takes one, an object of a mutex class where it enters, leaves or makes one, and its routine. So
/// no default of the machine is taken there.
pub fn law_finds()
    ensures { LawFinds }
{}

/// A state that has asked is in order with each answer that suits what it asked.
pub fn law_answered()
    ensures { LawAnswered }
{}

/// A task that is spawned begins in order.
pub fn law_spawned()
    ensures { LawSpawned }
{}

/// All that a task reaches from the start of its main is in order, whatever it is answered and
/// whatever others do to the objects that it enters meanwhile, as long as what it reads of bindings
/// is of its type; where no bindings but parameters are read, it is.
pub fn law_reached()
    ensures reached { LawReached }
    ensures no_binding { LawNoBinding }
{}

// The laws of programs that are read from texts: each is a function whose contract is the law.

ghost use Rattle.uc_sound.specs.Formed.{LawFormed, LawTokens};
ghost use Rattle.uc_sound.specs.WellTyped.{LawWellTyped};

/// A program that all of a list of tokens spell is formed, where there are no more tokens than
/// numbers of classes: constructors and destructors return nothing, and stand outside of classes
/// under the name of their class; constants are of scalar bases; handlers of all events have no
/// parameter; classes have numbers, and no routine has more parameters than there are addresses.
pub fn law_formed()
    ensures { LawFormed }
{}

/// A text has no more tokens than bytes.
pub fn law_tokens()
    ensures { LawTokens }
{}

/// The resolved tree of every program whose text is accepted is well typed, and its tasks begin in
/// order. Each state of each task is in order as far as what was read of bindings on the way to it
/// was of its type; all that a task reaches is where that holds of all that it reaches, whatever the
/// hand.
pub fn law_well_typed()
    ensures { LawWellTyped }
{}

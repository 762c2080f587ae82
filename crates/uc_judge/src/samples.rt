// Samples, which the checker works out.

ghost use Rattle.uc_judge.specs.Samples.{Printed, Changed, Unended, Unlined};

/// The journal of a program that prints one line is a run.
pub fn printed()
    ensures { Printed }
{}

/// It is none where another number is printed, and goes wrong at that entry.
pub fn changed()
    ensures { Changed }
{}

/// Its first four entries are none: the ending is missing.
pub fn unended()
    ensures { Unended }
{}

/// A journal without lines is a run as one of the first version, and none as one of the second.
pub fn unlined()
    ensures { Unlined }
{}

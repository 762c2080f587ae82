// The law of runs of programs, and those of runs of a kernel: each is a function whose contract is the law.

ghost use Rattle.uc_meaning.specs.Cuts.{LawCut, LawPrograms};

pub use uc_acts::laws::{
    law_answered, law_dispatch, law_elsewhere, law_fit, law_going, law_held, law_inside, law_line,
    law_made, law_makes, law_new, law_place, law_room,
};

/// The journal of a program's run has one cut into acts, and fewer acts than its bound on entries, where what the program asks
/// fits; and from each state a task asks one thing, after so many ticks.
pub fn law_cut()
    ensures { LawCut }
{}

/// Where what a program asks fits, a run of it is a run of a kernel, so that the laws of these are said of it; and where the numbers
/// that it asks are of their types too, each of its entries is fit.
pub fn law_programs()
    ensures { LawPrograms }
{}

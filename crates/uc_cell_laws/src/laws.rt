// The laws: each is a function whose contract is the law.

ghost use Rattle.uc_cell_laws.specs.Coroutines.{LawCoroutines};
ghost use Rattle.uc_cell_laws.specs.OwnCells.{LawCells, LawFits};
ghost use Rattle.uc_cell_laws.specs.Places.{LawAddresses, LawPlaces, LawVariables};
ghost use Rattle.uc_cell_laws.specs.Scopes.{LawScopes};

/// In the source of each program that breaks no rule cells of a frame are used for one declaration alone.
pub fn law_scopes()
    ensures { LawScopes }
{}

/// Where fields lie one behind the other, places of bindings within one thing that have one address are
/// one place, and so of one type.
pub fn law_places()
    ensures { LawPlaces }
{}

/// So are places within what the scopes of a routine are of, in one frame of it, in each such program.
pub fn law_variables()
    ensures { LawVariables }
{}

/// And where such a program is within its limits, these have addresses. So have places of bindings in mutex
/// objects, in each such program.
pub fn law_addresses()
    ensures { LawAddresses }
{}

/// Each own cell of a frame, and each of a mutex object, holds no object, or the one that is at home there:
/// of a task as it begins, and each step that finds what it is to find, and each answer, keep that; so it is
/// in each run of a program that breaks no rule and is within its limits in which each step finds it.
pub fn law_cells()
    ensures { LawCells }
{}

/// What is bound may be written where it is at home, where no mutex object is bound, and where a field is a
/// reference: in frames and in mutex objects.
pub fn law_fits()
    ensures { LawFits }
{}

/// So the first cell of each coroutine names no execution of which the coroutine is the own, in each such
/// run in which none that is set up is that of its new execution: no step forgets the execution that runs.
pub fn law_coroutines()
    ensures { LawCoroutines }
{}

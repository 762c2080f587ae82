// The laws: each is a function whose contract is the law.

ghost use Rattle.uc_tasked_laws.specs.Aims.{LawAimed};
ghost use Rattle.uc_tasked_laws.specs.OwnedRuns.{LawOwned};
ghost use Rattle.uc_tasked_laws.specs.TaskedLaws.{LawSeated, LawSteps, LawThings};
ghost use Rattle.uc_tasked_laws.specs.TaskedRuns.{LawTasked};

/// In the source of every program each scope of a mutex object that is a variable, and each part of an object
/// under construction that is one, stands right behind the statement that makes it there, by a constructor of
/// its class. In a program that breaks no rule what builds a task has as a whole a scope at whose end the task
/// begins.
pub fn law_seated()
    ensures { LawSeated }
{}

/// Of any such source in which arguments are counted: where a task is in scope nobody is at home who is still
/// to be of a task. A task begins so, each quiet step keeps it that finds what it is to find, and so does each
/// answer of the form that was asked for.
pub fn law_steps()
    ensures { LawSteps }
{}

/// So it is of the things that an execution has to clean up, of those that are variables in scope and of the
/// parts of objects under construction.
pub fn law_things()
    ensures { LawThings }
{}

/// So it is in each run of a program of the grammar that breaks no rule, as long as all that was asked before
/// fits, each step finds what it is to find, and what is made is at home where nothing is in scope.
pub fn law_tasked()
    ensures { LawTasked }
{}

/// So in each such run an object that is at home where a task is in scope, has been made and is not gone is of
/// a task.
pub fn law_owned()
    ensures { LawOwned }
{}

/// Where all is known, an event is raised at a task, known by its number, that is at home in what the execution
/// has at hand, or is itself what the execution has of others, or is being built or destroyed by it.
pub fn law_aimed()
    ensures { LawAimed }
{}

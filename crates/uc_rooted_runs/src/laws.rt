// The laws: each is a function whose contract is the law.

ghost use Rattle.uc_rooted_runs.specs.Binds.{LawBinds};
ghost use Rattle.uc_rooted_runs.specs.Births.{LawBirths};
ghost use Rattle.uc_rooted_runs.specs.Forgetting.{LawForgetting};
ghost use Rattle.uc_rooted_runs.specs.FreshRuns.{LawFresh};
ghost use Rattle.uc_rooted_runs.specs.MainRuns.{LawMains};
ghost use Rattle.uc_rooted_runs.specs.OutlastRuns.{LawOutlastRuns};
ghost use Rattle.uc_rooted_runs.specs.KeptRuns.{LawKeptRuns};
ghost use Rattle.uc_rooted_runs.specs.MadeRuns.{LawMadeRuns};
ghost use Rattle.uc_rooted_runs.specs.OutlastNames.{LawOutlastNames};
ghost use Rattle.uc_rooted_runs.specs.Outlasting.{LawOutlasting};
ghost use Rattle.uc_rooted_runs.specs.Still.{LawStill};
ghost use Rattle.uc_rooted_runs.specs.TaskMains.{LawTaskMains};
ghost use Rattle.uc_rooted_runs.specs.UnmarkedRuns.{LawUnmarkedRuns};
ghost use Rattle.uc_rooted_runs.specs.Upwards.{LawUpwards};

/// In each run, as long as all that was asked so far fits, each execution is made by one that was made before it.
pub fn law_births()
    ensures { LawBirths }
{}

/// Executions that have not begun are as they were made, as long as no step binds what stands in their frames.
pub fn law_fresh()
    ensures { LawFresh }
{}

/// What is bound in no frame of another execution stands in no frame of one that has not begun, where names are apart.
pub fn law_binds()
    ensures { LawBinds }
{}

/// In runs in which no main is called nobody waits for one, so that where one ends nothing is left to clean up.
pub fn law_mains()
    ensures { LawMains }
{}

/// In a run nobody has at hand what has gone, where behind each act by which an object goes nobody is to clean
/// up that in which it is at home, and what executions have of others stands in what those have.
pub fn law_forgetting()
    ensures { LawForgetting }
{}

/// What an execution was to clean up as it made another stays with it, as long as that is up and the marks that
/// were there then are not reached.
pub fn law_outlasting()
    ensures { LawOutlasting }
{}

/// So what an execution that lives has of others stands in what the one that made it has, if it stood there then.
pub fn law_upwards()
    ensures { LawUpwards }
{}

/// So it is in runs, of what each execution was to clean up as it made another, from the making on.
pub fn law_outlast_runs()
    ensures { LawOutlastRuns }
{}

/// What is names alone in that: none of those that were made by now was made by one that is made next, no
/// other in hand has the name of the running one, and nobody elsewhere has made what was made meanwhile.
pub fn law_outlast_names()
    ensures { LawOutlastNames }
{}

/// Each execution that is there was made in the run, but for the main of task 0, and is later than the one that made it.
pub fn law_made_runs()
    ensures { LawMadeRuns }
{}

/// Behind each act by which an object goes nobody has to clean up that in which it was at home, in runs in which
/// marks are put for what is an execution's own.
pub fn law_unmarked_runs()
    ensures { LawUnmarkedRuns }
{}

/// So what was to be cleaned up as executions were made stays with those that made them, as long as it is not
/// left before they go, as names tell the rest.
pub fn law_kept_runs()
    ensures { LawKeptRuns }
{}

/// All that are there in a run were not forgotten, and are no main of a task that has ended.
pub fn law_still()
    ensures { LawStill }
{}

/// In runs in which the main of no task is called, or set up for a coroutine, a task comes to its end by its own
/// main alone.
pub fn law_task_mains()
    ensures { LawTaskMains }
{}

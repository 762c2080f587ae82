// The laws: each is a function whose contract is the law.

ghost use Rattle.uc_making_laws.specs.BuilderRuns.{LawBuilderRuns};
ghost use Rattle.uc_making_laws.specs.Builders.{LawBuilders};
ghost use Rattle.uc_making_laws.specs.BeforeRides.{LawBeforeRides};
ghost use Rattle.uc_making_laws.specs.ForgetsThis.{LawForgetsThis};
ghost use Rattle.uc_making_laws.specs.LettingGo.{LawLetting};
ghost use Rattle.uc_making_laws.specs.LettingRuns.{LawLettingRuns};
ghost use Rattle.uc_making_laws.specs.NoOthers.{LawNoOthers};
ghost use Rattle.uc_making_laws.specs.Nobodys.{LawNobodys};
ghost use Rattle.uc_making_laws.specs.OwnThis.{LawThis};
ghost use Rattle.uc_making_laws.specs.ThisRuns.{LawThisRuns};
ghost use Rattle.uc_making_laws.specs.Upheld.{LawUpheld};

/// Activations go on to have their objects, as long as what is called, made and spawned is had.
pub fn law_this()
    ensures { LawThis }
{}

/// So it is in each run in which it is so of what is called, made and spawned.
pub fn law_this_runs()
    ensures { LawThisRuns }
{}

/// Nobody else builds or destroys an object that is at home in what is one's own, and at hand of nobody.
pub fn law_no_others()
    ensures { LawNoOthers }
{}

/// Activations go on to be told of their objects by older ones, or to let go of them: where an object is let go of
/// and its home is at hand of nobody, none that waits is of it.
pub fn law_letting()
    ensures { LawLetting }
{}

/// So it is in each run in which what is called is told of its object, or lets go of it.
pub fn law_letting_runs()
    ensures { LawLettingRuns }
{}

/// An execution that builds or destroys an object goes on to do so until it asks that the object is let go of:
/// until then one of its activations is of the object.
pub fn law_builders()
    ensures { LawBuilders }
{}

/// So in each run in which all that was asked so far fits who made an object builds it, or is about to, until it
/// is asked that the object is let go of.
pub fn law_builder_runs()
    ensures { LawBuilderRuns }
{}

/// So nobody has at hand what has gone, in runs in which behind each act by which an object goes nobody has at
/// hand that in which it was at home, who acted has no operands, and those that wait there are not to let go of it.
pub fn law_forgets_this()
    ensures { LawForgetsThis }
{}

/// So no activation is of what has gone, in such runs, but the one that let go of it, which only comes to its end.
pub fn law_nobodys()
    ensures { LawNobodys }
{}

/// On the way to what a task asks next, what executions were to clean up as they made others stays with them.
pub fn law_upheld()
    ensures { LawUpheld }
{}

/// So just before an object goes, or its building is given up, it is nowhere in the world, and who does not run
/// in the task spares it; and where an event is raised, what executions have of others stands upwards.
pub fn law_before_rides()
    ensures { LawBeforeRides }
{}

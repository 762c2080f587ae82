// The laws: each is a function whose contract is the law.

ghost use Rattle.uc_life_laws.specs.Endings.{LawEndings};
ghost use Rattle.uc_life_laws.specs.Following.{LawFollowing};
ghost use Rattle.uc_life_laws.specs.NamedAsks.{LawAsked};
ghost use Rattle.uc_life_laws.specs.KnownAnswers.{LawAnswers};
ghost use Rattle.uc_life_laws.specs.Kinds.{LawKinds};
ghost use Rattle.uc_life_laws.specs.KnownRuns.{LawKnownRuns, LawNamed};
ghost use Rattle.uc_life_laws.specs.Lives.{LawLives};
ghost use Rattle.uc_life_laws.specs.Makings.{LawMakings};
ghost use Rattle.uc_life_laws.specs.MakingsRuns.{LawMakingsRuns};
ghost use Rattle.uc_life_laws.specs.LifeLaws.{LawKnown, LawSteps};
ghost use Rattle.uc_life_laws.specs.LifeReading.{LawReading};
ghost use Rattle.uc_life_laws.specs.LifeRuns.{LawClears, LawRuns};
ghost use Rattle.uc_life_laws.specs.Opened.{LawOpens};
ghost use Rattle.uc_life_laws.specs.OpenedRuns.{LawOpenedRuns};

/// What is in scope keeps what it holds.
pub fn law_steps()
    ensures { LawSteps }
{}

/// In a state in which all is known that its execution can come by, a step leads to one.
pub fn law_known()
    ensures { LawKnown }
{}

/// A step keeps the kinds of frames, or adds and takes one, and what is claimed by them of executions that do
/// not run.
pub fn law_kinds()
    ensures { LawKinds }
{}

/// So what is being built, by these kinds, lies elsewhere or in what older activations wait for, as long as each
/// constructor is called at what does.
pub fn law_makings()
    ensures { LawMakings }
{}

/// So by these kinds a step keeps that variables in scope hold what lies outwards of them, or what is built or
/// destroyed there.
pub fn law_lives()
    ensures { LawLives }
{}

/// All stays known with an answer that suits what was asked, and is known in a task that begins.
pub fn law_answers()
    ensures { LawAnswers }
{}

/// A state that knows is in order, and what its next step reads is of its type, as far as it finds what it
/// is to find.
pub fn law_following()
    ensures { LawFollowing }
{}

/// Where a scope opens of what is known by its number, in a state in order and without a test on numbers, its
/// variable holds what is known as soon as it holds an object; an object in which nothing is bound always does.
pub fn law_opens()
    ensures { LawOpens }
{}

/// So what is read at a binding within what is in scope is known, and what a typed task reads of a variable
/// by its name is of its type.
pub fn law_reading()
    ensures { LawReading }
{}

/// Where fields lie within the cells of their classes and activations that use one frame stay behind one
/// another, cells that start anew lie behind all that is in scope in their frame; so fields lie in each
/// program that breaks no rule.
pub fn law_clears()
    ensures { LawClears }
{}

/// So in each run of a program that breaks no rule all that is in scope holds what is known, of all tasks, at
/// rest and in each state to which whoever runs comes before it asks, as long as each scope opens so.
pub fn law_runs()
    ensures { LawRuns }
{}

/// So in each run of a program that breaks no rule, as long as all that was asked so far fits, all is known
/// that each execution can come by, of tasks at rest, of what is at home in objects and in each state to
/// which whoever runs comes before it asks, as far as each step found what it was to find.
pub fn law_known_runs()
    ensures { LawKnownRuns }
{}

/// So in each such run all that is being built lies elsewhere or in what older activations wait for, by kinds of
/// frames that go along the run, as long as each constructor is called at what does.
pub fn law_makings_runs()
    ensures { LawMakingsRuns }
{}

/// So it is where nothing is asked of the steps in which a clean-up finds and reads the variable that it ends:
/// those find what is known.
pub fn law_endings()
    ensures { LawEndings }
{}

/// So each object that whoever runs calls, each at which it raises an event, each cluster and each processor
/// that it names was made.
pub fn law_named()
    ensures { LawNamed }
{}

/// So it is of each request that the ride of whoever runs comes to.
pub fn law_asked()
    ensures { LawAsked }
{}

/// In each run of a program that breaks no rule, as long as all that was asked so far fits, what each step
/// reads of bindings is of its type, as far as what is bound was there behind the step that binds it, plain
/// objects held what is known as their scopes opened, and each step found the rest.
pub fn law_opened_runs()
    ensures { LawOpenedRuns }
{}

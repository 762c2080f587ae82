//! What the clusters hold is what a journal tells, entry by entry: each law is a function whose contract is the law.
ghost use Rattle.uc_cluster.specs.Laws.{LawOpening, LawReady, LawUnready, LawTakes, LawStarts, LawFrees, LawStays, LawKeeps, LawCluster, LawClusters, LawProcessor, LawCloses, LawOpenStays, LawSpawned, LawMigrates, LawEnded, LawStands, LawInUse, LawStalled};

/// What `new` makes is what the first entry of a journal tells, once task 0 is made ready.
pub fn law_opening()
    ensures { LawOpening }
{}

/// Where the queues are what a journal tells is ready, they are so with an entry more that makes a task ready, once it is ready
/// here too.
pub fn law_ready()
    ensures { LawReady }
{}

/// An entry that makes no task ready, and is no dispatch, leaves them the journal's.
pub fn law_unready()
    ensures { LawUnready }
{}

/// With a dispatch more its task has left its queue.
pub fn law_takes()
    ensures { LawTakes }
{}

/// Where the tasks on the processors are those that a journal tells run there, they are so with a dispatch more.
pub fn law_starts()
    ensures { LawStarts }
{}

/// With an entry more that takes its processor's task off, nobody runs there.
pub fn law_frees()
    ensures { LawFrees }
{}

/// An entry that does not take its processor's task off, and puts nobody on, leaves them the journal's.
pub fn law_stays()
    ensures { LawStays }
{}

/// So do two entries of which the first takes its processor's task off and the second puts it there again.
pub fn law_keeps()
    ensures { LawKeeps }
{}

/// With an entry more that makes a cluster, there is one more here too, and nobody is ready on it.
pub fn law_cluster()
    ensures { LawCluster }
{}

/// An entry of any other kind leaves the number of clusters the journal's.
pub fn law_clusters()
    ensures { LawClusters }
{}

/// Where the processors and the open ones are those that a journal tells, they are so with an entry more that makes one, once
/// it was added here too; nobody runs on it.
pub fn law_processor()
    ensures { LawProcessor }
{}

/// The same of an entry that closes a processor, once it was closed here too. Its task goes on.
pub fn law_closes()
    ensures { LawCloses }
{}

/// An entry of any other kind leaves them the journal's, whatever then runs on a processor.
pub fn law_open_stays()
    ensures { LawOpenStays }
{}

/// Where each task stands on the cluster that a journal tells, it is so with a spawn more, once the new task was added here too.
pub fn law_spawned()
    ensures { LawSpawned }
{}

/// The same of a migration.
pub fn law_migrates()
    ensures { LawMigrates }
{}

/// The same of the end of a task.
pub fn law_ended()
    ensures { LawEnded }
{}

/// An entry of any other kind leaves the places the journal's.
pub fn law_stands()
    ensures { LawStands }
{}

/// Whether a cluster is in use is then what the journal tells.
pub fn law_in_use()
    ensures { LawInUse }
{}

/// And so is whether no task can go on, and why.
pub fn law_stalled()
    ensures { LawStalled }
{}

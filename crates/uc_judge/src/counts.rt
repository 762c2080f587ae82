// The numbers of a journal: what is made, what is read, and how far it has come.

ghost use Rattle.std.specs.Prelude.{◌≡◌, ◌++◌, ◌∷◌, ◌<◌, ◌^◌, pos, ◌||◌, [], ℕ, Bool, length};
ghost use Rattle.uc_acts.specs.Journal.{Journal, is_ending, number};
ghost use Rattle.uc_acts.specs.Known.{is_make, is_spawn};
ghost use Rattle.uc_acts.specs.Queues.{is_cluster, is_processor, ends_first};
ghost use Rattle.uc_acts.specs.Reading.{used_by, fails_by};
ghost use Rattle.uc_acts.specs.Stations.{one_if};
ghost use Rattle.uc_entry.specs.declared.entry.Options.{Options};
ghost use Rattle.uc_judge.specs.Counted.{AreCounts};

use uc_entry::entry::{Entry, EntryKind, Options};

/// The numbers of the entries that were added.
#[derive(Clone, Copy)]
pub struct Counts {
    pub entries: u64,
    /// How many objects, tasks, clusters and processors were made, the opening ones included.
    pub objects: u64,
    pub tasks: u64,
    pub clusters: u64,
    pub processors: u64,
    /// Bytes of the input that the reads took.
    pub bytes_read: i64,
    /// Whether a read has failed.
    pub has_failed: bool,
    /// Ticks up to the bound on those of all tasks.
    pub ticks_left: u64,
    /// Whether task 0 has ended.
    pub first_ended: bool,
    /// Whether an ending stands.
    pub is_over: bool,
}

impl Counts {
    /// Of a journal without entries.
    pub fn new(opts: &Options) -> Counts
        ensures { AreCounts result opts.now [] }
    {
        Counts {
            entries: 0,
            objects: 1,
            tasks: 1,
            clusters: 1,
            processors: u64::from(opts.processors),
            bytes_read: 0,
            has_failed: false,
            ticks_left: opts.ticks,
            first_ended: false,
            is_over: false,
        }
    }

    /// Adds the next entry of the journal.
    pub fn add(&mut self, e: &Entry)
        ensures { (opts : Options) (j : Journal) → opts.processors < 2 ^ 32 → length j < 2 ^ 32 →
            AreCounts self.old opts j → AreCounts self.new opts (j ++ e.now ∷ []) }
    {
        self.entries = self.entries.saturating_add(1);
        self.objects = self.objects.saturating_add(one_if(is_make(e.kind)));
        self.tasks = self.tasks.saturating_add(one_if(is_spawn(e.kind)));
        self.clusters = self.clusters.saturating_add(one_if(is_cluster(e.kind)));
        self.processors = self.processors.saturating_add(one_if(is_processor(e.kind)));
        self.bytes_read = bytes_behind(e, self.bytes_read);
        self.has_failed = has_failed_behind(e, self.has_failed);
        self.ticks_left = self.ticks_left.saturating_sub(u64::from(e.ticks));
        self.first_ended = either(self.first_ended, ends_first(e));
        self.is_over = either(self.is_over, is_ending(e.kind));
    }
}

fn one_if(holds: bool) -> u64
    ensures { result ≡ one_if holds }
{
    if holds { 1 } else { 0 }
}

fn either(left: bool, right: bool) -> bool
    ensures { result ≡ (left || right) }
{
    left || right
}

fn is_make(kind: EntryKind) -> bool
    ensures { result ≡ is_make kind }
{
    matches!(kind, EntryKind::Make)
}

fn is_spawn(kind: EntryKind) -> bool
    ensures { result ≡ is_spawn kind }
{
    matches!(kind, EntryKind::Spawn)
}

fn is_cluster(kind: EntryKind) -> bool
    ensures { result ≡ is_cluster kind }
{
    matches!(kind, EntryKind::Cluster)
}

fn is_processor(kind: EntryKind) -> bool
    ensures { result ≡ is_processor kind }
{
    matches!(kind, EntryKind::Processor)
}

// Whether an entry is an ending.
pub(crate) fn is_ending(kind: EntryKind) -> bool
    ensures { result ≡ is_ending kind }
{
    match kind {
        EntryKind::Fault => true,
        EntryKind::Done => true,
        EntryKind::Deadlock => true,
        EntryKind::NoProcessor => true,
        EntryKind::Limit => true,
        _ => false,
    }
}

// Whether task 0 ends by an entry.
fn ends_first(e: &Entry) -> bool
    ensures { result ≡ ends_first e.now.kind e.now }
{
    match e.kind {
        EntryKind::End => e.task == 0,
        _ => false,
    }
}

// The bytes that are read behind an entry.
fn bytes_behind(e: &Entry, before: i64) -> i64
    ensures { (n : ℕ) → before ≡ pos n → result ≡ pos (used_by e.now.kind e.now n) }
{
    match e.kind {
        EntryKind::Read => natural(e.d),
        _ => before,
    }
}

// The number that a field holds.
fn natural(field: i64) -> i64
    ensures { result ≡ pos (number field) }
{
    if field < 0 {
        return 0;
    }
    field
}

// Whether a read has failed behind an entry.
fn has_failed_behind(e: &Entry, before: bool) -> bool
    ensures { result ≡ fails_by e.now.kind e.now before }
{
    match e.kind {
        EntryKind::Read => e.c == 1 || before,
        _ => before,
    }
}

// What an entry does to the tasks.

ghost use Rattle.std.specs.Prelude.{◌≡◌};
ghost use Rattle.uc_acts.specs.Fit.{IsFit};
ghost use Rattle.uc_acts.specs.Journal.{number, where_true};
ghost use Rattle.uc_acts.specs.Queues.{actor, readies, dispatches, puts_on, takes_off, comes_to_stand, leaves_cluster};

use uc_entry::entry::{Entry, EntryKind};

/// The number that a field holds.
pub(crate) fn number(field: i64) -> u64
    ensures { result ≡ number field }
{
    if field < 0 {
        return 0;
    }
    field as u64
}

fn task_where(holds: bool, task: u32) -> Option<u32>
    ensures { result ≡ where_true holds task }
{
    if holds {
        return Some(task);
    }
    None
}

/// Who acts in an entry, where this task acted before it.
pub(crate) fn actor_behind(e: &Entry, before: u32) -> u32
    ensures { result ≡ actor before e.now.kind e.now }
{
    match e.kind {
        EntryKind::Admit => before,
        EntryKind::Push => before,
        _ => e.task,
    }
}

/// The task that an entry makes ready, in which this one acts.
pub(crate) fn task_readied(e: &Entry, actor: u32) -> Option<u32>
    requires { IsFit e.now }
    ensures { result ≡ readies e.now.kind e.now actor }
{
    match e.kind {
        EntryKind::Begin => Some(0),
        EntryKind::Spawn => Some(number(e.a) as u32),
        EntryKind::Slice => Some(e.task),
        EntryKind::Yield => Some(e.task),
        EntryKind::Migrate => Some(e.task),
        EntryKind::Admit => task_where(!(e.task == actor), e.task),
        _ => None,
    }
}

/// Whether an entry gives a task a processor.
pub(crate) fn dispatches(e: &Entry, task: u32) -> bool
    ensures { result ≡ dispatches e.now.kind e.now task }
{
    match e.kind {
        EntryKind::Dispatch => task == e.task,
        _ => false,
    }
}

/// The task that an entry puts on its processor, in which this one acts.
pub(crate) fn task_put_on(e: &Entry, actor: u32) -> Option<u32>
    ensures { result ≡ puts_on e.now.kind e.now actor }
{
    match e.kind {
        EntryKind::Dispatch => Some(e.task),
        EntryKind::Admit => task_where(e.task == actor, e.task),
        _ => None,
    }
}

/// Whether an entry takes a task off its processor.
pub(crate) fn takes_off(e: &Entry, task: u32) -> bool
    ensures { result ≡ takes_off e.now.kind e.now task }
{
    let acts = task == e.task;
    match e.kind {
        EntryKind::Dispatch => true,
        EntryKind::Admit => acts,
        EntryKind::Call => acts,
        EntryKind::Slice => acts,
        EntryKind::Yield => acts,
        EntryKind::Migrate => acts,
        EntryKind::Wait => acts,
        EntryKind::SignalBlock => acts && e.b == 1,
        EntryKind::Accept => acts && (e.d == 0 || e.d == 1),
        EntryKind::End => acts,
        _ => false,
    }
}

/// The task that comes to stand on its cluster by an entry.
pub(crate) fn task_to_stand(e: &Entry) -> Option<u32>
    requires { IsFit e.now }
    ensures { result ≡ comes_to_stand e.now.kind e.now }
{
    match e.kind {
        EntryKind::Begin => Some(0),
        EntryKind::Spawn => Some(number(e.a) as u32),
        EntryKind::Migrate => Some(e.task),
        _ => None,
    }
}

/// Whether an entry takes a task from its cluster.
pub(crate) fn leaves_cluster(e: &Entry, task: u32) -> bool
    ensures { result ≡ leaves_cluster e.now.kind e.now task }
{
    let acts = task == e.task;
    match e.kind {
        EntryKind::Migrate => acts,
        EntryKind::End => acts,
        _ => false,
    }
}

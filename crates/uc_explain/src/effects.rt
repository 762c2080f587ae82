// What an entry does at its object.

ghost use Rattle.std.specs.Prelude.{◌≡◌, ℕ, pos, option_map};
ghost use Rattle.uc_acts.specs.Fit.{IsFit};
ghost use Rattle.uc_acts.specs.Journal.{number, where_true, lets_in, moves};
ghost use Rattle.uc_acts.specs.Queues.{calls, takes, stacks, admits};
ghost use Rattle.uc_acts.specs.Doors.{blocks};
ghost use Rattle.uc_explain.specs.Steps.{accepting_by};

use uc_entry::entry::{Entry, EntryKind};

// The number that a field holds.
fn number(field: i64) -> u64
    ensures { result ≡ number field }
{
    if field < 0 {
        return 0;
    }
    field as u64
}

/// The task that an entry lets into its object.
pub(crate) fn task_let_in(e: &Entry) -> Option<u32>
    requires { IsFit e.now }
    ensures { result ≡ lets_in e.now.kind e.now }
{
    match e.kind {
        EntryKind::Begin => Some(0),
        EntryKind::Make => Some(e.task),
        EntryKind::Spawn => Some(number(e.a) as u32),
        EntryKind::Admit => Some(e.task),
        _ => None,
    }
}

/// Whether an entry moves a task into its object or out of it.
pub(crate) fn moves(e: &Entry, task: u32) -> bool
    ensures { result ≡ moves e.now.kind e.now task }
{
    let acts = task == e.task;
    match e.kind {
        EntryKind::Begin => task == 0,
        EntryKind::Make => acts,
        EntryKind::Spawn => acts || u64::from(task) == number(e.a),
        EntryKind::Admit => acts,
        EntryKind::Made => acts,
        EntryKind::Leave => acts,
        EntryKind::End => acts,
        EntryKind::Wait => acts,
        EntryKind::Gone => acts,
        EntryKind::SignalBlock => acts && e.b == 1,
        EntryKind::Accept => acts && (e.d == 0 || e.d == 1),
        _ => false,
    }
}

/// The task that an entry makes wait at its object, and the member that it calls.
pub(crate) fn call_of(e: &Entry) -> Option<(u32, u8)>
    requires { IsFit e.now }
    ensures { result ≡ calls e.now.kind e.now }
{
    match e.kind {
        EntryKind::Call => Some((e.task, number(e.a) as u8)),
        _ => None,
    }
}

/// Whether an entry takes a task that waits or is blocked.
pub(crate) fn takes(e: &Entry, task: u32) -> bool
    ensures { result ≡ takes e.now.kind e.now task }
{
    match e.kind {
        EntryKind::Admit => task == e.task,
        EntryKind::Push => task == e.task,
        _ => false,
    }
}

/// The task that an entry puts on the stack of its object.
pub(crate) fn task_stacked(e: &Entry) -> Option<u32>
    ensures { result ≡ stacks e.now.kind e.now }
{
    match e.kind {
        EntryKind::Accept => task_where(e.d == 0 || e.d == 1, e.task),
        EntryKind::SignalBlock => task_where(e.b == 1, e.task),
        EntryKind::Push => Some(e.task),
        _ => None,
    }
}

fn task_where(holds: bool, task: u32) -> Option<u32>
    ensures { result ≡ where_true holds task }
{
    if holds {
        return Some(task);
    }
    None
}

/// Whether an entry admits a task.
pub(crate) fn admits(e: &Entry, task: u32) -> bool
    ensures { result ≡ admits e.now.kind e.now task }
{
    match e.kind {
        EntryKind::Admit => task == e.task,
        _ => false,
    }
}

/// The task that an entry blocks, the condition on which it does, and the number that is kept.
pub(crate) fn wait_of(e: &Entry) -> Option<(u32, u64, i64)>
    ensures { result ≡ blocks e.now.kind e.now }
{
    match e.kind {
        EntryKind::Wait => Some((e.task, number(e.a), e.b)),
        _ => None,
    }
}

/// The site and the mask of the accept that is open behind an entry, where this one was before.
pub(crate) fn accept_behind(e: &Entry, accept: Option<(u64, u64)>) -> Option<(u64, u64)>
    ensures { result ≡ accepting_by e.now.kind e.now accept }
{
    match e.kind {
        EntryKind::Accept => {
            if e.d == 0 {
                return Some((number(e.a), number(e.b)));
            }
            accept
        }
        EntryKind::Admit => None,
        _ => accept,
    }
}

//! Entries of a journal, one function for each shape.
ghost use Rattle.std.specs.Prelude.{◌≡◌, ◌+◌, not, pos, if◌then◌else◌};
ghost use Rattle.uc_acts.specs.Acts;
ghost use Rattle.uc_acts.specs.Acts.{truth};
ghost use Rattle.uc_acts.specs.Journal;
ghost use Rattle.uc_acts.specs.Journal.{cost, no_cost};
ghost use Rattle.uc_entry.specs.declared.entry.EntryKind.TheVariants as kind;

use uc_acts::got::Got;
use uc_entry::entry::{Entry, EntryKind};
use uc_entry::fault::RunFault;
use uc_entry::request::Piece;
use uc_mutex::called::Passed;

/// The task that acts: its processor, its ticks since its last entry, and the line of its request.
#[derive(Clone, Copy)]
pub struct Actor {
    pub processor: u8,
    pub task: u32,
    pub ticks: u32,
    pub line: u32,
}

/// An entry of the kernel's own: it carries no ticks and no line.
pub(crate) fn entry(kind: EntryKind, proc: u8, task: u32, object: u32, a: i64, b: i64) -> Entry
    ensures { result ≡ Journal.entry kind proc task 0 object a b }
{
    Entry {
        kind,
        proc,
        task,
        ticks: 0,
        object,
        a,
        b,
        c: 0,
        d: 0,
        line: 0,
    }
}

/// The first entry of what a task asks: it carries the task's ticks and the line of the request.
pub(crate) fn asking(kind: EntryKind, who: Actor, object: u32, a: i64, b: i64) -> Entry
    ensures { result ≡ Journal.asking kind who.processor who.task
        (cost who.ticks who.line) object a b }
{
    Entry {
        kind,
        proc: who.processor,
        task: who.task,
        ticks: who.ticks,
        object,
        a,
        b,
        c: 0,
        d: 0,
        line: who.line,
    }
}

/// An entry of the acting task that names two numbers.
pub(crate) fn number_entry(kind: EntryKind, who: Actor, a: u32, b: u32) -> Entry
    ensures { result ≡ Journal.asking kind who.processor who.task (cost who.ticks who.line) 0
        (pos a) (pos b) }
{
    asking(kind, who, 0, i64::from(a), i64::from(b))
}

/// An entry of the acting task that names an object and a number.
pub(crate) fn object_entry(kind: EntryKind, who: Actor, object: u32, a: u32) -> Entry
    ensures { result ≡ Journal.asking kind who.processor who.task (cost who.ticks who.line) object
        (pos a) (pos 0) }
{
    asking(kind, who, object, i64::from(a), 0)
}

/// How a run ends, without ticks.
pub(crate) fn closing_entry(kind: EntryKind, processor: u8, task: u32) -> Entry
    ensures { result ≡ Journal.entry kind processor task 0 0 (pos 0) (pos 0) }
{
    entry(kind, processor, task, 0, 0, 0)
}

/// A processor is given a task.
pub(crate) fn dispatch_entry(processor: u8, task: u32) -> Entry
    ensures { result ≡ Acts.dispatch processor task }
{
    entry(EntryKind::Dispatch, processor, task, 0, 0, 0)
}

/// One printed item: the first alone carries the ticks and the line.
pub(crate) fn print_entry(who: Actor, first: bool, piece: Piece) -> Entry
    ensures { result ≡ Journal.asking kind.Print who.processor who.task
        (if first then cost who.ticks who.line else no_cost) 0 (pos piece.form) piece.value }
{
    let form = i64::from(piece.form);
    if first {
        return asking(EntryKind::Print, who, 0, form, piece.value);
    }
    entry(
        EntryKind::Print,
        who.processor,
        who.task,
        0,
        form,
        piece.value,
    )
}

/// What was read, and the bytes of the input that are used then.
pub(crate) fn read_entry(who: Actor, form: u8, got: Got, used: u32, now: u32) -> Entry
    requires { now ≡ used + got.taken }
    ensures { result ≡ Acts.read_entry who.processor who.task
        (cost who.ticks who.line) form got used }
{
    let failed = number_of(got.failed);
    Entry {
        c: failed,
        d: i64::from(now),
        ..asking(EntryKind::Read, who, 0, i64::from(form), got.value)
    }
}

pub(crate) fn number_of(holds: bool) -> i64
    ensures { result ≡ truth holds }
{
    if holds {
        return 1;
    }
    0
}

/// Whether a read has failed.
pub(crate) fn fail_entry(who: Actor, failed: bool) -> Entry
    ensures { result ≡ Journal.asking kind.Fail who.processor who.task (cost who.ticks who.line) 0
        (pos 0) (truth failed) }
{
    let holds = number_of(failed);
    asking(EntryKind::Fail, who, 0, 0, holds)
}

/// The task leaves an object: whether its call has failed.
pub(crate) fn leave_entry(who: Actor, object: u32, failed: bool) -> Entry
    ensures { result ≡ Journal.asking kind.Leave who.processor who.task
        (cost who.ticks who.line) object (truth failed) (pos 0) }
{
    let holds = number_of(failed);
    asking(EntryKind::Leave, who, object, holds, 0)
}

/// A request that is itself at fault.
pub(crate) fn fault_entry(who: Actor, number: u8) -> Entry
    ensures { result ≡ Acts.fault who.processor who.task (cost who.ticks who.line) number who.line }
{
    asking(
        EntryKind::Fault,
        who,
        0,
        i64::from(number),
        i64::from(who.line),
    )
}

/// The fault in the place of a later entry, which would destroy what is in use: the first has told the ticks and the line.
pub(crate) fn busy_entry(who: Actor) -> Entry
    ensures { result ≡ Acts.fault who.processor who.task no_cost 10 who.line }
{
    let number = RunFault::DestroyBusy.number();
    entry(
        EntryKind::Fault,
        who.processor,
        who.task,
        0,
        i64::from(number),
        i64::from(who.line),
    )
}

pub(crate) fn call_entry(who: Actor, object: u32, member: u8) -> Entry
    ensures { result ≡ Journal.asking kind.Call who.processor who.task
        (cost who.ticks who.line) object (pos member) (pos 0) }
{
    asking(EntryKind::Call, who, object, i64::from(member), 0)
}

/// A task is let in by a way, an acceptor with its clause.
pub(crate) fn admit_entry(who: Actor, task: u32, object: u32, way: u8, clause: u8) -> Entry
    ensures { result ≡ Acts.admit who.processor task object way clause }
{
    entry(
        EntryKind::Admit,
        who.processor,
        task,
        object,
        i64::from(way),
        i64::from(clause),
    )
}

/// Whoever is next is let in, an acceptor with its clause, and whether the call that met its accept has failed.
pub(crate) fn next_entry(who: Actor, object: u32, next: Passed) -> Entry
    ensures { result ≡ Acts.admit_failed who.processor next.task object next.way next.clause
        next.failed }
{
    let failed = number_of(next.failed);
    Entry {
        c: failed,
        ..admit_entry(who, next.task, object, next.way, next.clause)
    }
}

pub(crate) fn push_entry(who: Actor, task: u32, object: u32) -> Entry
    ensures { result ≡ Acts.push who.processor task object }
{
    entry(EntryKind::Push, who.processor, task, object, 0, 0)
}

/// An entry that names a condition.
pub(crate) fn condition_entry(kind: EntryKind, who: Actor, object: u32, cond: u16, b: i64) -> Entry
    ensures { result ≡ Journal.asking kind who.processor who.task (cost who.ticks who.line) object
        (pos cond) b }
{
    asking(kind, who, object, i64::from(cond), b)
}

/// What a poll of a mask delivers: an event, or none.
pub(crate) fn poll_entry(who: Actor, mask: u64, found: Option<(u8, i64, i64)>) -> Entry
    ensures { result ≡ Acts.poll_entry who.processor who.task (cost who.ticks who.line) mask found }
{
    let mask = mask.cast_signed();
    match found {
        None => asking(EntryKind::Poll, who, 0, 0, mask),
        Some((event, x, y)) => Entry {
            c: x,
            d: y,
            ..asking(EntryKind::Poll, who, 0, i64::from(event) + 1, mask)
        },
    }
}

/// Whether nobody waits on a condition.
pub(crate) fn empty_entry(who: Actor, object: u32, cond: u16, nobody: bool) -> Entry
    ensures { result ≡ Journal.asking kind.Empty who.processor who.task
        (cost who.ticks who.line) object (pos cond) (truth nobody) }
{
    let holds = number_of(nobody);
    condition_entry(EntryKind::Empty, who, object, cond, holds)
}

/// A signal of a condition, and whether nobody waits there.
pub(crate) fn signal_entry(who: Actor, object: u32, cond: u16, nobody: bool) -> Entry
    ensures { result ≡ Journal.asking kind.Signal who.processor who.task
        (cost who.ticks who.line) object (pos cond) (truth (not nobody)) }
{
    let found = number_of(!nobody);
    condition_entry(EntryKind::Signal, who, object, cond, found)
}

/// An accept of a site with a mask of its true clauses, and how it went.
pub(crate) fn accept_entry(
    who: Actor,
    object: u32,
    site: u32,
    mask: u32,
    has_else: bool,
    how: u8,
) -> Entry
    ensures { result ≡ Acts.accept_entry who.processor who.task
        (cost who.ticks who.line) object site mask has_else how }
{
    let has_else = number_of(has_else);
    Entry {
        c: has_else,
        d: i64::from(how),
        ..asking(
            EntryKind::Accept,
            who,
            object,
            i64::from(site),
            i64::from(mask),
        )
    }
}

/// An event with its fields, raised at a task.
pub(crate) fn raise_entry(who: Actor, object: u32, target: u32, event: u8, x: i64, y: i64) -> Entry
    ensures { result ≡ Acts.raise_entry who.processor who.task
        (cost who.ticks who.line) object target event x y }
{
    Entry {
        c: x,
        d: y,
        ..asking(
            EntryKind::Raise,
            who,
            object,
            i64::from(target),
            i64::from(event),
        )
    }
}

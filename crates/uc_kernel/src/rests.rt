//! What is at rest: values with the hands of their tasks, and loose members.
ghost use Rattle.std.specs.Prelude.{◌≡◌, ◌≤◌, ◌<◌, ◌==◌, ◌||◌, true, false, length, slice_index_or, slice_set, slice_get, Some, None, if◌then◌else◌};
ghost use Rattle.uc_entry.specs.Keyed.{find};
ghost use Rattle.uc_acts.specs.Known.{is_gone_by};
ghost use Rattle.uc_kernel.specs.Numbered.{without};
ghost use Rattle.uc_kernel.specs.AtRest.{admission_in, goes_out, hand_after, laid, loose_after, is_admit, AreApart, CanLetIn, GivenTo, HasRoom, LetIn, LetInBy};

use crate::hand::take_from;
use uc_entry::entry::{Entry, EntryKind};
use uc_entry::list::List;

/// A task at rest: its value, and the members of the objects that it is inside.
#[derive(Drop)]
pub struct TaskAtRest<T, M> {
    pub task: T,
    pub members: List<(u64, M)>,
}

/// The entry at a place.
pub fn entry_at(entries: &[Entry], at: usize) -> Entry
    requires { at < length entries.now }
    ensures { slice_get entries.now at ≡ Some result }
{
    entries[at]
}

/// The entry at a place, if there is one and it is an admission.
pub fn admission_at(entries: &[Entry], at: usize) -> Option<Entry>
    ensures { result ≡ admission_in (slice_get entries.now at) }
{
    match entries.get(at) {
        Some(e) => {
            if e.kind == EntryKind::Admit {
                Some(*e)
            } else {
                None
            }
        }
        None => None,
    }
}

/// Whether an entry takes its own task out of an object that stays.
fn goes_out(e: &Entry) -> bool
    ensures { result ≡ goes_out e.now.kind e.now }
{
    match e.kind {
        EntryKind::Made => true,
        EntryKind::Leave => true,
        EntryKind::End => true,
        EntryKind::Wait => true,
        EntryKind::SignalBlock => e.b == 1,
        EntryKind::Accept => e.d == 0 || e.d == 1,
        _ => false,
    }
}

/// Lays members among the loose ones.
fn lay<M: Drop>(loose: &mut Vec<Option<M>>, object: u32, members: Option<M>)
    requires { object < length loose.old.items }
    ensures { loose.new.items ≡ laid object members loose.old.items }
{
    match members {
        None => {}
        Some(members) => loose[object as usize] = Some(members),
    }
}

/// What the first entry of an act does to the hand of its task: the members of an object that it goes out of become loose,
/// those of an object that it destroys are dropped.
#[inline(always)]
pub fn follow_first<M: Drop>(e: &Entry, hand: &mut List<(u64, M)>, loose: &mut Vec<Option<M>>)
    requires apart { AreApart hand.old.items }
    requires known { e.now.object < length loose.old.items }
    ensures hand { hand.new.items ≡ hand_after e.now hand.old.items }
    ensures spare { hand.old.spare ≤ hand.new.spare }
    ensures loose { loose.new.items ≡ loose_after e.now hand.old.items loose.old.items }
{
    if goes_out(e) {
        let members = take_from(hand, e.object);
        lay(loose, e.object, members);
        return;
    }
    if e.kind == EntryKind::Gone {
        let _destroyed = take_from(hand, e.object);
    }
}

/// Drops the members of an object that an act destroyed.
pub fn drop_destroyed<M: Drop>(e: &Entry, hand: &mut List<(u64, M)>)
    requires apart { AreApart hand.old.items }
    ensures { hand.new.items
        ≡ (if is_gone_by e.now.kind then without e.now.object hand.old.items else hand.old.items) }
{
    if e.kind == EntryKind::Gone {
        let _destroyed = take_from(hand, e.object);
    }
}

/// Puts the members of an object into the hand of a task at rest.
fn give<T: Drop, M: Drop>(
    tasks: &mut Vec<Option<TaskAtRest<T, M>>>,
    task: u32,
    object: u32,
    members: M,
)
    requires known { task < length tasks.old.items }
    requires room { HasRoom tasks.old.items task }
    requires there { (slice_index_or tasks.old.items task None ≡ None) → ⊥ }
    ensures { (r : TaskAtRest T M) → slice_index_or tasks.old.items task None ≡ Some r →
        (r' : TaskAtRest T M) × GivenTo object members r r'
        × (tasks.new.items ≡ slice_set tasks.old.items task (Some r')) }
{
    match tasks[task as usize].take() {
        None => {}
        Some(mut rest) => {
            rest.members.push((object as u64, members));
            tasks[task as usize] = Some(rest);
        }
    }
}

/// Whoever is let in gets the members of the object.
pub fn follow_admission<T: Drop, M: Drop>(
    e: &Entry,
    task: u32,
    hand: &mut List<(u64, M)>,
    tasks: &mut Vec<Option<TaskAtRest<T, M>>>,
    loose: &mut Vec<Option<M>>,
)
    requires object { e.now.object < length loose.old.items }
    requires known { e.now.task < length tasks.old.items }
    requires own { (e.now.task == task) ≡ true → 1 ≤ hand.old.spare }
    requires room { (e.now.task == task) ≡ false → HasRoom tasks.old.items e.now.task }
    requires there { (e.now.task == task) ≡ false →
        slice_index_or tasks.old.items e.now.task None ≡ None → ⊥ }
    ensures moved { LetIn e.now task hand.old hand.new tasks.old.items tasks.new.items
        loose.old.items }
    ensures loose { loose.new.items ≡ slice_set loose.old.items e.now.object None }
{
    let lifted = loose[e.object as usize].take();
    match lifted {
        None => {}
        Some(members) => {
            if e.task == task {
                hand.push((e.object as u64, members));
            } else {
                give(tasks, e.task, e.object, members);
            }
        }
    }
}

/// Whoever is let in, if somebody is, gets the members of the object.
pub fn follow_second<T: Drop, M: Drop>(
    admission: Option<Entry>,
    task: u32,
    hand: &mut List<(u64, M)>,
    tasks: &mut Vec<Option<TaskAtRest<T, M>>>,
    loose: &mut Vec<Option<M>>,
)
    requires can { CanLetIn admission task hand.old tasks.old.items loose.old.items }
    ensures { LetInBy admission task hand.old hand.new tasks.old.items tasks.new.items
        loose.old.items loose.new.items }
{
    match admission {
        None => {}
        Some(e) => follow_admission(&e, task, hand, tasks, loose),
    }
}

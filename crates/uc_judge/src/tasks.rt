// What each task owns, and the ticks that it has left.

ghost use Rattle.std.specs.Prelude.{◌≡◌, ◌++◌, ◌∷◌, ◌==◌, [], ℕ, OnOk, unwrap_or, Some, if◌then◌else◌};
ghost use Rattle.std.specs.Ordering.{nat_cmp};
ghost use Rattle.std.specs.BTreeMap.{get};
ghost use Rattle.uc_entry.specs.declared.entry.Options.{Options};
ghost use Rattle.uc_acts.specs.Fit.{IsFit};
ghost use Rattle.uc_acts.specs.Journal.{Journal, own_object, first_or_0};
ghost use Rattle.uc_acts.specs.Known.{owner};
ghost use Rattle.uc_acts.specs.Serves.{left};
ghost use Rattle.uc_acts.specs.Queues.{dispatches};
ghost use Rattle.uc_judge.specs.Tasked.{AreTasks, home_of, told_for, first_told, left_behind};

use crate::effects::{dispatches, number};
use std::alloc::{AllocError, Global};
use std::collections::BTreeMap;
use uc_entry::entry::{Entry, EntryKind, Options};

/// The own objects of the tasks, the tasks whose own objects they are, and the ticks that each task
/// has left, behind the entries that were added.
#[derive(Drop)]
pub struct Tasks {
    slice: u32,
    own: BTreeMap<u32, u32>,
    owners: BTreeMap<u32, u32>,
    left: BTreeMap<u32, u32>,
}

impl Tasks {
    /// Of a journal without entries.
    pub fn new(alloc: Global, opts: &Options) -> Tasks
        ensures { AreTasks result opts.now [] }
    {
        Tasks {
            slice: opts.slice,
            own: BTreeMap::new(alloc),
            owners: BTreeMap::new(alloc),
            left: BTreeMap::new(alloc),
        }
    }

    /// Adds the next entry of the journal. After want of memory it is spent.
    pub fn add(&mut self, e: &Entry) -> Result<(), AllocError>
        requires { IsFit e.now }
        ensures { OnOk result ((opts : Options) (j : Journal) → AreTasks self.old opts j →
            AreTasks self.new opts (j ++ e.now ∷ [])) }
    {
        match home_of(e) {
            Some(home) => {
                keep_first(&mut self.own, home.0, home.1)?;
                keep_first(&mut self.owners, home.1, home.0)?;
                spend(&mut self.left, self.slice, e)?;
                Ok(())
            }
            None => {
                spend(&mut self.left, self.slice, e)?;
                Ok(())
            }
        }
    }

    /// The own object of a task, or 0.
    pub fn own_object(&self, task: u32) -> u32
        ensures { (opts : Options) (j : Journal) → AreTasks self.now opts j →
            result ≡ own_object task j }
    {
        value_or(&self.own, task, 0)
    }

    /// The task whose own object this is, or 0.
    pub fn owner(&self, object: u32) -> u32
        ensures { (opts : Options) (j : Journal) → AreTasks self.now opts j →
            result ≡ first_or_0 (owner object j) }
    {
        value_or(&self.owners, object, 0)
    }

    /// The ticks that a task has left since it was given a processor.
    pub fn left(&self, task: u32) -> u32
        ensures { (opts : Options) (j : Journal) → AreTasks self.now opts j →
            result ≡ left opts j task }
    {
        value_or(&self.left, task, self.slice)
    }
}

fn value_or(map: &BTreeMap<u32, u32>, key: u32, none: u32) -> u32
    ensures { result ≡ unwrap_or (get nat_cmp map.now key) none }
{
    match map.get(&key) {
        Some(value) => *value,
        None => none,
    }
}

// The task whose own object an entry tells, and that object.
fn home_of(e: &Entry) -> Option<(u32, u32)>
    requires { IsFit e.now }
    ensures { result ≡ home_of e.now.kind e.now }
{
    match e.kind {
        EntryKind::Begin => Some((0, 0)),
        EntryKind::Spawn => Some((number(e.a) as u32, e.object)),
        _ => None,
    }
}

// Keeps a value under a key that has none.
fn keep_first(map: &mut BTreeMap<u32, u32>, key: u32, value: u32) -> Result<(), AllocError>
    ensures { OnOk result ((k : ℕ) →
        get nat_cmp map.new k
        ≡ first_told (get nat_cmp map.old k) (told_for k (Some (key, value)))) }
{
    match map.get(&key) {
        Some(_) => Ok(()),
        None => {
            let _before = map.insert(key, value)?;
            Ok(())
        }
    }
}

// Takes the ticks of an entry off what its task has left, which is all of them where it is given a processor.
fn spend(map: &mut BTreeMap<u32, u32>, slice: u32, e: &Entry) -> Result<(), AllocError>
    ensures { OnOk result ((t : ℕ) →
        unwrap_or (get nat_cmp map.new t) slice
        ≡ left_behind slice e.now t (unwrap_or (get nat_cmp map.old t) slice)) }
{
    let before = left_before(map, slice, e);
    let _before = map.insert(e.task, before.saturating_sub(e.ticks))?;
    Ok(())
}

// What the task of an entry has left before its ticks.
fn left_before(map: &BTreeMap<u32, u32>, slice: u32, e: &Entry) -> u32
    ensures { result ≡ (if dispatches e.now.kind e.now e.now.task then slice
        else unwrap_or (get nat_cmp map.now e.now.task) slice) }
{
    if dispatches(e, e.task) {
        slice
    } else {
        value_or(map, e.task, slice)
    }
}

// The stacks with their clauses, and the members that were called last.

ghost use Rattle.std.specs.Prelude.{◌≡◌, ◌==◌, ◌++◌, ◌∷◌, [], ℕ, List, Some, OnOk, map, if◌then◌else◌};
ghost use Rattle.std.specs.Ordering.{nat_cmp};
ghost use Rattle.std.specs.BTreeMap.{get};
ghost use Rattle.uc_tree.specs.Programs.{Site};
ghost use Rattle.uc_tree.specs.SiteOffers.{clause_for, or_0};
ghost use Rattle.uc_acts.specs.Fit.{IsFit};
ghost use Rattle.uc_acts.specs.Journal.{Journal, holds};
ghost use Rattle.uc_acts.specs.Doors.{clause_of, failed_of, calls_destructor, last_called, stack_after, put_top, met_top, left_by_task, clause_on, failed_on};
ghost use Rattle.uc_judge.specs.ClauseStacks.{AreStacks, as_on_stack, offers_told, pair_cmp, rows_of};

use crate::effects::number;
use crate::offers::clause_for;
use std::alloc::{AllocError, Global};
use std::collections::BTreeMap;
use uc_entry::entry::{Entry, EntryKind};
use uc_tree::limits::DESTRUCTOR;
use uc_tree::site::Site;

/// A task on the stack of an object.
#[derive(Clone, Copy)]
pub struct OnStack {
    pub task: u32,
    /// The number and the mask of the accept statement of an acceptor.
    pub accept: Option<(u64, u64)>,
    /// The clause by which its accept was met, or 0.
    pub clause: u8,
    /// The task whose call met it, until that leaves.
    pub met: Option<u32>,
    /// Whether that call has failed.
    pub failed: bool,
}

/// The stacks of all objects, and the members that were called last, behind the entries that were added.
#[derive(Drop)]
pub struct Stacks {
    alloc: Global,
    // Of an object and a task.
    called: BTreeMap<(u32, u32), u8>,
    // Newest first.
    stacks: BTreeMap<u32, Vec<OnStack>>,
}

impl Stacks {
    /// Of a journal without entries.
    pub fn new(alloc: Global) -> Stacks
        ensures { (sites : List Site) → AreStacks result sites [] }
    {
        Stacks {
            alloc,
            called: BTreeMap::new(alloc),
            stacks: BTreeMap::new(alloc),
        }
    }

    /// Adds the next entry of the journal, of a program with these accept statements. After want of memory it is spent.
    pub fn add(&mut self, sites: &[Site], e: &Entry) -> Result<(), AllocError>
        requires { IsFit e.now }
        ensures { OnOk result ((j : Journal) → AreStacks self.old sites.now j →
            AreStacks self.new sites.now (j ++ e.now ∷ [])) }
    {
        let called = last_of(&self.called, e.object, e.task);
        match self.stacks.get_mut(&e.object) {
            Some(rows) => {
                move_stack(rows, sites, e, called)?;
                note_call(&mut self.called, e)?;
                Ok(())
            }
            None => {
                let mut rows = Vec::new(self.alloc);
                move_stack(&mut rows, sites, e, called)?;
                let _before = self.stacks.insert(e.object, rows)?;
                note_call(&mut self.called, e)?;
                Ok(())
            }
        }
    }

    /// The clause by which the accept of a task on the stack of an object was met, or 0.
    pub fn clause_of(&self, object: u32, task: u32) -> u8
        ensures { (sites : List Site) (j : Journal) → AreStacks self.now sites j →
            result ≡ clause_of sites object task j }
    {
        match self.stacks.get(&object) {
            Some(rows) => clause_on(rows, task),
            None => 0,
        }
    }

    /// Whether the call that met the accept of a task on the stack of an object has failed.
    pub fn failed_of(&self, object: u32, task: u32) -> bool
        ensures { (sites : List Site) (j : Journal) → AreStacks self.now sites j →
            result ≡ failed_of sites object task j }
    {
        match self.stacks.get(&object) {
            Some(rows) => failed_on(rows, task),
            None => false,
        }
    }

    /// Whether the last call of an object by a task was of its destructor.
    pub fn calls_destructor(&self, object: u32, task: u32) -> bool
        ensures { (sites : List Site) (j : Journal) → AreStacks self.now sites j →
            result ≡ calls_destructor object task j }
    {
        match last_of(&self.called, object, task) {
            Some(member) => member == DESTRUCTOR,
            None => false,
        }
    }
}

// The member of an object that a task called last.
fn last_of(called: &BTreeMap<(u32, u32), u8>, object: u32, task: u32) -> Option<u8>
    ensures { result ≡ get pair_cmp called.now (object, task) }
{
    match called.get(&(object, task)) {
        Some(member) => Some(*member),
        None => None,
    }
}

// Keeps the member that an entry calls.
fn note_call(called: &mut BTreeMap<(u32, u32), u8>, e: &Entry) -> Result<(), AllocError>
    requires { IsFit e.now }
    ensures { OnOk result ((o t : ℕ) →
        get pair_cmp called.new (o, t)
        ≡ (if e.now.object == o
        then last_called (λ u. get pair_cmp called.old (o, u)) e.now.kind e.now t
        else get pair_cmp called.old (o, t))) }
{
    match e.kind {
        EntryKind::Call => {
            let _before = called.insert((e.object, e.task), number(e.a) as u8)?;
            Ok(())
        }
        _ => Ok(()),
    }
}

// The stack of the object of an entry behind it, whose task called this member last.
fn move_stack(
    rows: &mut Vec<OnStack>,
    sites: &[Site],
    e: &Entry,
    called: Option<u8>,
) -> Result<(), AllocError>
    ensures { OnOk result (map (as_on_stack sites.now) rows.new.items
        ≡ stack_after sites.now e.now.kind e.now called
        (map (as_on_stack sites.now) rows.old.items)) }
{
    match e.kind {
        EntryKind::Accept => {
            if e.d == 0 || e.d == 1 {
                put_top(rows, e.task, Some((number(e.a), number(e.b))))?;
            }
            Ok(())
        }
        EntryKind::SignalBlock => {
            if e.b == 1 {
                put_top(rows, e.task, None)?;
            }
            Ok(())
        }
        EntryKind::Push => {
            put_top(rows, e.task, None)?;
            Ok(())
        }
        EntryKind::Admit => {
            rows.retain(|row| row.task != e.task);
            if e.a == 1 {
                meet_top(rows, sites, e.task, called);
            }
            Ok(())
        }
        EntryKind::Leave => {
            end_calls(rows, e.task, e.a == 1);
            Ok(())
        }
        _ => Ok(()),
    }
}

// Puts a task on top, an acceptor with its accept statement and mask.
fn put_top(rows: &mut Vec<OnStack>, task: u32, accept: Option<(u64, u64)>) -> Result<(), AllocError>
    ensures { OnOk result ((sites : List Site) →
        map (as_on_stack sites) rows.new.items
        ≡ put_top (Some task) (offers_told sites accept) (map (as_on_stack sites) rows.old.items)) }
{
    rows.reserve(1)?;
    let _put = rows.insert(
        0,
        OnStack {
            task,
            accept,
            clause: 0,
            met: None,
            failed: false,
        },
    );
    Ok(())
}

// A call of this member by a task meets the accept of the task on top.
fn meet_top(rows: &mut Vec<OnStack>, sites: &[Site], task: u32, called: Option<u8>)
    ensures { map (as_on_stack sites.now) rows.new.items
        ≡ met_top task called (map (as_on_stack sites.now) rows.old.items) }
{
    match called {
        Some(member) => {
            if rows.len() > 0 {
                rows[0].clause = clause_by(sites, rows[0].accept, member);
                rows[0].met = Some(task);
            }
        }
        None => {}
    }
}

// The clause of an acceptor that takes a caller of a member, or 0.
fn clause_by(sites: &[Site], accept: Option<(u64, u64)>, member: u8) -> u8
    ensures { result ≡ or_0 (clause_for (offers_told sites.now accept) member) }
{
    match accept {
        Some(accept) => clause_for(sites, accept.0, accept.1, member).unwrap_or(0),
        None => 0,
    }
}

// The call of this task, where it met an accept, is over, and has failed or not.
fn end_calls(rows: &mut Vec<OnStack>, task: u32, failed: bool)
    ensures { (sites : List Site) →
        map (as_on_stack sites) rows.new.items
        ≡ map (left_by_task task failed) (map (as_on_stack sites) rows.old.items) }
{
    for row in rows.iter_mut() {
        *row = without_call(row, task, failed);
    }
}

// A task on a stack, where the call of this task is over.
fn without_call(row: &OnStack, task: u32, failed: bool) -> OnStack
    ensures { (sites : List Site) →
        as_on_stack sites result ≡ left_by_task task failed (as_on_stack sites row.now) }
{
    match row.met {
        Some(caller) => {
            if caller == task {
                return OnStack {
                    met: None,
                    failed,
                    ..*row
                };
            }
            *row
        }
        None => *row,
    }
}

// The clause of a task on a stack, or 0.
fn clause_on(rows: &[OnStack], task: u32) -> u8
    ensures { (sites : List Site) → result ≡ clause_on task (map (as_on_stack sites) rows.now) }
{
    for row in rows {
        if row.task == task {
            return row.clause;
        }
    }
    0
}

// Whether the call that met the accept of a task on a stack has failed.
fn failed_on(rows: &[OnStack], task: u32) -> bool
    ensures { (sites : List Site) → result ≡ failed_on task (map (as_on_stack sites) rows.now) }
{
    for row in rows {
        if row.task == task {
            return row.failed;
        }
    }
    false
}

// Who is ready, who runs, and on which cluster each task is.

ghost use Rattle.std.specs.Prelude.{◌≡◌, ◌++◌, ◌∷◌, ◌==◌, ◌&&◌, ◌<◌, [], ℕ, not, nat_lt, OnOk, unwrap_or, vec_len, vec_capacity};
ghost use Rattle.std.specs.List.{filter, list_any, list_all};
ghost use Rattle.std.specs.Option.{option_to_list};
ghost use Rattle.std.specs.Ordering.{nat_cmp};
ghost use Rattle.std.specs.BTreeMap.{get};
ghost use Rattle.uc_acts.specs.Fit.{IsFit};
ghost use Rattle.uc_acts.specs.Answers.{first_of};
ghost use Rattle.uc_acts.specs.Journal.{Journal};
ghost use Rattle.uc_entry.specs.declared.entry.Options.{Options};
ghost use Rattle.uc_acts.specs.Queues.{ready, running, tasks_on, is_nobody, clusters, dispatches, takes_off, leaves_cluster, none_running, none_ready, none_served, processor_count, cluster_count, open_processors};
ghost use Rattle.uc_judge.specs.Scheduled.{IsSchedule, placed, of_number, only_of};

use crate::effects::{
    actor_behind, dispatches, leaves_cluster, number, takes_off, task_put_on, task_readied,
    task_to_stand,
};
use std::alloc::{AllocError, Global};
use std::collections::BTreeMap;
use uc_entry::entry::{Entry, EntryKind};

/// Who is ready and who runs behind the entries that were added, and on which cluster each task is.
#[derive(Drop)]
pub struct Schedule {
    actor: u32,
    clusters: BTreeMap<u32, u64>,
    // Each task with its cluster, or with its processor.
    ready: Vec<(u32, u64)>,
    running: Vec<(u32, u64)>,
    standing: Vec<(u32, u64)>,
}

impl Schedule {
    /// Of a journal without entries.
    pub fn new(alloc: Global) -> Schedule
        ensures { IsSchedule result [] }
    {
        Schedule {
            actor: 0,
            clusters: BTreeMap::new(alloc),
            ready: Vec::new(alloc),
            running: Vec::new(alloc),
            standing: Vec::new(alloc),
        }
    }

    /// Adds the next entry of the journal. After want of memory it is spent.
    pub fn add(&mut self, e: &Entry) -> Result<(), AllocError>
        requires { IsFit e.now }
        ensures { OnOk result ((j : Journal) → IsSchedule self.old j →
            IsSchedule self.new (j ++ e.now ∷ [])) }
    {
        self.ready.reserve(1)?;
        self.running.reserve(1)?;
        self.standing.reserve(1)?;
        move_places(&mut self.clusters, e)?;
        self.actor = actor_behind(e, self.actor);
        let readied = with_cluster(&self.clusters, task_readied(e, self.actor));
        let stood = with_cluster(&self.clusters, task_to_stand(e));
        move_ready(&mut self.ready, e, readied);
        move_running(&mut self.running, e, task_put_on(e, self.actor));
        move_standing(&mut self.standing, e, stood);
        Ok(())
    }

    /// Who has been ready on a cluster for longest.
    pub fn first_ready(&self, cluster: u64) -> Option<u32>
        ensures { (j : Journal) → IsSchedule self.now j → result ≡ first_of (ready cluster j) }
    {
        first_of_number(&self.ready, cluster)
    }

    /// Who runs on a processor.
    pub fn first_running(&self, processor: u8) -> Option<u32>
        ensures { (j : Journal) → IsSchedule self.now j → result ≡ first_of (running processor j) }
    {
        first_of_number(&self.running, u64::from(processor))
    }

    /// Whether a processor has no task, and the queue of a cluster has one.
    pub fn waits_for(&self, processor: u32, cluster: u32) -> bool
        ensures { (j : Journal) → IsSchedule self.now j →
            result ≡ (is_nobody (running processor j) && not (is_nobody (ready cluster j))) }
    {
        if first_of_number(&self.running, u64::from(processor)).is_some() {
            return false;
        }
        first_of_number(&self.ready, u64::from(cluster)).is_some()
    }

    /// Who runs on a processor, where just one task does.
    pub fn only_running(&self, processor: u8) -> Option<u32>
        ensures { (j : Journal) → IsSchedule self.now j → result ≡ only_of (running processor j) }
    {
        only_of_number(&self.running, u64::from(processor))
    }

    /// Whether no task runs on any of the first so many processors.
    pub fn none_running(&self, processors: u64) -> bool
        ensures { (opts : Options) (j : Journal) → IsSchedule self.now j →
            processors ≡ processor_count opts j → result ≡ none_running opts j }
    {
        !has_below(&self.running, processors)
    }

    /// Whether no task is ready on any of the first so many clusters.
    pub fn none_ready(&self, clusters: u64) -> bool
        ensures { (j : Journal) → IsSchedule self.now j → clusters ≡ cluster_count j →
            result ≡ none_ready j }
    {
        !has_below(&self.ready, clusters)
    }

    /// Whether no task is ready on the cluster of any of these processors, which are open.
    pub fn none_served(&self, processors: &[(u32, u32)]) -> bool
        ensures { (opts : Options) (j : Journal) → IsSchedule self.now j →
            processors.now ≡ open_processors opts j → result ≡ none_served opts j }
    {
        none_on(&self.ready, processors)
    }

    /// Whether no task that has not ended is on a cluster.
    pub fn is_empty(&self, cluster: u64) -> bool
        ensures { (j : Journal) → IsSchedule self.now j → result ≡ is_nobody (tasks_on cluster j) }
    {
        first_of_number(&self.standing, cluster).is_none()
    }
}

// The first task of one number.
fn first_of_number(rows: &[(u32, u64)], number: u64) -> Option<u32>
    ensures { result ≡ first_of (of_number number rows.now) }
{
    for row in rows {
        if row.1 == number {
            return Some(row.0);
        }
    }
    None
}

// The task of one number, where just one has it.
fn only_of_number(rows: &[(u32, u64)], number: u64) -> Option<u32>
    ensures { result ≡ only_of (of_number number rows.now) }
{
    for (at, row) in rows.iter().enumerate() {
        if row.1 == number {
            return match first_of_number(&rows[at + 1..], number) {
                Some(_) => None,
                None => Some(row.0),
            };
        }
    }
    None
}

// Whether a number is less than this one.
fn has_below(rows: &[(u32, u64)], number: u64) -> bool
    ensures { result ≡ list_any (λ r. nat_lt r.1 number) rows.now }
{
    rows.iter().any(|row| row.1 < number)
}

// Whether no task has the number of the cluster of any of these processors.
fn none_on(rows: &[(u32, u64)], processors: &[(u32, u32)]) -> bool
    ensures { result ≡ list_all (λ x. is_nobody (of_number x.1 rows.now)) processors.now }
{
    for processor in processors {
        if first_of_number(rows, u64::from(processor.1)).is_some() {
            return false;
        }
    }
    true
}

// Where the tasks are behind an entry.
fn move_places(places: &mut BTreeMap<u32, u64>, e: &Entry) -> Result<(), AllocError>
    requires { IsFit e.now }
    ensures { OnOk result ((t : ℕ) →
        unwrap_or (get nat_cmp places.new t) 0
        ≡ clusters (λ u. unwrap_or (get nat_cmp places.old u) 0) e.now.kind e.now t) }
{
    match e.kind {
        EntryKind::Spawn => {
            let cluster = cluster_of(places, e.task);
            let _before = places.insert(number(e.a) as u32, cluster)?;
            Ok(())
        }
        EntryKind::Migrate => {
            let _before = places.insert(e.task, number(e.a))?;
            Ok(())
        }
        _ => Ok(()),
    }
}

// The cluster that a task is on.
fn cluster_of(places: &BTreeMap<u32, u64>, task: u32) -> u64
    ensures { result ≡ unwrap_or (get nat_cmp places.now task) 0 }
{
    match places.get(&task) {
        Some(cluster) => *cluster,
        None => 0,
    }
}

// A task with its cluster.
fn with_cluster(places: &BTreeMap<u32, u64>, task: Option<u32>) -> Option<(u32, u64)>
    ensures { result ≡ placed (λ t. unwrap_or (get nat_cmp places.now t) 0) task }
{
    match task {
        Some(task) => Some((task, cluster_of(places, task))),
        None => None,
    }
}

// Takes out whom an entry dispatches, and puts whom it makes ready at the end.
fn move_ready(ready: &mut Vec<(u32, u64)>, e: &Entry, readied: Option<(u32, u64)>)
    requires { vec_len ready.old < vec_capacity ready.old }
    ensures { ready.new.items ≡ filter (λ r. not (dispatches e.now.kind e.now r.0)) ready.old.items
        ++ option_to_list readied }
{
    ready.retain(|r| !dispatches(e, r.0));
    match readied {
        Some(task) => ready.push_reserved(task),
        None => {}
    }
}

// Takes out whom an entry takes off its processor, and puts there whom it puts there.
fn move_running(running: &mut Vec<(u32, u64)>, e: &Entry, put: Option<u32>)
    requires { vec_len running.old < vec_capacity running.old }
    ensures { running.new.items
        ≡ filter (λ r. not ((e.now.proc == r.1) && takes_off e.now.kind e.now r.0))
        running.old.items ++ option_to_list (placed (λ t. e.now.proc) put) }
{
    let processor = u64::from(e.proc);
    running.retain(|r| !(processor == r.1 && takes_off(e, r.0)));
    match put {
        Some(task) => running.push_reserved((task, processor)),
        None => {}
    }
}

// Takes out who goes from its cluster by an entry, and puts who comes at the end.
fn move_standing(standing: &mut Vec<(u32, u64)>, e: &Entry, stood: Option<(u32, u64)>)
    requires { vec_len standing.old < vec_capacity standing.old }
    ensures { standing.new.items
        ≡ filter (λ r. not (leaves_cluster e.now.kind e.now r.0)) standing.old.items
        ++ option_to_list stood }
{
    standing.retain(|r| !leaves_cluster(e, r.0));
    match stood {
        Some(task) => standing.push_reserved(task),
        None => {}
    }
}

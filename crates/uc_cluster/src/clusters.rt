//! The clusters and the processors of a run.
ghost use Rattle.std.specs.Prelude.{◌≡◌, ◌<◌, ◌≤◌, ◌==◌, ◌+◌, ◌&&◌, [], true, length, not, replicate, slice_set, vec_capacity, IfOk, IfSome, IfNone, Some, None, nat_lt, if◌then◌else◌, is_some};
ghost use Rattle.std.specs.List.{AllByRecursion, list_any};
ghost use Rattle.uc_tree.specs.declared.limits.TheConstants.{CLUSTERS, PROCESSORS, TASKS};
ghost use Rattle.uc_cluster.specs.ProcessorSet.{has, set_at, no_set};
ghost use Rattle.uc_cluster.specs.Standing.{IsPlaced, IsUnready, queue_at, processor_at, place_of, with_processor, with_place, running, closed, opening, made_ready, with_cluster, one_more_processor, is_nobody, taking, dispatched, after_dispatch, started, may_take, front_at, is_in_use, is_on, stall_of, none_runs, none_ready, none_served, new_number, new_processor, or_0};

use crate::processor_set::ProcessorSet;
use crate::queue::Queue;
use std::alloc::{AllocError, Global};
use std::marker::Model;
use uc_table::Table;
use uc_tree::limits::{CLUSTERS, PROCESSORS, TASKS};

/// Why no task can go on.
#[derive(Clone, Copy)]
pub enum Stalled {
    /// A task runs, or is ready on a cluster with an open processor.
    No,
    /// No task is ready or runs.
    Deadlock,
    /// No task runs, and those that are ready are on clusters without an open processor.
    NoProcessor,
}

/// A processor: its cluster, whether it is open, and the task that runs on it.
#[derive(Clone, Copy)]
pub struct Processor {
    pub(crate) cluster: u32,
    pub(crate) is_open: bool,
    pub(crate) task: Option<u32>,
}

/// The ready queues of the clusters, the processors, and the clusters on which the tasks stand. Clusters and processors are
/// numbered from 0.
///
/// `new` takes all memory, and writes to none that tasks to come would have; no other call takes any.
#[derive(Drop)]
pub struct Clusters {
    queues: Vec<Queue>,
    // Queues of clusters to come.
    spare: Vec<Queue>,
    processors: Vec<Processor>,
    places: Table<Option<u32>>,
    // The processors of each cluster, the ones that are open and free, and the ones whose cluster has a ready task.
    members: Vec<ProcessorSet>,
    idle: ProcessorSet,
    served: ProcessorSet,
}

impl Model for Clusters {
    ghost use Rattle.std.specs.Prelude.{◌≡◌, ◌≤◌, ◌+◌, [], length, vec_capacity};
    ghost use Rattle.std.specs.List.{AllByRecursion, list_any};
    ghost use Rattle.uc_tree.specs.declared.limits.TheConstants.{CLUSTERS, PROCESSORS, TASKS};
    ghost use Rattle.uc_cluster.specs.Standing.{Standing, IsKept};
    ghost use Rattle.uc_cluster.specs.ProcessorSet.{IsMarked};

    ghost Value = { Standing };

    ghost view = { λ c. record { queues = c.queues.items; processors = c.processors.items; places = c.places } };

    ghost invariant = { λ c. (length c.queues.items + length c.spare.items ≡ CLUSTERS) × (CLUSTERS ≤ vec_capacity c.queues) × AllByRecursion (λ q. q ≡ []) c.spare.items
        × (PROCESSORS ≤ vec_capacity c.processors) × (length c.processors.items ≤ PROCESSORS) × (length c.places ≤ TASKS) × AllByRecursion (IsKept (length c.places)) c.queues.items
        × IsMarked c.queues.items c.processors.items c.members.items c.idle c.served × (CLUSTERS ≤ vec_capacity c.members) };
}

impl Clusters {
    /// One cluster with as many processors, and room for as many tasks; task 0 stands on the cluster.
    pub fn new(alloc: Global, processors: u32, tasks: u32) -> Result<Clusters, AllocError>
        requires processors { (1 ≤ processors) × (processors ≤ PROCESSORS) }
        requires tasks { tasks ≤ TASKS }
        ensures { IfOk result (λ c. c ≡ opening processors tasks) }
    {
        let spare = spare_queues(alloc)?;
        let idle = ProcessorSet::first(processors);
        let processors = opening_processors(alloc, processors)?;
        let places = opening_places(alloc, tasks)?;
        let first = Queue::new(alloc)?;
        let mut queues = Vec::with_capacity(alloc, CLUSTERS as usize)?;
        queues.push_reserved(first);
        let mut members = Vec::with_capacity(alloc, CLUSTERS as usize)?;
        members.push_reserved(idle);
        Ok(Clusters {
            queues,
            spare,
            processors,
            places,
            members,
            idle,
            served: ProcessorSet::empty(),
        })
    }

    /// A task, new and not yet ready, stands on its creator's cluster.
    pub fn add_task(&mut self, task: u32, creator: u32)
        requires task { task < length self.old.places }
        requires creator { IsPlaced creator self.old }
        ensures { self.new ≡ with_place self.old task (place_of self.old creator) }
    {
        let place = self.place(creator);
        self.places.set(task as usize, place);
    }

    /// A task has ended, and stands on no cluster.
    pub fn end_task(&mut self, task: u32)
        requires { task < length self.old.places }
        ensures { self.new ≡ with_place self.old task None }
    {
        self.places.set(task as usize, None);
    }

    /// A task stands on another cluster.
    pub fn migrate(&mut self, task: u32, cluster: u32)
        requires task { task < length self.old.places }
        requires cluster { cluster < length self.old.queues }
        ensures { self.new ≡ with_place self.old task (Some cluster) }
    {
        self.places.set(task as usize, Some(cluster));
    }

    /// A processor has no task any more.
    pub fn free(&mut self, processor: u32)
        requires { processor < length self.old.processors }
        ensures { self.new ≡ with_processor self.old processor
            (running None (processor_at self.old processor)) }
    {
        let is_open = self.processors[processor as usize].is_open;
        self.processors[processor as usize].task = None;
        self.idle = self.idle.set(processor, is_open);
    }

    /// A processor takes no dispatch any more. The task that runs on it goes on.
    pub fn close_processor(&mut self, processor: u32)
        requires { processor < length self.old.processors }
        ensures { self.new ≡ with_processor self.old processor
            (closed (processor_at self.old processor)) }
    {
        self.processors[processor as usize].is_open = false;
        self.idle = self.idle.set(processor, false);
    }

    /// The cluster of a processor.
    pub fn cluster_of(&self, processor: u32) -> u32
        requires { processor < length self.now.processors }
        ensures { result ≡ (processor_at self.now processor).cluster }
    {
        self.processors[processor as usize].cluster
    }

    /// The task that runs on a processor; none where there is no such processor.
    pub fn task_on(&self, processor: u32) -> Option<u32>
        ensures value { result ≡ (processor_at self.now processor).task }
        ensures known { IfSome result (λ t. processor < PROCESSORS) }
    {
        match self.processors.get(processor as usize) {
            Some(one) => one.task,
            None => None,
        }
    }

    /// Ends a cluster. False, exactly where a task that has not ended, or an open processor, stands on it.
    pub fn close_cluster(&mut self, cluster: u32) -> bool
        requires { cluster < length self.old.queues }
        ensures value { result ≡ not (is_in_use cluster self.old) }
        ensures same { self.new ≡ self.old }
    {
        if self.has_tasks(cluster) {
            return false;
        }
        !self.has_processors(cluster)
    }

    // Whether a task stands on a cluster.
    fn has_tasks(&self, cluster: u32) -> bool
        ensures { result ≡ list_any (is_on cluster) self.now.places }
    {
        for task in 0..self.places.len() {
            if is_on(self.places.get(task), cluster) {
                return true;
            }
        }
        false
    }

    // Whether an open processor stands on a cluster.
    fn has_processors(&self, cluster: u32) -> bool
        ensures { result ≡ list_any (λ x. x.is_open && (x.cluster == cluster)) self.now.processors }
    {
        self.processors
            .iter()
            .any(|one| one.is_open && one.cluster == cluster)
    }

    /// A task that stands on a cluster goes to the back of that cluster's queue.
    pub fn ready(&mut self, task: u32)
        requires task { task < length self.old.places }
        requires placed { IsPlaced task self.old }
        requires unready { IsUnready task self.old }
        ensures { self.new ≡ made_ready task self.old }
    {
        if let Some(cluster) = self.place(task) {
            self.queues[cluster as usize].push(task);
            self.served = self.served.or(set_at(&self.members, cluster));
        }
    }

    /// The least processor that is open and free and whose cluster has a ready task takes the front of that cluster's queue: the
    /// processor and the task. `None`, exactly where there is no such processor.
    pub fn dispatch(&mut self) -> Option<(u32, u32)>
        ensures value { result ≡ dispatched self.old }
        ensures standing { self.new ≡ after_dispatch self.old }
        ensures known { IfSome result (λ r. r.0 < PROCESSORS) }
    {
        match self.taking() {
            Some(processor) => {
                let task = self.start(processor);
                Some((processor, task))
            }
            None => None,
        }
    }

    /// Adds a cluster, and returns its number. `None`, exactly where there are as many as may be.
    pub fn add_cluster(&mut self) -> Option<u32>
        ensures value { result ≡ new_number CLUSTERS (length self.old.queues) }
        ensures standing { self.new ≡ (if nat_lt (length self.old.queues) CLUSTERS
            then with_cluster self.old else self.old) }
    {
        let number = self.queues.len() as u32;
        match self.spare.pop() {
            Some(queue) => {
                self.queues.push_reserved(queue);
                self.members.push_reserved(ProcessorSet::empty());
                Some(number)
            }
            None => None,
        }
    }

    /// Adds an open and free processor of a cluster, and returns its number. `None`, exactly where there are as many as may be.
    pub fn add_processor(&mut self, cluster: u32) -> Option<u32>
        requires { cluster < length self.old.queues }
        ensures value { result ≡ new_number PROCESSORS (length self.old.processors) }
        ensures standing { self.new ≡ (if nat_lt (length self.old.processors) PROCESSORS
            then one_more_processor cluster self.old else self.old) }
    {
        let number = self.processors.len() as u32;
        if number < PROCESSORS {
            let has_ready = self.has_ready(cluster);
            let members = set_at(&self.members, cluster).set(number, true);
            self.processors.push_reserved(Processor {
                cluster,
                is_open: true,
                task: None,
            });
            self.members[cluster as usize] = members;
            self.idle = self.idle.set(number, true);
            self.served = self.served.set(number, has_ready);
            return Some(number);
        }
        None
    }

    /// Whether no task can go on, and why.
    pub fn stalled(&self) -> Stalled
        ensures { result ≡ stall_of self.now }
    {
        if !self.is_idle() {
            return Stalled::No;
        }
        if self.is_unready() {
            return Stalled::Deadlock;
        }
        if self.is_unserved() {
            return Stalled::NoProcessor;
        }
        Stalled::No
    }

    // Whether no task runs.
    fn is_idle(&self) -> bool
        ensures { result ≡ none_runs self.now }
    {
        self.processors.iter().all(|one| one.task.is_none())
    }

    // Whether no task is ready.
    fn is_unready(&self) -> bool
        ensures { result ≡ none_ready self.now }
    {
        self.queues.iter().all(|queue| queue.is_empty())
    }

    // Whether no task is ready on a cluster with an open processor.
    fn is_unserved(&self) -> bool
        ensures { result ≡ none_served self.now }
    {
        self.processors
            .iter()
            .all(|one| !one.is_open || !self.has_ready(one.cluster))
    }

    // The least processor that may take a task.
    fn taking(&self) -> Option<u32>
        ensures value { result ≡ taking self.now }
        ensures known { IfSome result (λ p. p < length self.now.processors) }
        ensures few { IfSome result (λ p. p < PROCESSORS) }
        ensures ready { IfSome result (λ p. may_take self.now.queues (processor_at self.now p)
            ≡ true) }
    {
        self.idle.and(self.served).least()
    }

    fn has_ready(&self, cluster: u32) -> bool
        ensures { result ≡ not (is_nobody (queue_at self.now.queues cluster)) }
    {
        match self.queues.get(cluster as usize) {
            Some(queue) => !queue.is_empty(),
            None => false,
        }
    }

    // A processor takes the front of its cluster's queue.
    fn start(&mut self, processor: u32) -> u32
        requires processor { processor < length self.old.processors }
        requires ready { may_take self.old.queues (processor_at self.old processor) ≡ true }
        ensures value { result ≡ front_at self.old processor }
        ensures standing { self.new ≡ started self.old processor }
    {
        let cluster = self.processors[processor as usize].cluster;
        let task = self.queues[cluster as usize].shift();
        let is_last = self.queues[cluster as usize].is_empty();
        self.processors[processor as usize].task = Some(task);
        self.idle = self.idle.set(processor, false);
        self.served = self.served.but(is_last, set_at(&self.members, cluster));
        task
    }

    fn place(&self, task: u32) -> Option<u32>
        requires { task < length self.now.places }
        ensures { result ≡ place_of self.now task }
    {
        self.places.get(task as usize)
    }
}

fn set_at(sets: &Vec<ProcessorSet>, cluster: u32) -> ProcessorSet
    ensures { result ≡ set_at sets.now.items cluster }
{
    match sets.get(cluster as usize) {
        Some(set) => *set,
        None => ProcessorSet::empty(),
    }
}

fn spare_queues(alloc: Global) -> Result<Vec<Queue>, AllocError>
    ensures { IfOk result (λ qs. (length qs.items + 1 ≡ CLUSTERS)
        × AllByRecursion (λ q. q ≡ []) qs.items) }
{
    let mut spare = Vec::with_capacity(alloc, CLUSTERS as usize)?;
    for _ in 1..CLUSTERS {
        let queue = Queue::new(alloc)?;
        spare.push(queue)?;
    }
    Ok(spare)
}

fn opening_processors(alloc: Global, count: u32) -> Result<Vec<Processor>, AllocError>
    requires { count ≤ PROCESSORS }
    ensures { IfOk result (λ ps. (ps.items ≡ replicate count (new_processor 0))
        × (PROCESSORS ≤ vec_capacity ps)) }
{
    let mut processors = Vec::with_capacity(alloc, PROCESSORS as usize)?;
    for _ in 0..count {
        processors.push_reserved(Processor {
            cluster: 0,
            is_open: true,
            task: None,
        });
    }
    Ok(processors)
}

fn opening_places(alloc: Global, tasks: u32) -> Result<Table<Option<u32>>, AllocError>
    ensures { IfOk result (λ ps. ps ≡ slice_set (replicate tasks None) 0 (Some 0)) }
{
    let mut places = Table::new(alloc, tasks, None)?;
    if tasks > 0 {
        places.set(0, Some(0));
    }
    Ok(places)
}

fn is_on(place: Option<u32>, cluster: u32) -> bool
    ensures { result ≡ is_on cluster place }
{
    match place {
        Some(on) => on == cluster,
        None => false,
    }
}

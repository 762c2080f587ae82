//! The queues of conditions.
ghost use Rattle.std.specs.Prelude.{◌≡◌, ◌<◌, ◌++◌, ◌-◌, ◌∷◌, [], true, false, length, max, replicate, slice_index_or, OnOk, OnErr, IfSome, ℕ};
ghost use Rattle.uc_condition.specs.Waiting.{IsFree, Became, queue_at, SameQueues, first_task, first_number, rest_of, IsBusy};
ghost use Rattle.uc_condition.specs.Buckets.{no_row, no_bucket, bucket_at};
ghost use Rattle.uc_condition.specs.declared.buckets.TheConstants.{BUCKETS};

use crate::buckets::{BUCKETS, Bucket, WaitRow, find, link, place, unlink};
use std::alloc::{AllocError, Global};
use std::marker::Model;

/// The tasks that wait on conditions. Contracts see one queue for each condition of each object: the tasks, each with the number
/// that it gave, oldest first.
///
/// `reserve` takes all memory; the other calls take none. The waits stand in a table of buckets by object and condition. A call
/// looks at those waits of its bucket that are older than the one that it is about, which are waits on other conditions.
#[derive(Drop)]
pub struct Conditions {
    // By the task, for those that wait.
    rows: Vec<WaitRow>,
    buckets: Vec<Bucket>,
    // By the object: how many tasks wait on its conditions.
    counts: Vec<u64>,
    tasks: u32,
    objects: u32,
}

impl Model for Conditions {
    ghost use Rattle.uc_condition.specs.Waiting.{Waiting};
    ghost use Rattle.uc_condition.specs.Buckets.{IsTable, all_waits};

    ghost Value = { Waiting };

    ghost view = { λ c. record { tasks = c.tasks; objects = c.objects; buckets = all_waits c.rows.items c.buckets.items } };

    ghost invariant = { λ c. IsTable c.tasks c.objects c.rows.items c.buckets.items c.counts.items };
}

impl Conditions {
    /// No task and no object is known.
    pub fn new(alloc: Global) -> Conditions
        ensures known { (result.tasks ≡ 0) × (result.objects ≡ 0) }
        ensures queues { (o c : ℕ) → queue_at result o c ≡ [] }
    {
        Conditions {
            rows: Vec::new(alloc),
            buckets: Vec::new(alloc),
            counts: Vec::new(alloc),
            tasks: 0,
            objects: 0,
        }
    }

    /// Takes memory so that as many tasks may wait at as many objects; no fewer are known than before.
    pub fn reserve(&mut self, tasks: u32, objects: u32) -> Result<(), AllocError>
        ensures tasks { OnOk result (self.new.tasks ≡ max self.old.tasks tasks) }
        ensures objects { OnOk result (self.new.objects ≡ max self.old.objects objects) }
        ensures same { SameQueues self.old self.new }
        ensures err { OnErr result ((self.new.tasks ≡ self.old.tasks)
            × (self.new.objects ≡ self.old.objects)) }
    {
        add_buckets(&mut self.buckets)?;
        add_rows(&mut self.rows, tasks)?;
        add_counts(&mut self.counts, objects)?;
        self.tasks = self.tasks.max(tasks);
        self.objects = self.objects.max(objects);
        Ok(())
    }

    /// A task waits behind the others, with its number.
    pub fn wait(&mut self, object: u32, cond: u16, task: u32, n: i64)
        requires object { object < self.old.objects }
        requires task { task < self.old.tasks }
        requires free { IsFree task self.old }
        ensures { Became self.old self.new object cond (queue_at self.old object cond ++ (task, n)
            ∷ []) }
    {
        let at = place(object, cond);
        let bucket = bucket_at(&self.buckets, at);
        let row = WaitRow {
            object,
            cond,
            n,
            next: 0,
        };
        let longer = link(&mut self.rows, bucket, task, row);
        self.buckets[at] = longer;
        self.counts[object as usize] += 1;
    }

    /// Takes the oldest task out of a queue. `None`, and nothing changes, exactly where nobody waits there.
    pub fn take(&mut self, object: u32, cond: u16) -> Option<u32>
        ensures value { result ≡ first_task (queue_at self.old object cond) }
        ensures queues { Became self.old self.new object cond
            (rest_of (queue_at self.old object cond)) }
        ensures free { IfSome result (λ t. IsFree t self.new) }
    {
        let at = place(object, cond);
        let bucket = bucket_at(&self.buckets, at);
        match find(&self.rows, bucket, object, cond) {
            Some(found) => {
                let shorter = unlink(&mut self.rows, bucket, found);
                self.buckets[at] = shorter;
                self.counts[object as usize] -= 1;
                Some(found.task)
            }
            None => None,
        }
    }

    /// The number of the oldest task in a queue. `None` exactly where nobody waits there.
    pub fn front(&self, object: u32, cond: u16) -> Option<i64>
        ensures { result ≡ first_number (queue_at self.now object cond) }
    {
        let bucket = bucket_at(&self.buckets, place(object, cond));
        match find(&self.rows, bucket, object, cond) {
            Some(found) => {
                let row = self.rows[found.task as usize];
                Some(row.n)
            }
            None => None,
        }
    }

    /// Whether a task waits on a condition of an object.
    pub fn is_busy(&self, object: u32) -> bool
        ensures busy { result ≡ true → IsBusy object self.now }
        ensures idle { result ≡ false → (c : ℕ) → queue_at self.now object c ≡ [] }
    {
        count_at(&self.counts, object) > 0
    }
}

const NO_ROW: WaitRow = WaitRow {
    object: 0,
    cond: 0,
    n: 0,
    next: 0,
};

const NO_BUCKET: Bucket = Bucket {
    count: 0,
    first: 0,
    last: 0,
};

fn bucket_at(buckets: &Vec<Bucket>, at: usize) -> Bucket
    ensures { result ≡ bucket_at buckets.now.items at }
{
    match buckets.get(at) {
        Some(bucket) => *bucket,
        None => NO_BUCKET,
    }
}

fn count_at(counts: &Vec<u64>, object: u32) -> u64
    ensures { result ≡ slice_index_or counts.now.items object 0 }
{
    match counts.get(object as usize) {
        Some(count) => *count,
        None => 0,
    }
}

fn add_rows(rows: &mut Vec<WaitRow>, tasks: u32) -> Result<(), AllocError>
    ensures ok { OnOk result (rows.new.items
        ≡ rows.old.items ++ replicate (tasks - length rows.old.items) no_row) }
    ensures err { OnErr result (rows.new.items ≡ rows.old.items) }
{
    if rows.len() < tasks as usize {
        rows.resize(tasks as usize, NO_ROW)?;
    }
    Ok(())
}

fn add_buckets(buckets: &mut Vec<Bucket>) -> Result<(), AllocError>
    ensures ok { OnOk result (buckets.new.items
        ≡ buckets.old.items ++ replicate (BUCKETS - length buckets.old.items) no_bucket) }
    ensures err { OnErr result (buckets.new.items ≡ buckets.old.items) }
{
    if buckets.len() < BUCKETS as usize {
        buckets.resize(BUCKETS as usize, NO_BUCKET)?;
    }
    Ok(())
}

fn add_counts(counts: &mut Vec<u64>, objects: u32) -> Result<(), AllocError>
    ensures ok { OnOk result (counts.new.items
        ≡ counts.old.items ++ replicate (objects - length counts.old.items) 0) }
    ensures err { OnErr result (counts.new.items ≡ counts.old.items) }
{
    if counts.len() < objects as usize {
        counts.resize(objects as usize, 0)?;
    }
    Ok(())
}

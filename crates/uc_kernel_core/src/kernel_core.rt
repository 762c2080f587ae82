//! The journal and the parts, one act at a time.
ghost use Rattle.std.specs.Prelude.{◌≡◌, ◌⊎◌, ◌<◌, ◌≤◌, ◌+◌, ◌++◌, ◌∷◌, [], ℕ, false, true, length, pos, ◌==◌, if◌then◌else◌, replicate, IfOk, Ok, Some};
ghost use Rattle.uc_tree.specs.declared.limits.TheConstants.{TASKS, PROCESSORS};
ghost use Rattle.uc_acts.specs.Journal;
ghost use Rattle.uc_entry.specs.declared.entry.EntryKind.TheVariants as kind;
ghost use Rattle.uc_acts.specs.Journal.{begin, cost, no_cost, is_over, is_ending, inside, own_object};
ghost use Rattle.uc_acts.specs.Queues.{running};
ghost use Rattle.uc_acts.specs.Doors.{has_others, blocked};
ghost use Rattle.uc_acts.specs.Known.{object_count};
ghost use Rattle.uc_entry.specs.declared.request.Request.TheVariants as ask;
ghost use Rattle.uc_kernel_journal.specs.EntryAnswers.{IsSayable};
ghost use Rattle.uc_cluster.specs.Standing.{opening, made_ready};
ghost use Rattle.uc_acts.specs.Acts.{fault, settled, admission, truth};
ghost use Rattle.uc_acts.specs.Queues.{next, is_nobody};
ghost use Rattle.uc_acts.specs.KernelRuns.{IsAt, InRange};
ghost use Rattle.uc_mutex.specs.Doors.{door_at, has_tasks, no_doors, with_new};
ghost use Rattle.uc_condition.specs.Waiting.{IsBusy, queue_at, first_number};
ghost use Rattle.uc_kernel_core.specs.Mirrors.{AreKnownSites, Appended, CanPut, IsAside, MayAct, rows, is_back, is_exit, is_quiet};
ghost use Rattle.uc_acts.specs.Reading.{next_read, read_after, bytes_used, has_failed};
ghost use Rattle.uc_tree.specs.declared.limits.TheConstants.{INPUT_BYTES};

use crate::entries::{
    Actor, asking, busy_entry, condition_entry, empty_entry, fail_entry, fault_entry, leave_entry,
    next_entry, poll_entry, print_entry, read_entry,
};
use std::alloc::{AllocError, Global};
use std::marker::Model;
use uc_acts::got::Got;
use uc_cluster::Clusters;
use uc_condition::Conditions;
use uc_entry::entry::{Entry, EntryKind, Options};
use uc_entry::request::Piece;
use uc_events::Events;
use uc_input::reading::read_form;
use uc_kernel_journal::KernelJournal;
use uc_mutex::Entries;
use uc_tree::limits::TASKS;
use uc_tree::made::both;
use uc_tree::site::Site;

/// The journal of a run and the queues of its kernel.
#[derive(Drop)]
pub struct KernelCore {
    pub(crate) journal: KernelJournal,
    pub(crate) entries: Entries,
    pub(crate) conditions: Conditions,
    pub(crate) events: Events,
    pub(crate) clusters: Clusters,
    // By the task: whether the last call of an object in whose queue it is was of the destructor.
    pub(crate) marks: Vec<bool>,
    // The same of the task inside, by the object.
    pub(crate) inside_marks: Vec<bool>,
    // By the object: the task whose own object it is.
    pub(crate) owners: Vec<Option<u32>>,
    // By the task: its own object.
    pub(crate) own: Vec<u32>,
    pub(crate) opts: Options,
    pub(crate) input: Vec<u8>,
}

impl Model for KernelCore {
    ghost use Rattle.uc_kernel_core.specs.Mirrors.{Seen, seen, IsBook};

    ghost Value = { Seen };

    ghost view = { λ b. seen b.journal b.opts b.input.items };

    ghost invariant = { λ b. IsBook b.journal b.entries b.conditions b.events b.clusters b.marks.items b.inside_marks.items b.owners.items b.own.items b.opts };
}

impl KernelCore {
    /// A run that opens with these options, over these accept statements and this input.
    pub fn open(
        alloc: Global,
        opts: &Options,
        sites: Vec<Site>,
        input: Vec<u8>,
    ) -> Result<KernelCore, AllocError>
        requires options { InRange opts.now }
        requires sites { AreKnownSites sites.items }
        ensures { IfOk result (λ b. b
            ≡ record {
              journal = begin opts.now
                  ∷ [];
              sites = sites.items;
              opts = opts.now;
              input = input.items;
            }) }
    {
        let queues = both(first_entries(alloc), first_conditions(alloc));
        let places = both(first_events(alloc), first_clusters(alloc, opts.processors));
        let by_task = both(no_marks(alloc, TASKS), first_objects(alloc, TASKS));
        let by_object = both(no_marks(alloc, 1), first_owners(alloc));
        let parts = both(both(queues, places), both(by_task, by_object));
        let journal = KernelJournal::new(alloc, opts, sites, TASKS, opts.entries + 40);
        let ((queues, tables), journal) = both(parts, journal)?;
        let ((entries, conditions), (events, clusters)) = queues;
        let ((marks, own), (inside_marks, owners)) = tables;
        Ok(KernelCore {
            journal,
            entries,
            conditions,
            events,
            clusters,
            marks,
            inside_marks,
            owners,
            own,
            opts: *opts,
            input,
        })
    }

    /// The entries of the journal.
    pub fn journal(&self) -> &[Entry]
        ensures { result.now ≡ self.now.journal }
    {
        self.journal.entries()
    }

    /// The journal alone.
    pub fn into_journal(self) -> Vec<Entry>
        ensures { result.items ≡ self.journal }
    {
        self.journal.into_journal()
    }

    /// An entry that touches no queue.
    #[inline(always)]
    pub(crate) fn put_quiet(&mut self, e: Entry)
        requires can { CanPut self.old e }
        requires quiet { is_quiet e.kind ≡ true }
        requires sayable { IsSayable TASKS e.kind e }
        ensures { Appended self.old self.new (e ∷ []) }
    {
        self.journal.push(e);
    }

    /// An entry that ends the run.
    pub(crate) fn put_ending(&mut self, e: Entry)
        requires going { is_over self.old.journal ≡ false }
        requires ends { is_ending e.kind ≡ true }
        requires room { length self.old.journal < self.old.opts.entries + 40 }
        requires task { e.task < TASKS }
        ensures { Appended self.old self.new (e ∷ []) }
    {
        self.journal.push(e);
    }

    /// An entry by which its task goes to the back of the ready queue of its cluster.
    #[inline(always)]
    pub(crate) fn put_back(&mut self, e: Entry)
        requires can { CanPut self.old e }
        requires back { is_back e.kind ≡ true }
        requires runs { running e.proc self.old.journal ≡ e.task ∷ [] }
        ensures { Appended self.old self.new (e ∷ []) }
    {
        self.journal.push(e);
        self.clusters.free(u32::from(e.proc));
        self.clusters.ready(e.task);
    }

    /// Whoever is inside goes out, and goes on to run.
    #[inline(always)]
    pub(crate) fn put_out(&mut self, e: Entry)
        requires can { CanPut self.old e }
        requires exits { is_exit e.kind ≡ true }
        requires within { inside e.object self.old.journal ≡ e.task ∷ [] }
        requires known { e.object < object_count self.old.journal }
        ensures { Appended self.old self.new (e ∷ []) }
    {
        self.journal.push(e);
        self.entries.leave(e.object);
    }

    /// A task leaves an object: its call there is over, and has failed or not.
    #[inline(always)]
    fn put_leave(&mut self, who: Actor, object: u32, failed: bool)
        requires can { CanPut self.old
            (Journal.asking kind.Leave who.processor who.task (cost who.ticks who.line) object
            (truth failed) (pos 0)) }
        requires within { inside object self.old.journal ≡ who.task ∷ [] }
        requires known { object < object_count self.old.journal }
        ensures { Appended self.old self.new
            (Journal.asking kind.Leave who.processor who.task (cost who.ticks who.line) object
            (truth failed) (pos 0) ∷ []) }
    {
        self.journal.push(leave_entry(who, object, failed));
        self.entries.end_call(object, who.task, failed);
        self.entries.leave(object);
    }

    /// Lets in whoever is next at an object that nobody is inside, or ends the run where that would destroy what is in use.
    #[inline(always)]
    pub(crate) fn admit_next(&mut self, who: Actor, object: u32)
        requires going { is_over self.old.journal ≡ false }
        requires known { object < object_count self.old.journal }
        requires room { length self.old.journal < self.old.opts.entries + 40 }
        requires empty { inside object self.old.journal ≡ [] }
        requires aside { IsAside who.task object self.old.journal }
        requires task { who.task < TASKS }
        ensures { Appended self.old self.new
            (settled (fault who.processor who.task no_cost 10 who.line) self.old.journal
            (admission self.old.sites who.processor object self.old.journal
            (next object self.old.journal))) }
    {
        match self.entries.next(object) {
            None => {}
            Some(passed) => {
                let mark = self.marks[passed.task as usize];
                if destroys_busy(mark, &self.entries, &self.conditions, object) {
                    self.journal.push(busy_entry(who));
                    return;
                }
                self.journal.push(next_entry(who, object, passed));
                self.clusters.ready(passed.task);
                self.inside_marks[object as usize] = mark;
            }
        }
    }

    /// A task leaves an object, by a call that has failed or not.
    pub(crate) fn leave(&mut self, who: Actor, object: u32, failed: bool)
        requires may { MayAct self.old who.processor who.task }
        requires at { IsAt who.task object self.old.journal }
        ensures { Appended self.old self.new
            (rows self.old who.processor who.task who.ticks who.line (ask.Leave object failed)) }
    {
        self.put_leave(who, object, failed);
        self.admit_next(who, object);
    }

    /// A task has built an object, and leaves it.
    pub(crate) fn made(&mut self, who: Actor, object: u32)
        requires may { MayAct self.old who.processor who.task }
        requires at { IsAt who.task object self.old.journal }
        ensures { Appended self.old self.new
            (rows self.old who.processor who.task who.ticks who.line (ask.Made object)) }
    {
        self.put_out(asking(EntryKind::Made, who, object, 0, 0));
        self.admit_next(who, object);
    }

    /// The main of a task ends: its task goes out of its own object, and runs and stands nowhere any more.
    pub(crate) fn put_end(&mut self, e: Entry)
        requires can { CanPut self.old e }
        requires ends { e.kind ≡ kind.End }
        requires runs { running e.proc self.old.journal ≡ e.task ∷ [] }
        requires within { inside e.object self.old.journal ≡ e.task ∷ [] }
        requires known { e.object < object_count self.old.journal }
        ensures { Appended self.old self.new (e ∷ []) }
    {
        self.journal.push(e);
        self.entries.leave(e.object);
        self.clusters.free(u32::from(e.proc));
        self.clusters.end_task(e.task);
    }

    /// The own object of a task, for which it was made. It is 0 for task 0, and for a task that is not made yet.
    pub fn own_object(&self, task: u32) -> u32
        requires going { is_over self.now.journal ≡ false }
        requires known { task < TASKS }
        ensures { result ≡ own_object task self.now.journal }
    {
        self.own[task as usize]
    }

    /// The main of a task ends.
    pub(crate) fn end(&mut self, who: Actor)
        requires may { MayAct self.old who.processor who.task }
        requires at { IsAt who.task (own_object who.task self.old.journal) self.old.journal }
        ensures { Appended self.old self.new
            (rows self.old who.processor who.task who.ticks who.line ask.End) }
    {
        let object = self.own_object(who.task);
        self.put_end(asking(EntryKind::End, who, object, 0, 0));
        self.admit_next(who, object);
    }

    /// Whether a task other than the acting one is in a queue of an object.
    pub(crate) fn has_others(&self, who: Actor, object: u32) -> bool
        requires may { MayAct self.now who.processor who.task }
        requires known { object < object_count self.now.journal }
        ensures { result ≡ has_others object who.task self.now.journal }
    {
        destroys_busy(true, &self.entries, &self.conditions, object)
    }

    /// A task has destroyed an object.
    pub(crate) fn gone(&mut self, who: Actor, object: u32)
        requires may { MayAct self.old who.processor who.task }
        requires at { IsAt who.task object self.old.journal }
        ensures { Appended self.old self.new
            (rows self.old who.processor who.task who.ticks who.line (ask.Gone object)) }
    {
        if self.has_others(who, object) {
            self.put_ending(fault_entry(who, 10));
        } else {
            self.put_out(asking(EntryKind::Gone, who, object, 0, 0));
        }
    }

    /// The number that the front waiter of a condition gave.
    fn front_number(&self, object: u32, cond: u16) -> Option<i64>
        requires going { is_over self.now.journal ≡ false }
        ensures { result ≡ first_number (blocked object cond self.now.journal) }
    {
        self.conditions.front(object, cond)
    }

    pub(crate) fn nobody_on(&self, object: u32, cond: u16) -> bool
        requires going { is_over self.now.journal ≡ false }
        ensures { result ≡ is_nobody (blocked object cond self.now.journal) }
    {
        match self.front_number(object, cond) {
            None => true,
            Some(_) => false,
        }
    }

    /// A task asks whether nobody waits on a condition.
    pub(crate) fn empty(&mut self, who: Actor, object: u32, cond: u16)
        requires may { MayAct self.old who.processor who.task }
        requires at { IsAt who.task object self.old.journal }
        ensures { Appended self.old self.new
            (rows self.old who.processor who.task who.ticks who.line (ask.Empty object cond)) }
    {
        let nobody = self.nobody_on(object, cond);
        self.put_quiet(empty_entry(who, object, cond, nobody));
    }

    /// A task asks for the number of the front waiter of a condition.
    pub(crate) fn front(&mut self, who: Actor, object: u32, cond: u16)
        requires may { MayAct self.old who.processor who.task }
        requires at { IsAt who.task object self.old.journal }
        ensures { Appended self.old self.new
            (rows self.old who.processor who.task who.ticks who.line (ask.Front object cond)) }
    {
        match self.front_number(object, cond) {
            None => self.put_ending(fault_entry(who, 11)),
            Some(n) => self.put_quiet(condition_entry(EntryKind::Front, who, object, cond, n)),
        }
    }

    /// A task takes the oldest event of the mask that is pending at it.
    pub(crate) fn poll(&mut self, who: Actor, mask: u64)
        requires may { MayAct self.old who.processor who.task }
        ensures { Appended self.old self.new
            (rows self.old who.processor who.task who.ticks who.line (ask.Poll mask)) }
    {
        let found = self.events.poll(who.task, mask);
        self.journal.push(poll_entry(who, mask, found));
    }

    /// A request that is itself at fault.
    pub(crate) fn fault(&mut self, who: Actor, number: u8)
        requires may { MayAct self.old who.processor who.task }
        ensures { Appended self.old self.new
            (rows self.old who.processor who.task who.ticks who.line (ask.Fault number)) }
    {
        self.put_ending(fault_entry(who, number));
    }

    /// A task asks whether a read has failed.
    pub(crate) fn fail(&mut self, who: Actor)
        requires may { MayAct self.old who.processor who.task }
        ensures { Appended self.old self.new
            (rows self.old who.processor who.task who.ticks who.line ask.Fail) }
    {
        let failed = self.has_failed();
        self.put_quiet(fail_entry(who, failed));
    }

    /// A task goes to the back, after its slice.
    pub(crate) fn slice(&mut self, who: Actor)
        requires may { MayAct self.old who.processor who.task }
        ensures { Appended self.old self.new
            (rows self.old who.processor who.task who.ticks who.line ask.Slice) }
    {
        self.put_back(asking(EntryKind::Slice, who, 0, 0, 0));
    }

    /// A task goes to the back at will.
    pub(crate) fn yields(&mut self, who: Actor)
        requires may { MayAct self.old who.processor who.task }
        ensures { Appended self.old self.new
            (rows self.old who.processor who.task who.ticks who.line ask.Yield) }
    {
        self.put_back(asking(EntryKind::Yield, who, 0, 0, 0));
    }

    /// A task prints: one entry for each item, of which the first alone carries the ticks.
    #[inline(always)]
    pub(crate) fn print(&mut self, who: Actor, n: u8, items: &[Piece; 32])
        requires may { MayAct self.old who.processor who.task }
        requires items { (1 ≤ n) × (n ≤ 32) }
        ensures { Appended self.old self.new
            (rows self.old who.processor who.task who.ticks who.line (ask.Print n items.now)) }
    {
        self.put_print(who, true, items[0]);
        for at in 1..n as usize {
            self.put_print(who, false, items[at]);
        }
    }

    /// One printed item, the first or a later one.
    #[inline(always)]
    fn put_print(&mut self, who: Actor, first: bool, piece: Piece)
        requires going { is_over self.old.journal ≡ false }
        requires room { length self.old.journal < self.old.opts.entries + 40 }
        requires task { who.task < TASKS }
        ensures { Appended self.old self.new
            (Journal.asking kind.Print who.processor who.task (if first then cost who.ticks who.line
            else no_cost) 0 (pos piece.form) piece.value ∷ []) }
    {
        self.put_quiet(print_entry(who, first, piece));
    }

    fn has_failed(&self) -> bool
        requires going { is_over self.now.journal ≡ false }
        ensures { result ≡ has_failed self.now.journal }
    {
        self.journal.has_read_failed()
    }

    fn bytes_used(&self) -> u32
        requires going { is_over self.now.journal ≡ false }
        ensures { result ≡ bytes_used self.now.journal }
    {
        self.journal.bytes()
    }

    /// What the next read of this form takes of the input.
    fn next_got(&self, form: u8) -> Got
        requires going { is_over self.now.journal ≡ false }
        requires small { length self.now.input ≤ INPUT_BYTES }
        ensures got { result ≡ next_read form self.now.input self.now.journal }
        ensures sum { bytes_used self.now.journal + result.taken < 4294967296 }
    {
        got_after(
            self.journal.has_read_failed(),
            form,
            self.journal.bytes() as usize,
            self.input.as_slice(),
        )
    }

    /// A task reads.
    pub(crate) fn read(&mut self, who: Actor, form: u8)
        requires may { MayAct self.old who.processor who.task }
        requires small { length self.old.input ≤ INPUT_BYTES }
        requires form { form ≤ 1 }
        ensures { Appended self.old self.new
            (rows self.old who.processor who.task who.ticks who.line (ask.Read form)) }
    {
        let got = self.next_got(form);
        let used = self.bytes_used();
        self.put_quiet(read_entry(who, form, got, used, used + got.taken));
    }
}

// Whether the caller of a destructor was let in where others wait, are stacked or are blocked.
pub(crate) fn destroys_busy(
    mark: bool,
    entries: &Entries,
    conditions: &Conditions,
    object: u32,
) -> bool
    ensures yes { result ≡ true →
        (mark ≡ true)
        × ((has_tasks (door_at entries.now object) ≡ true) ⊎ IsBusy object conditions.now) }
    ensures no { result ≡ false →
        (mark ≡ false)
        ⊎ ((has_tasks (door_at entries.now object) ≡ false)
        × ((c : ℕ) → queue_at conditions.now object c ≡ [])) }
{
    if !mark {
        return false;
    }
    if entries.is_busy(object) {
        return true;
    }
    conditions.is_busy(object)
}

// After a failure every read fails, takes nothing and gives 0.
fn got_after(failed: bool, form: u8, used: usize, input: &[u8]) -> Got
    requires small { length input.now ≤ INPUT_BYTES }
    requires used { used < 4294967296 }
    ensures got { result ≡ read_after failed form input.now used }
    ensures sum { used + result.taken < 4294967296 }
{
    if failed {
        return Got {
            value: 0,
            failed: true,
            taken: 0,
        };
    }
    if used <= input.len() {
        return read_form(form, &input[used..]);
    }
    read_form(form, &[])
}

// Task 0 is inside object 0.
fn first_entries(alloc: Global) -> Result<Entries, AllocError>
    ensures room { IfOk result (λ e. 1 ≤ e.tasks) }
    ensures doors { IfOk result (λ e. e ≡ with_new (no_doors e.tasks) 0) }
{
    let mut entries = Entries::new(alloc, TASKS)?;
    entries.reserve(1)?;
    let _object = entries.add_object(0)?;
    Ok(entries)
}

fn first_conditions(alloc: Global) -> Result<Conditions, AllocError>
    ensures { IfOk result (λ w. (w.tasks ≡ 1) × (w.objects ≡ 1)
        × ((o c : ℕ) → queue_at w o c ≡ [])) }
{
    let mut conditions = Conditions::new(alloc);
    conditions.reserve(1, 1)?;
    Ok(conditions)
}

fn first_events(alloc: Global) -> Result<Events, AllocError>
    ensures { IfOk result (λ e. e ≡ [] ∷ []) }
{
    let mut events = Events::new(alloc);
    events.reserve(1)?;
    Ok(events)
}

// Task 0 is ready.
fn first_clusters(alloc: Global, processors: u32) -> Result<Clusters, AllocError>
    requires { (1 ≤ processors) × (processors ≤ PROCESSORS) }
    ensures { IfOk result (λ c. c ≡ made_ready 0 (opening processors TASKS)) }
{
    let mut clusters = Clusters::new(alloc, processors, TASKS)?;
    clusters.ready(0);
    Ok(clusters)
}

fn no_marks(alloc: Global, count: u32) -> Result<Vec<bool>, AllocError>
    ensures { IfOk result (λ v. v.items ≡ replicate count false) }
{
    vec![in alloc; false; count as usize]
}

fn first_owners(alloc: Global) -> Result<Vec<Option<u32>>, AllocError>
    ensures { IfOk result (λ v. v.items ≡ Some 0 ∷ []) }
{
    let mut owners = Vec::with_capacity(alloc, 1)?;
    owners.push_reserved(Some(0));
    Ok(owners)
}

fn first_objects(alloc: Global, count: u32) -> Result<Vec<u32>, AllocError>
    ensures { IfOk result (λ v. v.items ≡ replicate count 0) }
{
    vec![in alloc; 0u32; count as usize]
}

// Who acts, and the entries that it makes.

ghost use Rattle.std.specs.Prelude.{◌≡◌, ◌≤◌, ℕ, pos};
ghost use Rattle.uc_tree.specs.declared.limits.TheConstants.{TICKS_MAX};
ghost use Rattle.uc_entry.specs.declared.entry.EntryKind.TheVariants as variant;
ghost use Rattle.uc_acts.specs.Fit.{IsFit, types_of};
ghost use Rattle.uc_acts.specs.Journal.{entry, asking, begin};
ghost use Rattle.uc_acts.specs.Acts.{truth, accept_entry, admit_failed, push, fault, raise_entry, poll_entry, read_entry, dispatch};
ghost use Rattle.uc_judge.specs.Actors.{cost_of, cost_at, IsRead};
ghost use Rattle.uc_judge.specs.Narrow.{IsNarrow};

use uc_acts::got::Got;
use uc_entry::entry::{Entry, EntryKind, Options};

/// A task that runs, its processor, the ticks that it makes before it asks, and the line of what it asks.
#[derive(Clone, Copy)]
pub struct Actor {
    pub processor: u8,
    pub task: u32,
    pub ticks: u32,
    pub line: u32,
}

impl Actor {
    /// It asks no more behind the first entry of its act.
    pub(crate) fn freed(self) -> Actor
        ensures { result ≡ record {
          processor = self.processor;
          task = self.task;
          ticks = 0;
          line = 0;
        } }
    {
        Actor {
            processor: self.processor,
            task: self.task,
            ticks: 0,
            line: 0,
        }
    }

    /// Who prints an item, by its place: only the first entry of an act carries ticks and a line.
    pub(crate) fn of_item(self, i: usize) -> Actor
        ensures cost { cost_of result ≡ cost_at (cost_of self) i }
        ensures processor { result.processor ≡ self.processor }
        ensures task { result.task ≡ self.task }
    {
        if i == 0 {
            return self;
        }
        self.freed()
    }

    /// An entry of this kind with two fields.
    fn entry(self, kind: EntryKind, object: u32, a: i64, b: i64) -> Entry
        ensures { result ≡ asking kind self.processor self.task (cost_of self) object a b }
    {
        Entry {
            kind,
            proc: self.processor,
            task: self.task,
            ticks: self.ticks,
            object,
            a,
            b,
            c: 0,
            d: 0,
            line: self.line,
        }
    }

    /// An entry of which only the kind tells.
    pub(crate) fn plain(self, kind: EntryKind) -> Entry
        requires { types_of kind ≡ types_of variant.Yield }
        ensures is { result ≡ asking kind self.processor self.task (cost_of self) 0 (pos 0)
            (pos 0) }
        ensures fit { IsFit result }
    {
        self.entry(kind, 0, 0, 0)
    }

    /// An ending.
    pub(crate) fn ending(self, kind: EntryKind) -> Entry
        ensures { result ≡ entry kind self.processor self.task 0 0 (pos 0) (pos 0) }
    {
        self.freed().entry(kind, 0, 0, 0)
    }

    /// An entry that names an object alone.
    pub(crate) fn at(self, kind: EntryKind, object: u32) -> Entry
        requires { types_of kind ≡ types_of variant.Made }
        ensures is { result ≡ asking kind self.processor self.task (cost_of self) object (pos 0)
            (pos 0) }
        ensures fit { IsFit result }
    {
        self.entry(kind, object, 0, 0)
    }

    /// An entry that names an object, and a class or a task.
    pub(crate) fn made(self, kind: EntryKind, object: u32, number: u32) -> Entry
        requires { types_of kind ≡ types_of variant.Make }
        ensures is { result ≡ asking kind self.processor self.task (cost_of self) object
            (pos number) (pos 0) }
        ensures fit { IsFit result }
    {
        self.entry(kind, object, i64::from(number), 0)
    }

    /// A call of a member.
    pub(crate) fn call(self, object: u32, member: u8) -> Entry
        ensures is { result ≡ asking variant.Call self.processor self.task (cost_of self) object
            (pos member) (pos 0) }
        ensures fit { IsFit result }
    {
        self.entry(EntryKind::Call, object, i64::from(member), 0)
    }

    /// The end of a call, which has failed or not.
    pub(crate) fn leave(self, object: u32, failed: bool) -> Entry
        ensures is { result ≡ asking variant.Leave self.processor self.task (cost_of self) object
            (truth failed) (pos 0) }
        ensures fit { IsFit result }
    {
        self.entry(EntryKind::Leave, object, truth(failed), 0)
    }

    /// An accept of a site with its mask, and how it went.
    pub(crate) fn accept(self, object: u32, site: u32, mask: u32, has_else: bool, how: u8) -> Entry
        ensures is { result ≡ accept_entry self.processor self.task
            (cost_of self) object site mask has_else how }
        ensures fit { IsFit result }
    {
        let mut e = self.entry(EntryKind::Accept, object, i64::from(site), i64::from(mask));
        e.c = truth(has_else);
        e.d = i64::from(how);
        e
    }

    /// An entry that names a condition and a number.
    pub(crate) fn wait(self, kind: EntryKind, object: u32, cond: u16, n: i64) -> Entry
        requires { types_of kind ≡ types_of variant.Wait }
        ensures is { result ≡ asking kind self.processor self.task (cost_of self) object
            (pos cond) n }
        ensures fit { IsFit result }
    {
        self.entry(kind, object, i64::from(cond), n)
    }

    /// An entry that names a condition, and whether somebody or nobody is blocked there.
    pub(crate) fn signal(self, kind: EntryKind, object: u32, cond: u16, holds: bool) -> Entry
        requires { types_of kind ≡ types_of variant.Signal }
        ensures is { result ≡ asking kind self.processor self.task (cost_of self) object (pos cond)
            (truth holds) }
        ensures fit { IsFit result }
    {
        self.entry(kind, object, i64::from(cond), truth(holds))
    }

    /// An event raised at a task.
    pub(crate) fn raise(self, object: u32, target: u32, event: u8, x: i64, y: i64) -> Entry
        ensures is { result ≡ raise_entry self.processor self.task
            (cost_of self) object target event x y }
        ensures fit { IsFit result }
    {
        let mut e = self.entry(
            EntryKind::Raise,
            object,
            i64::from(target),
            i64::from(event),
        );
        e.c = x;
        e.d = y;
        e
    }

    /// A poll under a mask, and the event that it delivers.
    pub(crate) fn poll(self, mask: u64, event: Option<(u8, i64, i64)>) -> Entry
        ensures is { result ≡ poll_entry self.processor self.task (cost_of self) mask event }
        ensures fit { IsFit result }
        ensures narrow { IsNarrow result.kind result }
    {
        let mut e = self.entry(EntryKind::Poll, 0, 0, mask.cast_signed());
        match event {
            Some((number, x, y)) => {
                e.a = i64::from(number) + 1;
                e.c = x;
                e.d = y;
                e
            }
            None => e,
        }
    }

    /// A printed item.
    pub(crate) fn print(self, form: u8, value: i64) -> Entry
        ensures is { result ≡ asking variant.Print self.processor self.task (cost_of self) 0
            (pos form) value }
        ensures fit { IsFit result }
    {
        self.entry(EntryKind::Print, 0, i64::from(form), value)
    }

    /// What was read in a form, behind so many bytes.
    pub(crate) fn read(self, form: u8, got: Got, used: i64) -> Entry
        requires { IsRead used got.taken }
        ensures is { (n : ℕ) → used ≡ pos n →
            result ≡ read_entry self.processor self.task (cost_of self) form got n }
        ensures fit { IsFit result }
    {
        let mut e = self.entry(EntryKind::Read, 0, i64::from(form), got.value);
        e.c = truth(got.failed);
        e.d = used + i64::from(got.taken);
        e
    }

    /// Whether a read has failed.
    pub(crate) fn fail(self, has_failed: bool) -> Entry
        ensures is { result ≡ asking variant.Fail self.processor self.task (cost_of self) 0 (pos 0)
            (truth has_failed) }
        ensures fit { IsFit result }
    {
        self.entry(EntryKind::Fail, 0, 0, truth(has_failed))
    }

    /// An entry that names a cluster.
    pub(crate) fn cluster(self, kind: EntryKind, cluster: u32) -> Entry
        requires { types_of kind ≡ types_of variant.Cluster }
        ensures is { result ≡ asking kind self.processor self.task (cost_of self) 0 (pos cluster)
            (pos 0) }
        ensures fit { IsFit result }
    {
        self.entry(kind, 0, i64::from(cluster), 0)
    }

    /// An entry that names a processor and its cluster.
    pub(crate) fn processor(self, kind: EntryKind, processor: u32, cluster: u32) -> Entry
        requires { types_of kind ≡ types_of variant.Processor }
        ensures is { result ≡ asking kind self.processor self.task (cost_of self) 0 (pos processor)
            (pos cluster) }
        ensures fit { IsFit result }
    {
        self.entry(kind, 0, i64::from(processor), i64::from(cluster))
    }

    /// A run fault, which names the line of what its task asks.
    pub(crate) fn fault(self, number: u8, line: u32) -> Entry
        ensures is { result ≡ fault self.processor self.task (cost_of self) number line }
        ensures fit { IsFit result }
    {
        self.entry(EntryKind::Fault, 0, i64::from(number), i64::from(line))
    }

    /// A task is let into an object: the way, the clause of an acceptor, and whether the call that it took has failed.
    pub(crate) fn admit(self, task: u32, object: u32, way: u8, clause: u8, failed: bool) -> Entry
        ensures is { result ≡ admit_failed self.processor task object way clause failed }
        ensures fit { IsFit result }
        ensures narrow { IsNarrow result.kind result }
    {
        Entry {
            kind: EntryKind::Admit,
            proc: self.processor,
            task,
            ticks: 0,
            object,
            a: i64::from(way),
            b: i64::from(clause),
            c: truth(failed),
            d: 0,
            line: 0,
        }
    }

    /// A task is put on the stack of an object.
    pub(crate) fn push(self, task: u32, object: u32) -> Entry
        ensures is { result ≡ push self.processor task object }
        ensures fit { IsFit result }
        ensures narrow { IsNarrow result.kind result }
    {
        Entry {
            kind: EntryKind::Push,
            proc: self.processor,
            task,
            ticks: 0,
            object,
            a: 0,
            b: 0,
            c: 0,
            d: 0,
            line: 0,
        }
    }
}

// The number of a truth.
fn truth(holds: bool) -> i64
    ensures { result ≡ truth holds }
{
    if holds { 1 } else { 0 }
}

/// A processor is given a task.
pub fn dispatch(processor: u8, task: u32) -> Entry
    ensures is { result ≡ dispatch processor task }
    ensures fit { IsFit result }
    ensures narrow { IsNarrow result.kind result }
{
    let actor = Actor {
        processor,
        task,
        ticks: 0,
        line: 0,
    };
    actor.plain(EntryKind::Dispatch)
}

/// The first entry of a journal.
pub fn begin(opts: &Options) -> Entry
    requires { opts.now.ticks ≤ TICKS_MAX }
    ensures is { result ≡ begin opts.now }
    ensures fit { IsFit result }
    ensures narrow { IsNarrow result.kind result }
{
    Entry {
        kind: EntryKind::Begin,
        proc: 0,
        task: 0,
        ticks: 0,
        object: 0,
        a: i64::from(opts.processors),
        b: i64::from(opts.slice),
        c: opts.ticks as i64,
        d: i64::from(opts.entries),
        line: 0,
    }
}

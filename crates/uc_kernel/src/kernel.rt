//! The kernel: the core with the task values and the members that it keeps.
ghost use Rattle.std.specs.Prelude.{◌≡◌, ◌++◌, not, ◌≤◌, ◌<◌, ◌==◌, ◌∷◌, [], ℕ, false, true, Bool, length, slice_index_or, slice_set, slice_get, Some, None, IfOk, IfNone, IfSome, OnErr, IsSome, MatchOption, vec_len, vec_capacity};
ghost use Rattle.uc_tree.specs.declared.limits.TheConstants.{INPUT_BYTES, TASKS};
ghost use Rattle.uc_acts.specs.Acts.{act};
ghost use Rattle.uc_acts.specs.Answers.{answer_to};
ghost use Rattle.uc_entry.specs.Keyed.{find};
ghost use Rattle.uc_acts.specs.Journal;
ghost use Rattle.uc_acts.specs.KernelRuns.{InRange};
ghost use Rattle.uc_acts.specs.Known.{is_spawn};
ghost use Rattle.uc_acts.specs.Queues.{running};
ghost use Rattle.uc_acts.specs.Serves.{left};
ghost use Rattle.uc_entry.specs.declared.request.Request.TheVariants as ask;
ghost use Rattle.uc_kernel_core.specs.CoreActs.{makes_new};
ghost use Rattle.uc_kernel_core.specs.Mirrors.{AreKnownSites};
ghost use Rattle.uc_kernel.specs.Numbered.{without};
ghost use Rattle.uc_kernel.specs.KernelState.{kept, put_back, stored, with_asked};
ghost use Rattle.uc_kernel.specs.Calls.{MayBring, Acted, Dispatched, EndsRun, Follows, LacksNew, Opened};
ghost use Rattle.uc_kernel.specs.AtRest.{earlier, AfterAct, AfterMake, AfterSpawn, AreApart, HasChild, IsFirst, HandedOn, TakenOut, IsMake, IsSpawn, Lies};

use crate::given::{Back, Given, Next, Shape};
use crate::hand::take_from;
use crate::rests::{
    TaskAtRest, admission_at, drop_destroyed, entry_at, follow_first, follow_second,
};
use std::alloc::{AllocError, Global};
use std::marker::Model;
use uc_entry::entry::{Entry, EntryKind, Options};
use uc_entry::list::List;
use uc_entry::request::{Answer, Asked, Request};
use uc_kernel_core::entries::Actor;
use uc_kernel_core::kernel_core::KernelCore;

/// The journal of a run with its queues, the values of the tasks that do not run, and the members of objects that no
/// running task is inside.
#[derive(Drop)]
pub struct Kernel<T, M> {
    pub(crate) book: KernelCore,
    // By the task.
    tasks: Vec<Option<TaskAtRest<T, M>>>,
    // By the object: the members of those that nobody is inside.
    loose: Vec<Option<M>>,
    abandoned: bool,
    alloc: Global,
}

impl<T, M> Model for Kernel<T, M> {
    ghost use Rattle.uc_kernel.specs.KernelState.{Store, stored};
    ghost use Rattle.uc_kernel.specs.AtRest.{IsKept};

    ghost Value = { Store T M };

    ghost view = { λ k. stored k.book k.abandoned k.tasks.items k.loose.items };

    ghost invariant = { λ k. IsKept k.book k.tasks.items k.loose.items };
}

impl<T: Drop, M: Drop> Kernel<T, M> {
    /// A run that opens with these options, over this program's accept statements and this input: task 0 is ready, inside
    /// object 0 with these members.
    pub fn open(
        alloc: Global,
        shape: Shape,
        opts: Options,
        input: Vec<u8>,
        first: T,
        own: M,
    ) -> Result<Kernel<T, M>, AllocError>
        requires options { InRange opts }
        requires sites { AreKnownSites shape.sites.items }
        requires input { length input.items ≤ INPUT_BYTES }
        ensures { IfOk result (λ k. Opened shape.sites.items opts input.items first own (kept k)) }
    {
        let tasks = first_tasks(alloc, first, own)?;
        let loose = first_loose(alloc)?;
        let book = KernelCore::open(alloc, &opts, shape.sites, input)?;
        Ok(Kernel {
            book,
            tasks,
            loose,
            abandoned: false,
            alloc,
        })
    }

    /// Gives the task that is ready for the least free open processor, if there is one, the run goes on, and it was not
    /// abandoned. Where the bound on entries leaves no room, the limit ends the run.
    pub fn dispatch(&mut self) -> Option<Given<T, M>>
        ensures { Dispatched (kept self.old) result (kept self.new) }
    {
        if self.abandoned {
            return None;
        }
        if self.book.is_over() {
            return None;
        }
        match self.book.dispatch() {
            None => None,
            Some((processor, task)) => take_out(&self.book, &mut self.tasks, processor, task),
        }
    }

    /// The act of what a task asks: any request but Make and Spawn. Where the run is over before, nothing changes, and what
    /// was brought is dropped.
    #[inline(always)]
    pub fn act(&mut self, back: Back<T, M>, asked: &Asked) -> Next<T, M>
        requires fits { Journal.is_over self.old.journal ≡ false →
            MayBring (kept self.old) (with_asked back asked.now) }
        requires old { makes_new asked.now.request ≡ false }
        ensures { Acted (kept self.old) (with_asked back asked.now) result (kept self.new) }
    {
        if self.book.is_over() {
            return Next::Ended;
        }
        let who = actor(&self.book, &back, asked);
        let before = self.book.journal().len();
        self.book.act(who, &asked.request);
        let first = entry_at(self.book.journal(), before);
        let admission = admission_at(self.book.journal(), before + 1);
        follow(
            &self.book,
            &mut self.tasks,
            &mut self.loose,
            who.task,
            first,
            admission,
            back,
        )
    }

    /// The act of a task that makes an object: the task goes on with the object's number, and brings its members with its next
    /// request. Where memory is wanting nothing changes, and what was brought is dropped.
    pub fn make_object(&mut self, back: Back<T, M>, asked: &Asked) -> Result<Next<T, M>, AllocError>
        requires fits { Journal.is_over self.old.journal ≡ false →
            MayBring (kept self.old) (with_asked back asked.now) }
        requires makes { IsMake asked.now.request }
        ensures ok { IfOk result (λ next. Acted (kept self.old) (with_asked back asked.now) next
            (kept self.new)) }
        ensures lacks { IfOk result (λ next. (t : ℕ) →
            running back.processor self.old.journal ≡ t ∷ [] → LacksNew self.new.journal t next) }
        ensures err { OnErr result (self.new ≡ self.old) }
    {
        if self.book.is_over() {
            return Ok(Next::Ended);
        }
        let class = class_of(&asked.request);
        let who = actor(&self.book, &back, asked);
        self.loose.reserve(1)?;
        self.book.make_object(who, class)?;
        let next = follow_make(&self.book, &mut self.tasks, &mut self.loose, who.task, back);
        Ok(next)
    }

    /// The act of a task that makes a task for an object that it is inside: the new task is ready, inside that object in its
    /// place. Where memory is wanting nothing changes, and what was brought is dropped.
    pub fn spawn(&mut self, back: Back<T, M>, asked: &Asked) -> Result<Next<T, M>, AllocError>
        requires fits { Journal.is_over self.old.journal ≡ false →
            MayBring (kept self.old) (with_asked back asked.now) }
        requires spawns { IsSpawn asked.now.request }
        requires child { IsSome back.child }
        ensures ok { IfOk result (λ next. Acted (kept self.old) (with_asked back asked.now) next
            (kept self.new)) }
        ensures err { OnErr result (self.new ≡ self.old) }
    {
        if self.book.is_over() {
            return Ok(Next::Ended);
        }
        let object = object_of(&asked.request);
        let who = actor(&self.book, &back, asked);
        let before = self.book.journal().len();
        let mut hand = List::new(self.alloc);
        hand.room()?;
        self.tasks.reserve(1)?;
        self.book.spawn(who, object)?;
        let first = entry_at(self.book.journal(), before);
        let next = follow_spawn(
            &self.book,
            &mut self.tasks,
            &self.loose,
            who.task,
            first,
            hand,
            back,
        );
        Ok(next)
    }

    /// No task is dispatched any more.
    pub fn abandon(&mut self)
        ensures { self.new ≡ record self.old { abandoned = true } }
    {
        self.abandoned = true;
    }

    /// Whether the run was abandoned.
    pub fn abandoned(&self) -> bool
        ensures { result ≡ self.now.abandoned }
    {
        self.abandoned
    }

    /// The entry that ended the run, if one did. It is the last: a fault, the end of task 0's main, a deadlock, tasks that no
    /// processor serves, or the limit.
    pub fn ending(&self) -> Option<Entry>
        ensures going { IfNone result (Journal.is_over self.now.journal ≡ false) }
        ensures over { IfSome result (λ e. EndsRun self.now.journal e) }
    {
        if !self.book.is_over() {
            return None;
        }
        let entries = self.book.journal();
        let count = entries.len();
        if count == 0 {
            return None;
        }
        Some(entry_at(entries, count - 1))
    }

    /// The entries of the journal.
    pub fn journal(&self) -> &[Entry]
        ensures { result.now ≡ self.now.journal }
    {
        self.book.journal()
    }

    /// The journal alone.
    pub fn into_journal(self) -> Vec<Entry>
        ensures { result.items ≡ self.journal }
    {
        self.book.into_journal()
    }
}

// The task that acts.
#[inline(always)]
fn actor<T, M>(book: &KernelCore, back: &Back<T, M>, asked: &Asked) -> Actor
    requires going { Journal.is_over book.now.journal ≡ false }
    ensures processor { (t : ℕ) → running back.now.processor book.now.journal ≡ t ∷ [] →
        result.processor ≡ back.now.processor }
    ensures task { (t : ℕ) → running back.now.processor book.now.journal ≡ t ∷ [] →
        result.task ≡ t }
    ensures ticks { result.ticks ≡ back.now.ticks }
    ensures line { result.line ≡ asked.now.line }
{
    let (processor, task) = match book.runner(back.processor) {
        Some(task) => (back.processor as u8, task),
        None => (0, 0),
    };
    Actor {
        processor,
        task,
        ticks: back.ticks,
        line: asked.line,
    }
}

// What the journal tells a task to go on with.
#[inline(always)]
fn answer_of(book: &KernelCore, task: u32) -> Answer
    requires going { Journal.is_over book.now.journal ≡ false }
    requires small { task < TASKS }
    ensures { (x : _) → answer_to book.now.sites task book.now.journal ≡ Some x → result ≡ x }
{
    match book.answer(task) {
        Some(answer) => answer,
        None => Answer::Go,
    }
}

// Hands out a task at rest.
fn take_out<T: Drop, M: Drop>(
    book: &KernelCore,
    tasks: &mut Vec<Option<TaskAtRest<T, M>>>,
    processor: u32,
    task: u32,
) -> Option<Given<T, M>>
    requires going { Journal.is_over book.now.journal ≡ false }
    requires small { task < TASKS }
    requires known { task < length tasks.old.items }
    ensures tasks { tasks.new.items ≡ slice_set tasks.old.items task None }
    ensures given { MatchOption result (slice_index_or tasks.old.items task None
        ≡ None) (λ g. TakenOut book.now processor task (slice_index_or tasks.old.items task None) g) }
{
    match tasks[task as usize].take() {
        None => None,
        Some(rest) => Some(Given {
            processor,
            task: rest.task,
            members: rest.members,
            answer: answer_of(book, task),
            left: book.left(task),
        }),
    }
}

// The task goes on where it still runs, and is put to rest otherwise.
#[inline(always)]
fn hand_on<T: Drop, M: Drop>(
    book: &KernelCore,
    tasks: &mut Vec<Option<TaskAtRest<T, M>>>,
    processor: u32,
    task: u32,
    value: T,
    members: List<(u64, M)>,
) -> Next<T, M>
    requires going { Journal.is_over book.now.journal ≡ false }
    requires small { task < TASKS }
    requires few { length (running processor book.now.journal) ≤ 1 }
    requires known { task < length tasks.old.items }
    ensures { HandedOn book.now processor task value members tasks.old.items result tasks.new.items }
{
    match book.runner(processor) {
        Some(_) => Next::Go(Given {
            processor,
            task: value,
            members,
            answer: answer_of(book, task),
            left: book.left(task),
        }),
        None => {
            tasks[task as usize] = Some(TaskAtRest {
                task: value,
                members,
            });
            Next::Blocked
        }
    }
}

// What follows the act of a task, once its entries stand.
#[inline(always)]
fn follow<T: Drop, M: Drop>(
    book: &KernelCore,
    tasks: &mut Vec<Option<TaskAtRest<T, M>>>,
    loose: &mut Vec<Option<M>>,
    task: u32,
    first: Entry,
    admission: Option<Entry>,
    back: Back<T, M>,
) -> Next<T, M>
    requires after { AfterAct book.now task first admission back tasks.old.items loose.old.items }
    ensures lies { Journal.is_over book.now.journal ≡ false →
        Lies book.now.journal tasks.new.items loose.new.items }
    ensures follows { (x : AfterAct book.now task first admission back tasks.old.items
        loose.old.items) (b : Bool) →
        Follows (put_back
        (act book.now.opts book.now.sites book.now.input x.act.before back.processor task back.ticks
        x.asked) task back.task back.members.items back.child
        (kept (stored (earlier x.act.before book.now) b tasks.old.items loose.old.items)))
        (kept (stored book.now b tasks.new.items loose.new.items)) back.processor task result }
{
    let Back {
        processor,
        task: value,
        mut members,
        ..
    } = back;
    if book.is_over() {
        drop_destroyed(&first, &mut members);
        tasks[task as usize] = Some(TaskAtRest {
            task: value,
            members,
        });
        return Next::Ended;
    }
    follow_first(&first, &mut members, loose);
    follow_second(admission, task, &mut members, tasks, loose);
    hand_on(book, tasks, processor, task, value, members)
}

// The class that a request names.
fn class_of(request: &Request) -> u32
    requires { IsMake request.now }
    ensures { request.now ≡ ask.Make result }
{
    match *request {
        Request::Make { class } => class,
        _ => 0,
    }
}

// The object that a request names.
fn object_of(request: &Request) -> u32
    requires { IsSpawn request.now }
    ensures { request.now ≡ ask.Spawn result }
{
    match *request {
        Request::Spawn { object } => object,
        _ => 0,
    }
}

// A new task is at rest, inside an object in its creator's place.
fn settle_child<T: Drop, M: Drop>(
    tasks: &mut Vec<Option<TaskAtRest<T, M>>>,
    object: u32,
    child: Option<T>,
    hand: List<(u64, M)>,
    members: &mut List<(u64, M)>,
)
    requires apart { AreApart members.old.items }
    requires room { 1 ≤ hand.spare }
    requires empty { hand.items ≡ [] }
    requires reserved { vec_len tasks.old < vec_capacity tasks.old }
    ensures members { members.new.items ≡ without object members.old.items }
    ensures spare { members.old.spare ≤ members.new.spare }
    ensures child { (x : T) (m : M) → child ≡ Some x → find object members.old.items ≡ Some m →
        HasChild tasks.old.items tasks.new.items x object m }
{
    let own = take_from(members, object);
    match child {
        None => {}
        Some(child) => tasks.push_reserved(Some(TaskAtRest {
            task: child,
            members: with_own(hand, object, own),
        })),
    }
}

// A hand with the members of an object more, if they are there.
fn with_own<M: Drop>(hand: List<(u64, M)>, object: u32, own: Option<M>) -> List<(u64, M)>
    requires room { 1 ≤ hand.spare }
    ensures { (m : M) → own ≡ Some m → result.items ≡ hand.items ++ (object, m) ∷ [] }
{
    let mut hand = hand;
    match own {
        None => hand,
        Some(own) => {
            hand.push((object as u64, own));
            hand
        }
    }
}

// Whether an entry makes no task.
fn makes_none(e: &Entry) -> bool
    ensures { is_spawn e.now.kind ≡ not result }
{
    match e.kind {
        EntryKind::Spawn => false,
        _ => true,
    }
}

// What follows the act of a task that makes a task.
fn follow_spawn<T: Drop, M: Drop>(
    book: &KernelCore,
    tasks: &mut Vec<Option<TaskAtRest<T, M>>>,
    loose: &Vec<Option<M>>,
    task: u32,
    first: Entry,
    hand: List<(u64, M)>,
    back: Back<T, M>,
) -> Next<T, M>
    requires after { AfterSpawn book.now task first back tasks.old.items loose.now.items }
    requires child { IsSome back.child }
    requires room { 1 ≤ hand.spare }
    requires empty { hand.items ≡ [] }
    requires reserved { vec_len tasks.old < vec_capacity tasks.old }
    ensures lies { Journal.is_over book.now.journal ≡ false →
        Lies book.now.journal tasks.new.items loose.now.items }
    ensures follows { (x : AfterSpawn book.now task first back tasks.old.items loose.now.items)
        (b : Bool) →
        Follows (put_back
        (act book.now.opts book.now.sites book.now.input x.act.before back.processor task back.ticks
        x.asked) task back.task back.members.items back.child
        (kept (stored (earlier x.act.before book.now) b tasks.old.items loose.now.items)))
        (kept (stored book.now b tasks.new.items loose.now.items)) back.processor task result }
{
    let Back {
        processor,
        task: value,
        mut members,
        child,
        ..
    } = back;
    if makes_none(&first) {
        tasks[task as usize] = Some(TaskAtRest {
            task: value,
            members,
        });
        return Next::Ended;
    }
    settle_child(tasks, first.object, child, hand, &mut members);
    if book.is_over() {
        tasks[task as usize] = Some(TaskAtRest {
            task: value,
            members,
        });
        return Next::Ended;
    }
    hand_on(book, tasks, processor, task, value, members)
}

// What follows the act of a task that makes an object.
fn follow_make<T: Drop, M: Drop>(
    book: &KernelCore,
    tasks: &mut Vec<Option<TaskAtRest<T, M>>>,
    loose: &mut Vec<Option<M>>,
    task: u32,
    back: Back<T, M>,
) -> Next<T, M>
    requires after { AfterMake book.now task back tasks.old.items loose.old.items }
    requires reserved { vec_len loose.old < vec_capacity loose.old }
    ensures lies { Journal.is_over book.now.journal ≡ false →
        Lies book.now.journal tasks.new.items loose.new.items }
    ensures lacks { LacksNew book.now.journal task result }
    ensures follows { (x : AfterMake book.now task back tasks.old.items loose.old.items)
        (b : Bool) →
        Follows (put_back
        (act book.now.opts book.now.sites book.now.input x.from.before back.processor task
        back.ticks x.asked) task back.task back.members.items back.child
        (kept (stored (earlier x.from.before book.now) b tasks.old.items loose.old.items)))
        (kept (stored book.now b tasks.new.items loose.new.items)) back.processor task result }
{
    let Back {
        processor,
        task: value,
        members,
        ..
    } = back;
    if book.is_over() {
        tasks[task as usize] = Some(TaskAtRest {
            task: value,
            members,
        });
        return Next::Ended;
    }
    loose.push_reserved(None);
    hand_on(book, tasks, processor, task, value, members)
}

// Task 0, inside object 0.
fn first_tasks<T: Drop, M: Drop>(
    alloc: Global,
    first: T,
    own: M,
) -> Result<Vec<Option<TaskAtRest<T, M>>>, AllocError>
    ensures { IfOk result (λ v. IsFirst first own v.items) }
{
    let mut members = List::new(alloc);
    members.room()?;
    members.push((0, own));
    let mut tasks = Vec::with_capacity(alloc, 1)?;
    tasks.push_reserved(Some(TaskAtRest {
        task: first,
        members,
    }));
    Ok(tasks)
}

fn first_loose<M: Drop>(alloc: Global) -> Result<Vec<Option<M>>, AllocError>
    ensures { IfOk result (λ v. v.items ≡ None ∷ []) }
{
    let mut loose = Vec::with_capacity(alloc, 1)?;
    loose.push_reserved(None);
    Ok(loose)
}

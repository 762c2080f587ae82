//! The journal of a run, with what it tells at once.
ghost use Rattle.std.specs.Prelude.{◌≡◌, ◌≤◌, ◌<◌, ◌++◌, ◌∷◌, [], false, true, length, take, replicate, slice_set, IfOk, Some, None};
ghost use Rattle.uc_entry.specs.declared.request.Answer.TheVariants as answer;
ghost use Rattle.uc_acts.specs.Journal.{begin, is_over, is_ending};
ghost use Rattle.uc_acts.specs.KernelRuns.{InRange};
ghost use Rattle.uc_acts.specs.Queues.{used, all_ticks, first_ended};
ghost use Rattle.uc_acts.specs.Reading.{bytes_used, has_failed};
ghost use Rattle.uc_acts.specs.Answers.{answer_to};
ghost use Rattle.uc_kernel_journal.specs.EntryAnswers.{IsSayable};
ghost use Rattle.uc_kernel_journal.specs.JournalSums.{AreShort, told_more, with_journal};

use crate::answers::Answers;
use crate::notes::{note_answers, note_bytes, note_ended, note_failed, note_spent};
use std::alloc::{AllocError, Global};
use std::marker::Model;
use uc_entry::entry::{Entry, EntryKind, Options};
use uc_entry::request::Answer;
use uc_table::Table;
use uc_tree::site::Site;

/// The journal of a run, and beside it what it tells of ticks, reads and answers, so that no question goes through it.
///
/// Contracts see the journal, the accept statements, for how many entries memory was taken, and for how many tasks. `new`
/// takes all memory, and writes to none that tasks to come would have; no other call takes any.
#[derive(Drop)]
pub struct KernelJournal {
    sites: Vec<Site>,
    journal: Vec<Entry>,
    // Ticks of all tasks.
    ticks: u64,
    // Ticks of each task since its last dispatch.
    spent: Table<u64>,
    // What each task is told to go on with.
    answers: Answers,
    // Bytes of the input that reads have taken.
    bytes: u32,
    // Whether a read has failed.
    failed: bool,
    // Whether task 0 has ended.
    ended: bool,
    // Whether the run is over.
    over: bool,
    room: u32,
    tasks: u32,
}

impl Model for KernelJournal {
    ghost use Rattle.std.specs.Prelude.{◌≤◌};
    ghost use Rattle.std.specs.Vec.{vec_capacity};
    ghost use Rattle.uc_kernel_journal.specs.JournalSums.{Told, IsTold};

    ghost Value = { Told };

    ghost view = { λ c. record { journal = c.journal.items; sites = c.sites.items; room = c.room; tasks = c.tasks } };

    ghost invariant = { λ c. (c.room ≤ vec_capacity c.journal) × IsTold c.sites.items c.journal.items c.ticks c.spent c.answers c.bytes c.failed c.ended c.over c.room c.tasks };
}

impl KernelJournal {
    /// The journal of a run that opens with these options, with room for so many entries, and for the answers of so many
    /// tasks.
    pub fn new(
        alloc: Global,
        opts: &Options,
        sites: Vec<Site>,
        tasks: u32,
        room: u32,
    ) -> Result<KernelJournal, AllocError>
        requires options { InRange opts.now }
        requires sites { AreShort sites.items }
        requires tasks { 1 ≤ tasks }
        requires room { 1 ≤ room }
        ensures { IfOk result (λ c. c
            ≡ record {
              journal = begin opts.now
                  ∷ [];
              sites = sites.items;
              room = room;
              tasks = tasks;
            }) }
    {
        let mut journal = Vec::with_capacity(alloc, room as usize)?;
        let spent = Table::new(alloc, tasks, 0)?;
        let answers = first_answers(alloc, tasks)?;
        journal.push_reserved(begin_entry(opts));
        Ok(KernelJournal {
            sites,
            journal,
            ticks: 0,
            spent,
            answers,
            bytes: 0,
            failed: false,
            ended: false,
            over: false,
            room,
            tasks,
        })
    }

    /// Appends an entry.
    #[inline(always)]
    pub fn push(&mut self, e: Entry)
        requires going { is_over self.old.journal ≡ false }
        requires room { length self.old.journal < self.old.room }
        requires task { e.task < self.old.tasks }
        requires sayable { IsSayable self.old.tasks e.kind e }
        ensures { self.new ≡ told_more self.old e }
    {
        note_answers(&mut self.answers, &self.sites, &e);
        note_spent(&mut self.spent, &e);
        self.ticks += u64::from(e.ticks);
        self.bytes = note_bytes(self.bytes, &e);
        self.failed = note_failed(self.failed, &e);
        self.ended = note_ended(self.ended, &e);
        self.over = is_ending(e.kind);
        self.journal.push_reserved(e);
    }

    /// Puts an entry that ends the run in the place of all behind the first `count`.
    pub fn end_at(&mut self, count: usize, e: Entry)
        requires ends { is_ending e.kind ≡ true }
        requires count { (1 ≤ count) × (count ≤ length self.old.journal) }
        requires room { count < self.old.room }
        ensures { self.new ≡ with_journal self.old (take count self.old.journal ++ e ∷ []) }
    {
        self.over = true;
        self.journal.truncate(count);
        self.journal.push_reserved(e);
    }

    /// The entries.
    pub fn entries(&self) -> &[Entry]
        ensures { result.now ≡ self.now.journal }
    {
        self.journal.as_slice()
    }

    /// How many entries there are.
    pub fn len(&self) -> usize
        ensures count { result ≡ length self.now.journal }
        ensures begun { 1 ≤ result }
    {
        self.journal.len()
    }

    /// The ticks of all tasks.
    pub fn ticks(&self) -> u64
        requires going { is_over self.now.journal ≡ false }
        ensures { result ≡ all_ticks self.now.journal }
    {
        self.ticks
    }

    /// The ticks of a task since its last dispatch.
    pub fn ticks_since_dispatch(&self, task: u32) -> u64
        requires going { is_over self.now.journal ≡ false }
        requires task { task < self.now.tasks }
        ensures { result ≡ used task self.now.journal }
    {
        self.spent.get(task as usize)
    }

    /// What a task is told to go on with, if it is.
    pub fn answer(&self, task: u32) -> Option<Answer>
        requires going { is_over self.now.journal ≡ false }
        requires task { task < self.now.tasks }
        ensures { result ≡ answer_to self.now.sites task self.now.journal }
    {
        self.answers.get(task as usize)
    }

    /// The bytes of the input that reads have taken.
    pub fn bytes(&self) -> u32
        requires going { is_over self.now.journal ≡ false }
        ensures { result ≡ bytes_used self.now.journal }
    {
        self.bytes
    }

    /// Whether a read has failed.
    pub fn has_read_failed(&self) -> bool
        requires going { is_over self.now.journal ≡ false }
        ensures { result ≡ has_failed self.now.journal }
    {
        self.failed
    }

    /// Whether task 0 has ended.
    pub fn first_ended(&self) -> bool
        requires going { is_over self.now.journal ≡ false }
        ensures { result ≡ first_ended self.now.journal }
    {
        self.ended
    }

    /// Whether the run is over: its last entry ends it.
    pub fn is_over(&self) -> bool
        ensures { result ≡ is_over self.now.journal }
    {
        self.over
    }

    /// The accept statements.
    pub fn sites(&self) -> &[Site]
        ensures { result.now ≡ self.now.sites }
    {
        self.sites.as_slice()
    }

    /// The journal alone.
    pub fn into_journal(self) -> Vec<Entry>
        ensures { result.items ≡ self.journal }
    {
        self.journal
    }
}

fn is_ending(kind: EntryKind) -> bool
    ensures { result ≡ is_ending kind }
{
    match kind {
        EntryKind::Fault => true,
        EntryKind::Done => true,
        EntryKind::Deadlock => true,
        EntryKind::NoProcessor => true,
        EntryKind::Limit => true,
        _ => false,
    }
}

fn begin_entry(opts: &Options) -> Entry
    requires { InRange opts.now }
    ensures { result ≡ begin opts.now }
{
    Entry {
        kind: EntryKind::Begin,
        proc: 0,
        task: 0,
        ticks: 0,
        object: 0,
        a: i64::from(opts.processors),
        b: i64::from(opts.slice),
        c: opts.ticks as i64,
        d: i64::from(opts.entries),
        line: 0,
    }
}

// Task 0 is told to go on.
fn first_answers(alloc: Global, tasks: u32) -> Result<Answers, AllocError>
    requires { 1 ≤ tasks }
    ensures { IfOk result (λ t. t ≡ slice_set (replicate tasks None) 0 (Some answer.Go)) }
{
    let mut answers = Answers::new(alloc, tasks)?;
    answers.set(0, Some(Answer::Go));
    Ok(answers)
}

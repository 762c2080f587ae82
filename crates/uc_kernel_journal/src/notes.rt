//! What one entry more says.
ghost use Rattle.std.specs.Prelude.{◌≡◌, ◌≤◌, ◌<◌, ◌+◌, ◌==◌, ◌||◌, ℕ, length, slice_index_or, slice_set, Some, None, if◌then◌else◌};
ghost use Rattle.std.specs.List.{list_any};
ghost use Rattle.uc_acts.specs.Answers.{accept_answer, let_in_answer, poll_answer};
ghost use Rattle.uc_acts.specs.Doors.{offers};
ghost use Rattle.uc_acts.specs.Journal.{number};
ghost use Rattle.uc_tree.specs.SiteOffers.{has_bit, clause_for, offers_from, or_0};
ghost use Rattle.uc_acts.specs.Queues.{ends_first};
ghost use Rattle.uc_acts.specs.Reading.{used_by, fails_by};
ghost use Rattle.uc_tree.specs.declared.limits.TheConstants.{CLAUSES, DESTRUCTOR};
ghost use Rattle.uc_kernel_journal.specs.EntryAnswers.{says, takes_up, IsSayable, answers_after, spent_after};
ghost use Rattle.uc_kernel_journal.specs.JournalSums.{AreShort};

use crate::answers::Answers;
use uc_entry::entry::{Entry, EntryKind};
use uc_entry::request::Answer;
use uc_table::Table;
use uc_tree::limits::DESTRUCTOR;
use uc_tree::site::{Members, Site};

/// The number that a field holds.
pub fn number(field: i64) -> u64
    ensures { result ≡ number field }
{
    if field < 0 {
        return 0;
    }
    field as u64
}

fn lists(members: &Members, member: u8) -> bool
    ensures { result ≡ list_any (λ m. m == member) members.now }
{
    members.numbers.iter().any(|m| *m == member)
}

fn is_true(at: usize, mask: u64) -> bool
    requires { at < 32 }
    ensures { result ≡ has_bit at mask }
{
    (mask >> at) % 2 == 1
}

fn clause_listing(clauses: &Vec<Members>, mask: u64, member: u8) -> Option<u8>
    requires few { length clauses.now.items ≤ 32 }
    ensures { result ≡ clause_for (offers_from 0 mask clauses.now.items) member }
{
    for at in 0..clauses.len() {
        if is_true(at, mask) {
            if lists(&clauses[at], member) {
                return Some(at as u8 + 1);
            }
        }
    }
    None
}

/// The clause by which an accept took the caller of a destructor, or 0.
#[inline(never)]
fn destroyer_clause(sites: &Vec<Site>, site: u64, mask: u64) -> u8
    requires short { AreShort sites.now.items }
    ensures { result ≡ or_0 (clause_for (offers sites.now.items site mask) DESTRUCTOR) }
{
    match sites.get(site as usize) {
        Some(known) => match clause_listing(&known.clauses, mask, DESTRUCTOR) {
            Some(clause) => clause,
            None => 0,
        },
        None => 0,
    }
}

/// What an accept that does not block its task answers it.
fn accept_answer(sites: &Vec<Site>, e: &Entry) -> Option<Answer>
    requires short { AreShort sites.now.items }
    ensures { result ≡ accept_answer sites.now.items e.now }
{
    if e.d == 2 {
        return Some(Answer::Clause {
            number: 0,
            failed: false,
        });
    }
    if e.d == 3 {
        let clause = destroyer_clause(sites, number(e.a), number(e.b));
        return Some(Answer::Clause {
            number: clause,
            failed: false,
        });
    }
    None
}

/// An acceptor goes on with its clause, and whether its accepted call has failed; anybody else just goes on.
#[inline(always)]
fn let_in_answer(clause: i64, failed: bool) -> Answer
    requires { number clause < 256 }
    ensures { result ≡ let_in_answer (number clause) failed }
{
    let clause = number(clause) as u8;
    if clause == 0 {
        return Answer::Go;
    }
    Answer::Clause {
        number: clause,
        failed,
    }
}

/// What a poll delivers.
fn poll_answer(event: i64, x: i64, y: i64) -> Answer
    requires { number event ≤ 256 }
    ensures { result ≡ poll_answer (number event) x y }
{
    let event = number(event);
    if event == 0 {
        return Answer::Nothing;
    }
    Answer::Event {
        event: (event - 1) as u8,
        x,
        y,
    }
}

/// What an entry answers to the task that it names.
#[inline(always)]
fn answer_of(sites: &Vec<Site>, e: &Entry) -> Option<Answer>
    requires short { AreShort sites.now.items }
    requires sayable { (tasks : ℕ) × IsSayable tasks e.now.kind e.now }
    ensures { result ≡ says sites.now.items e.now.kind e.now }
{
    match e.kind {
        EntryKind::Begin => None,
        EntryKind::Dispatch => None,
        EntryKind::Slice => Some(Answer::Go),
        EntryKind::Yield => Some(Answer::Go),
        EntryKind::Make => Some(Answer::Object(e.object)),
        EntryKind::Made => Some(Answer::Go),
        EntryKind::Spawn => Some(Answer::Go),
        EntryKind::Call => None,
        EntryKind::Leave => Some(Answer::Go),
        EntryKind::Admit => Some(let_in_answer(e.b, e.c == 1)),
        EntryKind::Push => None,
        EntryKind::Accept => accept_answer(sites, e),
        EntryKind::Wait => None,
        EntryKind::Signal => Some(Answer::Go),
        EntryKind::SignalBlock => { if e.b == 0 { Some(Answer::Go) } else { None } }
        EntryKind::Empty => Some(Answer::Number(e.b)),
        EntryKind::Front => Some(Answer::Number(e.b)),
        EntryKind::Raise => Some(Answer::Go),
        EntryKind::Poll => Some(poll_answer(e.a, e.c, e.d)),
        EntryKind::Print => Some(Answer::Go),
        EntryKind::Read => Some(Answer::Value {
            value: e.b,
            failed: e.c == 1,
        }),
        EntryKind::Fail => Some(Answer::Number(e.b)),
        EntryKind::Cluster => Some(Answer::Object(number(e.a) as u32)),
        EntryKind::ClusterEnd => Some(Answer::Go),
        EntryKind::Processor => Some(Answer::Object(number(e.a) as u32)),
        EntryKind::ProcessorEnd => Some(Answer::Go),
        EntryKind::Migrate => Some(Answer::Go),
        EntryKind::End => None,
        EntryKind::Gone => Some(Answer::Go),
        EntryKind::Fault => None,
        EntryKind::Done => None,
        EntryKind::Deadlock => None,
        EntryKind::NoProcessor => None,
        EntryKind::Limit => None,
    }
}

/// Whether an entry takes up what its task was answered before.
#[inline(always)]
fn takes_up(kind: EntryKind) -> bool
    ensures { result ≡ takes_up kind }
{
    match kind {
        EntryKind::Begin => false,
        EntryKind::Dispatch => false,
        EntryKind::Admit => false,
        EntryKind::Push => false,
        EntryKind::Done => false,
        EntryKind::Deadlock => false,
        EntryKind::NoProcessor => false,
        EntryKind::Limit => false,
        _ => true,
    }
}

/// Notes the answers of an entry.
#[inline(always)]
pub fn note_answers(answers: &mut Answers, sites: &Vec<Site>, e: &Entry)
    requires short { AreShort sites.now.items }
    requires task { e.now.task < length answers.old }
    requires sayable { IsSayable (length answers.old) e.now.kind e.now }
    ensures { answers.new ≡ answers_after sites.now.items e.now.kind e.now answers.old }
{
    let told = answer_of(sites, e);
    if told.is_some() || takes_up(e.kind) {
        answers.set(e.task as usize, told);
    }
    if e.kind == EntryKind::Spawn {
        answers.set(number(e.a) as usize, Some(Answer::Go));
    }
}

/// Notes the ticks of an entry: those of a task count from its last dispatch.
#[inline(always)]
pub fn note_spent(spent: &mut Table<u64>, e: &Entry)
    requires task { e.now.task < length spent.old }
    requires room { slice_index_or spent.old e.now.task 0 + e.now.ticks < 18446744073709551616 }
    ensures { spent.new ≡ slice_set spent.old e.now.task
        (spent_after e.now.kind e.now (slice_index_or spent.old e.now.task 0)) }
{
    let ticks = u64::from(e.ticks);
    let task = e.task as usize;
    match e.kind {
        EntryKind::Dispatch => spent.set(task, ticks),
        _ => {
            if ticks > 0 {
                spent.set(task, spent.get(task) + ticks);
            }
        }
    }
}

/// The bytes that reads have taken, with one entry more.
pub fn note_bytes(bytes: u32, e: &Entry) -> u32
    requires sayable { (tasks : ℕ) × IsSayable tasks e.now.kind e.now }
    ensures { result ≡ used_by e.now.kind e.now bytes }
{
    if e.kind == EntryKind::Read {
        return number(e.d) as u32;
    }
    bytes
}

/// Whether a read has failed, with one entry more.
pub fn note_failed(failed: bool, e: &Entry) -> bool
    ensures { result ≡ fails_by e.now.kind e.now failed }
{
    if e.kind == EntryKind::Read && e.c == 1 {
        return true;
    }
    failed
}

/// Whether task 0 has ended, with one entry more.
pub fn note_ended(ended: bool, e: &Entry) -> bool
    ensures { result ≡ (ended || ends_first e.now.kind e.now) }
{
    if e.kind == EntryKind::End && e.task == 0 {
        return true;
    }
    ended
}

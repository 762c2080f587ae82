// What an entry tells the tasks.

ghost use Rattle.std.specs.Prelude.{◌≡◌, ◌≤◌, OnOk};
ghost use Rattle.std.specs.List.{fold};
ghost use Rattle.uc_acts.specs.Fit.{IsFit};
ghost use Rattle.uc_acts.specs.Answers.{tells, accept_answer, let_in_answer, poll_answer};
ghost use Rattle.uc_acts.specs.Journal.{where_true};
ghost use Rattle.uc_entry.specs.declared.request.Answer.TheVariants as answer;
ghost use Rattle.uc_judge.specs.declared.asks.Change.TheVariants as change;
ghost use Rattle.uc_judge.specs.Changes.{changes};
ghost use Rattle.uc_judge.specs.Narrow.{IsNarrow};

use crate::asks::{Asks, Change};
use crate::effects::number;
use crate::offers::clause_for;
use std::alloc::AllocError;
use uc_entry::entry::{Entry, EntryKind};
use uc_entry::request::Answer;
use uc_tree::limits::DESTRUCTOR;
use uc_tree::site::Site;

/// Tells tasks of all that an entry changes.
pub fn tell<A: Asks>(tasks: &mut A, sites: &[Site], e: &Entry) -> Result<(), AllocError>
    requires fit { IsFit e.now }
    requires narrow { IsNarrow e.now.kind e.now }
    ensures { OnOk result (tasks.new ≡ fold A.told tasks.old (changes sites.now e.now.kind e.now)) }
{
    match e.kind {
        EntryKind::Begin => {
            tasks.tell(gone_on(0))?;
            Ok(())
        }
        EntryKind::Spawn => {
            let task = number(e.a) as u32;
            tasks.tell(Change::Spawned {
                object: e.object,
                task,
            })?;
            tasks.tell(gone_on(e.task))?;
            tasks.tell(gone_on(task))?;
            Ok(())
        }
        EntryKind::Gone => {
            tasks.tell(Change::Gone { object: e.object })?;
            tasks.tell(gone_on(e.task))?;
            Ok(())
        }
        _ => {
            match answer_of(sites, e) {
                Some(answer) => {
                    tasks.tell(Change::Answered {
                        task: e.task,
                        answer,
                    })?;
                    Ok(())
                }
                None => Ok(()),
            }
        }
    }
}

// A task goes on.
fn gone_on(task: u32) -> Change
    ensures { result ≡ change.Answered task answer.Go }
{
    Change::Answered {
        task,
        answer: Answer::Go,
    }
}

/// What an entry answers to the task that it names.
pub fn answer_of(sites: &[Site], e: &Entry) -> Option<Answer>
    requires fit { IsFit e.now }
    requires narrow { IsNarrow e.now.kind e.now }
    ensures { result ≡ tells sites.now e.now.task e.now.kind e.now }
{
    match e.kind {
        EntryKind::Begin => go_if(e.task == 0),
        EntryKind::Slice => Some(Answer::Go),
        EntryKind::Yield => Some(Answer::Go),
        EntryKind::Make => Some(Answer::Object(e.object)),
        EntryKind::Made => Some(Answer::Go),
        EntryKind::Spawn => Some(Answer::Go),
        EntryKind::Leave => Some(Answer::Go),
        EntryKind::Admit => Some(let_in_answer(number(e.b) as u8, e.c == 1)),
        EntryKind::Accept => accept_answer(sites, e),
        EntryKind::Signal => Some(Answer::Go),
        EntryKind::SignalBlock => go_if(e.b == 0),
        EntryKind::Empty => Some(Answer::Number(e.b)),
        EntryKind::Front => Some(Answer::Number(e.b)),
        EntryKind::Raise => Some(Answer::Go),
        EntryKind::Poll => Some(poll_answer(number(e.a), e.c, e.d)),
        EntryKind::Print => Some(Answer::Go),
        EntryKind::Read => Some(Answer::Value {
            value: e.b,
            failed: e.c == 1,
        }),
        EntryKind::Fail => Some(Answer::Number(e.b)),
        EntryKind::Cluster => Some(Answer::Object(number(e.a) as u32)),
        EntryKind::ClusterEnd => Some(Answer::Go),
        EntryKind::Processor => Some(Answer::Object(number(e.a) as u32)),
        EntryKind::ProcessorEnd => Some(Answer::Go),
        EntryKind::Migrate => Some(Answer::Go),
        EntryKind::Gone => Some(Answer::Go),
        _ => None,
    }
}

fn go_if(holds: bool) -> Option<Answer>
    ensures { result ≡ where_true holds answer.Go }
{
    if holds {
        return Some(Answer::Go);
    }
    None
}

// What a task that is let in goes on with.
fn let_in_answer(clause: u8, failed: bool) -> Answer
    ensures { result ≡ let_in_answer clause failed }
{
    if clause == 0 {
        return Answer::Go;
    }
    Answer::Clause {
        number: clause,
        failed,
    }
}

// What a poll delivers.
fn poll_answer(found: u64, x: i64, y: i64) -> Answer
    requires { found ≤ 256 }
    ensures { result ≡ poll_answer found x y }
{
    if found == 0 {
        return Answer::Nothing;
    }
    Answer::Event {
        event: (found - 1) as u8,
        x,
        y,
    }
}

// What an accept that does not block its task answers.
fn accept_answer(sites: &[Site], e: &Entry) -> Option<Answer>
    ensures { result ≡ accept_answer sites.now e.now }
{
    if e.d == 2 {
        return Some(Answer::Clause {
            number: 0,
            failed: false,
        });
    }
    if e.d == 3 {
        let clause = clause_for(sites, number(e.a), number(e.b), DESTRUCTOR);
        return Some(Answer::Clause {
            number: clause.unwrap_or(0),
            failed: false,
        });
    }
    None
}

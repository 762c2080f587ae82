//! What each task is told to go on with.
ghost use Rattle.std.specs.Prelude.{◌≡◌, ◌<◌, length, replicate, slice_index_or, slice_set, IfOk, None};

use std::alloc::{AllocError, Global};
use std::marker::Model;
use uc_entry::request::Answer;
use uc_table::Table;

/// An answer or none for each task. Who is just to go on, as most tasks are, is told so by a flag, so that no answer is copied for it.
#[derive(Drop)]
pub struct Answers {
    goes: Table<bool>,
    // Those of the others.
    others: Table<Option<Answer>>,
}

impl Model for Answers {
    ghost use Rattle.std.specs.Prelude.{◌≡◌, List, Option, length};
    ghost use Rattle.uc_entry.specs.declared.request.Answer.{Answer};
    ghost use Rattle.uc_kernel_journal.specs.EntryAnswers.{told_by_flags};

    ghost Value = { List (Option Answer) };

    ghost view = { λ a. told_by_flags a.goes a.others };

    ghost invariant = { λ a. length a.goes ≡ length a.others };
}

impl Answers {
    /// None of so many tasks is told anything.
    pub fn new(alloc: Global, tasks: u32) -> Result<Answers, AllocError>
        ensures { IfOk result (λ a. a ≡ replicate tasks None) }
    {
        let goes = Table::new(alloc, tasks, false)?;
        let others = Table::new(alloc, tasks, None)?;
        Ok(Answers { goes, others })
    }

    /// The answer of a task, if it has one.
    pub fn get(&self, task: usize) -> Option<Answer>
        requires { task < length self.now }
        ensures { result ≡ slice_index_or self.now task result }
    {
        if self.goes.get(task) {
            return Some(Answer::Go);
        }
        self.others.get(task)
    }

    /// Gives a task another answer, or none.
    #[inline(always)]
    pub fn set(&mut self, task: usize, told: Option<Answer>)
        requires { task < length self.old }
        ensures { self.new ≡ slice_set self.old task told }
    {
        match told {
            Some(Answer::Go) => self.goes.set(task, true),
            _ => {
                self.goes.set(task, false);
                self.others.set(task, told);
            }
        }
    }
}

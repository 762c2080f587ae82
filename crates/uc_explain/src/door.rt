// What stands at one object.

ghost use Rattle.std.specs.Prelude.{◌≡◌, ◌==◌, ◌||◌, not, ℕ, ℤ, List, map, OnOk, OnErr};
ghost use Rattle.std.specs.List.{filter, list_any};
ghost use Rattle.uc_acts.specs.Queues.{successor};
ghost use Rattle.uc_acts.specs.Fit.{IsFit};
ghost use Rattle.uc_explain.specs.Shown.{in_order};
ghost use Rattle.uc_explain.specs.Steps.{after, nothing};

use crate::effects::accept_behind;
use crate::lists::{
    first_at, has_other, has_other_call, has_other_wait, move_blocked, move_inside, move_stacked,
    move_waiting, wait_place,
};
use std::alloc::{AllocError, Global};
use std::marker::Model;
use uc_entry::entry::Entry;

/// What stands at one object behind some entries.
#[derive(Drop)]
pub(crate) struct Door {
    pub(crate) inside: Vec<u32>,
    pub(crate) waiting: Vec<(u32, u8)>,
    pub(crate) stacked: Vec<u32>,
    // The conditions of those that are blocked, in order, and beside each the task and its number.
    pub(crate) conds: Vec<u64>,
    pub(crate) waits: Vec<(u32, i64)>,
    pub(crate) accept: Option<(u64, u64)>,
}

impl Model for Door {
    ghost use Rattle.std.specs.Prelude.{◌≡◌, length};
    ghost use Rattle.uc_explain.specs.Shown.{Shown};
    ghost use Rattle.uc_explain.specs.Steps.{waits_of};

    ghost Value = { Shown };

    ghost view = { λ d. record { inside = d.inside.items; waiting = d.waiting.items; stacked = d.stacked.items; blocked = waits_of d.conds.items d.waits.items; accepting = d.accept } };

    ghost invariant = { λ d. length d.conds.items ≡ length d.waits.items };
}

impl Door {
    /// Nothing stands there.
    pub(crate) fn new(alloc: Global) -> Door
        ensures { result ≡ nothing }
    {
        Door {
            inside: Vec::new(alloc),
            waiting: Vec::new(alloc),
            stacked: Vec::new(alloc),
            conds: Vec::new(alloc),
            waits: Vec::new(alloc),
            accept: None,
        }
    }

    /// Adds an entry of the object. For want of memory nothing changes.
    pub(crate) fn add(&mut self, e: &Entry) -> Result<(), AllocError>
        requires { IsFit e.now }
        ensures ok { OnOk result (self.new ≡ after e.now self.old) }
        ensures err { OnErr result (self.new ≡ self.old) }
    {
        self.inside.reserve(1)?;
        self.waiting.reserve(1)?;
        self.stacked.reserve(1)?;
        self.conds.reserve(1)?;
        self.waits.reserve(1)?;
        move_inside(&mut self.inside, e);
        move_waiting(&mut self.waiting, e);
        move_stacked(&mut self.stacked, e);
        move_blocked(&mut self.conds, &mut self.waits, e);
        self.accept = accept_behind(e, self.accept);
        Ok(())
    }

    /// Who is blocked on a condition, each with the number given, oldest first.
    pub(crate) fn blocked_on(&self, cond: u64) -> &[(u32, i64)]
        ensures { (bs : List (ℕ × ℕ × ℤ)) → self.now.blocked ≡ in_order (λ b. b.1) bs →
            result.now ≡ map (λ b. (b.0, b.2)) (filter (λ b. b.1 == cond) bs) }
    {
        let from = first_at(&self.conds, cond);
        let to = wait_place(&self.conds, cond);
        &self.waits[from..to]
    }

    /// Whether a task other than this one waits, is stacked or is blocked.
    pub(crate) fn has_others(&self, task: u32) -> bool
        ensures { result ≡ (list_any (λ w. not (w.0 == task)) self.now.waiting
            || (list_any (λ s. not (s == task)) self.now.stacked
            || list_any (λ b. not (b.0 == task)) self.now.blocked)) }
    {
        if has_other_call(&self.waiting, task) {
            return true;
        }
        if has_other(&self.stacked, task) {
            return true;
        }
        has_other_wait(&self.waits, task)
    }

    /// Who is let in next, and the way.
    pub(crate) fn next(&self) -> Option<(u32, u8)>
        ensures { result ≡ successor self.now.stacked self.now.waiting }
    {
        match self.stacked.first() {
            Some(task) => Some((*task, 3)),
            None => match self.waiting.first() {
                Some(call) => Some((call.0, 2)),
                None => None,
            },
        }
    }
}

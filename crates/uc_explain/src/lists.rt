// The lists of an object, each as one entry more leaves it.

ghost use Rattle.std.specs.Prelude.{◌≡◌, ◌<◌, ◌≤◌, ◌==◌, not, nat_lt, length, vec_len, vec_capacity};
ghost use Rattle.std.specs.List.{insert, list_any, prefix_len};
ghost use Rattle.uc_acts.specs.Fit.{IsFit};
ghost use Rattle.uc_explain.specs.Shown.{placed};
ghost use Rattle.uc_explain.specs.Steps.{inside_then, waiting_then, stacked_then, blocked_then, waits_of, waits_kept};

use crate::effects::{admits, call_of, moves, takes, task_let_in, task_stacked, wait_of};
use uc_entry::entry::Entry;

/// Takes out whom an entry moves, and puts whom it lets in where it belongs.
pub(crate) fn move_inside(inside: &mut Vec<u32>, e: &Entry)
    requires fit { IsFit e.now }
    requires room { vec_len inside.old < vec_capacity inside.old }
    ensures { inside.new.items ≡ inside_then e.now inside.old.items }
{
    inside.retain(|task| !moves(e, *task));
    match task_let_in(e) {
        Some(task) => place(inside, task),
        None => {}
    }
}

// Puts a task where it belongs.
fn place(tasks: &mut Vec<u32>, task: u32)
    requires { vec_len tasks.old < vec_capacity tasks.old }
    ensures { tasks.new.items ≡ placed (λ t. t) task tasks.old.items }
{
    let at = task_place(tasks, task);
    let _put = tasks.insert(at, task);
}

// How many tasks stand before the first with a greater number.
fn task_place(tasks: &[u32], task: u32) -> usize
    ensures place { result ≡ prefix_len (λ t. not (nat_lt task t)) tasks.now }
    ensures inside { result ≤ length tasks.now }
{
    for (i, other) in tasks.iter().enumerate() {
        if task < *other {
            return i;
        }
    }
    tasks.len()
}

/// Takes out whom an entry takes, and puts a caller at the end.
pub(crate) fn move_waiting(waiting: &mut Vec<(u32, u8)>, e: &Entry)
    requires fit { IsFit e.now }
    requires room { vec_len waiting.old < vec_capacity waiting.old }
    ensures { waiting.new.items ≡ waiting_then e.now waiting.old.items }
{
    waiting.retain(|call| !takes(e, call.0));
    match call_of(e) {
        Some(call) => waiting.push_reserved(call),
        None => {}
    }
}

/// Takes out whom an entry admits, and puts whom it stacks on top.
pub(crate) fn move_stacked(stacked: &mut Vec<u32>, e: &Entry)
    requires { vec_len stacked.old < vec_capacity stacked.old }
    ensures { stacked.new.items ≡ stacked_then e.now stacked.old.items }
{
    stacked.retain(|task| !admits(e, *task));
    match task_stacked(e) {
        Some(task) => {
            let _put = stacked.insert(0, task);
        }
        None => {}
    }
}

/// Takes out whom an entry takes, and puts whom it blocks behind those of its condition.
pub(crate) fn move_blocked(conds: &mut Vec<u64>, waits: &mut Vec<(u32, i64)>, e: &Entry)
    requires conds { vec_len conds.old < vec_capacity conds.old }
    requires waits { vec_len waits.old < vec_capacity waits.old }
    requires same { length conds.old.items ≡ length waits.old.items }
    ensures rows { waits_of conds.new.items waits.new.items
        ≡ blocked_then e.now (waits_of conds.old.items waits.old.items) }
    ensures same { length conds.new.items ≡ length waits.new.items }
{
    drop_waits(conds, waits, e);
    match wait_of(e) {
        Some((task, cond, n)) => {
            let at = wait_place(conds, cond);
            let _cond_put = conds.insert(at, cond);
            let _wait_put = waits.insert(at, (task, n));
        }
        None => {}
    }
}

/// How many conditions stand before the first with no lesser number.
pub(crate) fn first_at(conds: &[u64], cond: u64) -> usize
    ensures place { result ≡ prefix_len (λ c. nat_lt c cond) conds.now }
    ensures inside { result ≤ length conds.now }
{
    for (i, other) in conds.iter().enumerate() {
        if cond <= *other {
            return i;
        }
    }
    conds.len()
}

/// How many conditions stand before the first with a greater number.
pub(crate) fn wait_place(conds: &[u64], cond: u64) -> usize
    ensures place { result ≡ prefix_len (λ c. not (nat_lt cond c)) conds.now }
    ensures inside { result ≤ length conds.now }
{
    for (i, other) in conds.iter().enumerate() {
        if cond < *other {
            return i;
        }
    }
    conds.len()
}

// Takes out the waits of whom an entry takes.
fn drop_waits(conds: &mut Vec<u64>, waits: &mut Vec<(u32, i64)>, e: &Entry)
    requires { length conds.old.items ≡ length waits.old.items }
    ensures rows { waits_of conds.new.items waits.new.items
        ≡ waits_kept e.now (waits_of conds.old.items waits.old.items) }
    ensures same { length conds.new.items ≡ length waits.new.items }
    ensures bound { vec_len conds.new ≤ vec_len conds.old }
    ensures conds { vec_capacity conds.new ≡ vec_capacity conds.old }
    ensures waits { vec_capacity waits.new ≡ vec_capacity waits.old }
{
    let mut at = 0;
    while at < waits.len() {
        if takes(e, waits[at].0) {
            let _cond = conds.remove(at);
            let _wait = waits.remove(at);
        } else {
            at += 1;
        }
    }
}

/// Whether a task other than this one is among those who call.
pub(crate) fn has_other_call(calls: &[(u32, u8)], task: u32) -> bool
    ensures { result ≡ list_any (λ w. not (w.0 == task)) calls.now }
{
    calls.iter().any(|call| call.0 != task)
}

/// Whether a task other than this one is among some tasks.
pub(crate) fn has_other(tasks: &[u32], task: u32) -> bool
    ensures { result ≡ list_any (λ t. not (t == task)) tasks.now }
{
    tasks.iter().any(|other| *other != task)
}

/// Whether a task other than this one is among those who are blocked.
pub(crate) fn has_other_wait(waits: &[(u32, i64)], task: u32) -> bool
    ensures { result ≡ list_any (λ w. not (w.0 == task)) waits.now }
{
    waits.iter().any(|wait| wait.0 != task)
}

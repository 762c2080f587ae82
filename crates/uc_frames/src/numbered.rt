// Numbered things, and whether two names are one.

ghost use Rattle.std.specs.Prelude.{◌≡◌, ℕ, None, MatchOption, true};
ghost use Rattle.uc_machine.specs.Executions.{home_eq, exec_eq};
ghost use Rattle.uc_entry.specs.Keyed.{find};
ghost use Rattle.uc_frames.specs.Numbered.{Ascends, IsAt, IsBound};

use uc_entry::list::List;
use uc_machine::exec::{Exec, Home};

// Where the thing with that number stands.
pub(crate) fn position<X>(list: &List<(u64, X)>, key: u64) -> Option<u32>
    ensures { MatchOption result (find key list.now.items ≡ None) (λ i. IsAt key list.now.items i) }
{
    for i in 0..list.len() {
        if list.get(i).0 == key {
            return Some(i);
        }
    }
    None
}

// The same in a list in the order of its numbers. Where none is missing, a thing stands at its number, so it is sought there first.
#[inline(always)]
pub(crate) fn position_in_order<X>(list: &List<(u64, X)>, key: u64) -> Option<u32>
    requires { (high : ℕ) × Ascends 0 list.now.items high }
    ensures { MatchOption result (find key list.now.items ≡ None) (λ i. IsAt key list.now.items i) }
{
    if key < u64::from(list.len()) {
        let at = key as u32;
        if list.get(at).0 == key {
            if at == 0 {
                return Some(at);
            }
            if list.get(at - 1).0 < key {
                return Some(at);
            }
        }
    }
    position_by_halves(list, key)
}

// The same by halves.
#[inline(never)]
fn position_by_halves<X>(list: &List<(u64, X)>, key: u64) -> Option<u32>
    requires { (high : ℕ) × Ascends 0 list.now.items high }
    ensures { MatchOption result (find key list.now.items ≡ None) (λ i. IsAt key list.now.items i) }
{
    let first = count_below(list, key);
    if first < list.len() {
        if list.get(first).0 == key {
            Some(first)
        } else {
            None
        }
    } else {
        None
    }
}

// How many stand first whose numbers are below this one.
fn count_below<X>(list: &List<(u64, X)>, key: u64) -> u32
    requires { (high : ℕ) × Ascends 0 list.now.items high }
    ensures { IsBound key list.now.items result }
{
    let mut from = 0;
    let mut to = list.len();
    while from < to {
        let middle = from + (to - from) / 2;
        if list.get(middle).0 < key {
            from = middle + 1;
        } else {
            to = middle;
        }
    }
    from
}

pub(crate) fn is_same_home(a: Home, b: Home) -> bool
    ensures { result ≡ home_eq a b }
{
    match a {
        Home::Task(x) => match b {
            Home::Task(y) => x == y,
            Home::Object(_) => false,
        },
        Home::Object(x) => match b {
            Home::Task(_) => false,
            Home::Object(y) => x == y,
        },
    }
}

// Whether two names are one of an execution that is at home in a task, as most are. Where they are not, nothing is told.
#[inline(always)]
pub(crate) fn is_same_of_task(a: Exec, b: Exec) -> bool
    ensures { result ≡ true → exec_eq a b ≡ true }
{
    match a.home {
        Home::Task(x) => match b.home {
            Home::Task(y) => x == y && a.serial == b.serial,
            Home::Object(_) => false,
        },
        Home::Object(_) => false,
    }
}

pub(crate) fn is_same(a: Exec, b: Exec) -> bool
    ensures { result ≡ exec_eq a b }
{
    if is_same_home(a.home, b.home) {
        a.serial == b.serial
    } else {
        false
    }
}

//! An accept statement: the listed members of its true clauses are tried in textual order.
ghost use Rattle.std.specs.Prelude.{◌≡◌, ◌<◌, ◌≤◌, ◌+◌, ◌++◌, ℕ, List, length, map, Some, None, IfSome, IfNone, option_map, is_some, if◌then◌else◌};
ghost use Rattle.uc_tree.specs.SiteOffers.{met};
ghost use Rattle.uc_mutex.specs.Doors.{IsFree, door_at, with_door, pulled_by};
ghost use Rattle.uc_mutex.specs.Offers.{offers_by, AreMembers, IsKnownSite};
ghost use Rattle.uc_accept.specs.Accepting.{unpulled, to_met, answer_of, doors_of, taken_door};

use std::sync::ledger::Ledger;
use uc_links::Steps;
use uc_mutex::Entries;
use uc_mutex::offers::has_clause;
use uc_tree::limits::DESTRUCTOR;
use uc_tree::site::{Members, Site};

/// What becomes of an accept.
#[derive(Clone, Copy)]
pub enum Accepted {
    /// Nobody calls a listed member: the acceptor is on the stack, and its accept is open.
    Opened,
    /// This caller is inside, by the clause, from 1, and the acceptor is on the stack.
    Caller { task: u32, clause: u8 },
    /// Nobody calls a listed member, and there is an `_Else`: nothing changed.
    Else,
    /// This caller of the destructor is on the stack, by the clause, from 1, and the acceptor goes on.
    Destroyer { task: u32, clause: u8 },
}

/// A caller that was taken out of the queue, with its member and the clause that lists it.
#[derive(Clone, Copy)]
pub struct Taken {
    clause: u8,
    member: u8,
    task: u32,
}

/// An accept by the task inside an object, at a site with a mask of its true clauses. Of the members that they list, in textual
/// order, the first that has a caller is taken, and its oldest caller. It counts at most three moves more than it lists members.
pub fn accept<L: Ledger>(
    entries: &mut Entries,
    object: u32,
    task: u32,
    site: &Site,
    mask: u32,
    moves: &mut Steps<L>,
) -> Accepted
    requires object { object < length entries.old.doors }
    requires task { task < entries.old.tasks }
    requires free { IsFree task entries.old }
    requires inside { (door_at entries.old object).inside ≡ Some task }
    requires site { IsKnownSite site.now }
    ensures value { result ≡ answer_of site.now.has_else
        (met (offers_by site.now mask) (door_at entries.old object).waiting) }
    ensures doors { unpulled entries.new
        ≡ doors_of entries.old object task site.now.has_else (offers_by site.now mask)
        (met (offers_by site.now mask) (door_at entries.old object).waiting) }
    ensures moves { moves.new ≤ moves.old + length (offers_by site.now mask) + 3 }
{
    match pull_first(entries, object, site, mask, moves) {
        Some(taken) => admit(entries, object, task, site, mask, taken, moves),
        None => {
            if site.has_else {
                return Accepted::Else;
            }
            entries.push_acceptor(object, task, site, mask, 0, moves);
            Accepted::Opened
        }
    }
}

/// A caller was pulled out: it is let in, or it goes on the stack where it calls the destructor.
fn admit<L: Ledger>(
    entries: &mut Entries,
    object: u32,
    task: u32,
    site: &Site,
    mask: u32,
    taken: Taken,
    moves: &mut Steps<L>,
) -> Accepted
    requires object { object < length entries.old.doors }
    requires tasks { (task < entries.old.tasks) × (taken.task < entries.old.tasks) }
    requires free { IsFree task entries.old × IsFree taken.task entries.old }
    requires inside { (door_at entries.old object).inside ≡ Some task }
    requires site { IsKnownSite site.now }
    requires clause { 0 < taken.clause }
    requires pulled { entries.old.pulled ≡ Some (object, taken.task) }
    ensures value { result ≡ answer_of site.now.has_else (Some (to_met taken)) }
    ensures doors { entries.new ≡ with_door entries.old object
        (taken_door task (to_met taken) (door_at entries.old object)) }
    ensures moves { moves.new ≤ moves.old + 1 }
{
    if taken.member == DESTRUCTOR {
        entries.push(object, taken.task, moves);
        return Accepted::Destroyer {
            task: taken.task,
            clause: taken.clause,
        };
    }
    entries.push_acceptor(object, task, site, mask, taken.clause, moves);
    Accepted::Caller {
        task: taken.task,
        clause: taken.clause,
    }
}

/// Pulls out the oldest caller of the first listed member that has one.
fn pull_first<L: Ledger>(
    entries: &mut Entries,
    object: u32,
    site: &Site,
    mask: u32,
    moves: &mut Steps<L>,
) -> Option<Taken>
    requires object { object < length entries.old.doors }
    requires site { IsKnownSite site.now }
    ensures value { option_map to_met result
        ≡ met (offers_by site.now mask) (door_at entries.old object).waiting }
    ensures clause { IfSome result (λ t. 0 < t.clause) }
    ensures pulled { IfSome result (λ t. entries.new ≡ pulled_by entries.old object (Some t.task)) }
    ensures known { IfSome result (λ t. t.task < entries.new.tasks) }
    ensures free { IfSome result (λ t. IsFree t.task entries.new) }
    ensures same { IfNone result (unpulled entries.new ≡ unpulled entries.old) }
    ensures moves { moves.new ≤ moves.old + length (offers_by site.now mask)
        + (if is_some result then 1 else 0) }
{
    for at in 0..site.clauses.len() {
        if has_clause(mask, at) {
            let found = pull_listed(entries, object, &site.clauses[at], at as u8 + 1, moves);
            if let Some(taken) = found {
                return Some(taken);
            }
        }
    }
    None
}

/// Pulls out the oldest caller of the first of these members that has one.
fn pull_listed<L: Ledger>(
    entries: &mut Entries,
    object: u32,
    members: &Members,
    clause: u8,
    moves: &mut Steps<L>,
) -> Option<Taken>
    requires object { object < length entries.old.doors }
    requires members { AreMembers members.now }
    requires clause { 0 < clause }
    ensures some { IfSome result (λ t. (rest : List (ℕ × ℕ)) →
        met (map (λ x. (clause, x)) members.now ++ rest) (door_at entries.old object).waiting
        ≡ Some (to_met t)) }
    ensures none { IfNone result ((rest : List (ℕ × ℕ)) →
        met (map (λ x. (clause, x)) members.now ++ rest) (door_at entries.old object).waiting
        ≡ met rest (door_at entries.old object).waiting) }
    ensures clause { IfSome result (λ t. 0 < t.clause) }
    ensures pulled { IfSome result (λ t. entries.new ≡ pulled_by entries.old object (Some t.task)) }
    ensures known { IfSome result (λ t. t.task < entries.new.tasks) }
    ensures free { IfSome result (λ t. IsFree t.task entries.new) }
    ensures same { IfNone result (unpulled entries.new ≡ unpulled entries.old) }
    ensures moves { moves.new ≤ moves.old + length members.now + (if is_some result then 1 else 0) }
{
    for at in 0..members.numbers.len() {
        let member = members.numbers[at];
        if let Some(task) = entries.pull(object, member, moves) {
            return Some(Taken {
                clause,
                member,
                task,
            });
        }
    }
    None
}

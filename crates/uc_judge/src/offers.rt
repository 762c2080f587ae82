// What an accept statement offers under a mask.

ghost use Rattle.std.specs.Prelude.{◌≡◌, ◌==◌, ◌<◌, true, map, option_map};
ghost use Rattle.std.specs.List.{list_any};
ghost use Rattle.uc_acts.specs.Doors.{offers};
ghost use Rattle.uc_tree.specs.SiteOffers.{has_bit, offers_from, clause_for, oldest, met};
ghost use Rattle.uc_judge.specs.Offers.{as_met};

use uc_tree::site::{Members, Site};

/// A caller whom an accept takes, the member that it calls, and the clause that lists it.
#[derive(Clone, Copy)]
pub struct Taken {
    pub clause: u8,
    pub member: u8,
    pub task: u32,
}

/// The clause of an accept statement, from 1, that takes a caller of a member: the first of those in the mask that lists it.
pub fn clause_for(sites: &[Site], site: u64, mask: u64, member: u8) -> Option<u8>
    ensures { result ≡ clause_for (offers sites.now site mask) member }
{
    match sites.get(site as usize) {
        Some(site) => clause_among(&site.clauses, mask, member),
        None => None,
    }
}

/// Whom an accept statement takes of those who wait, each with the member that it calls, oldest first: the oldest caller of the
/// first member offered that has one.
pub fn met(sites: &[Site], site: u64, mask: u64, waiting: &[(u32, u8)]) -> Option<Taken>
    ensures { option_map as_met result ≡ met (offers sites.now site mask) waiting.now }
{
    match sites.get(site as usize) {
        Some(site) => met_among(&site.clauses, mask, waiting),
        None => None,
    }
}

/// Whether a mask has a bit.
pub(crate) fn has_bit(bit: usize, mask: u64) -> bool
    ensures value { result ≡ has_bit bit mask }
    ensures bit { result ≡ true → bit < 64 }
{
    bit < 64 && (mask >> bit) % 2 == 1
}

// The first clause in a mask that lists a member.
fn clause_among(clauses: &[Members], mask: u64, member: u8) -> Option<u8>
    ensures { result ≡ clause_for (offers_from 0 mask clauses.now) member }
{
    for (at, clause) in clauses.iter().enumerate() {
        if has_bit(at, mask) && lists(clause, member) {
            return Some(at as u8 + 1);
        }
    }
    None
}

// Whether a clause lists a member.
fn lists(clause: &Members, member: u8) -> bool
    ensures { result ≡ list_any (λ m. m == member) clause.now }
{
    clause.numbers.iter().any(|number| *number == member)
}

// Whom the clauses in a mask take.
fn met_among(clauses: &[Members], mask: u64, waiting: &[(u32, u8)]) -> Option<Taken>
    ensures { option_map as_met result ≡ met (offers_from 0 mask clauses.now) waiting.now }
{
    for (at, clause) in clauses.iter().enumerate() {
        if has_bit(at, mask) {
            let taken = met_by_clause(clause, at as u8 + 1, waiting);
            if taken.is_some() {
                return taken;
            }
        }
    }
    None
}

// Whom one clause takes.
fn met_by_clause(members: &Members, clause: u8, waiting: &[(u32, u8)]) -> Option<Taken>
    ensures { option_map as_met result ≡ met (map (λ m. (clause, m)) members.now) waiting.now }
{
    for member in &members.numbers {
        match oldest(waiting, *member) {
            Some(task) => {
                return Some(Taken {
                    clause,
                    member: *member,
                    task,
                });
            }
            None => {}
        }
    }
    None
}

// The oldest caller of a member.
fn oldest(waiting: &[(u32, u8)], member: u8) -> Option<u32>
    ensures { result ≡ oldest member waiting.now }
{
    for call in waiting {
        if call.1 == member {
            return Some(call.0);
        }
    }
    None
}

//! Which clause of an accept statement takes a call of each member.
ghost use Rattle.std.specs.Prelude.{◌≡◌, ◌<◌, ◌++◌, ℕ, List, map, length, slice_index_or};
ghost use Rattle.uc_links.specs.Lists.{member_limit};
ghost use Rattle.uc_tree.specs.SiteOffers.{has_bit};
ghost use Rattle.uc_mutex.specs.Offers.{offers_by, clauses_of, found_or, AreMembers, IsKnownSite};

use uc_links::MEMBERS;
use uc_tree::site::{Members, Site};

/// Whether a mask has the bit of a clause.
pub fn has_clause(mask: u32, at: usize) -> bool
    requires { at < 32 }
    ensures { result ≡ has_bit at mask }
{
    (mask >> at) % 2 == 1
}

/// The clause for each member by its number, the first true one that lists it, or 0.
pub(crate) fn clauses_by(site: &Site, mask: u32) -> [u8; MEMBERS]
    requires site { IsKnownSite site.now }
    ensures { result ≡ clauses_of (offers_by site.now mask) }
{
    let mut found = [0; MEMBERS];
    for at in 0..site.clauses.len() {
        if has_clause(mask, at) {
            find_members(&site.clauses[at], at as u8 + 1, &mut found);
        }
    }
    found
}

/// Notes the clause at the members that it lists, but where an earlier clause was noted.
fn find_members(members: &Members, clause: u8, found: &mut [u8; MEMBERS])
    requires clause { 0 < clause }
    requires members { AreMembers members.now }
    ensures { (rest : List (ℕ × ℕ)) (m : ℕ) → m < member_limit
        → found_or (slice_index_or found.old m 0) (map (λ x. (clause, x)) members.now ++ rest) m
        ≡ found_or (slice_index_or found.new m 0) rest m }
{
    for at in 0..members.numbers.len() {
        let member = members.numbers[at] as usize;
        if found[member] == 0 {
            found[member] = clause;
        }
    }
}

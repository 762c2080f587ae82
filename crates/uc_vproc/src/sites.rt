// The accept statements of a code, as the kernel takes them.
ghost use Rattle.std.specs.Prelude.{◌≡◌, ◌<◌, true, IfOk, length};
ghost use Rattle.std.specs.List.{AllByRecursion};
ghost use Rattle.uc_kernel_core.specs.Mirrors.{AreKnownSites};
ghost use Rattle.uc_mutex.specs.Offers.{AreMembers, IsKnownSite};

use std::alloc::{AllocError, Global};
use uc_tree::limits::{CLAUSES, MEMBERS};
use uc_tree::site::{Members, Site};

/// The same accept statements, where the kernel may be asked for each: it has 32 clauses at most, and what they list are members. So it
/// is with those of code that was lowered; of others there are none, as without memory.
pub fn known_sites(alloc: Global, sites: &[Site]) -> Result<Vec<Site>, AllocError>
    ensures same { IfOk result (λ ss. ss.items ≡ sites.now) }
    ensures known { IfOk result (λ ss. AreKnownSites ss.items) }
{
    let mut copies = Vec::new(alloc);
    for at in 0..sites.len() {
        let copy = known_site(alloc, &sites[at])?;
        copies.push(copy)?;
    }
    Ok(copies)
}

// One of them.
fn known_site(alloc: Global, site: &Site) -> Result<Site, AllocError>
    ensures same { IfOk result (λ s. s ≡ site.now) }
    ensures known { IfOk result (λ s. IsKnownSite s) }
{
    if site.clauses.len() > CLAUSES as usize {
        return Err(AllocError);
    }
    let clauses = known_clauses(alloc, &site.clauses)?;
    Ok(Site {
        class: site.class,
        clauses,
        has_else: site.has_else,
    })
}

// Its clauses.
fn known_clauses(alloc: Global, clauses: &[Members]) -> Result<Vec<Members>, AllocError>
    ensures same { IfOk result (λ cs. cs.items ≡ clauses.now) }
    ensures known { IfOk result (λ cs. AllByRecursion AreMembers cs.items) }
{
    let mut copies = Vec::new(alloc);
    for at in 0..clauses.len() {
        let copy = known_members(alloc, &clauses[at])?;
        copies.push(copy)?;
    }
    Ok(copies)
}

// What a clause lists.
fn known_members(alloc: Global, members: &Members) -> Result<Members, AllocError>
    ensures same { IfOk result (λ ms. ms ≡ members.now) }
    ensures known { IfOk result (λ ms. AreMembers ms) }
{
    let numbers = members.numbers.as_slice().to_vec(alloc)?;
    if !are_members(&numbers) {
        return Err(AllocError);
    }
    Ok(Members { numbers })
}

// Whether all of these are numbers of members.
fn are_members(numbers: &[u8]) -> bool
    ensures { result ≡ true → AreMembers numbers.now }
{
    for at in 0..numbers.len() {
        if numbers[at] > MEMBERS {
            return false;
        }
    }
    true
}

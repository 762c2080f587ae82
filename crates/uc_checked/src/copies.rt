//! Copies of what is numbered in a program.
ghost use Rattle.std.specs.Prelude.{◌≡◌, IfOk};

use std::alloc::{AllocError, Global};
use uc_tree::name::Text;
use uc_tree::site::{Members, Site};

// What a clause lists.
fn copy_members(alloc: Global, members: &Members) -> Result<Members, AllocError>
    ensures { IfOk result (λ copy. copy ≡ members.now) }
{
    let numbers = members.numbers.as_slice().to_vec(alloc)?;
    Ok(Members { numbers })
}

// The clauses of an accept statement.
fn copy_clauses(alloc: Global, clauses: &[Members]) -> Result<Vec<Members>, AllocError>
    ensures { IfOk result (λ copies. copies.items ≡ clauses.now) }
{
    let mut copies = Vec::new(alloc);
    for at in 0..clauses.len() {
        let copy = copy_members(alloc, &clauses[at])?;
        copies.push(copy)?;
    }
    Ok(copies)
}

fn copy_site(alloc: Global, site: &Site) -> Result<Site, AllocError>
    ensures { IfOk result (λ copy. copy ≡ site.now) }
{
    let clauses = copy_clauses(alloc, &site.clauses)?;
    Ok(Site {
        class: site.class,
        clauses,
        has_else: site.has_else,
    })
}

/// The same accept statements.
pub fn copy_sites(alloc: Global, sites: &[Site]) -> Result<Vec<Site>, AllocError>
    ensures { IfOk result (λ copies. copies.items ≡ sites.now) }
{
    let mut copies = Vec::new(alloc);
    for at in 0..sites.len() {
        let copy = copy_site(alloc, &sites[at])?;
        copies.push(copy)?;
    }
    Ok(copies)
}

/// The same text literals.
pub fn copy_texts(alloc: Global, texts: &[Text]) -> Result<Vec<Text>, AllocError>
    ensures { IfOk result (λ copies. copies.items ≡ texts.now) }
{
    let mut copies = Vec::new(alloc);
    for at in 0..texts.len() {
        let copy = texts[at].copy(alloc)?;
        copies.push(copy)?;
    }
    Ok(copies)
}

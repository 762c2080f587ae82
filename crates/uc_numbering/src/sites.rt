// The accept statements of a program.

ghost use Rattle.std.specs.Prelude.{◌≡◌, ◌≤◌, ◌++◌, IfOk, OnOk, map, option_map, length};
ghost use Rattle.uc_tree.specs.declared.limits.TheConstants.{MEMBERS};
ghost use Rattle.uc_tree.specs.Statements.{clause_list, clauses_of};
ghost use Rattle.uc_tree.specs.StatementViews.{maybe_at};
ghost use Rattle.uc_tree.specs.Gathered.{gathered_all};
ghost use Rattle.uc_tree.specs.Numbering.{own_sites, is_there, sites_in, sites_of};
ghost use Rattle.uc_numbering.specs.Flat.{flat};
ghost use Rattle.uc_numbering.specs.Routines.{defined_at};
ghost use Rattle.uc_numbering.specs.Sites.{names_of, listed_in, clause_listed, own_listed};

use crate::gathered::statements_of;
use crate::members::{member_number, members_of};
use crate::routines::{Defined, routines_of};
use std::alloc::{AllocError, Global};
use uc_tree::class::Class;
use uc_tree::kinds::MemberName;
use uc_tree::limits::DESTRUCTOR;
use uc_tree::name::Name;
use uc_tree::program::Program;
use uc_tree::site::{Members, Site};
use uc_tree::stmt::{Clause, Stmt, StmtForm};

fn listed_number(names: &[&Name], member: &MemberName) -> u8
    requires few { length names.now ≤ MEMBERS }
    ensures { result ≡ listed_in (map (λ n. n.now) names.now) member.now }
{
    if member.destructor {
        return DESTRUCTOR;
    }
    match member_number(names, &member.name) {
        Some(number) => number,
        // A name that is no mutex member stands for 0, as in the definition.
        None => 0,
    }
}

fn clause_numbers(alloc: Global, names: &[&Name], clause: &Clause) -> Result<Members, AllocError>
    requires few { length names.now ≤ MEMBERS }
    ensures { IfOk result (λ m. m ≡ clause_listed (map (λ n. n.now) names.now) clause.now) }
{
    let mut numbers = Vec::new(alloc);
    for member in &clause.members {
        numbers.push(listed_number(names, member))?;
    }
    Ok(Members { numbers })
}

fn site_of(
    alloc: Global,
    names: &[&Name],
    class: u32,
    clauses: &[Clause],
    has_else: bool,
) -> Result<Site, AllocError>
    requires few { length names.now ≤ MEMBERS }
    ensures { IfOk result (λ s. s
        ≡ record {
          class = class;
          clauses = map (clause_listed (map (λ n. n.now) names.now))
              (clause_list (clauses_of clauses.now));
          has_else = has_else;
        }) }
{
    let mut lists = Vec::new(alloc);
    for clause in clauses {
        lists.push(clause_numbers(alloc, names, clause)?)?;
    }
    Ok(Site {
        class,
        clauses: lists,
        has_else,
    })
}

fn is_there(other: &Option<Box<Stmt>>) -> bool
    ensures { result ≡ is_there (maybe_at other.now) }
{
    match other {
        Some(_) => true,
        None => false,
    }
}

fn push_site(
    alloc: Global,
    found: &mut Vec<Site>,
    names: &[&Name],
    class: u32,
    s: &Stmt,
) -> Result<(), AllocError>
    requires few { length names.now ≤ MEMBERS }
    ensures { OnOk result (found.new.items
        ≡ found.old.items ++ own_listed (map (λ n. n.now) names.now) class s.now) }
{
    match &s.form {
        StmtForm::Accept { clauses, other } => {
            let has_else = is_there(other);
            let site = site_of(alloc, names, class, clauses, has_else)?;
            found.push(site)?;
            Ok(())
        }
        _ => Ok(()),
    }
}

fn push_sites(
    alloc: Global,
    found: &mut Vec<Site>,
    names: &[&Name],
    class: u32,
    statements: &[&Stmt],
) -> Result<(), AllocError>
    requires few { length names.now ≤ MEMBERS }
    ensures { OnOk result (found.new.items
        ≡ found.old.items ++ flat (own_listed (map (λ n. n.now) names.now) class)
        (map (λ s. s.now) statements.now)) }
{
    for s in statements {
        push_site(alloc, found, names, class, s)?;
    }
    Ok(())
}

// The names of the mutex members of a class as far as they have numbers.
fn names_of<'a>(alloc: Global, class: Option<&'a Class>) -> Result<Vec<&'a Name>, AllocError>
    ensures names { IfOk result (λ v. map (λ n. n.now) v.items
        ≡ names_of (option_map (λ c. c.now) class.entry)) }
    ensures few { IfOk result (λ v. length v.items ≤ MEMBERS) }
{
    match class {
        Some(class) => members_of(alloc, class),
        None => Ok(Vec::new(alloc)),
    }
}

fn push_routine(alloc: Global, found: &mut Vec<Site>, defined: &Defined) -> Result<(), AllocError>
    ensures { OnOk result (found.new.items
        ≡ found.old.items
        ++ gathered_all (own_sites (defined_at defined.now).class (defined_at defined.now).number)
        (defined_at defined.now).routine.body) }
{
    let routine = defined.routine;
    let statements = statements_of(alloc, &routine.body)?;
    let names = names_of(alloc, defined.class)?;
    push_sites(alloc, found, &names, defined.number, &statements)?;
    Ok(())
}

fn sites_in(alloc: Global, routines: &[Defined]) -> Result<Vec<Site>, AllocError>
    ensures { IfOk result (λ v. v.items ≡ sites_in (map defined_at routines.now)) }
{
    let mut found = Vec::new(alloc);
    for defined in routines {
        push_routine(alloc, &mut found, defined)?;
    }
    Ok(found)
}

/// The accept statements of a program, in textual order: the place of one is its number.
pub fn sites_of(alloc: Global, program: &Program) -> Result<Vec<Site>, AllocError>
    ensures { IfOk result (λ v. v.items ≡ sites_of program.now) }
{
    let routines = routines_of(alloc, program)?;
    sites_in(alloc, &routines)
}

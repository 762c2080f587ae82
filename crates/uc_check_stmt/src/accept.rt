// The rules on the clauses of accept statements and on lists of handlers.

ghost use Rattle.std.specs.Prelude.{◌≡◌, ◌≤◌, ◌&&◌, ◌||◌, IfOk, List, MatchOption, None, OnOk, Option, Some, [], false, if◌then◌else◌, length, map, nat_lt, not, slice_get, take, ℕ};
ghost use Rattle.uc_tree.specs.Names.{same_name};
ghost use Rattle.uc_tree.specs.Statements.{clauses_of, handlers_of};
ghost use Rattle.uc_tree.specs.Numbering.{is_mutex, mutex_members};
ghost use Rattle.uc_tree.specs.declared.limits.TheConstants.{CLAUSES, DESTRUCTOR, MEMBERS};
ghost use Rattle.uc_rules.specs.ExpressionBreaks.{all_listed, are_fresh, behind_all, class_of, clauses_breaks, handlers_breaks, is_among, is_catch, is_event_or_all, is_exclusive_entity, is_exclusive_member, is_fresh, listed_in, means_exclusive, with_listed};
ghost use Rattle.uc_rules.specs.Names.{member_named};
ghost use Rattle.uc_rules.specs.declared.rules.NameMeaning.{NameMeaning};
ghost use Rattle.uc_rules.specs.Firsts.{after};
ghost use Rattle.uc_rules.specs.OwnerBreaks.{may_accept};
ghost use Rattle.uc_rules.specs.ProgramVisits.{home_member};
ghost use Rattle.uc_rules.specs.Sorts.{class_at};
ghost use Rattle.uc_rules.specs.Visits.{AtAccept, AtHandlers};
ghost use Rattle.uc_types.specs.FirstBreak.{first_break_after};

use std::alloc::{AllocError, Global};
use uc_numbering::members::member_number;
use uc_rules::rule::Rule;
use uc_rules::rules::{Entity, NameMeaning, Surroundings};
use uc_tree::class::Class;
use uc_tree::kinds::{HandlerKind, MemberName};
use uc_tree::limits::{CLAUSES, DESTRUCTOR};
use uc_tree::name::Name;
use uc_tree::pos::Pos;
use uc_tree::stmt::{Clause, Handler};
use uc_types::found::Found;
use uc_types::names::Names;
use uc_types::sort::{is_constructor, is_exclusive, is_mutex};
use uc_types::tables::Tables;

fn is_among(number: u8, seen: &[u8]) -> bool
    ensures { result ≡ is_among number seen.now }
{
    seen.iter().any(|n| *n == number)
}

// Whether a listed member is one, and none that is listed before; it is then.
fn list_number(seen: &mut Vec<u8>, number: Option<u8>) -> Result<bool, AllocError>
    ensures seen { OnOk result (seen.new.items ≡ with_listed seen.old.items number) }
    ensures fresh { IfOk result (λ fresh. fresh ≡ is_fresh seen.old.items number) }
{
    match number {
        Some(number) => {
            if is_among(number, seen) {
                return Ok(false);
            }
            seen.push(number)?;
            Ok(true)
        }
        None => Ok(false),
    }
}

fn destructor_of(class: &Class, member: &MemberName) -> Option<u8>
    ensures { result ≡ (if is_mutex class.now.kind && same_name class.now.name member.now.name
        then Some DESTRUCTOR else None) }
{
    if is_mutex(class.kind) && class.name.is(member.name.bytes()) {
        Some(DESTRUCTOR)
    } else {
        None
    }
}

fn is_exclusive_member(class: &Class, member: usize) -> bool
    ensures { result ≡ is_exclusive_member (slice_get class.now.members member) }
{
    match class.members.get(member) {
        Some(member) => is_exclusive(member.mark, member.access),
        None => false,
    }
}

fn is_exclusive_entity(class: &Class, entity: Option<Entity>) -> bool
    ensures { result ≡ is_exclusive_entity class.now entity }
{
    match entity {
        Some(entity) => match entity {
            Entity::Method { member, .. } => is_exclusive_member(class, member),
            _ => false,
        },
        None => false,
    }
}

fn means_exclusive(class: &Class, meant: Option<NameMeaning>) -> bool
    ensures { result ≡ means_exclusive class.now meant }
{
    match meant {
        Some(meant) => is_exclusive_entity(class, meant.entity),
        None => false,
    }
}

/// A class whose members are listed, by its place, with the names of the members that have numbers.
#[derive(Clone, Copy)]
struct Listing<'a> {
    tables: &'a Tables<'a>,
    place: usize,
    class: &'a Class,
    names: &'a [&'a Name],
    ghost numbered: { map (λ n. n.now) names.now ≡ take MEMBERS (mutex_members class.now) },
    ghost few: { length names.now ≤ MEMBERS },
}

fn listed_in(listing: Listing, member: &MemberName) -> Option<u8>
    ensures { result ≡ listed_in (member_named listing.entry.tables.now listing.entry.place)
        (Some listing.entry.class.now) member.now }
{
    if member.destructor {
        return destructor_of(listing.class, member);
    }
    let meant = listing.tables.member_named(listing.place, &member.name);
    if means_exclusive(listing.class, meant) {
        member_number(listing.names, &member.name)
    } else {
        None
    }
}

fn list_members(
    listing: Listing,
    seen: &mut Vec<u8>,
    members: &[MemberName],
) -> Result<bool, AllocError>
    ensures seen { OnOk result (seen.new.items
        ≡ all_listed seen.old.items
        (map (listed_in (member_named listing.entry.tables.now listing.entry.place)
        (Some listing.entry.class.now)) members.now)) }
    ensures fresh { IfOk result (λ fresh. fresh
        ≡ are_fresh seen.old.items
        (map (listed_in (member_named listing.entry.tables.now listing.entry.place)
        (Some listing.entry.class.now)) members.now)) }
{
    let mut fresh = true;
    for member in members {
        let number = listed_in(listing, member);
        let is_fresh = list_number(seen, number)?;
        fresh = both(fresh, is_fresh);
    }
    Ok(fresh)
}

fn both(a: bool, b: bool) -> bool
    ensures { result ≡ a && b }
{
    a && b
}

#[tactic(auto, using(crate::proofs::Joined::joining))]
fn note_clauses(
    alloc: Global,
    listing: Listing,
    clauses: &[Clause],
    found: &mut Found,
) -> Result<(), AllocError>
    ensures { OnOk result (found.new
        ≡ after found.old
        (clauses_breaks (member_named listing.entry.tables.now listing.entry.place)
        (Some listing.entry.class.now) 0 [] (clauses_of clauses.now))) }
{
    let mut seen = Vec::new(alloc);
    for (place, clause) in clauses.iter().enumerate() {
        let fresh = list_members(listing, &mut seen, &clause.members)?;
        let holds = place < usize::from(CLAUSES) && fresh;
        found.note_unless(holds, Rule::S20, clause.pos);
    }
    Ok(())
}

// Where no class is round an accept statement nothing that it lists has a number.
fn lists_none(members: &[MemberName]) -> bool
    ensures { (meant : List ℕ → Option NameMeaning) →
        result ≡ are_fresh [] (map (listed_in meant None) members.now) }
{
    members.is_empty()
}

fn note_unowned(clauses: &[Clause], found: &mut Found)
    ensures { (meant : List ℕ → Option NameMeaning) →
        found.new ≡ after found.old (clauses_breaks meant None 0 [] (clauses_of clauses.now)) }
{
    for (place, clause) in clauses.iter().enumerate() {
        let fresh = lists_none(&clause.members);
        let holds = both(is_few(place), fresh);
        found.note_unless(holds, Rule::S20, clause.pos);
    }
}

// Whether a statement may have a clause with this place.
fn is_few(place: usize) -> bool
    ensures { result ≡ nat_lt place CLAUSES }
{
    place < usize::from(CLAUSES)
}

fn may_accept(around: Surroundings) -> bool
    ensures { result ≡ may_accept around }
{
    around.inner && !is_constructor(around.role)
}

// The clauses of an accept statement in a routine of the class with this place.
fn note_owned(
    names: &Names,
    place: usize,
    clauses: &[Clause],
    found: &mut Found,
) -> Result<(), AllocError>
    ensures { OnOk result (found.new
        ≡ after found.old
        (clauses_breaks (member_named names.now.program place)
        (class_at names.now.program place) 0 [] (clauses_of clauses.now))) }
{
    let tables = names.tables();
    match tables.class_at(place) {
        Some(class) => {
            let listing = Listing {
                tables,
                place,
                class,
                names: tables.mutex_members(place),
            };
            note_clauses(names.alloc(), listing, clauses, found)
        }
        None => {
            note_unowned(clauses, found);
            Ok(())
        }
    }
}

// The clauses of an accept statement.
fn note_listed(names: &Names, clauses: &[Clause], found: &mut Found) -> Result<(), AllocError>
    ensures { OnOk result (found.new
        ≡ after found.old
        (clauses_breaks (home_member names.now.program names.now.around.home)
        (class_of names.now) 0 [] (clauses_of clauses.now))) }
{
    match names.around().home {
        Some(home) => {
            note_owned(names, home.class, clauses, found)?;
            Ok(())
        }
        None => {
            note_unowned(clauses, found);
            Ok(())
        }
    }
}

/// An accept statement with its clauses.
pub fn ask_accept(
    names: &Names,
    clauses: &[Clause],
    at: Pos,
    found: &mut Found,
) -> Result<(), AllocError>
    ensures { OnOk result (found.new
        ≡ first_break_after found.old (AtAccept names.now at (clauses_of clauses.now))) }
{
    note_listed(names, clauses, found)?;
    found.note_unless(may_accept(names.around()), Rule::O9, at);
    Ok(())
}

fn is_catch(kind: HandlerKind) -> bool
    ensures { result ≡ is_catch kind }
{
    matches!(kind, HandlerKind::Catch)
}

fn behind_all(catches: bool, resumes: bool, kind: HandlerKind) -> bool
    ensures { result ≡ behind_all catches resumes kind }
{
    match kind {
        HandlerKind::Catch => catches,
        HandlerKind::CatchResume => resumes,
    }
}

fn is_event_or_all(names: &Names, event: &Option<Name>) -> bool
    ensures { result ≡ is_event_or_all names.now.program event.now }
{
    match event {
        Some(event) => {
            let tables = names.tables();
            tables.event_named(event).is_some()
        }
        None => true,
    }
}

#[tactic(auto, using(crate::proofs::Joined::joining))]
fn note_handlers(names: &Names, handlers: &[Handler], found: &mut Found)
    ensures { found.new ≡ after found.old
        (handlers_breaks names.now.program false false (handlers_of handlers.now)) }
{
    let mut catches = false;
    let mut resumes = false;
    for handler in handlers {
        let holds = is_event_or_all(names, &handler.event)
            && !behind_all(catches, resumes, handler.kind);
        found.note_unless(holds, Rule::S21, handler.pos);
        let all = !handler.event.is_some();
        catches = catches_then(catches, handler.kind, all);
        resumes = resumes_then(resumes, handler.kind, all);
    }
}

fn catches_then(catches: bool, kind: HandlerKind, all: bool) -> bool
    ensures { result ≡ (catches || (is_catch kind && all)) }
{
    catches || (is_catch(kind) && all)
}

fn resumes_then(resumes: bool, kind: HandlerKind, all: bool) -> bool
    ensures { result ≡ (resumes || (not (is_catch kind) && all)) }
{
    resumes || (!is_catch(kind) && all)
}

/// The handlers of a guarded block.
pub fn ask_handlers(names: &Names, handlers: &[Handler], found: &mut Found)
    ensures { found.new ≡ first_break_after found.old
        (AtHandlers names.now (handlers_of handlers.now)) }
{
    note_handlers(names, handlers, found);
}

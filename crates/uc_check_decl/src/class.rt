// Tests of classes and their members.

ghost use Rattle.std.specs.Prelude.{◌≡◌, ◌≤◌, [], ℕ, List, IfOk, MatchOption, None, Some, is_some, length, map, nat_le, take};
ghost use Rattle.std.specs.List.{list_all, list_any};
ghost use Rattle.uc_names.specs.Blocks.{found};
ghost use Rattle.uc_tree.specs.Names.{same_name};
ghost use Rattle.uc_tree.specs.ProgramViews.{member_form_at};
ghost use Rattle.uc_tree.specs.Numbering.{exclusive_name, main_name, member_form_name, mutex_members, sig_name};
ghost use Rattle.uc_tree.specs.Statements.{stmts_of};
ghost use Rattle.uc_tree.specs.declared.limits.TheConstants.{EVENT_FIELDS, MEMBERS};
ghost use Rattle.uc_rules.specs.ClassBreaks.{declared_names, events_before, fields_in, form_fields, has_event_fields, has_number, is_empty_body, is_empty_constructor, is_event_field, is_event_member, is_owner, is_sound_event, is_well_marked, form_declares_names, form_is_main, form_may_be_marked, form_unset, has_unset, is_unmarked, is_unset, is_well_built, is_well_mained, may_be_scalar, maybe_needs, members_declare, needs_init, sig_declares, sort_needs};
ghost use Rattle.uc_rules.specs.Names.{constructor_among, constructor_params};

use crate::sig::{is_main_of_class, may_be_marked};
use std::alloc::{AllocError, Global};
use uc_check_index::index::Index;
use uc_names::scope::Scope;
use uc_numbering::members::member_number;
use uc_rules::rules::Sort;
use uc_tree::class::{Class, Init, Member, MemberForm, Routine, Sig};
use uc_tree::declare::Declarator;
use uc_tree::kinds::{Base, MutexMark, Owner};
use uc_tree::limits::{EVENT_FIELDS, PROGRAM_EVENTS};
use uc_tree::name::Name;
use uc_tree::stmt::Stmt;
use uc_types::sets::{has_name, names_of_inits};
use uc_types::sort::{
    has_main, is_constructor, is_event, is_exclusive, is_mutex, is_plain, is_scalar_sort,
};
use uc_types::tables::{Tables, constructor_among};

fn any_named(declarators: &[Declarator], name: &[u8]) -> bool
    ensures { result ≡ list_any (λ d. same_name d.name name.now) declarators.now }
{
    declarators.iter().any(|d| d.name.is(name))
}

fn names_main_field(declarators: &[Declarator]) -> bool
    ensures { result ≡ list_any (λ n. same_name n main_name) (declared_names declarators.now) }
{
    let found = any_named(declarators, b"main");
    found
}

fn is_main_form(form: &MemberForm) -> bool
    ensures { result ≡ form_is_main (member_form_at form.now) }
{
    match form {
        MemberForm::Fields { .. } => false,
        MemberForm::Routine { routine } => is_main_of_class(&routine.sig),
        MemberForm::Proto { sig } => is_main_of_class(sig),
    }
}

fn has_main_routine(members: &[Member]) -> bool
    ensures { result ≡ list_any (λ m. form_is_main m.form) members.now }
{
    members.iter().any(|m| is_main_form(&m.form))
}

fn names_main(sig: &Sig) -> bool
    ensures { result ≡ list_any (λ n. same_name n main_name) (sig_declares sig.now) }
{
    is_plain(sig.role) && sig.name.is(b"main")
}

fn form_names_main(form: &MemberForm) -> bool
    ensures { result ≡ list_any (λ n. same_name n main_name)
        (form_declares_names (member_form_at form.now)) }
{
    match form {
        MemberForm::Fields { declarators, .. } => names_main_field(declarators),
        MemberForm::Routine { routine } => names_main(&routine.sig),
        MemberForm::Proto { sig } => names_main(sig),
    }
}

#[tactic(auto, using(crate::proofs::Listed::listing))]
fn declares_main(members: &[Member]) -> bool
    ensures { result ≡ list_any (λ n. same_name n main_name) (members_declare members.now) }
{
    for member in members {
        if form_names_main(&member.form) {
            return true;
        }
    }
    false
}

/// Whether a class has a main just where its kind has one.
pub fn is_well_mained(class: &Class) -> bool
    ensures { result ≡ is_well_mained class.now }
{
    if has_main(class.kind) {
        has_main_routine(&class.members)
    } else {
        !declares_main(&class.members)
    }
}

fn is_unmarked(mark: MutexMark) -> bool
    ensures { result ≡ is_unmarked mark }
{
    matches!(mark, MutexMark::Unmarked)
}

fn may_form_be_marked(form: &MemberForm) -> bool
    ensures { result ≡ form_may_be_marked (member_form_at form.now) }
{
    match form {
        MemberForm::Fields { .. } => false,
        MemberForm::Routine { routine } => may_be_marked(&routine.sig),
        MemberForm::Proto { sig } => may_be_marked(sig),
    }
}

// Whether a member that has a number among the mutex members of its class, if it is to have one, has it: the names are those
// of the members that have.
fn has_number(class: &Class, names: &[&Name], member: &Member) -> bool
    requires names { map (λ n. n.now) names.now ≡ take MEMBERS (mutex_members class.now) }
    requires few { length names.now ≤ MEMBERS }
    ensures { result ≡ has_number class.now (exclusive_name member.now) }
{
    if !is_exclusive(member.mark, member.access) {
        return true;
    }
    match form_name(&member.form) {
        Some(name) => !is_mutex(class.kind) || member_number(names, name).is_some(),
        None => true,
    }
}

fn sig_name(sig: &Sig) -> Option<&Name>
    ensures { MatchOption result (sig_name sig.now ≡ None) (λ n. sig_name sig.now ≡ Some n.now) }
{
    if may_be_marked(sig) {
        Some(&sig.name)
    } else {
        None
    }
}

// The name of a routine that may be a mutex member.
fn form_name(form: &MemberForm) -> Option<&Name>
    ensures { MatchOption result (member_form_name (member_form_at form.now)
        ≡ None) (λ n. member_form_name (member_form_at form.now) ≡ Some n.now) }
{
    match form {
        MemberForm::Fields { .. } => None,
        MemberForm::Routine { routine } => sig_name(&routine.sig),
        MemberForm::Proto { sig } => sig_name(sig),
    }
}

/// Whether a member may stand as it is marked, and has a number if it is to have one.
pub fn is_well_marked(class: &Class, names: &[&Name], member: &Member) -> bool
    requires names { map (λ n. n.now) names.now ≡ take MEMBERS (mutex_members class.now) }
    requires few { length names.now ≤ MEMBERS }
    ensures { result ≡ is_well_marked class.now member.now }
{
    (is_unmarked(member.mark) || (is_mutex(class.kind) && may_form_be_marked(&member.form)))
        && has_number(class, names, member)
}

/// How many parameters the constructor of a class has.
pub fn count_params(tables: &Tables, class: usize) -> usize
    ensures { result ≡ length (constructor_params tables.now class) }
{
    tables.constructor_params(class).len()
}

fn sort_needs(tables: &Tables, sort: Sort) -> bool
    ensures { result ≡ sort_needs tables.now sort }
{
    match sort {
        Sort::Processor => true,
        Sort::Object { class, .. } => count_params(tables, class) != 0,
        _ => false,
    }
}

fn maybe_needs(tables: &Tables, sort: Option<Sort>) -> bool
    ensures { result ≡ maybe_needs tables.now sort }
{
    match sort {
        Some(sort) => sort_needs(tables, sort),
        None => false,
    }
}

fn needs_init(tables: &Tables, base: &Base, declarator: &Declarator) -> bool
    ensures { result ≡ needs_init tables.now base.now declarator.now }
{
    declarator.by_ref || (!declarator.len.is_some() && maybe_needs(tables, tables.sort_of(base)))
}

/// Initialisers with their names.
#[derive(Clone, Copy)]
pub struct Inits<'a> {
    pub list: &'a [Init],
    pub names: &'a Scope,
    ghost named: { (x : List ℕ) → is_some (found names.now x) ≡ list_any (λ i. same_name i.name x) list.now },
}

fn is_set(inits: &Inits, name: &Name) -> bool
    ensures { result ≡ list_any (λ x. same_name x.name name.now) inits.now.list.now }
{
    let set = has_name(inits.names, name);
    set
}

fn is_unset(tables: &Tables, inits: &Inits, base: &Base, declarator: &Declarator) -> bool
    ensures { result ≡ is_unset tables.now inits.now.list.now base.now declarator.now }
{
    needs_init(tables, base, declarator) && !is_set(inits, &declarator.name)
}

fn form_unset(tables: &Tables, inits: &Inits, form: &MemberForm) -> bool
    ensures { result ≡ form_unset tables.now inits.now.list.now (member_form_at form.now) }
{
    match form {
        MemberForm::Fields {
            base,
            declarators,
            ..
        } => any_unset(tables, inits, base, declarators),
        _ => false,
    }
}

fn any_unset(tables: &Tables, inits: &Inits, base: &Base, declarators: &[Declarator]) -> bool
    ensures { result ≡ list_any (is_unset tables.now inits.now.list.now base.now) declarators.now }
{
    declarators.iter().any(|d| is_unset(tables, inits, base, d))
}

fn has_unset_among(tables: &Tables, inits: &Inits, class: &Class) -> bool
    ensures { result ≡ has_unset tables.now inits.now.list.now (Some class.now) }
{
    class
        .members
        .iter()
        .any(|m| form_unset(tables, inits, &m.form))
}

/// Whether a field of the class needs an initialiser that is not among these.
pub fn has_unset(
    alloc: Global,
    tables: &Tables,
    inits: &[Init],
    class: &Class,
) -> Result<bool, AllocError>
    ensures { IfOk result (λ unset. unset ≡ has_unset tables.now inits.now (Some class.now)) }
{
    let names = names_of_inits(alloc, inits)?;
    let inits = Inits {
        list: inits,
        names: &names,
    };
    let unset = has_unset_among(tables, &inits, class);
    drop(names);
    Ok(unset)
}

// The same without initialisers.
fn needs_inits(alloc: Global, tables: &Tables, class: &Class) -> bool
    ensures { result ≡ has_unset tables.now [] (Some class.now) }
{
    let names = Scope::new(alloc);
    let inits = Inits {
        list: &[],
        names: &names,
    };
    let unset = has_unset_among(tables, &inits, class);
    drop(names);
    unset
}

/// Whether a class without a constructor needs none.
pub fn is_well_built(alloc: Global, tables: &Tables, class: &Class) -> bool
    ensures { result ≡ is_well_built tables.now class.now }
{
    constructor_among(&class.members).is_some() || !needs_inits(alloc, tables, class)
}

fn count_fields(form: &MemberForm) -> usize
    ensures { result ≡ length (form_fields (member_form_at form.now)) }
{
    match form {
        MemberForm::Fields { declarators, .. } => declarators.len(),
        _ => 0,
    }
}

// Whether these members have no more fields than an event may have.
#[tactic(auto, using(crate::proofs::Listed::listing))]
fn has_few_fields(members: &[Member]) -> bool
    ensures { result ≡ nat_le (fields_in members.now) EVENT_FIELDS }
{
    let mut count = 0;
    for member in members {
        if count > usize::from(EVENT_FIELDS) {
            return false;
        }
        count += count_fields(&member.form);
    }
    count <= usize::from(EVENT_FIELDS)
}

fn may_be_scalar(sort: Option<Sort>) -> bool
    ensures { result ≡ may_be_scalar sort }
{
    match sort {
        Some(sort) => is_scalar_sort(sort),
        None => true,
    }
}

fn is_event_field(tables: &Tables, base: &Base, declarator: &Declarator) -> bool
    ensures { result ≡ is_event_field tables.now base.now declarator.now }
{
    may_be_scalar(tables.sort_of(base)) && (!declarator.by_ref && !declarator.len.is_some())
}

fn are_event_fields(tables: &Tables, base: &Base, declarators: &[Declarator]) -> bool
    ensures { result ≡ list_all (is_event_field tables.now base.now) declarators.now }
{
    declarators.iter().all(|d| is_event_field(tables, base, d))
}

fn has_event_fields(tables: &Tables, form: &MemberForm) -> bool
    ensures { result ≡ has_event_fields tables.now (member_form_at form.now) }
{
    match form {
        MemberForm::Fields {
            base,
            declarators,
            ..
        } => are_event_fields(tables, base, declarators),
        _ => true,
    }
}

fn have_event_fields(tables: &Tables, members: &[Member]) -> bool
    ensures { result ≡ list_all (λ m. has_event_fields tables.now m.form) members.now }
{
    members.iter().all(|m| has_event_fields(tables, &m.form))
}

fn is_empty_body(body: &[Stmt]) -> bool
    ensures { result ≡ is_empty_body (stmts_of body.now) }
{
    body.first().is_none()
}

fn is_empty_constructor(routine: &Routine) -> bool
    ensures { result ≡ is_empty_constructor routine.now }
{
    is_constructor(routine.sig.role) && is_empty_body(&routine.body)
}

/// Whether the owner is the class of a name.
pub fn is_owner(class: &Name, owner: &Owner) -> bool
    ensures { result ≡ is_owner class.now owner.now }
{
    match owner {
        Owner::Class(name) => class.is(name.bytes()),
        _ => false,
    }
}

fn is_event_member(index: &Index, class: &Class, form: &MemberForm) -> bool
    ensures { result ≡ is_event_member index.now class.now (member_form_at form.now) }
{
    match form {
        MemberForm::Fields { .. } => true,
        MemberForm::Routine { routine } => is_empty_constructor(routine),
        MemberForm::Proto { sig } => { is_constructor(sig.role) && !index.builds_more(&class.name) }
    }
}

fn are_event_members(index: &Index, class: &Class, members: &[Member]) -> bool
    ensures { result ≡ list_all (λ m. is_event_member index.now class.now m.form) members.now }
{
    members
        .iter()
        .all(|m| is_event_member(index, class, &m.form))
}

/// Whether an event has no members but two scalar fields at most and a constructor with an empty body, and is among those that
/// a program may have, where so many events stand before it.
pub fn is_sound_event(
    tables: &Tables,
    index: &Index,
    class: &Class,
    place: usize,
    events: usize,
) -> bool
    requires indexed { index.now ≡ tables.now }
    requires events { events ≡ events_before index.now place }
    ensures { result ≡ is_sound_event index.now class.now place }
{
    let members = &class.members;
    !is_event(class.kind)
        || (are_event_members(index, class, members)
            && (have_event_fields(tables, members)
                && (has_few_fields(members) && events < usize::from(PROGRAM_EVENTS))))
}

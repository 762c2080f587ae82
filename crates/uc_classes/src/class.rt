// The rules on classes and their members.

ghost use Rattle.std.specs.Prelude.{◌≡◌, ◌≤◌, ℕ, [], ◌∷◌, ◌++◌, IfOk, OnOk, Some, false, length, map, slice_get, take, true};
ghost use Rattle.uc_tree.specs.Numbering.{is_mutex, mutex_members};
ghost use Rattle.uc_tree.specs.ProgramViews.{member_form_at};
ghost use Rattle.uc_tree.specs.declared.limits.TheConstants.{MEMBERS};
ghost use Rattle.uc_rules.specs.ClassBreaks.{events_before};
ghost use Rattle.uc_rules.specs.Names.{place_in};
ghost use Rattle.uc_rules.specs.ProgramVisits.{class_visits, fields_visits, form_visits, members_visits, routine_visits, sig_env, sig_visits};
ghost use Rattle.uc_rules.specs.Scopes.{class_around, is_inner, plain_env, returns_scalar, sig_around};
ghost use Rattle.uc_rules.specs.Visits.{AtBase, AtClass, AtField, AtMark, AtRoutine, maybe_visits};
ghost use Rattle.uc_owner.specs.Bound.{AreBound};
ghost use Rattle.uc_types.specs.FirstBreak.{with_visits, first_break_after};
ghost use Rattle.uc_tree.specs.Cells.{rows_of};
ghost use Rattle.uc_tree.specs.Rows.{reaches};
ghost use Rattle.uc_rules.specs.Sorts.{class_at};
ghost use Rattle.uc_classes.specs.Circling.{AreFields, Circling, Walks};

use crate::ask::{ask_class, ask_field, ask_mark, ask_routine};
use crate::body::{check_routine, check_sig};
use std::alloc::{AllocError, Global};
use uc_check_index::index::Index;
use uc_check_stmt::declare::check_maybe;
use uc_check_stmt::judge::ask_base;
use uc_owner::bind::{BoundFields, bound_fields};
use uc_rules::rule::Rule;
use uc_rules::rules::{FieldPlace, OwnClass, Surroundings};
use uc_tree::class::{Class, Member, MemberForm, Routine, Sig};
use uc_tree::declare::Declarator;
use uc_tree::kinds::{Access, Base, MutexMark, Role};
use uc_tree::name::Name;
use uc_tree::pos::Pos;
use uc_types::found::Found;
use uc_types::names::Names;
use uc_types::sort::{is_mutex, is_nomutex, is_plain, is_scalar_sort};
use uc_types::tables::Tables;

/// A class that is walked: its place and kind, whether it has itself in its fields, and then the flags of the classes that
/// have it in theirs, the fields that its constructors bind to fields of the same object, and the names of its numbered
/// members.
#[derive(Clone, Copy)]
pub struct ClassWalk<'a> {
    pub alloc: Global,
    pub tables: &'a Tables<'a>,
    pub index: &'a Index<'a>,
    pub class: &'a Class,
    pub home: OwnClass,
    pub circular: bool,
    pub holders: &'a [bool],
    pub bound: BoundFields<'a>,
    pub numbered: &'a [&'a Name],
    ghost indexed: { index.now ≡ tables.now },
}

// Whether a class has itself in its fields, and then the flags of the classes that have it in theirs.
#[derive(Clone, Copy)]
struct Circle<'a> {
    circular: bool,
    holders: &'a [bool],
}

/// A list of fields: the place of its member, the access and the base.
#[derive(Clone, Copy)]
pub struct FieldList<'a> {
    pub member: usize,
    pub access: Access,
    pub base: &'a Base,
    pub declarators: &'a [Declarator],
}

/// What stands round the members of a class, outside of its routines.
pub fn class_around(home: OwnClass) -> Surroundings
    ensures { result ≡ class_around home }
{
    Surroundings {
        home: Some(home),
        main: false,
        role: Role::Plain,
        inner: false,
        returns: false,
        in_loop: false,
        in_handler: false,
        joins: false,
        bound: None,
    }
}

fn is_inner(home: OwnClass, mark: MutexMark, sig: &Sig) -> bool
    ensures { result ≡ is_inner home mark sig.now }
{
    is_mutex(home.kind) && (!is_plain(sig.role) || (sig.name.is(b"main") || !is_nomutex(mark)))
}

fn returns_scalar(tables: &Tables, base: &Base) -> bool
    ensures { result ≡ returns_scalar tables.now base.now }
{
    match tables.sort_of(base) {
        Some(sort) => is_scalar_sort(sort),
        None => false,
    }
}

/// What stands round a routine of a class, or of none.
pub fn sig_around(
    tables: &Tables,
    home: Option<OwnClass>,
    main: bool,
    mark: MutexMark,
    sig: &Sig,
) -> Surroundings
    ensures { result ≡ sig_around tables.now home main mark sig.now }
{
    let inner = match home {
        Some(home) => is_inner(home, mark, sig),
        None => false,
    };
    Surroundings {
        home,
        main,
        role: sig.role,
        inner,
        returns: returns_scalar(tables, &sig.ret),
        in_loop: false,
        in_handler: false,
        joins: false,
        bound: None,
    }
}

#[tactic(auto, using(uc_check_stmt::proofs::Joined::joining))]
fn check_field(
    names: &Names,
    walked: ClassWalk,
    listed: FieldList,
    index: usize,
    declarator: &Declarator,
    found: &mut Found,
) -> Result<(), AllocError>
    requires home { names.now.around.home ≡ Some walked.home }
    requires walks { Walks names.now.program walked.home walked.class.now walked.circular
        walked.holders.now walked.bound.known walked.bound.names.now }
    requires fields { AreFields walked.class.now listed.member listed.base.now
        listed.declarators.now }
    requires there { slice_get listed.declarators.now index ≡ Some declarator.now }
    ensures { OnOk result (found.new
        ≡ with_visits found.old (maybe_visits names.now declarator.now.len
        ++ AtField names.now walked.entry.class.now listed.entry.access listed.entry.base.now
        declarator.now (place_in listed.entry.member index) ∷ [])) }
{
    check_maybe(names, &declarator.len, found);
    ask_field(names, walked, listed, index, declarator, found)
}

#[tactic(auto, using(uc_check_stmt::proofs::Joined::joining))]
fn check_fields(
    names: &Names,
    walked: ClassWalk,
    listed: FieldList,
    found: &mut Found,
) -> Result<(), AllocError>
    requires home { names.now.around.home ≡ Some walked.home }
    requires walks { Walks names.now.program walked.home walked.class.now walked.circular
        walked.holders.now walked.bound.known walked.bound.names.now }
    requires fields { AreFields walked.class.now listed.member listed.base.now
        listed.declarators.now }
    ensures { OnOk result (found.new
        ≡ with_visits found.old
        (fields_visits names.now walked.entry.class.now listed.entry.access listed.entry.base.now
        listed.entry.member 0 listed.entry.declarators.now)) }
{
    for (index, declarator) in listed.declarators.iter().enumerate() {
        check_field(names, walked, listed, index, declarator, found)?;
    }
    Ok(())
}

fn check_listed(
    outer: &Names,
    walked: ClassWalk,
    listed: FieldList,
    at: Pos,
    found: &mut Found,
) -> Result<(), AllocError>
    requires outer { outer.now ≡ plain_env walked.tables.now (class_around walked.home) }
    requires walks { Walks walked.tables.now walked.home walked.class.now walked.circular
        walked.holders.now walked.bound.known walked.bound.names.now }
    requires fields { AreFields walked.class.now listed.member listed.base.now
        listed.declarators.now }
    ensures { OnOk result (found.new
        ≡ with_visits found.old
        (AtBase (plain_env walked.entry.tables.now (class_around walked.entry.home)) at
        listed.entry.base.now
        ∷ fields_visits
        (plain_env walked.entry.tables.now (class_around walked.entry.home)) walked.entry.class.now
        listed.entry.access listed.entry.base.now listed.entry.member 0
        listed.entry.declarators.now)) }
{
    ask_base(outer, listed.base, at, found);
    check_fields(outer, walked, listed, found)
}

// The environment of a routine in its class, before its parameters.
fn inner_names<'a>(walked: ClassWalk<'a>, mark: MutexMark, sig: &Sig) -> Names<'a>
    ensures { result ≡ sig_env walked.entry.tables.now walked.entry.home mark sig.now }
{
    let around = sig_around(walked.tables, Some(walked.home), false, mark, sig);
    Names::new(walked.alloc, walked.tables, around)
}

fn check_inner(
    outer: &Names,
    walked: ClassWalk,
    place: usize,
    mark: MutexMark,
    routine: &Routine,
    found: &mut Found,
) -> Result<(), AllocError>
    requires outer { outer.now ≡ plain_env walked.tables.now (class_around walked.home) }
    requires walks { Walks walked.tables.now walked.home walked.class.now walked.circular
        walked.holders.now walked.bound.known walked.bound.names.now }
    ensures { OnOk result (found.new
        ≡ with_visits found.old
        (AtRoutine (plain_env walked.entry.tables.now (class_around walked.entry.home))
        walked.entry.class.now false routine.now.sig place
        ∷ routine_visits
        (sig_env walked.entry.tables.now walked.entry.home mark routine.now.sig) routine.now)) }
{
    ask_routine(outer, walked, false, &routine.sig, place, found)?;
    let mut names = inner_names(walked, mark, &routine.sig);
    let checked = check_routine(&mut names, routine, found);
    drop(names);
    checked
}

fn check_proto(
    outer: &Names,
    walked: ClassWalk,
    place: usize,
    mark: MutexMark,
    sig: &Sig,
    found: &mut Found,
) -> Result<(), AllocError>
    requires outer { outer.now ≡ plain_env walked.tables.now (class_around walked.home) }
    requires walks { Walks walked.tables.now walked.home walked.class.now walked.circular
        walked.holders.now walked.bound.known walked.bound.names.now }
    ensures { OnOk result (found.new
        ≡ with_visits found.old
        (AtRoutine (plain_env walked.entry.tables.now (class_around walked.entry.home))
        walked.entry.class.now true sig.now place
        ∷ sig_visits (sig_env walked.entry.tables.now walked.entry.home mark sig.now) sig.now)) }
{
    ask_routine(outer, walked, true, sig, place, found)?;
    let mut names = inner_names(walked, mark, sig);
    let checked = check_sig(&mut names, sig, found);
    drop(names);
    checked
}

fn check_form(
    outer: &Names,
    walked: ClassWalk,
    place: usize,
    member: &Member,
    found: &mut Found,
) -> Result<(), AllocError>
    requires outer { outer.now ≡ plain_env walked.tables.now (class_around walked.home) }
    requires at { slice_get walked.class.now.members place ≡ Some member.now }
    requires walks { Walks walked.tables.now walked.home walked.class.now walked.circular
        walked.holders.now walked.bound.known walked.bound.names.now }
    ensures { OnOk result (found.new
        ≡ with_visits found.old
        (form_visits walked.entry.tables.now walked.entry.home walked.entry.class.now place
        member.now.mark member.now.access member.now.form)) }
{
    match &member.form {
        MemberForm::Fields {
            at,
            base,
            declarators,
        } => {
            let listed = FieldList {
                member: place,
                access: member.access,
                base,
                declarators,
            };
            check_listed(outer, walked, listed, *at, found)
        }
        MemberForm::Routine { routine } => {
            check_inner(outer, walked, place, member.mark, routine, found)?;
            Ok(())
        }
        MemberForm::Proto { sig } => {
            check_proto(outer, walked, place, member.mark, sig, found)?;
            Ok(())
        }
    }
}

#[tactic(auto, using(uc_check_stmt::proofs::Joined::joining))]
fn check_member(
    walked: ClassWalk,
    place: usize,
    member: &Member,
    found: &mut Found,
) -> Result<(), AllocError>
    requires at { slice_get walked.class.now.members place ≡ Some member.now }
    requires walks { Walks walked.tables.now walked.home walked.class.now walked.circular
        walked.holders.now walked.bound.known walked.bound.names.now }
    requires names { map (λ n. n.now) walked.numbered.now
        ≡ take MEMBERS (mutex_members walked.class.now) }
    requires few { length walked.numbered.now ≤ MEMBERS }
    ensures { OnOk result (found.new
        ≡ with_visits found.old
        (AtMark (plain_env walked.entry.tables.now (class_around walked.entry.home))
        walked.entry.class.now member.now
        ∷ form_visits walked.entry.tables.now walked.entry.home walked.entry.class.now place
        member.now.mark member.now.access member.now.form)) }
{
    let outer = Names::new(walked.alloc, walked.tables, class_around(walked.home));
    ask_mark(&outer, walked.class, walked.numbered, member, found);
    let checked = check_form(&outer, walked, place, member, found);
    drop(outer);
    checked
}

#[tactic(auto, using(uc_check_stmt::proofs::Joined::joining))]
fn check_members(walked: ClassWalk, found: &mut Found) -> Result<(), AllocError>
    requires walks { Walks walked.tables.now walked.home walked.class.now walked.circular
        walked.holders.now walked.bound.known walked.bound.names.now }
    requires names { map (λ n. n.now) walked.numbered.now
        ≡ take MEMBERS (mutex_members walked.class.now) }
    requires few { length walked.numbered.now ≤ MEMBERS }
    ensures { OnOk result (found.new
        ≡ with_visits found.old
        (members_visits walked.entry.tables.now walked.entry.home walked.entry.class.now 0
        walked.entry.class.now.members)) }
{
    let members = members_in(walked.class);
    for (place, member) in members.iter().enumerate() {
        check_member(walked, place, member, found)?;
    }
    Ok(())
}

fn members_in(class: &Class) -> &[Member]
    ensures { result.now ≡ class.now.members }
{
    &class.members
}

// The flags of the classes that have a class in their fields, where it has itself in its own.
fn holders_of(
    alloc: Global,
    tables: &Tables,
    place: usize,
    circular: bool,
) -> Result<Vec<bool>, AllocError>
    requires { circular ≡ false → (steps : ℕ) →
        reaches steps (rows_of tables.now) place place ≡ false }
    ensures { IfOk result (λ v. Circling tables.now place circular v.items) }
{
    if circular {
        let holders = tables.sizes().holders(alloc, place)?;
        return Ok(holders);
    }
    Ok(Vec::new(alloc))
}

// What the rules ask of a class as a whole.
fn ask_whole(
    alloc: Global,
    tables: &Tables,
    index: &Index,
    class: &Class,
    home: OwnClass,
    events: usize,
    found: &mut Found,
) -> Result<(), AllocError>
    requires indexed { index.now ≡ tables.now }
    requires events { events ≡ events_before tables.now home.class }
    ensures { OnOk result (found.new
        ≡ first_break_after found.old
        (AtClass (plain_env tables.now (class_around home)) class.now home.class)) }
{
    let outer = Names::new(alloc, tables, class_around(home));
    let asked = ask_class(&outer, index, class, home.class, events, found);
    drop(outer);
    asked
}

// The members of a class, with the flags of the classes that have it in their fields.
fn check_held<'x>(
    alloc: Global,
    tables: &'x Tables<'x>,
    index: &'x Index<'x>,
    class: &'x Class,
    home: OwnClass,
    circle: Circle<'x>,
    found: &mut Found,
) -> Result<(), AllocError>
    requires indexed { index.now ≡ tables.now }
    requires at { class_at tables.now home.class ≡ Some class.now }
    requires circle { Circling tables.now home.class circle.circular circle.holders.now }
    ensures { OnOk result (found.new
        ≡ with_visits found.old (members_visits tables.now home class.now 0 class.now.members)) }
{
    let known = is_mutex(class.kind) && found.is_open(Rule::O5, class.pos);
    let names = bound_fields(alloc, tables, class, home.class, known)?;
    let walked = ClassWalk {
        alloc,
        tables,
        index,
        class,
        home,
        circular: circle.circular,
        holders: circle.holders,
        bound: BoundFields {
            known,
            names: &names,
        },
        numbered: tables.mutex_members(home.class),
    };
    let checked = check_members(walked, found);
    drop(names);
    checked
}

fn check_inside(
    alloc: Global,
    tables: &Tables,
    index: &Index,
    class: &Class,
    home: OwnClass,
    found: &mut Found,
) -> Result<(), AllocError>
    requires indexed { index.now ≡ tables.now }
    requires at { class_at tables.now home.class ≡ Some class.now }
    ensures { OnOk result (found.new
        ≡ with_visits found.old (members_visits tables.now home class.now 0 class.now.members)) }
{
    let circular = tables.sizes().has_itself(home.class);
    let holders = holders_of(alloc, tables, home.class, circular)?;
    let circle = Circle {
        circular,
        holders: &holders,
    };
    check_held(alloc, tables, index, class, home, circle, found)
}

/// A class by its place among the classes of the program, before which so many events stand.
pub fn check_class(
    alloc: Global,
    tables: &Tables,
    index: &Index,
    class: &Class,
    place: usize,
    events: usize,
    found: &mut Found,
) -> Result<(), AllocError>
    requires indexed { index.now ≡ tables.now }
    requires events { events ≡ events_before tables.now place }
    requires at { class_at tables.now place ≡ Some class.now }
    ensures { OnOk result (found.new
        ≡ with_visits found.old (class_visits tables.now place class.now)) }
{
    let home = OwnClass {
        class: place,
        kind: class.kind,
    };
    ask_whole(alloc, tables, index, class, home, events, found)?;
    check_inside(alloc, tables, index, class, home, found)
}

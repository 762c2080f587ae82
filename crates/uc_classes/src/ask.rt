// What the rules ask at one place in a class, a signature or an item.

ghost use Rattle.std.specs.Prelude.{◌≡◌, ◌≤◌, ◌&&◌, IfOk, MatchOption, None, OnOk, Some, length, map, nat_le, not, slice_get, take};
ghost use Rattle.uc_tree.specs.Cells.{class_cells};
ghost use Rattle.uc_tree.specs.Numbering.{condition_count, is_public, mutex_members};
ghost use Rattle.uc_tree.specs.declared.limits.TheConstants.{CLASS_CELLS, CLASS_CONDITIONS, MEMBERS};
ghost use Rattle.uc_rules.specs.Asked.{asked, of_sort, unless};
ghost use Rattle.uc_rules.specs.ClassBreaks.{constant_breaks, entity_takes, events_before, fields_at, has_room, has_unset, home_class, home_leads_back, init_count_breaks, inits_breaks, is_field_sort, is_new_field, is_new_routine, is_param_sort, is_sound_event, param_breaks, sig_breaks};
ghost use Rattle.uc_rules.specs.Entities.{count, entity_of};
ghost use Rattle.uc_rules.specs.ExpressionBreaks.{are_single, length_breaks, length_value_breaks};
ghost use Rattle.uc_rules.specs.Firsts.{after};
ghost use Rattle.uc_rules.specs.ItemBreaks.{is_sound_member};
ghost use Rattle.uc_rules.specs.Names.{place_in};
ghost use Rattle.uc_rules.specs.declared.rules.FieldPlace.{FieldPlace};
ghost use Rattle.uc_tree.specs.declared.kinds.Access.{Access};
ghost use Rattle.uc_rules.specs.ProgramVisits.{home_member};
ghost use Rattle.uc_rules.specs.Sorts.{class_at, is_coroutine, sort_of};
ghost use Rattle.uc_rules.specs.Visits.{AtClass, AtConstant, AtField, AtInit, AtInits, AtItem, AtMark, AtParam, AtProgram, AtRoutine, AtSig};
ghost use Rattle.uc_rules.specs.declared.rule.Rule.TheVariants.{S16, S17, S18, S2, S22, S4, S5};
ghost use Rattle.uc_types.specs.FirstBreak.{first_break_after, told_forms, told_names, told_owners, told_uses, told_values};
ghost use Rattle.uc_classes.specs.Circling.{AreFields, Walks};

use crate::circle::leads_back;
use crate::class::{ClassWalk, FieldList};
use crate::conditions::count_conditions;
use std::alloc::{AllocError, Global};
use uc_check_decl::class::{
    has_unset, is_sound_event, is_well_built, is_well_mained, is_well_marked,
};
use uc_check_decl::earlier::{is_new_field, is_new_routine};
use uc_check_decl::init::{entity_takes, is_by_ref, may_init};
use uc_check_decl::item::{has_one_main, is_new_item, is_sound_item, is_sound_member, item_pos};
use uc_check_decl::sig::may_return;
use uc_check_index::index::Index;
use uc_check_stmt::declare::{is_element, judge_event, judge_length};
use uc_check_stmt::judge;
use uc_owner::judge::{note_field, note_param};
use uc_rules::rule::Rule;
use uc_rules::rules::{Entity, FieldPlace, NameMeaning, Sort};
use uc_tree::class::{Class, Init, Member, Sig};
use uc_tree::declare::Declarator;
use uc_tree::kinds::{Access, Base, Kind, Param};
use uc_tree::limits::{CLASS_CELLS, CLASS_CONDITIONS};
use uc_tree::name::Name;
use uc_tree::pos::Pos;
use uc_tree::program::{Constant, Item, Program};
use uc_types::found::Found;
use uc_types::names::{Names, length_value};
use uc_types::sort::{is_constructor, is_coroutine, is_plain, is_public, is_scalar_sort, is_void};
use uc_types::tables::Tables;

fn is_param_sort(by_ref: bool, sort: Sort) -> bool
    ensures { result ≡ is_param_sort by_ref sort }
{
    if by_ref {
        !is_void(sort)
    } else {
        is_scalar_sort(sort)
    }
}

fn note_param_sort(names: &Names, param: &Param, found: &mut Found)
    ensures { found.new ≡ after found.old (param_breaks names.now param.now) }
{
    match names.tables().sort_of(&param.base) {
        Some(sort) => {
            let holds = is_param_sort(param.by_ref, sort);
            found.note_unless(holds, Rule::S11, param.pos);
        }
        None => {}
    }
}

/// A parameter.
pub fn ask_param(names: &Names, param: &Param, found: &mut Found)
    ensures { found.new ≡ first_break_after found.old (AtParam names.now param.now) }
{
    found.note_unless(judge::is_new(names, &param.name), Rule::S2, param.pos);
    note_param_sort(names, param, found);
    note_param(names, param, found);
}

/// A signature.
pub fn ask_sig(names: &Names, sig: &Sig, found: &mut Found)
    ensures { found.new ≡ first_break_after found.old (AtSig names.now sig.now) }
{
    note_returned(names, sig, found);
}

fn note_returned(names: &Names, sig: &Sig, found: &mut Found)
    ensures { found.new ≡ after found.old (sig_breaks names.now sig.now) }
{
    if !is_plain(sig.role) {
        return;
    }
    match names.tables().sort_of(&sig.ret) {
        Some(sort) => found.note_unless(may_return(sort), Rule::S12, sig.pos),
        None => {}
    }
}

fn is_field_sort(names: &Names, declarator: &Declarator, sort: Sort) -> bool
    ensures { result ≡ is_field_sort names.now.program declarator.now sort }
{
    !is_void(sort) && (declarator.by_ref || (!declarator.len.is_some() || is_element(names, sort)))
}

fn note_field_sort(names: &Names, declarator: &Declarator, sort: Option<Sort>, found: &mut Found)
    ensures { found.new ≡ after found.old
        (of_sort sort (is_field_sort names.now.program declarator.now) S16 declarator.now.pos) }
{
    match sort {
        Some(sort) => {
            let holds = is_field_sort(names, declarator, sort);
            found.note_unless(holds, Rule::S16, declarator.pos);
        }
        None => {}
    }
}

fn is_new(
    names: &Names,
    walked: ClassWalk,
    listed: FieldList,
    index: usize,
    declarator: &Declarator,
) -> bool
    requires walks { Walks names.now.program walked.home walked.class.now walked.circular
        walked.holders.now walked.bound.known walked.bound.names.now }
    ensures { result ≡ is_new_field walked.entry.class.now (place_in listed.entry.member index)
        (fields_at walked.entry.class.now listed.entry.member) declarator.now.name }
{
    let field = FieldPlace {
        member: listed.member,
        index,
    };
    let new = is_new_field(
        names.tables(),
        walked.home.class,
        walked.class,
        field,
        &declarator.name,
    );
    new
}

fn leads_home(
    names: &Names,
    walked: ClassWalk,
    listed: FieldList,
    index: usize,
    declarator: &Declarator,
) -> bool
    requires home { names.now.around.home ≡ Some walked.home }
    requires walks { Walks names.now.program walked.home walked.class.now walked.circular
        walked.holders.now walked.bound.known walked.bound.names.now }
    requires fields { AreFields walked.class.now listed.member listed.base.now
        listed.declarators.now }
    requires there { slice_get listed.declarators.now index ≡ Some declarator.now }
    ensures { result ≡ home_leads_back names.now.program names.now.around.home listed.entry.base.now
        declarator.now }
{
    let back = leads_back(names.tables(), walked, listed, index, declarator);
    back
}

// Whether a field of this access is a public one of a coroutine.
fn is_open(kind: Kind, access: Access) -> bool
    ensures { result ≡ is_coroutine kind && is_public access }
{
    is_coroutine(kind) && is_public(access)
}

fn note_declared(
    names: &Names,
    walked: ClassWalk,
    listed: FieldList,
    index: usize,
    declarator: &Declarator,
    found: &mut Found,
)
    requires walks { Walks names.now.program walked.home walked.class.now walked.circular
        walked.holders.now walked.bound.known walked.bound.names.now }
    ensures { found.new ≡ after found.old
        (unless (is_new_field walked.entry.class.now (place_in listed.entry.member index)
        (fields_at walked.entry.class.now listed.entry.member) declarator.now.name) S2
        declarator.now.pos) }
{
    let new = is_new(names, walked, listed, index, declarator);
    found.note_unless(new, Rule::S2, declarator.pos);
}

fn note_circle(
    names: &Names,
    walked: ClassWalk,
    listed: FieldList,
    index: usize,
    declarator: &Declarator,
    found: &mut Found,
)
    requires home { names.now.around.home ≡ Some walked.home }
    requires walks { Walks names.now.program walked.home walked.class.now walked.circular
        walked.holders.now walked.bound.known walked.bound.names.now }
    requires fields { AreFields walked.class.now listed.member listed.base.now
        listed.declarators.now }
    requires there { slice_get listed.declarators.now index ≡ Some declarator.now }
    ensures { found.new ≡ after found.old
        (unless (not
        (home_leads_back names.now.program names.now.around.home listed.entry.base.now
        declarator.now)) S4 declarator.now.pos) }
{
    let back = leads_home(names, walked, listed, index, declarator);
    found.note_unless(!back, Rule::S4, declarator.pos);
}

fn note_length(names: &Names, declarator: &Declarator, found: &mut Found)
    ensures { found.new ≡ after
        (after found.old
        (length_breaks names.now declarator.now.by_ref declarator.now.len declarator.now.pos))
        (length_value_breaks names.now declarator.now.len) }
{
    judge_length(
        names,
        declarator.by_ref,
        &declarator.len,
        declarator.pos,
        found,
    );
}

fn note_access(class: &Class, access: Access, declarator: &Declarator, found: &mut Found)
    ensures { found.new ≡ after found.old
        (unless (not (is_coroutine class.now.kind && is_public access)) S18 declarator.now.pos) }
{
    let open = is_open(class.kind, access);
    found.note_unless(!open, Rule::S18, declarator.pos);
}

// What the rules on names, types and places ask of a field.
fn note_text(
    names: &Names,
    walked: ClassWalk,
    listed: FieldList,
    index: usize,
    declarator: &Declarator,
    found: &mut Found,
)
    requires home { names.now.around.home ≡ Some walked.home }
    requires walks { Walks names.now.program walked.home walked.class.now walked.circular
        walked.holders.now walked.bound.known walked.bound.names.now }
    requires fields { AreFields walked.class.now listed.member listed.base.now
        listed.declarators.now }
    requires there { slice_get listed.declarators.now index ≡ Some declarator.now }
    ensures { found.new ≡ told_forms
        (told_values
        (told_uses (told_names found.old
        (AtField names.now walked.entry.class.now listed.entry.access listed.entry.base.now
        declarator.now (place_in listed.entry.member index)))
        (AtField names.now walked.entry.class.now listed.entry.access listed.entry.base.now
        declarator.now (place_in listed.entry.member index)))
        (AtField names.now walked.entry.class.now listed.entry.access listed.entry.base.now
        declarator.now (place_in listed.entry.member index)))
        (AtField names.now walked.entry.class.now listed.entry.access listed.entry.base.now
        declarator.now (place_in listed.entry.member index)) }
{
    let tables = names.tables();
    let sort = tables.sort_of(listed.base);
    note_declared(names, walked, listed, index, declarator, found);
    note_circle(names, walked, listed, index, declarator, found);
    note_length(names, declarator, found);
    note_field_sort(names, declarator, sort, found);
    note_access(walked.class, listed.access, declarator, found);
    judge_event(sort, declarator.pos, found);
}

// What the rules on who owns what ask of a field.
fn note_owned(
    names: &Names,
    walked: ClassWalk,
    base: &Base,
    declarator: &Declarator,
    found: &mut Found,
) -> Result<(), AllocError>
    requires home { names.now.around.home ≡ Some walked.home }
    requires walks { Walks names.now.program walked.home walked.class.now walked.circular
        walked.holders.now walked.bound.known walked.bound.names.now }
    ensures { OnOk result ((access : Access) (field : FieldPlace) →
        found.new ≡ told_owners found.old
        (AtField names.now walked.entry.class.now access base.now declarator.now field)) }
{
    note_field(names, walked.class, walked.bound, base, declarator, found)?;
    Ok(())
}

/// A field of a class, by its place in its list.
pub fn ask_field(
    names: &Names,
    walked: ClassWalk,
    listed: FieldList,
    index: usize,
    declarator: &Declarator,
    found: &mut Found,
) -> Result<(), AllocError>
    requires home { names.now.around.home ≡ Some walked.home }
    requires walks { Walks names.now.program walked.home walked.class.now walked.circular
        walked.holders.now walked.bound.known walked.bound.names.now }
    requires fields { AreFields walked.class.now listed.member listed.base.now
        listed.declarators.now }
    requires there { slice_get listed.declarators.now index ≡ Some declarator.now }
    ensures { OnOk result (found.new
        ≡ first_break_after found.old
        (AtField names.now walked.entry.class.now listed.entry.access listed.entry.base.now
        declarator.now (place_in listed.entry.member index))) }
{
    note_text(names, walked, listed, index, declarator, found);
    note_owned(names, walked, listed.base, declarator, found)?;
    Ok(())
}

// Whether a member is sound, in the program of the names.
fn is_sound(
    names: &Names,
    walked: ClassWalk,
    proto: bool,
    sig: &Sig,
    member: usize,
) -> Result<bool, AllocError>
    requires { walked.index.now ≡ names.now.program }
    ensures { IfOk result (λ b. b
        ≡ is_sound_member names.now.program walked.entry.class.now proto sig.now member) }
{
    let alloc = walked.alloc;
    let holds = is_sound_member(alloc, walked.index, walked.class, proto, sig, member)?;
    Ok(holds)
}

// Behind the second constructor of a class no further one goes through the members before it.
fn note_sound(
    names: &Names,
    walked: ClassWalk,
    proto: bool,
    sig: &Sig,
    member: usize,
    found: &mut Found,
) -> Result<(), AllocError>
    requires { walked.index.now ≡ names.now.program }
    ensures { OnOk result (found.new
        ≡ after found.old
        (unless (is_sound_member names.now.program walked.entry.class.now proto sig.now member) S5
        sig.now.pos)) }
{
    if found.is_open(Rule::S5, sig.pos) {
        let holds = is_sound(names, walked, proto, sig, member)?;
        found.note_unless(holds, Rule::S5, sig.pos);
    }
    Ok(())
}

fn is_free(names: &Names, walked: ClassWalk, sig: &Sig, member: usize) -> bool
    requires walks { Walks names.now.program walked.home walked.class.now walked.circular
        walked.holders.now walked.bound.known walked.bound.names.now }
    ensures { result ≡ is_new_routine walked.entry.class.now member sig.now }
{
    let new = is_new_routine(
        names.tables(),
        walked.home.class,
        walked.class,
        member,
        sig.role,
        &sig.name,
    );
    new
}

fn note_routine(names: &Names, walked: ClassWalk, sig: &Sig, member: usize, found: &mut Found)
    requires walks { Walks names.now.program walked.home walked.class.now walked.circular
        walked.holders.now walked.bound.known walked.bound.names.now }
    ensures { found.new ≡ after found.old
        (unless (is_new_routine walked.entry.class.now member sig.now) S2 sig.now.pos) }
{
    let free = is_free(names, walked, sig, member);
    found.note_unless(free, Rule::S2, sig.pos);
}

/// A member that is a routine or a prototype, by its place.
pub fn ask_routine(
    names: &Names,
    walked: ClassWalk,
    proto: bool,
    sig: &Sig,
    member: usize,
    found: &mut Found,
) -> Result<(), AllocError>
    requires walks { Walks names.now.program walked.home walked.class.now walked.circular
        walked.holders.now walked.bound.known walked.bound.names.now }
    requires indexed { walked.index.now ≡ names.now.program }
    ensures { OnOk result (found.new
        ≡ first_break_after found.old
        (AtRoutine names.now walked.entry.class.now proto sig.now member)) }
{
    note_routine(names, walked, sig, member, found);
    note_sound(names, walked, proto, sig, member, found)
}

/// A member with its mark, where the numbered members of its class have these names.
pub fn ask_mark(
    names: &Names,
    class: &Class,
    numbered: &[&Name],
    member: &Member,
    found: &mut Found,
)
    requires names { map (λ n. n.now) numbered.now ≡ take MEMBERS (mutex_members class.now) }
    requires few { length numbered.now ≤ MEMBERS }
    ensures { found.new ≡ first_break_after found.old (AtMark names.now class.now member.now) }
{
    found.note_unless(
        is_well_marked(class, numbered, member),
        Rule::S19,
        member.pos,
    );
}

fn has_few_conditions(names: &Names, class: &Class, place: usize) -> Result<bool, AllocError>
    ensures { IfOk result (λ few. few
        ≡ nat_le (condition_count names.now.program place class.now) CLASS_CONDITIONS) }
{
    let tables = names.tables();
    let count = count_conditions(names.alloc(), tables, place, class)?;
    Ok(count <= u64::from(CLASS_CONDITIONS))
}

fn has_few_cells(tables: &Tables, place: usize) -> bool
    ensures { result ≡ nat_le (class_cells tables.now place) CLASS_CELLS }
{
    tables.sizes().cells_of_class(place) <= CLASS_CELLS
}

// Whether an event is sound, in the program of the names.
fn is_event_sound(names: &Names, index: &Index, class: &Class, place: usize, events: usize) -> bool
    requires indexed { index.now ≡ names.now.program }
    requires events { events ≡ events_before names.now.program place }
    ensures { result ≡ is_sound_event names.now.program class.now place }
{
    let holds = is_sound_event(names.tables(), index, class, place, events);
    holds
}

/// A class by its place, before which so many events stand.
pub fn ask_class(
    names: &Names,
    index: &Index,
    class: &Class,
    place: usize,
    events: usize,
    found: &mut Found,
) -> Result<(), AllocError>
    requires indexed { index.now ≡ names.now.program }
    requires events { events ≡ events_before names.now.program place }
    ensures { OnOk result (found.new
        ≡ first_break_after found.old (AtClass names.now class.now place)) }
{
    let tables = names.tables();
    let few = has_few_conditions(names, class, place)?;
    found.note_unless(is_well_mained(class), Rule::S6, class.pos);
    found.note_unless(has_few_cells(tables, place) && few, Rule::S14, class.pos);
    let built = is_well_built(names.alloc(), tables, class);
    found.note_unless(built, Rule::S17, class.pos);
    let holds = is_event_sound(names, index, class, place, events);
    found.note_unless(holds, Rule::S22, class.pos);
    Ok(())
}

fn note_constant(names: &Names, constant: &Constant, entity: Option<Entity>, found: &mut Found)
    requires { entity ≡ entity_of names.now constant.now.value }
    ensures { found.new ≡ after found.old (constant_breaks names.now constant.now) }
{
    match entity {
        Some(_) => {
            let value = length_value(names, &constant.value);
            found.note_unless(value.is_some(), Rule::S15, constant.value.first_token());
        }
        None => {}
    }
}

/// A constant, with what its value stands for.
pub fn ask_constant(names: &Names, constant: &Constant, entity: Option<Entity>, found: &mut Found)
    requires { entity ≡ entity_of names.now constant.now.value }
    ensures { found.new ≡ first_break_after found.old (AtConstant names.now constant.now) }
{
    note_constant(names, constant, entity, found);
}

fn note_item(
    alloc: Global,
    tables: &Tables,
    index: &Index,
    item: &Item,
    place: usize,
    found: &mut Found,
) -> Result<(), AllocError>
    requires { index.now ≡ tables.now }
    ensures { OnOk result (found.new
        ≡ first_break_after found.old (AtItem index.now item.now place)) }
{
    let at = item_pos(item);
    found.note_unless(is_new_item(index, item, place), Rule::S2, at);
    let holds = is_sound_item(alloc, tables, index, item, place)?;
    found.note_unless(holds, Rule::S5, at);
    Ok(())
}

/// An item by its place.
pub fn ask_item(
    alloc: Global,
    tables: &Tables,
    index: &Index,
    item: &Item,
    place: usize,
    found: &mut Found,
) -> Result<(), AllocError>
    requires { index.now ≡ tables.now }
    ensures { OnOk result (found.new
        ≡ first_break_after found.old (AtItem tables.now item.now place)) }
{
    note_item(alloc, tables, index, item, place, found)?;
    Ok(())
}

/// The program.
pub fn ask_program(program: &Program, found: &mut Found)
    ensures { found.new ≡ first_break_after found.old (AtProgram program.now) }
{
    let first = Pos { line: 1, col: 1 };
    found.note_unless(has_one_main(&program.items), Rule::S3, first);
}

fn home_class<'a>(names: &Names<'a>) -> Option<&'a Class>
    ensures { MatchOption result (home_class names.now ≡ None) (λ c. home_class names.now
        ≡ Some c.now) }
{
    match names.around().home {
        Some(home) => {
            let tables = names.tables();
            tables.class_at(home.class)
        }
        None => None,
    }
}

fn has_unset_fields(names: &Names, inits: &[Init]) -> Result<bool, AllocError>
    ensures { IfOk result (λ unset. unset
        ≡ has_unset names.now.program inits.now (home_class names.now)) }
{
    match home_class(names) {
        Some(class) => has_unset(names.alloc(), names.tables(), inits, class),
        None => Ok(false),
    }
}

// Behind the second constructor of a class no further one goes through its fields.
fn note_unset(names: &Names, inits: &[Init], at: Pos, found: &mut Found) -> Result<(), AllocError>
    ensures { OnOk result (found.new
        ≡ after found.old
        (unless (not (has_unset names.now.program inits.now (home_class names.now))) S17 at)) }
{
    if !found.is_open(Rule::S17, at) {
        return Ok(());
    }
    let unset = has_unset_fields(names, inits)?;
    found.note_unless(!unset, Rule::S17, at);
    Ok(())
}

fn note_inits(names: &Names, sig: &Sig, inits: &[Init], found: &mut Found) -> Result<(), AllocError>
    ensures { OnOk result (found.new ≡ after found.old (inits_breaks names.now sig.now inits.now)) }
{
    if is_constructor(sig.role) {
        note_unset(names, inits, sig.pos, found)?;
        return Ok(());
    }
    match inits.first() {
        Some(init) => {
            found.note(Rule::S17, init.pos);
            Ok(())
        }
        None => Ok(()),
    }
}

/// A routine with its initialisers.
pub fn ask_inits(
    names: &Names,
    sig: &Sig,
    inits: &[Init],
    found: &mut Found,
) -> Result<(), AllocError>
    ensures { OnOk result (found.new
        ≡ first_break_after found.old (AtInits names.now sig.now inits.now)) }
{
    note_inits(names, sig, inits, found)
}

#[tactic(auto, using(uc_check_stmt::proofs::Joined::joining))]
fn note_values(
    names: &Names,
    init: &Init,
    by_ref: bool,
    single: bool,
    entity: Option<Entity>,
    found: &mut Found,
)
    ensures { found.new ≡ after found.old
        (asked entity
        (entity_takes names.now.program by_ref (count init.now.args) single) S16 init.now.pos) }
{
    match entity {
        Some(entity) => {
            let count = init.args.len();
            let holds = entity_takes(names.tables(), by_ref, count, single, entity);
            found.note_unless(holds, Rule::S16, init.pos);
        }
        None => {}
    }
}

fn note_count(
    names: &Names,
    init: &Init,
    meant: Option<NameMeaning>,
    single: bool,
    found: &mut Found,
)
    requires { single ≡ are_single names.now init.now.args }
    ensures { found.new ≡ after found.old (init_count_breaks names.now init.now meant) }
{
    match meant {
        Some(meant) => {
            let by_ref = is_by_ref(meant.origin);
            note_values(names, init, by_ref, single, meant.entity, found);
        }
        None => {}
    }
}

/// An initialiser behind others, of which `last` is the last field that they name, what it names, and whether it has no value or
/// one alone that is a scalar.
pub fn ask_init(
    names: &Names,
    init: &Init,
    last: Option<FieldPlace>,
    meant: Option<NameMeaning>,
    single: bool,
    found: &mut Found,
)
    requires meant { meant ≡ home_member names.now.program names.now.around.home init.now.name }
    requires single { single ≡ are_single names.now init.now.args }
    ensures { found.new ≡ first_break_after found.old (AtInit names.now init.now last) }
{
    note_count(names, init, meant, single, found);
    found.note_unless(may_init(last, meant), Rule::S17, init.pos);
}

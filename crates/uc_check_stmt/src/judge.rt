// What the rules ask at one place in a statement.

ghost use Rattle.std.specs.Prelude.{◌≡◌, Some};
ghost use Rattle.uc_rules.specs.ExpressionBreaks.{event_takes, is_new, raise_breaks, return_breaks};
ghost use Rattle.uc_rules.specs.Firsts.{after};
ghost use Rattle.uc_rules.specs.OwnerBreaks.{is_cluster_place, is_raise_target, is_raise_target_sort, may_switch, returned_breaks};
ghost use Rattle.uc_rules.specs.Visits.{AtAgain, AtBase, AtCaught, AtCondition, AtEvent, AtLoopExit, AtMigrate, AtPrinted, AtRaise, AtRaiseTarget, AtRead, AtReturn, AtStatement, AtSwitch, AtTogether};
ghost use Rattle.uc_types.specs.FirstBreak.{first_break_after};

use uc_entry::request::PRINT_ITEMS;
use uc_rules::rule::Rule;
use uc_rules::rules::{Entity, Sort, Surroundings};
use uc_tree::declare::OutItem;
use uc_tree::kinds::Base;
use uc_tree::name::Name;
use uc_tree::pos::Pos;
use uc_types::bases::is_given;
use uc_types::entity::{is_object, is_of_conditions, is_operation, is_readable, is_scalar};
use uc_types::found::Found;
use uc_types::names::Names;
use uc_types::sort::{is_cluster, is_cormonitor, is_coroutine, is_task};

/// A base that is used.
pub fn ask_base(names: &Names, base: &Base, at: Pos, found: &mut Found)
    ensures { found.new ≡ first_break_after found.old (AtBase names.now at base.now) }
{
    let tables = names.tables();
    found.note_unless(tables.sort_of(base).is_some(), Rule::S1, at);
}

/// A condition.
pub fn ask_condition(entity: Option<Entity>, at: Pos, found: &mut Found)
    ensures { found.new ≡ first_break_after found.old (AtCondition at entity) }
{
    if let Some(entity) = entity {
        found.note_unless(is_scalar(entity), Rule::S8, at);
    }
}

/// An expression whose value is not used.
pub fn ask_statement(entity: Option<Entity>, at: Pos, found: &mut Found)
    ensures { found.new ≡ first_break_after found.old (AtStatement at entity) }
{
    if let Some(entity) = entity {
        found.note_unless(
            !(is_of_conditions(entity) || is_operation(entity)),
            Rule::O4,
            at,
        );
    }
}

fn note_returned(returns: bool, entity: Option<Entity>, at: Pos, found: &mut Found)
    ensures { found.new ≡ after found.old (return_breaks returns (Some entity) at) }
{
    if !returns {
        found.note(Rule::S12, at);
        return;
    }
    if let Some(entity) = entity {
        found.note_unless(is_scalar(entity), Rule::S12, at);
    }
}

fn note_object(entity: Option<Entity>, at: Pos, found: &mut Found)
    ensures { found.new ≡ after found.old (returned_breaks (Some entity) at) }
{
    if let Some(entity) = entity {
        found.note_unless(!is_object(entity), Rule::O7, at);
    }
}

/// A return, with what its value stands for where it has one.
pub fn ask_return(names: &Names, value: Option<Option<Entity>>, at: Pos, found: &mut Found)
    ensures { found.new ≡ first_break_after found.old (AtReturn names.now at value) }
{
    let returns = names.around().returns;
    match value {
        Some(entity) => {
            note_returned(returns, entity, at, found);
            note_object(entity, at, found);
        }
        None => found.note_unless(!returns, Rule::S12, at),
    }
}

/// A printed item.
pub fn ask_printed(entity: Option<Entity>, sign: Pos, found: &mut Found)
    ensures { found.new ≡ first_break_after found.old (AtPrinted sign entity) }
{
    if let Some(entity) = entity {
        found.note_unless(is_scalar(entity), Rule::S24, sign);
    }
}

/// The items under an `osacquire`.
pub fn ask_together(items: &[OutItem], found: &mut Found)
    ensures { found.new ≡ first_break_after found.old (AtTogether items.now) }
{
    match items.get(usize::from(PRINT_ITEMS)) {
        Some(item) => found.note(Rule::S24, item.sign),
        None => {}
    }
}

/// A place to read into.
pub fn ask_read(entity: Option<Entity>, at: Pos, found: &mut Found)
    ensures { found.new ≡ first_break_after found.old (AtRead at entity) }
{
    if let Some(entity) = entity {
        found.note_unless(is_readable(entity), Rule::S24, at);
    }
}

/// A `break` or `continue`.
pub fn ask_loop_exit(names: &Names, at: Pos, found: &mut Found)
    ensures { found.new ≡ first_break_after found.old (AtLoopExit names.now at) }
{
    found.note_unless(names.around().in_loop, Rule::S13, at);
}

/// The name of an event.
pub fn ask_event(names: &Names, name: &Name, at: Pos, found: &mut Found)
    ensures { found.new ≡ first_break_after found.old (AtEvent names.now at name.now) }
{
    let tables = names.tables();
    let is_event = tables.event_named(name).is_some();
    let is_declared = names.named(name).is_some();
    found.note_unless(is_event || is_declared, Rule::S1, at);
    found.note_unless(is_event || !is_declared, Rule::S21, at);
}

fn event_takes(names: &Names, count: usize, sort: Sort) -> bool
    ensures { result ≡ event_takes names.now.program count sort }
{
    match sort {
        Sort::Object { class, .. } => {
            let tables = names.tables();
            count == tables.constructor_params(class).len()
        }
        _ => true,
    }
}

fn note_raise(names: &Names, name: &Name, count: usize, at: Pos, found: &mut Found)
    ensures { found.new ≡ after found.old (raise_breaks names.now at name.now count) }
{
    if is_given(name) {
        found.note_unless(count == 0, Rule::S22, at);
        return;
    }
    let tables = names.tables();
    match tables.event_sort(name) {
        Some(sort) => found.note_unless(event_takes(names, count, sort), Rule::S22, at),
        None => {}
    }
}

/// A raise with so many arguments.
pub fn ask_raise(names: &Names, name: &Name, count: usize, at: Pos, found: &mut Found)
    ensures { found.new ≡ first_break_after found.old (AtRaise names.now at name.now count) }
{
    note_raise(names, name, count, at, found);
}

/// A raise of the event that is handled.
pub fn ask_again(names: &Names, at: Pos, found: &mut Found)
    ensures { found.new ≡ first_break_after found.old (AtAgain names.now at) }
{
    found.note_unless(names.around().in_handler, Rule::S23, at);
}

fn is_raise_target_sort(sort: Sort) -> bool
    ensures { result ≡ is_raise_target_sort sort }
{
    match sort {
        Sort::Object { kind, .. } => is_task(kind) || is_coroutine(kind),
        _ => false,
    }
}

fn is_raise_target(entity: Entity) -> bool
    ensures { result ≡ is_raise_target entity }
{
    match entity {
        Entity::Place { sort } => is_raise_target_sort(sort),
        _ => false,
    }
}

fn is_cluster_place(entity: Entity) -> bool
    ensures { result ≡ is_cluster_place entity }
{
    match entity {
        Entity::Place { sort } => is_cluster(sort),
        _ => false,
    }
}

/// The object after `_At`.
pub fn ask_raise_target(entity: Option<Entity>, at: Pos, found: &mut Found)
    ensures { found.new ≡ first_break_after found.old (AtRaiseTarget at entity) }
{
    if let Some(entity) = entity {
        found.note_unless(!is_of_conditions(entity), Rule::O4, at);
        found.note_unless(is_raise_target(entity), Rule::O8, at);
    }
}

/// The object of `migrate`.
pub fn ask_migrate(entity: Option<Entity>, at: Pos, found: &mut Found)
    ensures { found.new ≡ first_break_after found.old (AtMigrate at entity) }
{
    if let Some(entity) = entity {
        found.note_unless(!is_of_conditions(entity), Rule::O4, at);
        found.note_unless(is_cluster_place(entity), Rule::O8, at);
    }
}

/// Whether the innermost scope may declare a name.
pub fn is_new(names: &Names, name: &Name) -> bool
    ensures { result ≡ is_new names.now name.now }
{
    !(names.is_own(name) || is_given(name))
}

/// The parameter of a handler.
pub fn ask_caught(names: &Names, name: &Option<Name>, at: Pos, found: &mut Found)
    ensures { found.new ≡ first_break_after found.old (AtCaught names.now at name.now) }
{
    match name {
        Some(name) => found.note_unless(is_new(names, name), Rule::S2, at),
        None => {}
    }
}

fn may_switch(around: Surroundings) -> bool
    ensures { result ≡ may_switch around around.home }
{
    match around.home {
        Some(home) => is_coroutine(home.kind) || (is_cormonitor(home.kind) && around.inner),
        None => false,
    }
}

/// A `resume` or `suspend`.
pub fn ask_switch(names: &Names, at: Pos, found: &mut Found)
    ensures { found.new ≡ first_break_after found.old (AtSwitch names.now at) }
{
    found.note_unless(may_switch(names.around()), Rule::O9, at);
}

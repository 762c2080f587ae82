// The rules on items.

ghost use Rattle.std.specs.Prelude.{◌≡◌, ◌≤◌, [], ◌∷◌, ◌++◌, IfOk, OnOk};
ghost use Rattle.uc_rules.specs.ClassBreaks.{events_before};
ghost use Rattle.uc_rules.specs.ProgramVisits.{classes_in, is_of_main, item_visits, items_visits, outer_env, outer_mark, routine_visits, sig_visits};
ghost use Rattle.uc_rules.specs.Scopes.{no_around, plain_env};
ghost use Rattle.uc_rules.specs.Visits.{AtConstant, AtItem, visits};
ghost use Rattle.uc_types.specs.FirstBreak.{with_visits};
ghost use Rattle.uc_classes.specs.Counted.{events_in, ItemAt};

use crate::ask::{ask_constant, ask_item};
use crate::body::{check_routine, check_sig};
use crate::class::{check_class, sig_around};
use std::alloc::{AllocError, Global};
use uc_check_decl::item::owner_home;
use uc_check_index::index::Index;
use uc_rules::rules::{OwnClass, Surroundings};
use uc_tree::class::{Routine, Sig};
use uc_tree::kinds::{MutexMark, Owner, Role};
use uc_tree::program::{Constant, Item, ItemForm};
use uc_types::expr::check_expr;
use uc_types::found::Found;
use uc_types::names::Names;
use uc_types::sort::is_event;
use uc_types::tables::Tables;

/// What stands round what is in no class and no routine.
pub fn no_around() -> Surroundings
    ensures { result ≡ no_around }
{
    Surroundings {
        home: None,
        main: false,
        role: Role::Plain,
        inner: false,
        returns: false,
        in_loop: false,
        in_handler: false,
        joins: false,
        bound: None,
    }
}

fn mark_of(
    alloc: Global,
    index: &Index,
    home: Option<OwnClass>,
    sig: &Sig,
) -> Result<MutexMark, AllocError>
    ensures { IfOk result (λ mark. mark ≡ outer_mark index.now home sig.now) }
{
    match home {
        Some(home) => index.mark_in(alloc, home.class, sig),
        None => Ok(MutexMark::Unmarked),
    }
}

// The mark of a routine in its class, in the program of the tables.
fn outer_mark(
    alloc: Global,
    tables: &Tables,
    index: &Index,
    home: Option<OwnClass>,
    sig: &Sig,
) -> Result<MutexMark, AllocError>
    requires { index.now ≡ tables.now }
    ensures { IfOk result (λ mark. mark ≡ outer_mark tables.now home sig.now) }
{
    let mark = mark_of(alloc, index, home, sig)?;
    Ok(mark)
}

fn is_of_main(owner: &Owner) -> bool
    ensures { result ≡ is_of_main owner.now }
{
    matches!(owner, Owner::Main)
}

/// The environment of a routine that stands outside of classes, before its parameters.
pub fn outer_names<'a>(
    alloc: Global,
    tables: &'a Tables<'a>,
    index: &Index,
    sig: &Sig,
) -> Result<Names<'a>, AllocError>
    requires { index.now ≡ tables.now }
    ensures { IfOk result (λ names. names ≡ outer_env tables.now sig.now) }
{
    let home = owner_home(tables, &sig.owner);
    let mark = outer_mark(alloc, tables, index, home, sig)?;
    let around = sig_around(tables, home, is_of_main(&sig.owner), mark, sig);
    Ok(Names::new(alloc, tables, around))
}

fn check_outer(
    alloc: Global,
    tables: &Tables,
    index: &Index,
    routine: &Routine,
    found: &mut Found,
) -> Result<(), AllocError>
    requires { index.now ≡ tables.now }
    ensures { OnOk result (found.new
        ≡ with_visits found.old (routine_visits (outer_env tables.now routine.now.sig) routine.now)) }
{
    let mut names = outer_names(alloc, tables, index, &routine.sig)?;
    let checked = check_routine(&mut names, routine, found);
    drop(names);
    checked
}

#[tactic(auto, using(uc_check_stmt::proofs::Joined::joining))]
fn check_constant(alloc: Global, tables: &Tables, constant: &Constant, found: &mut Found)
    ensures { found.new ≡ with_visits found.old
        (visits (plain_env tables.now no_around) constant.now.value
        ++ AtConstant (plain_env tables.now no_around) constant.now ∷ []) }
{
    let names = Names::new(alloc, tables, no_around());
    let entity = check_expr(&names, &constant.value, found);
    ask_constant(&names, constant, entity, found);
    drop(names);
}

fn check_proto(
    alloc: Global,
    tables: &Tables,
    sig: &Sig,
    found: &mut Found,
) -> Result<(), AllocError>
    ensures { OnOk result (found.new
        ≡ with_visits found.old (sig_visits (plain_env tables.now no_around) sig.now)) }
{
    let mut names = Names::new(alloc, tables, no_around());
    let checked = check_sig(&mut names, sig, found);
    drop(names);
    checked
}

// What stands before an item: so many classes, of which so many are events.
#[derive(Clone, Copy)]
struct EarlierItems {
    classes: usize,
    events: usize,
}

fn check_item(
    alloc: Global,
    tables: &Tables,
    index: &Index,
    before: EarlierItems,
    item: &Item,
    found: &mut Found,
) -> Result<(), AllocError>
    requires indexed { index.now ≡ tables.now }
    requires events { before.events ≡ events_before tables.now before.classes }
    requires at { ItemAt tables.now before.classes item.now }
    ensures { OnOk result (found.new
        ≡ with_visits found.old (item_visits tables.now before.classes item.now)) }
{
    match &item.form {
        ItemForm::Class { class } => {
            check_class(
                alloc,
                tables,
                index,
                class,
                before.classes,
                before.events,
                found,
            )?;
            Ok(())
        }
        ItemForm::Routine { routine } => {
            check_outer(alloc, tables, index, routine, found)?;
            Ok(())
        }
        ItemForm::Constant { constant } => {
            check_constant(alloc, tables, constant, found);
            Ok(())
        }
        ItemForm::Proto { sig } => check_proto(alloc, tables, sig, found),
        ItemForm::Forward { .. } | ItemForm::Using { .. } => Ok(()),
    }
}

fn class_count(item: &Item) -> usize
    ensures count { result ≡ classes_in item.now }
    ensures few { result ≤ 1 }
{
    match &item.form {
        ItemForm::Class { .. } => 1,
        _ => 0,
    }
}

fn event_count(item: &Item) -> usize
    ensures count { result ≡ events_in item.now }
    ensures few { result ≤ 1 }
{
    match &item.form {
        ItemForm::Class { class } => usize::from(is_event(class.kind)),
        _ => 0,
    }
}

// An item by its place.
#[tactic(auto, using(uc_check_stmt::proofs::Joined::joining))]
fn check_placed(
    alloc: Global,
    tables: &Tables,
    index: &Index,
    before: EarlierItems,
    item: &Item,
    place: usize,
    found: &mut Found,
) -> Result<(), AllocError>
    requires indexed { index.now ≡ tables.now }
    requires events { before.events ≡ events_before tables.now before.classes }
    requires at { ItemAt tables.now before.classes item.now }
    ensures { OnOk result (found.new
        ≡ with_visits found.old (AtItem tables.now item.now place
        ∷ item_visits tables.now before.classes item.now)) }
{
    ask_item(alloc, tables, index, item, place, found)?;
    check_item(alloc, tables, index, before, item, found)
}

/// The items of a program.
#[tactic(auto, using(uc_check_stmt::proofs::Joined::joining))]
pub fn check_items(
    alloc: Global,
    tables: &Tables,
    index: &Index,
    found: &mut Found,
) -> Result<(), AllocError>
    requires { index.now ≡ tables.now }
    ensures { OnOk result (found.new
        ≡ with_visits found.old (items_visits tables.now 0 0 tables.now.items)) }
{
    let items = items_of(tables);
    let mut classes = 0;
    let mut events = 0;
    for (place, item) in items.iter().enumerate() {
        let before = EarlierItems { classes, events };
        check_placed(alloc, tables, index, before, item, place, found)?;
        classes += class_count(item);
        events += event_count(item);
    }
    Ok(())
}

fn items_of<'a>(tables: &Tables<'a>) -> &'a [Item]
    ensures { result.now ≡ tables.now.items }
{
    let program = tables.program();
    &program.items
}

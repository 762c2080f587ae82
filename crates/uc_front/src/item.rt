// The names in scope at a place of an item.

ghost use Rattle.std.specs.Prelude.{◌≡◌, ◌≤◌, IfOk, length};
ghost use Rattle.uc_tree.specs.Cells.{classes_of};
ghost use Rattle.uc_rules.specs.ProgramVisits.{classes_in};
ghost use Rattle.uc_rules.specs.Scopes.{no_around, plain_env, with_params};
ghost use Rattle.uc_front.specs.Places.{AtBody, AtLeaf, class_home, class_node, env_along, env_from, form_node, item_node, member_node, outer_node, place_env, reached};

use crate::outer::outer_around;
use crate::place::{Place, Step};
use crate::walk::{add_params, follow_body, is_end};
use std::alloc::AllocError;
use uc_classes::class::{class_around, sig_around};
use uc_rules::rules::OwnClass;
use uc_tree::class::{Class, Member, MemberForm, Routine, Sig};
use uc_tree::program::{Item, ItemForm};
use uc_types::names::Names;

fn class_count(item: &Item) -> usize
    ensures count { result ≡ classes_in item.now }
    ensures few { result ≤ 1 }
{
    match &item.form {
        ItemForm::Class { .. } => 1,
        _ => 0,
    }
}

// How many classes there are among items.
fn count_classes(items: &[Item]) -> usize
    ensures { result ≡ length (classes_of items.now) }
{
    let mut count = 0;
    for item in items {
        count += class_count(item);
    }
    count
}

fn class_home(class: &Class, place: usize) -> OwnClass
    ensures { result ≡ class_home place class.now }
{
    OwnClass {
        class: place,
        kind: class.kind,
    }
}

fn enter_routine(names: &mut Names, routine: &Routine, steps: &[Step]) -> Result<bool, AllocError>
    ensures { IfOk result (λ there. env_along
        (AtBody (with_params names.old routine.now.sig.params) routine.now.body) steps.now
        ≡ reached there names.new) }
{
    add_params(names, &routine.sig.params)?;
    follow_body(names, &routine.body, steps)
}

fn enter_sig(names: &mut Names, sig: &Sig, steps: &[Step]) -> Result<bool, AllocError>
    ensures { IfOk result (λ there. env_along
        (AtLeaf (with_params names.old sig.now.params)) steps.now ≡ reached there names.new) }
{
    add_params(names, &sig.params)?;
    Ok(is_end(steps))
}

fn enter_form(
    names: &mut Names,
    home: OwnClass,
    member: &Member,
    steps: &[Step],
) -> Result<bool, AllocError>
    requires fresh { names.old ≡ plain_env names.old.program no_around }
    ensures { IfOk result (λ there. env_along
        (form_node names.old.program home member.now.mark member.now.form) steps.now
        ≡ reached there names.new) }
{
    match &member.form {
        MemberForm::Fields { .. } => {
            names.set_around(class_around(home));
            Ok(is_end(steps))
        }
        MemberForm::Routine { routine } => {
            let around = sig_around(names.tables(), Some(home), false, member.mark, &routine.sig);
            names.set_around(around);
            enter_routine(names, routine, steps)
        }
        MemberForm::Proto { sig } => {
            let around = sig_around(names.tables(), Some(home), false, member.mark, sig);
            names.set_around(around);
            enter_sig(names, sig, steps)
        }
    }
}

fn enter_class(
    names: &mut Names,
    class: &Class,
    place: usize,
    number: usize,
    steps: &[Step],
) -> Result<bool, AllocError>
    requires fresh { names.old ≡ plain_env names.old.program no_around }
    ensures { IfOk result (λ there. env_from
        (class_node names.old.program place class.now number) steps.now ≡ reached there names.new) }
{
    match class.members.get(number) {
        Some(member) => enter_form(names, class_home(class, place), member, steps),
        None => Ok(false),
    }
}

// A member of an item, before which so many classes stand.
fn enter_member(
    names: &mut Names,
    item: &Item,
    classes: usize,
    number: usize,
    steps: &[Step],
) -> Result<bool, AllocError>
    requires fresh { names.old ≡ plain_env names.old.program no_around }
    ensures { IfOk result (λ there. env_from
        (member_node names.old.program classes item.now number) steps.now
        ≡ reached there names.new) }
{
    match &item.form {
        ItemForm::Class { class } => enter_class(names, class, classes, number, steps),
        ItemForm::Routine { .. }
        | ItemForm::Constant { .. }
        | ItemForm::Proto { .. }
        | ItemForm::Forward { .. }
        | ItemForm::Using { .. } => Ok(false),
    }
}

fn enter_outer(
    names: &mut Names,
    item: &Item,
    classes: usize,
    steps: &[Step],
) -> Result<bool, AllocError>
    requires fresh { names.old ≡ plain_env names.old.program no_around }
    ensures { IfOk result (λ there. env_along
        (outer_node names.old.program classes item.now) steps.now ≡ reached there names.new) }
{
    match &item.form {
        ItemForm::Class { class } => {
            names.set_around(class_around(class_home(class, classes)));
            Ok(is_end(steps))
        }
        ItemForm::Routine { routine } => {
            names.set_around(outer_around(names.tables(), &routine.sig));
            enter_routine(names, routine, steps)
        }
        ItemForm::Proto { sig } => enter_sig(names, sig, steps),
        ItemForm::Constant { .. } | ItemForm::Forward { .. } | ItemForm::Using { .. } => Ok(is_end(
            steps,
        )),
    }
}

fn enter_item(
    names: &mut Names,
    item: &Item,
    classes: usize,
    place: &Place,
) -> Result<bool, AllocError>
    requires fresh { names.old ≡ plain_env names.old.program no_around }
    ensures { IfOk result (λ there. env_from
        (item_node names.old.program classes item.now place.now.member) place.now.steps.items
        ≡ reached there names.new) }
{
    match place.member {
        Some(number) => enter_member(names, item, classes, number, &place.steps),
        None => enter_outer(names, item, classes, &place.steps),
    }
}

/// Goes to a place of the program, and says whether there is one; then the names are those there.
pub(crate) fn enter_place(names: &mut Names, place: &Place) -> Result<bool, AllocError>
    requires fresh { names.old ≡ plain_env names.old.program no_around }
    ensures { IfOk result (λ there. place_env names.old.program place.now.item place.now.member
        place.now.steps.items ≡ reached there names.new) }
{
    let program = names.tables().program();
    match program.items.get(place.item) {
        Some(item) => {
            let classes = count_classes(&program.items[..place.item]);
            enter_item(names, item, classes, place)
        }
        None => Ok(false),
    }
}

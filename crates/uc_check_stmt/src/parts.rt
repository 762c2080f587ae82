// The rules on the parts of statements.

ghost use Rattle.std.specs.Prelude.{◌≡◌};
ghost use Rattle.uc_tree.specs.Expressions.{exprs_of};
ghost use Rattle.uc_rules.specs.Entities.{count, entity_of};
ghost use Rattle.uc_rules.specs.Visits.{args_visits, class_target, condition_visits, event_class_target, event_target, events_visits, maybe_condition_visits, maybe_statement_visits, out_visits, outs_visits, raise_visits, raised_visits, read_visits, reads_visits, return_visits, statement_visits};
ghost use Rattle.uc_types.specs.FirstBreak.{with_visits};

use crate::judge::{
    ask_again, ask_condition, ask_event, ask_printed, ask_raise, ask_read, ask_return,
    ask_statement,
};
use uc_rules::rules::{Sort, Target};
use uc_tree::declare::{OutForm, OutItem, Raised};
use uc_tree::expr::Expr;
use uc_tree::kinds::EventName;
use uc_tree::name::Name;
use uc_tree::pos::Pos;
use uc_types::expr::{check_args, check_expr};
use uc_types::found::Found;
use uc_types::names::Names;

/// A condition.
#[tactic(auto, using(crate::proofs::Joined::joining))]
pub fn check_condition(names: &Names, test: &Expr, found: &mut Found)
    ensures { found.new ≡ with_visits found.old (condition_visits names.now test.now) }
{
    let entity = check_expr(names, test, found);
    ask_condition(entity, test.first_token(), found);
}

/// A condition, where there is one.
pub fn check_maybe_condition(names: &Names, test: &Option<Expr>, found: &mut Found)
    ensures { found.new ≡ with_visits found.old (maybe_condition_visits names.now test.now) }
{
    match test {
        Some(test) => check_condition(names, test, found),
        None => {}
    }
}

/// An expression whose value is not used.
#[tactic(auto, using(crate::proofs::Joined::joining))]
pub fn check_statement(names: &Names, e: &Expr, found: &mut Found)
    ensures { found.new ≡ with_visits found.old (statement_visits names.now e.now) }
{
    let entity = check_expr(names, e, found);
    ask_statement(entity, e.first_token(), found);
}

/// The same, where there is one.
pub fn check_maybe_statement(names: &Names, e: &Option<Expr>, found: &mut Found)
    ensures { found.new ≡ with_visits found.old (maybe_statement_visits names.now e.now) }
{
    match e {
        Some(e) => check_statement(names, e, found),
        None => {}
    }
}

/// A return.
#[tactic(auto, using(crate::proofs::Joined::joining))]
pub fn check_return(names: &Names, value: &Option<Expr>, at: Pos, found: &mut Found)
    ensures { found.new ≡ with_visits found.old (return_visits names.now at value.now) }
{
    match value {
        Some(value) => {
            let entity = check_expr(names, value, found);
            ask_return(names, Some(entity), at, found);
        }
        None => ask_return(names, None, at, found),
    }
}

#[tactic(auto, using(crate::proofs::Joined::joining))]
fn check_item(names: &Names, item: &OutItem, found: &mut Found)
    ensures { found.new ≡ with_visits found.old (out_visits names.now item.now) }
{
    match &item.form {
        OutForm::Endl | OutForm::Literal { .. } => {}
        OutForm::Value { value } => {
            let entity = check_expr(names, value, found);
            ask_printed(entity, item.sign, found);
        }
    }
}

/// Printed items.
#[tactic(auto, using(crate::proofs::Joined::joining))]
pub fn check_items(names: &Names, items: &[OutItem], found: &mut Found)
    ensures { found.new ≡ with_visits found.old (outs_visits names.now items.now) }
{
    for item in items {
        check_item(names, item, found);
    }
}

#[tactic(auto, using(crate::proofs::Joined::joining))]
fn check_place(names: &Names, place: &Expr, found: &mut Found)
    ensures { found.new ≡ with_visits found.old (read_visits names.now place.now) }
{
    let entity = check_expr(names, place, found);
    ask_read(entity, place.first_token(), found);
}

/// Places to read into.
#[tactic(auto, using(crate::proofs::Joined::joining))]
pub fn check_places(names: &Names, places: &[Expr], found: &mut Found)
    ensures { found.new ≡ with_visits found.old (reads_visits names.now (exprs_of places.now)) }
{
    for place in places {
        check_place(names, place, found);
    }
}

fn class_target(sort: Sort) -> Target
    ensures { result ≡ class_target sort }
{
    match sort {
        Sort::Object { class, .. } => Target::Constructor { class },
        _ => Target::Unknown,
    }
}

fn event_target(names: &Names, name: &Name) -> Target
    ensures { result ≡ event_target names.now name.now }
{
    let tables = names.tables();
    match tables.event_sort(name) {
        Some(sort) => class_target(sort),
        None => Target::Unknown,
    }
}

#[tactic(auto, using(crate::proofs::Joined::joining))]
fn check_raised_args(names: &Names, raised: &Raised, found: &mut Found) -> usize
    ensures count { result ≡ count raised.now.args }
    ensures breaks { found.new ≡ with_visits found.old
        (args_visits names.now raised.now.args (event_target names.now raised.now.name) 0) }
{
    let target = event_target(names, &raised.name);
    let _sound = check_args(names, &raised.args, target, found);
    raised.args.len()
}

/// A raise of an event.
#[tactic(auto, using(crate::proofs::Joined::joining))]
pub fn check_raised(names: &Names, raised: &Raised, at: Pos, found: &mut Found)
    ensures { found.new ≡ with_visits found.old (raised_visits names.now at raised.now) }
{
    ask_event(names, &raised.name, raised.pos, found);
    let count = check_raised_args(names, raised, found);
    ask_raise(names, &raised.name, count, at, found);
}

/// A raise of an event, or of the one that is handled.
pub fn check_raise(names: &Names, raised: &Option<Raised>, at: Pos, found: &mut Found)
    ensures { found.new ≡ with_visits found.old (raise_visits names.now at raised.now) }
{
    match raised {
        Some(raised) => check_raised(names, raised, at, found),
        None => ask_again(names, at, found),
    }
}

/// The names of events in a list.
#[tactic(auto, using(crate::proofs::Joined::joining))]
pub fn check_events(names: &Names, events: &[EventName], found: &mut Found)
    ensures { found.new ≡ with_visits found.old (events_visits names.now events.now) }
{
    for event in events {
        ask_event(names, &event.name, event.pos, found);
    }
}

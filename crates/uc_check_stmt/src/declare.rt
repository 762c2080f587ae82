// The rules on variables in blocks.

ghost use Rattle.std.specs.Prelude.{◌≡◌, OnOk, length};
ghost use Rattle.uc_tree.specs.Expressions.{exprs_of};
ghost use Rattle.uc_rules.specs.Asked.{of_sort};
ghost use Rattle.uc_rules.specs.Entities.{count, entity_of, expected};
ghost use Rattle.uc_rules.specs.ExpressionBreaks.{are_single, is_element, is_length, is_no_event, is_scalar_of, is_value_start, length_breaks, length_value_breaks, started_breaks, starts_well};
ghost use Rattle.uc_rules.specs.declared.rule.Rule.TheVariants.{O4, S22};
ghost use Rattle.uc_rules.specs.Firsts.{after};
ghost use Rattle.uc_rules.specs.Names.{constructor_params};
ghost use Rattle.uc_rules.specs.OwnerBreaks.{is_no_condition_sort};
ghost use Rattle.uc_rules.specs.Scopes.{all_declared};
ghost use Rattle.uc_rules.specs.Visits.{arg_visits, args_visits, declaration_visits, maybe_visits, single_target, start_values, variable_target, variable_visits, variables_visits};
ghost use Rattle.uc_types.specs.FirstBreak.{with_visits};

use crate::judge::{ask_base, is_new};
use std::alloc::AllocError;
use uc_rules::rule::Rule;
use uc_rules::rules::{Entity, Sort, Target};
use uc_tree::declare::{Declarator, Start, StartForm};
use uc_tree::expr::Expr;
use uc_tree::kinds::Base;
use uc_tree::limits::ARRAY_LENGTH;
use uc_tree::pos::Pos;
use uc_types::ask::ask_argument;
use uc_types::entity::{expected_of, is_scalar};
use uc_types::expr::{check_args, check_expr};
use uc_types::found::Found;
use uc_types::names::{Names, length_value};
use uc_types::sort::{is_condition, is_event, is_event_sort};

/// How a variable starts: whether by `=`, with how many values, and whether a single one, if there is one, is a scalar.
#[derive(Clone, Copy)]
pub struct VariableStart {
    pub by_value: bool,
    pub count: usize,
    pub single: bool,
}

/// Notes the breaks of an expression, where there is one.
pub fn check_maybe(names: &Names, e: &Option<Expr>, found: &mut Found)
    ensures { found.new ≡ with_visits found.old (maybe_visits names.now e.now) }
{
    match e {
        Some(e) => {
            let _entity = check_expr(names, e, found);
        }
        None => {}
    }
}

#[tactic(auto, using(crate::proofs::Joined::joining))]
fn check_value(names: &Names, e: &Expr, target: Target, found: &mut Found) -> Option<Entity>
    ensures entity { result ≡ entity_of names.now e.now }
    ensures breaks { found.new ≡ with_visits found.old
        (arg_visits names.now e.now (expected names.now.program target 0)) }
{
    let entity = check_expr(names, e, found);
    let expected = expected_of(names.tables(), target, 0);
    let _fits = ask_argument(e.first_token(), expected, entity, found);
    entity
}

/// Whether it is a scalar, where it is known.
pub fn is_scalar_of(entity: Option<Entity>) -> bool
    ensures { result ≡ is_scalar_of entity }
{
    match entity {
        Some(entity) => is_scalar(entity),
        None => true,
    }
}

#[tactic(auto, using(crate::proofs::Joined::joining))]
fn check_single(names: &Names, args: &[Expr], target: Target, found: &mut Found) -> bool
    ensures single { result ≡ are_single names.now (exprs_of args.now) }
    ensures breaks { found.new ≡ with_visits found.old
        (args_visits names.now (exprs_of args.now) target 0) }
{
    if args.len() == 1 {
        let entity = check_value(names, &args[0], target, found);
        return is_scalar_of(entity);
    }
    let _sound = check_args(names, args, target, found);
    args.is_empty()
}

#[tactic(auto, using(crate::proofs::Joined::joining))]
fn check_start(names: &Names, start: &Start, target: Target, found: &mut Found) -> VariableStart
    ensures by_value { result.by_value ≡ is_value_start start.now }
    ensures count { result.count ≡ count (start_values start.now) }
    ensures single { result.single ≡ are_single names.now (start_values start.now) }
    ensures breaks { found.new ≡ with_visits found.old
        (args_visits names.now (start_values start.now) target 0) }
{
    match &start.form {
        StartForm::Nothing => VariableStart {
            by_value: false,
            count: 0,
            single: true,
        },
        StartForm::Value { value } => {
            let entity = check_value(names, value, target, found);
            VariableStart {
                by_value: true,
                count: 1,
                single: is_scalar_of(entity),
            }
        }
        StartForm::Args { args } => {
            let single = check_single(names, args, target, found);
            VariableStart {
                by_value: false,
                count: args.len(),
                single,
            }
        }
    }
}

/// To what the values go that something of this sort starts with.
pub fn single_target(sort: Sort) -> Target
    ensures { result ≡ single_target sort }
{
    match sort {
        Sort::Void | Sort::Int | Sort::Char | Sort::Bool => Target::Scalar,
        Sort::Condition | Sort::Cluster => Target::Nothing,
        Sort::Processor => Target::Reference {
            sort: Sort::Cluster,
        },
        Sort::Object { class, .. } => Target::Constructor { class },
    }
}

fn variable_target(len: &Option<Expr>, sort: Option<Sort>) -> Target
    ensures { result ≡ variable_target len.now sort }
{
    match sort {
        Some(sort) => match len {
            Some(_) => Target::Scalar,
            None => single_target(sort),
        },
        None => Target::Unknown,
    }
}

fn is_length(value: Option<i64>) -> bool
    ensures { result ≡ is_length value }
{
    match value {
        Some(value) => 1 <= value && value <= i64::from(ARRAY_LENGTH),
        None => false,
    }
}

/// A length: of a reference there is none.
pub fn judge_length(names: &Names, by_ref: bool, len: &Option<Expr>, at: Pos, found: &mut Found)
    ensures { found.new ≡ after (after found.old (length_breaks names.now by_ref len.now at))
        (length_value_breaks names.now len.now) }
{
    match len {
        Some(len) => {
            let value = length_value(names, len);
            found.note_unless(!by_ref && is_length(value), Rule::S14, at);
            found.note_unless(value.is_some(), Rule::S15, len.first_token());
        }
        None => {}
    }
}

fn count_params(names: &Names, class: usize) -> usize
    ensures { result ≡ length (constructor_params names.now.program class) }
{
    let tables = names.tables();
    tables.constructor_params(class).len()
}

/// Whether it may be an element of an array.
pub fn is_element(names: &Names, sort: Sort) -> bool
    ensures { result ≡ is_element names.now.program sort }
{
    match sort {
        Sort::Void | Sort::Processor => false,
        Sort::Object { class, kind } => is_event(kind) || count_params(names, class) == 0,
        _ => true,
    }
}

fn starts_well(names: &Names, start: VariableStart, sort: Sort) -> bool
    ensures { result ≡ starts_well names.now.program start.by_value start.count start.single sort }
{
    match sort {
        Sort::Void => false,
        Sort::Int | Sort::Char | Sort::Bool => start.single,
        Sort::Condition | Sort::Cluster => !start.by_value,
        Sort::Processor => !start.by_value && start.count == 1,
        Sort::Object { class, kind } => {
            is_event(kind) || (!start.by_value && start.count == count_params(names, class))
        }
    }
}

fn judge_start(
    names: &Names,
    sort: Option<Sort>,
    len: &Option<Expr>,
    start: VariableStart,
    at: Pos,
    found: &mut Found,
)
    ensures { found.new ≡ after found.old
        (started_breaks names.now.program len.now start.by_value start.count start.single at sort) }
{
    match sort {
        Some(sort) => match len {
            Some(_) => {
                let holds = is_element(names, sort) && start.count == 0;
                found.note_unless(holds, Rule::S16, at);
            }
            None => found.note_unless(starts_well(names, start, sort), Rule::S16, at),
        },
        None => {}
    }
}

/// A variable or a field is no event.
pub fn judge_event(sort: Option<Sort>, at: Pos, found: &mut Found)
    ensures { found.new ≡ after found.old (of_sort sort is_no_event S22 at) }
{
    if let Some(sort) = sort {
        found.note_unless(!is_event_sort(sort), Rule::S22, at);
    }
}

fn judge_condition(sort: Option<Sort>, at: Pos, found: &mut Found)
    ensures { found.new ≡ after found.old (of_sort sort is_no_condition_sort O4 at) }
{
    if let Some(sort) = sort {
        found.note_unless(!is_condition(sort), Rule::O4, at);
    }
}

#[tactic(auto, using(crate::proofs::Joined::joining))]
fn check_variable(names: &Names, base: &Base, declarator: &Declarator, found: &mut Found)
    ensures { found.new ≡ with_visits found.old
        (variable_visits names.now base.now declarator.now) }
{
    let tables = names.tables();
    let sort = tables.sort_of(base);
    let target = variable_target(&declarator.len, sort);
    check_maybe(names, &declarator.len, found);
    let start = check_start(names, &declarator.start, target, found);
    let at = declarator.pos;
    found.note_unless(is_new(names, &declarator.name), Rule::S2, at);
    judge_length(names, declarator.by_ref, &declarator.len, at, found);
    judge_start(names, sort, &declarator.len, start, at, found);
    judge_event(sort, at, found);
    judge_condition(sort, at, found);
    found.note_unless(!declarator.by_ref, Rule::O5, at);
}

#[tactic(auto, using(crate::proofs::Joined::joining))]
fn check_variables(
    names: &mut Names,
    base: &Base,
    declarators: &[Declarator],
    found: &mut Found,
) -> Result<(), AllocError>
    ensures names { OnOk result (names.new ≡ all_declared names.old base.now declarators.now) }
    ensures breaks { OnOk result (found.new
        ≡ with_visits found.old (variables_visits names.old base.now declarators.now)) }
{
    for declarator in declarators {
        check_variable(names, base, declarator, found);
        names.declare(base, declarator)?;
    }
    Ok(())
}

/// Notes the breaks of a declaration; its variables are then in scope.
#[tactic(auto, using(crate::proofs::Joined::joining))]
pub fn check_declaration(
    names: &mut Names,
    at: Pos,
    base: &Base,
    declarators: &[Declarator],
    found: &mut Found,
) -> Result<(), AllocError>
    ensures names { OnOk result (names.new ≡ all_declared names.old base.now declarators.now) }
    ensures breaks { OnOk result (found.new
        ≡ with_visits found.old (declaration_visits names.old at base.now declarators.now)) }
{
    ask_base(names, base, at, found);
    check_variables(names, base, declarators, found)
}

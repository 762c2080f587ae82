// The types of expressions.

ghost use Rattle.std.specs.Prelude.{◌≡◌, IfErr, IfOk, OnOk, Some, is_some};
ghost use Rattle.uc_rules.specs.Entities.{entity_of};
ghost use Rattle.uc_rules.specs.Firsts.{is_owner_number};
ghost use Rattle.uc_rules.specs.Scopes.{Env};
ghost use Rattle.uc_rules.specs.Sorts.{class_at};
ghost use Rattle.uc_rules.specs.Visits.{statement_visits};
ghost use Rattle.uc_types.specs.FirstBreak.{with_visits};
ghost use Rattle.uc_front.specs.Places.{place_env};
ghost use Rattle.uc_front.specs.Typed.{AreOfOwners, IsTextFaultOf, class_base, entity_type, expr_type, given_type, sort_base, statement_breaks, text_break, type_with};

use crate::item::enter_place;
use crate::place::Place;
use std::alloc::{AllocError, Global};
use uc_check_stmt::judge::ask_statement;
use uc_classes::item::no_around;
use uc_classes::tabled::tables_of;
use uc_rules::checked::RuleFault;
use uc_rules::rule::Break;
use uc_rules::rules::{Entity, Sort};
use uc_tree::expr::Expr;
use uc_tree::kinds::{Base, Ty};
use uc_tree::program::Program;
use uc_types::expr::check_expr;
use uc_types::found::Found;
use uc_types::names::Names;
use uc_types::tables::Tables;

fn class_base(alloc: Global, tables: &Tables, class: usize) -> Result<Base, AllocError>
    ensures { IfOk result (λ base. base ≡ class_base (class_at tables.now class)) }
{
    match tables.class_at(class) {
        Some(class) => {
            let name = class.name.copy(alloc)?;
            Ok(Base::Named(name))
        }
        None => Ok(Base::Void),
    }
}

fn sort_base(alloc: Global, tables: &Tables, sort: Sort) -> Result<Base, AllocError>
    ensures { IfOk result (λ base. base ≡ sort_base tables.now sort) }
{
    match sort {
        Sort::Void => Ok(Base::Void),
        Sort::Int => Ok(Base::Int),
        Sort::Char => Ok(Base::Char),
        Sort::Bool => Ok(Base::Bool),
        Sort::Condition => Ok(Base::Condition),
        Sort::Cluster => Ok(Base::Cluster),
        Sort::Processor => Ok(Base::Processor),
        Sort::Object { class, .. } => class_base(alloc, tables, class),
    }
}

fn type_with(base: Base, len: Option<u32>) -> Ty
    ensures { result ≡ type_with base len }
{
    Ty {
        base,
        by_ref: false,
        len,
    }
}

fn sort_type(alloc: Global, tables: &Tables, sort: Sort, len: Option<u32>) -> Result<Ty, AllocError>
    ensures { IfOk result (λ ty. ty ≡ type_with (sort_base tables.now sort) len) }
{
    let base = sort_base(alloc, tables, sort)?;
    Ok(type_with(base, len))
}

fn entity_type(alloc: Global, tables: &Tables, entity: Entity) -> Result<Ty, AllocError>
    ensures { IfOk result (λ ty. ty ≡ entity_type tables.now entity) }
{
    match entity {
        Entity::Value { sort } => sort_type(alloc, tables, sort, None),
        Entity::Place { sort } => sort_type(alloc, tables, sort, None),
        Entity::Array { sort, len } => sort_type(alloc, tables, sort, Some(len)),
        Entity::Input
        | Entity::Fail
        | Entity::Operation { .. }
        | Entity::Main
        | Entity::Routine { .. }
        | Entity::Method { .. }
        | Entity::ClassName
        | Entity::Missing => Ok(type_with(Base::Void, None)),
    }
}

fn given_type(alloc: Global, tables: &Tables, entity: Option<Entity>) -> Result<Ty, AllocError>
    ensures { IfOk result (λ ty. ty ≡ given_type tables.now entity) }
{
    match entity {
        Some(entity) => entity_type(alloc, tables, entity),
        None => Ok(type_with(Base::Void, None)),
    }
}

// What an expression that is a statement stands for, with its breaks noted.
#[tactic(auto, using(uc_check_stmt::proofs::Joined::joining))]
fn check_value(names: &Names, e: &Expr, found: &mut Found) -> Option<Entity>
    ensures entity { result ≡ entity_of names.now e.now }
    ensures breaks { found.new ≡ with_visits found.old (statement_visits names.now e.now) }
{
    let entity = check_expr(names, e, found);
    ask_statement(entity, e.first_token(), found);
    entity
}

fn is_owner_number(number: u8) -> bool
    ensures { result ≡ is_owner_number number }
{
    24 < number
}

// A break of a rule on names, types and places.
fn text_break(first: Option<Break>) -> Option<Break>
    ensures { result ≡ text_break first }
{
    match first {
        Some(first) => {
            if is_owner_number(first.rule.number()) {
                None
            } else {
                Some(first)
            }
        }
        None => None,
    }
}

/// The type of an expression in an environment: that of the place, the constant, the called routine or the literal; of an
/// assignment and of `++` and `--` that of the place; `bool` of comparisons, `!`, `&&`, `||`, `empty` and `fail`; `int` of the
/// other operators and of `front`; `void` of what stands for no value. Its fault is the first break of the rules S1 to S24
/// that the expression has as a statement there.
pub fn type_in(names: &Names, e: &Expr) -> Result<Ty, RuleFault>
    ensures typed { IfOk result (λ ty. ty ≡ expr_type names.now e.now) }
    ensures kept { OnOk result (AreOfOwners (statement_breaks names.now e.now)) }
    ensures broken { IfErr result
        (λ fault. IsTextFaultOf (statement_breaks names.now e.now) fault) }
{
    let mut found = Found::new();
    let entity = check_value(names, e, &mut found);
    match text_break(found.first()) {
        Some(first) => Err(RuleFault::Rule {
            rule: first.rule,
            pos: first.pos,
        }),
        None => {
            let ty = given_type(names.alloc(), names.tables(), entity)?;
            Ok(ty)
        }
    }
}

fn is_there(alloc: Global, tables: &Tables, place: &Place) -> Result<bool, AllocError>
    ensures { IfOk result (λ there. there
        ≡ is_some (place_env tables.now place.now.item place.now.member place.now.steps.items)) }
{
    let mut names = Names::new(alloc, tables, no_around());
    let there = enter_place(&mut names, place);
    drop(names);
    there
}

/// Whether a program has this place.
pub fn has_place(alloc: Global, program: &Program, place: &Place) -> Result<bool, AllocError>
    ensures { IfOk result (λ there. there
        ≡ is_some (place_env program.now place.now.item place.now.member place.now.steps.items)) }
{
    let tables = tables_of(alloc, program)?;
    let there = is_there(alloc, &tables, place);
    // Tables are dropped by name: at the end of a function they would be taken apart there, table by table.
    drop(tables);
    Ok(there?)
}

fn type_at(alloc: Global, tables: &Tables, place: &Place, e: &Expr) -> Result<Ty, RuleFault>
    ensures typed { (env : Env) →
        place_env tables.now place.now.item place.now.member place.now.steps.items ≡ Some env →
        IfOk result (λ ty. ty ≡ expr_type env e.now) }
    ensures kept { (env : Env) →
        place_env tables.now place.now.item place.now.member place.now.steps.items ≡ Some env →
        OnOk result (AreOfOwners (statement_breaks env e.now)) }
    ensures broken { (env : Env) →
        place_env tables.now place.now.item place.now.member place.now.steps.items ≡ Some env →
        IfErr result (λ fault. IsTextFaultOf (statement_breaks env e.now) fault) }
{
    let mut names = Names::new(alloc, tables, no_around());
    let _there = enter_place(&mut names, place)?;
    let ty = type_in(&names, e);
    drop(names);
    match ty {
        Ok(ty) => Ok(ty),
        Err(fault) => Err(fault),
    }
}

/// The same at a place of a program. Of what is no place of it (`has_place`) nothing is said.
pub fn type_of(alloc: Global, program: &Program, place: &Place, e: &Expr) -> Result<Ty, RuleFault>
    ensures typed { (env : Env) →
        place_env program.now place.now.item place.now.member place.now.steps.items ≡ Some env →
        IfOk result (λ ty. ty ≡ expr_type env e.now) }
    ensures kept { (env : Env) →
        place_env program.now place.now.item place.now.member place.now.steps.items ≡ Some env →
        OnOk result (AreOfOwners (statement_breaks env e.now)) }
    ensures broken { (env : Env) →
        place_env program.now place.now.item place.now.member place.now.steps.items ≡ Some env →
        IfErr result (λ fault. IsTextFaultOf (statement_breaks env e.now) fault) }
{
    let tables = tables_of(alloc, program)?;
    let ty = type_at(alloc, &tables, place, e);
    drop(tables);
    match ty {
        Ok(ty) => Ok(ty),
        Err(fault) => Err(fault),
    }
}

// What expressions stand for: tests of it, and what follows from it.

ghost use Rattle.std.specs.Prelude.{◌≡◌, None, Some, if◌then◌else◌, option_and_then, slice_get};
ghost use Rattle.uc_rules.specs.Entities.{binary_gives, built_in, call_target, condition_member, element, expected, fits, given, is_array, is_main, is_main_sig, is_object, is_object_sort, is_of_conditions, is_operation, is_place, is_place_of, is_readable, is_scalar, none_of, object_member, operation_gives, operation_named, operation_takes, param_expected, path_member, reference_to, sig_gives, sig_takes, takes, value_of, value_of_sort, value_test, value_to};
ghost use Rattle.uc_rules.specs.Names.{method_sig, params_in, routine_sig};
ghost use Rattle.uc_rules.specs.Sorts.{is_scalar_sort, sort_of};
ghost use Rattle.uc_rules.specs.declared.rules.Entity.TheVariants.{Fail, Value};
ghost use Rattle.uc_rules.specs.declared.rules.Target.TheVariants as target;
ghost use Rattle.uc_tree.specs.Names.{same_name, fail_name};

use crate::sort::{is_char, is_condition, is_int, is_scalar_sort, same_sort};
use crate::tables::Tables;
use uc_rules::rules::{Entity, Expected, NameMeaning, Operation, Sort, Target};
use uc_tree::kinds::{Base, Param};
use uc_tree::name::Name;
use uc_tree::ops::BinaryOp;

fn is_object_sort(sort: Sort) -> bool
    ensures { result ≡ is_object_sort sort }
{
    matches!(sort, Sort::Object { .. })
}

/// Whether it is a scalar.
pub fn is_scalar(entity: Entity) -> bool
    ensures { result ≡ is_scalar entity }
{
    match entity {
        Entity::Value { sort } => is_scalar_sort(sort),
        Entity::Place { sort } => is_scalar_sort(sort),
        _ => false,
    }
}

/// Whether it is a scalar that has a place.
pub fn is_place(entity: Entity) -> bool
    ensures { result ≡ is_place entity }
{
    match entity {
        Entity::Place { sort } => is_scalar_sort(sort),
        _ => false,
    }
}

/// Whether it is an array.
pub fn is_array(entity: Entity) -> bool
    ensures { result ≡ is_array entity }
{
    matches!(entity, Entity::Array { .. })
}

/// Whether a number or a character may be read into it.
pub fn is_readable(entity: Entity) -> bool
    ensures { result ≡ is_readable entity }
{
    match entity {
        Entity::Place { sort } => is_int(sort) || is_char(sort),
        _ => false,
    }
}

/// Whether it is a condition, or an array of them.
pub fn is_of_conditions(entity: Entity) -> bool
    ensures { result ≡ is_of_conditions entity }
{
    match entity {
        Entity::Place { sort } => is_condition(sort),
        Entity::Array { sort, .. } => is_condition(sort),
        _ => false,
    }
}

/// Whether it is an object.
pub fn is_object(entity: Entity) -> bool
    ensures { result ≡ is_object entity }
{
    match entity {
        Entity::Place { sort } => is_object_sort(sort),
        _ => false,
    }
}

/// Whether it is a member of a condition.
pub fn is_operation(entity: Entity) -> bool
    ensures { result ≡ is_operation entity }
{
    matches!(entity, Entity::Operation { .. })
}

/// The value of what is assigned to, where it is a scalar that has a place.
pub fn value_of(entity: Entity) -> Option<Entity>
    ensures { result ≡ value_of entity }
{
    match entity {
        Entity::Place { sort } => value_of_sort(sort),
        _ => None,
    }
}

/// An element of an array.
pub fn element(entity: Entity) -> Option<Entity>
    ensures { result ≡ element entity }
{
    match entity {
        Entity::Array { sort, .. } => Some(Entity::Place { sort }),
        _ => None,
    }
}

fn value_of_sort(sort: Sort) -> Option<Entity>
    ensures { result ≡ (if is_scalar_sort sort then Some (Value sort) else None) }
{
    if is_scalar_sort(sort) {
        Some(Entity::Value { sort })
    } else {
        None
    }
}

/// What an operator gives.
pub fn binary_gives(op: BinaryOp) -> Entity
    ensures { result ≡ binary_gives op }
{
    let truth = Entity::Value { sort: Sort::Bool };
    let number = Entity::Value { sort: Sort::Int };
    match op {
        BinaryOp::Or
        | BinaryOp::And
        | BinaryOp::Equal
        | BinaryOp::NotEqual
        | BinaryOp::Less
        | BinaryOp::LessEqual
        | BinaryOp::Greater
        | BinaryOp::GreaterEqual => truth,
        BinaryOp::Add | BinaryOp::Sub | BinaryOp::Mul | BinaryOp::Div | BinaryOp::Rem => number,
    }
}

fn operation_named(name: &Name) -> Option<Operation>
    ensures { result ≡ operation_named name.now }
{
    if name.is(b"wait") {
        Some(Operation::Wait)
    } else if name.is(b"signal") {
        Some(Operation::Signal)
    } else if name.is(b"signalBlock") {
        Some(Operation::SignalBlock)
    } else if name.is(b"front") {
        Some(Operation::Front)
    } else if name.is(b"empty") {
        Some(Operation::Empty)
    } else {
        None
    }
}

fn object_member(tables: &Tables, sort: Sort, name: &Name) -> Option<NameMeaning>
    ensures { result ≡ object_member tables.now sort name.now }
{
    match sort {
        Sort::Object { class, .. } => tables.member_named(class, name),
        _ => None,
    }
}

fn condition_member(sort: Sort, name: &Name) -> Option<Entity>
    ensures { result ≡ condition_member sort name.now }
{
    match sort {
        Sort::Condition => {
            let operation = operation_named(name)?;
            Some(Entity::Operation { operation })
        }
        _ => None,
    }
}

fn input_member(name: &Name) -> Option<Entity>
    ensures { result ≡ (if same_name name.now fail_name then Some Fail else None) }
{
    if name.is(b"fail") {
        Some(Entity::Fail)
    } else {
        None
    }
}

/// The member of a class that is named behind a `.`.
pub fn path_member(tables: &Tables, entity: Entity, name: &Name) -> Option<NameMeaning>
    ensures { result ≡ path_member tables.now entity name.now }
{
    match entity {
        Entity::Place { sort } => object_member(tables, sort, name),
        _ => None,
    }
}

/// A member that no class declares: those of conditions, and `fail` of `cin`.
pub fn built_in(entity: Entity, name: &Name) -> Option<Entity>
    ensures { result ≡ built_in entity name.now }
{
    match entity {
        Entity::Place { sort } => condition_member(sort, name),
        Entity::Input => input_member(name),
        _ => None,
    }
}

fn operation_takes(operation: Operation, count: usize) -> bool
    ensures { result ≡ operation_takes operation count }
{
    match operation {
        Operation::Wait => count == 0 || count == 1,
        Operation::Signal | Operation::SignalBlock => count == 0,
        Operation::Front | Operation::Empty => count == 0,
    }
}

fn operation_gives(operation: Operation) -> Entity
    ensures { result ≡ operation_gives operation }
{
    match operation {
        Operation::Wait | Operation::Signal | Operation::SignalBlock => Entity::Value {
            sort: Sort::Void,
        },
        Operation::Front => Entity::Value { sort: Sort::Int },
        Operation::Empty => Entity::Value { sort: Sort::Bool },
    }
}

fn routine_takes(tables: &Tables, item: usize, count: usize) -> bool
    ensures { result ≡ sig_takes (routine_sig tables.now item) count }
{
    match tables.routine_sig(item) {
        Some(sig) => count == sig.params.len(),
        None => false,
    }
}

fn method_takes(tables: &Tables, class: usize, member: usize, count: usize) -> bool
    ensures { result ≡ sig_takes (method_sig tables.now class member) count }
{
    match tables.method_sig(class, member) {
        Some(sig) => count == sig.params.len(),
        None => false,
    }
}

fn is_main_routine(tables: &Tables, item: usize) -> bool
    ensures { result ≡ is_main_sig (routine_sig tables.now item) }
{
    match tables.routine_sig(item) {
        Some(sig) => sig.name.is(b"main"),
        None => false,
    }
}

fn is_main_method(tables: &Tables, class: usize, member: usize) -> bool
    ensures { result ≡ is_main_sig (method_sig tables.now class member) }
{
    match tables.method_sig(class, member) {
        Some(sig) => sig.name.is(b"main"),
        None => false,
    }
}

fn gives(tables: &Tables, base: &Base) -> Option<Entity>
    ensures { result ≡ option_and_then value_of_sort (sort_of tables.now base.now) }
{
    let sort = tables.sort_of(base)?;
    Some(Entity::Value { sort })
}

fn routine_gives(tables: &Tables, item: usize) -> Option<Entity>
    ensures { result ≡ sig_gives tables.now (routine_sig tables.now item) }
{
    match tables.routine_sig(item) {
        Some(sig) => gives(tables, &sig.ret),
        None => None,
    }
}

fn method_gives(tables: &Tables, class: usize, member: usize) -> Option<Entity>
    ensures { result ≡ sig_gives tables.now (method_sig tables.now class member) }
{
    match tables.method_sig(class, member) {
        Some(sig) => gives(tables, &sig.ret),
        None => None,
    }
}

fn routine_param(tables: &Tables, item: usize, place: usize) -> Expected
    ensures { result ≡ param_expected tables.now
        (slice_get (params_in (routine_sig tables.now item)) place) }
{
    match tables.routine_sig(item) {
        Some(sig) => param_expected(tables, &sig.params, place),
        None => Expected::Anything,
    }
}

fn method_param(tables: &Tables, class: usize, member: usize, place: usize) -> Expected
    ensures { result ≡ param_expected tables.now
        (slice_get (params_in (method_sig tables.now class member)) place) }
{
    match tables.method_sig(class, member) {
        Some(sig) => param_expected(tables, &sig.params, place),
        None => Expected::Anything,
    }
}

/// Whether it may be called with so many arguments.
pub fn takes(tables: &Tables, count: usize, entity: Entity) -> bool
    ensures { result ≡ takes tables.now count entity }
{
    match entity {
        Entity::Operation { operation } => operation_takes(operation, count),
        Entity::Fail | Entity::Main => count == 0,
        Entity::Routine { item } => routine_takes(tables, item, count),
        Entity::Method { class, member, .. } => method_takes(tables, class, member, count),
        _ => false,
    }
}

/// Whether it is a routine of the name `main`.
pub fn is_main(tables: &Tables, entity: Entity) -> bool
    ensures { result ≡ is_main tables.now entity }
{
    match entity {
        Entity::Main => true,
        Entity::Routine { item } => is_main_routine(tables, item),
        Entity::Method { class, member, .. } => is_main_method(tables, class, member),
        _ => false,
    }
}

/// What a call of it gives.
pub fn operation_result(tables: &Tables, entity: Entity) -> Option<Entity>
    ensures { result ≡ given tables.now entity }
{
    match entity {
        Entity::Fail => Some(Entity::Value { sort: Sort::Bool }),
        Entity::Operation { operation } => Some(operation_gives(operation)),
        Entity::Routine { item } => routine_gives(tables, item),
        Entity::Method { class, member, .. } => method_gives(tables, class, member),
        _ => None,
    }
}

/// What a call of it asks of the argument with this place.
pub fn call_expected(tables: &Tables, entity: Entity, place: usize) -> Expected
    ensures { result ≡ expected tables.now (target.Call entity) place }
{
    match entity {
        Entity::Operation { .. } => Expected::Scalar,
        Entity::Routine { item } => routine_param(tables, item, place),
        Entity::Method { class, member, .. } => method_param(tables, class, member, place),
        _ => Expected::Anything,
    }
}

fn one_expected(tables: &Tables, param: &Param) -> Expected
    ensures { result ≡ param_expected tables.now (Some param.now) }
{
    let sort = tables.sort_of(&param.base);
    if param.by_ref {
        reference_to(sort)
    } else {
        value_to(sort)
    }
}

fn reference_to(sort: Option<Sort>) -> Expected
    ensures { result ≡ reference_to sort }
{
    match sort {
        Some(sort) => Expected::Reference { sort },
        None => Expected::Anything,
    }
}

fn value_to(sort: Option<Sort>) -> Expected
    ensures { result ≡ value_to sort }
{
    match sort {
        Some(sort) => {
            if is_scalar_sort(sort) {
                Expected::Scalar
            } else {
                Expected::Nothing
            }
        }
        None => Expected::Scalar,
    }
}

fn param_expected(tables: &Tables, params: &[Param], place: usize) -> Expected
    ensures { result ≡ param_expected tables.now (slice_get params.now place) }
{
    match params.get(place) {
        Some(param) => one_expected(tables, param),
        None => Expected::Anything,
    }
}

/// What is asked of the argument with this place in a list.
pub fn expected_of(tables: &Tables, target: Target, place: usize) -> Expected
    ensures { result ≡ expected tables.now target place }
{
    match target {
        Target::Nothing => Expected::Nothing,
        Target::Reference { sort } => Expected::Reference { sort },
        Target::Call { entity } => call_expected(tables, entity, place),
        Target::Constructor { class } => {
            let params = tables.constructor_params(class);
            param_expected(tables, params, place)
        }
        _ => Expected::Anything,
    }
}

fn is_place_of(sort: Sort, entity: Entity) -> bool
    ensures { result ≡ value_test none_of (is_place_of sort) none_of entity }
{
    match entity {
        Entity::Place { sort: other } => same_sort(sort, other),
        _ => false,
    }
}

/// Whether an argument is what is asked of it.
pub fn fits(expected: Expected, entity: Entity) -> bool
    ensures { result ≡ fits expected entity }
{
    match expected {
        Expected::Anything => true,
        Expected::Nothing => false,
        Expected::Scalar => is_scalar(entity),
        Expected::Reference { sort } => is_place_of(sort, entity),
    }
}

/// Where the arguments of a call go.
pub fn call_target(entity: Option<Entity>) -> Target
    ensures { result ≡ call_target entity }
{
    match entity {
        Some(entity) => Target::Call { entity },
        None => Target::Unknown,
    }
}

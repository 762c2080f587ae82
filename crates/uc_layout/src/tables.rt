// The values of the constants of a program, reckoned until no more can be.

ghost use Rattle.std.specs.Prelude.{◌≡◌, ◌<◌, IfOk, IsTrue, IsFalse, length, map, None, Some, get_or, slice_get};
ghost use Rattle.uc_tree.specs.Constants.{own_value, value_of_name};
ghost use Rattle.uc_tree.specs.Programs.{Constant};
ghost use Rattle.uc_layout.specs.Known.{known_by};
ghost use Rattle.uc_layout.specs.Places.{IsPlaces};
ghost use Rattle.uc_layout.specs.Values.{value_at};
ghost use Rattle.uc_layout.specs.ValueProgress.{Under, Sound, Reckoned, known};

use crate::eval::{converted_to, value_by};
use crate::order::order_of;
use crate::places::{ConstantValues, Constants};
use std::alloc::{AllocError, Global};
use uc_names::scope::Scope;
use uc_tree::program::Constant;

fn own_value(constant: &Constant, known: &ConstantValues) -> Option<i64>
    ensures { result ≡ own_value (known_by known.now) constant.now }
{
    match value_by(&constant.value, known) {
        Some(value) => Some(converted_to(&constant.base, value)),
        None => None,
    }
}

// Reckons one constant that has no value yet; says whether it has one now.
fn reckon<'x>(
    constants: &'x [&'x Constant],
    places: &'x Scope,
    values: &mut [Option<i64>],
    place: usize,
) -> bool
    requires placed { IsPlaces (map (λ c. c.now.name) constants.now) places.now }
    requires inside { place < length constants.now }
    requires full { length values.old ≡ length constants.now }
    requires sound { Sound (map (λ c. c.now) constants.now) values.old }
    ensures sound { Sound (map (λ c. c.now) constants.now) values.new }
    ensures more { IsTrue result → known values.old < known values.new }
    ensures same { IsFalse result → values.new ≡ values.old }
    ensures reckoned { IsFalse result → (c : Constant) →
        slice_get (map (λ c. c.now) constants.now) place ≡ Some c →
        Under (own_value (value_at (map (λ c. c.now) constants.now) values.old) c)
        (get_or values.old place None) }
{
    if values[place].is_some() {
        return false;
    }
    let constant = constants[place];
    let known = ConstantValues {
        constants,
        places,
        values,
    };
    let own = own_value(constant, &known);
    if own.is_none() {
        return false;
    }
    values[place] = own;
    true
}

// Reckons each constant once; says whether one got a value.
fn sweep<'x>(constants: &'x [&'x Constant], places: &'x Scope, values: &mut [Option<i64>]) -> bool
    requires placed { IsPlaces (map (λ c. c.now.name) constants.now) places.now }
    requires full { length values.old ≡ length constants.now }
    requires sound { Sound (map (λ c. c.now) constants.now) values.old }
    ensures sound { Sound (map (λ c. c.now) constants.now) values.new }
    ensures more { IsTrue result → known values.old < known values.new }
    ensures reckoned { IsFalse result →
        Reckoned (map (λ c. c.now) constants.now) values.new (length constants.now) }
{
    let mut changed = false;
    for place in 0..constants.len() {
        if reckon(constants, places, values, place) {
            changed = true;
        }
    }
    changed
}

// Reckons the constants in this order.
fn reckon_all<'x>(
    constants: &'x [&'x Constant],
    places: &'x Scope,
    order: &[usize],
    values: &mut [Option<i64>],
)
    requires placed { IsPlaces (map (λ c. c.now.name) constants.now) places.now }
    requires full { length values.old ≡ length constants.now }
    requires sound { Sound (map (λ c. c.now) constants.now) values.old }
    ensures { Sound (map (λ c. c.now) constants.now) values.new }
{
    for place in order {
        if *place < constants.len() {
            let _ = reckon(constants, places, values, *place);
        }
    }
}

// A table in which each constant was reckoned once, behind those that it names. What is left, the sweeps find.
fn first_values<'x>(
    alloc: Global,
    constants: &'x [&'x Constant],
    places: &'x Scope,
) -> Result<Vec<Option<i64>>, AllocError>
    requires placed { IsPlaces (map (λ c. c.now.name) constants.now) places.now }
    ensures full { IfOk result (λ v. length v.items ≡ length constants.now) }
    ensures sound { IfOk result (λ v. Sound (map (λ c. c.now) constants.now) v.items) }
{
    let named = Constants {
        list: constants,
        places,
    };
    let order = order_of(alloc, &named)?;
    let mut values = vec![in alloc; None; constants.len()]?;
    reckon_all(constants, places, &order, &mut values);
    Ok(values)
}

/// The values of these constants, none for one that has none. A table of them gives each name its value.
pub fn values_of<'x>(
    alloc: Global,
    constants: &'x [&'x Constant],
    places: &'x Scope,
) -> Result<Vec<Option<i64>>, AllocError>
    requires placed { IsPlaces (map (λ c. c.now.name) constants.now) places.now }
    ensures { IfOk result (λ v. value_at (map (λ c. c.now) constants.now) v.items
        ≡ value_of_name (map (λ c. c.now) constants.now)) }
{
    let mut values = first_values(alloc, constants, places)?;
    'sweeps: loop {
        if !sweep(constants, places, &mut values) {
            break;
        }
    }
    Ok(values)
}

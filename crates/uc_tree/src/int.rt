// Arithmetic over `int`.

ghost use Rattle.std.specs.Prelude.{◌≡◌, ◌+ℤ◌, ◌-ℤ◌, ◌*ℤ◌, neg_ℤ};
ghost use Rattle.uc_tree.specs.declared.ops.BinaryOp.{BinaryOp};
ghost use Rattle.uc_tree.specs.declared.ops.BinaryOp.TheVariants as binary;
ghost use Rattle.uc_tree.specs.Constants.{int_value, binary_value};

use crate::limits::{INT_MAX, INT_MIN};

/// The number where it is an `int`.
pub fn int_of(number: i64) -> Option<i64>
    ensures { result ≡ int_value number }
{
    if INT_MIN <= number && number <= INT_MAX {
        Some(number)
    } else {
        None
    }
}

/// The sum, where it is an `int`.
pub fn sum(x: i64, y: i64) -> Option<i64>
    ensures { result ≡ int_value (x +ℤ y) }
{
    match x.checked_add(y) {
        Some(number) => int_of(number),
        None => None,
    }
}

/// The difference, where it is an `int`.
pub fn difference(x: i64, y: i64) -> Option<i64>
    ensures { result ≡ int_value (x -ℤ y) }
{
    match x.checked_sub(y) {
        Some(number) => int_of(number),
        None => None,
    }
}

/// The product, where it is an `int`.
pub fn product(x: i64, y: i64) -> Option<i64>
    ensures { result ≡ int_value (x *ℤ y) }
{
    match x.checked_mul(y) {
        Some(number) => int_of(number),
        None => None,
    }
}

/// The quotient, rounded toward zero, where it is an `int`; there is none by zero.
pub fn quotient(x: i64, y: i64) -> Option<i64>
    ensures { result ≡ binary_value binary.Div x y }
{
    match x.checked_div(y) {
        Some(number) => int_of(number),
        None => None,
    }
}

/// The remainder, with the sign of the dividend; there is none by zero.
pub fn remainder(x: i64, y: i64) -> Option<i64>
    ensures { result ≡ binary_value binary.Rem x y }
{
    // The remainder by -1 is 0, which the checked one does not say of the least number.
    if y == -1 {
        return Some(0);
    }
    match x.checked_rem(y) {
        Some(number) => int_of(number),
        None => None,
    }
}

/// The negation, where it is an `int`.
pub fn negated(x: i64) -> Option<i64>
    ensures { result ≡ int_value (neg_ℤ x) }
{
    match x.checked_neg() {
        Some(number) => int_of(number),
        None => None,
    }
}

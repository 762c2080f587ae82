// Reads the fields of an entry.

ghost use Rattle.std.specs.Prelude.{◌≡◌, ℕ, ℤ, ◌<◌, ◌∷◌, List, length, slice_index, IfSome, IfNone, IsFalse};
ghost use Rattle.uc_journal.specs.Fields.{IsNumber, IsField, AreFields, AreNumbers, count_in};

use crate::form::Form;
use crate::number::read_natural;
use uc_tree::bytes::is_digit;

/// A field, and what stands behind it.
#[derive(Clone, Copy)]
pub(crate) struct Field<'a> {
    pub value: i64,
    pub rest: &'a [u8],
}

/// The numbers of an entry in their order, and what stands behind them. The line is 0 in the old form.
#[derive(Clone, Copy)]
pub(crate) struct Fields<'a> {
    pub values: [i64; 9],
    pub rest: &'a [u8],
}

// The greatest numbers that may stand alone, and behind a minus.
const MOST: u64 = 9_223_372_036_854_775_807;

const MOST_BELOW: u64 = 9_223_372_036_854_775_808;

/// Reads the numbers that the form has, each behind a space.
pub(crate) fn read_fields(text: &[u8], form: Form) -> Option<Fields<'_>>
    ensures fields { IfSome result (λ f. AreNumbers form text.now f.values f.rest.now) }
    ensures none { IfNone result ((ns : List ℤ) (rest : List ℕ) → length ns ≡ count_in form →
        AreFields text.now ns rest → ⊥) }
{
    let count = form.count();
    let mut values = [0; 9];
    let mut rest = text;
    for i in 0..count {
        let Some(field) = read_field(rest) else {
            return None;
        };
        values[i] = field.value;
        rest = field.rest;
    }
    Some(Fields { values, rest })
}

// Reads a number of one digit behind a space, as most fields of an entry are.
fn read_digit(text: &[u8]) -> Option<Field<'_>>
    ensures { IfSome result (λ f. IsField text.now f.value f.rest.now) }
{
    let [space, digit, next, ..] = text else {
        return None;
    };
    if *space != b' ' {
        return None;
    }
    if !is_digit(*digit) {
        return None;
    }
    if is_digit(*next) {
        return None;
    }
    Some(Field {
        value: i64::from(digit.saturating_sub(b'0')),
        rest: &text[2..],
    })
}

// Reads a number behind a space.
fn read_field(text: &[u8]) -> Option<Field<'_>>
    ensures field { IfSome result (λ f. IsField text.now f.value f.rest.now) }
    ensures none { IfNone result ((n : ℤ) (rest : List ℕ) → IsField text.now n rest → ⊥) }
{
    if let Some(field) = read_digit(text) {
        return Some(field);
    }
    let Some((first, numeral)) = text.split_first() else {
        return None;
    };
    if *first != b' ' {
        return None;
    }
    match read_number(numeral) {
        Some(field) => Some(field),
        None => None,
    }
}

// Reads a number.
fn read_number(text: &[u8]) -> Option<Field<'_>>
    ensures number { IfSome result (λ f. IsNumber text.now f.value f.rest.now) }
    ensures none { IfNone result ((n : ℤ) (rest : List ℕ) → IsNumber text.now n rest → ⊥) }
{
    let Some((first, digits)) = text.split_first() else {
        return None;
    };
    if *first == b'-' {
        return match read_below(digits) {
            Some(field) => Some(field),
            None => None,
        };
    }
    match read_natural(text, MOST) {
        Some(natural) => Some(Field {
            value: natural.value as i64,
            rest: natural.rest,
        }),
        None => None,
    }
}

// Reads the digits behind a minus.
fn read_below(digits: &[u8]) -> Option<Field<'_>>
    ensures number { IfSome result (λ f. IsNumber (45 ∷ digits.now) f.value f.rest.now) }
    ensures none { IfNone result ((n : ℤ) (rest : List ℕ) → IsNumber (45 ∷ digits.now) n rest → ⊥) }
{
    let Some(natural) = read_natural(digits, MOST_BELOW) else {
        return None;
    };
    if natural.value == 0 {
        return None;
    }
    Some(Field {
        value: -((natural.value - 1) as i64) - 1,
        rest: natural.rest,
    })
}

// Reads a number in decimal.

ghost use Rattle.std.specs.Prelude.{◌≡◌, ℕ, ◌≤◌, List, length, take, IfSome, IfNone};
ghost use Rattle.std.specs.List.{prefix_len};
ghost use Rattle.uc_tree.specs.Bytes.{is_digit};
ghost use Rattle.uc_tree.specs.Tokens.{value_of};
ghost use Rattle.uc_journal.specs.Fields.{IsNatural};

use uc_tree::bytes::{digits_value, is_digit};

/// A number, and what stands behind it.
#[derive(Clone, Copy)]
pub(crate) struct Natural<'a> {
    pub value: u64,
    pub rest: &'a [u8],
}

// A number of digits whose value is at most this has room for one more.
const SHORT: u64 = 900_000_000_000_000_000;

/// Reads a number of at most `most` that stands first, without a leading zero.
pub(crate) fn read_natural(text: &[u8], most: u64) -> Option<Natural<'_>>
    requires least { 9223372036854775807 ≤ most }
    requires most { most ≤ 9223372036854775808 }
    ensures number { IfSome result (λ n. IsNatural text.now n.value n.rest.now) }
    ensures small { IfSome result (λ n. n.value ≤ most) }
    ensures none { IfNone result ((n : ℕ) → n ≤ most → (rest : List ℕ) → IsNatural text.now n rest →
        ⊥) }
{
    if let Some(natural) = read_short(text) {
        return Some(natural);
    }
    match read_long(text, most) {
        Some(natural) => Some(natural),
        None => None,
    }
}

// Reads a number in one pass, where it has few digits and something stands behind it.
fn read_short(text: &[u8]) -> Option<Natural<'_>>
    ensures number { IfSome result (λ n. IsNatural text.now n.value n.rest.now) }
    ensures small { IfSome result (λ n. n.value ≤ 9223372036854775807) }
{
    let mut value: u64 = 0;
    for (i, byte) in text.iter().enumerate() {
        if !is_digit(*byte) {
            return match short_of(text, i, value) {
                Some(natural) => Some(natural),
                None => None,
            };
        }
        if value > SHORT {
            return None;
        }
        value = value * 10 + u64::from(byte.saturating_sub(b'0'));
    }
    None
}

// The number of so many digits, which have this value.
fn short_of(text: &[u8], count: usize, value: u64) -> Option<Natural<'_>>
    requires count { prefix_len is_digit text.now ≡ count }
    requires value { value_of (take count text.now) ≡ value }
    requires small { value ≤ 9223372036854775807 }
    ensures number { IfSome result (λ n. IsNatural text.now n.value n.rest.now) }
    ensures small { IfSome result (λ n. n.value ≤ 9223372036854775807) }
{
    if count == 0 {
        return None;
    }
    if text[0] == b'0' && count > 1 {
        return None;
    }
    Some(Natural {
        value,
        rest: &text[count..],
    })
}

// Reads a number that stands first, whatever its length.
fn read_long(text: &[u8], most: u64) -> Option<Natural<'_>>
    requires { most ≤ 9223372036854775808 }
    ensures number { IfSome result (λ n. IsNatural text.now n.value n.rest.now) }
    ensures small { IfSome result (λ n. n.value ≤ most) }
    ensures none { IfNone result ((n : ℕ) → n ≤ most → (rest : List ℕ) → IsNatural text.now n rest →
        ⊥) }
{
    let count = digit_length(text);
    if count == 0 {
        return None;
    }
    if count > 1 && text[0] == b'0' {
        return None;
    }
    let Some(value) = digits_value(&text[..count], most) else {
        return None;
    };
    Some(Natural {
        value,
        rest: &text[count..],
    })
}

// How many digits stand first.
fn digit_length(text: &[u8]) -> usize
    ensures digits { result ≡ prefix_len is_digit text.now }
    ensures inside { result ≤ length text.now }
{
    for (i, byte) in text.iter().enumerate() {
        if !is_digit(*byte) {
            return i;
        }
    }
    text.len()
}

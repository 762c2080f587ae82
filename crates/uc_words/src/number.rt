// Numbers among words.

ghost use Rattle.std.specs.Prelude.{◌≡◌, ◌↔◌, ℕ, ◌<◌, ◌≤◌, IfSome, IfNone, IsTrue, EachIndex, slice_index};
ghost use Rattle.uc_tree.specs.Bytes.{is_digit};
ghost use Rattle.uc_tree.specs.declared.limits.TheConstants.{TICKS_MAX};
ghost use Rattle.uc_words.specs.Words.{IsValue, is_plain};

use uc_tree::bytes::{digits_value, is_digit};

/// The number that a word writes, if it is one from `least` to `most`.
pub fn read_number(word: &str, least: u64, most: u64) -> Option<u64>
    requires { most ≤ TICKS_MAX }
    ensures number { IfSome result (λ n. IsValue least most word.now n) }
    ensures none { IfNone result ((n : ℕ) → IsValue least most word.now n → ⊥) }
{
    let digits = word.as_bytes();
    if !is_plain(digits) {
        return None;
    }
    if !are_digits(digits) {
        return None;
    }
    let value = digits_value(digits, most)?;
    if value < least {
        return None;
    }
    Some(value)
}

// Whether a word may begin as a number does.
fn is_plain(word: &[u8]) -> bool
    ensures { result ≡ is_plain word.now }
{
    match word {
        [] => false,
        [_] => true,
        [first, _, ..] => *first != b'0',
    }
}

// Whether each byte is a digit.
fn are_digits(word: &[u8]) -> bool
    ensures { IsTrue result ↔ EachIndex word.now (λ k. IsTrue (is_digit (slice_index word.now k))) }
{
    word.iter().all(|byte| is_digit(*byte))
}

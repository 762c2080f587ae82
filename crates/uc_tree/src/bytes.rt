// Kinds of bytes, and the value of digits.

ghost use Rattle.std.specs.Prelude.{◌≡◌, ◌<◌, ◌≤◌, ◌^◌, IfSome, IfNone};
ghost use Rattle.uc_tree.specs.Bytes as bytes;
ghost use Rattle.uc_tree.specs.Tokens.{value_of};

/// Whether a byte ends a line.
pub fn is_newline(b: u8) -> bool
    ensures { result ≡ bytes.is_newline b }
{
    b == b'\n'
}

/// Whether a byte is white space other than a newline.
pub fn is_blank(b: u8) -> bool
    ensures { result ≡ bytes.is_blank b }
{
    b == b' ' || b == b'\t' || b == 11 || b == 12 || b == b'\r'
}

/// Whether a byte is white space.
pub fn is_white(b: u8) -> bool
    ensures { result ≡ bytes.is_white b }
{
    is_blank(b) || is_newline(b)
}

/// Whether a byte is a decimal digit.
pub fn is_digit(b: u8) -> bool
    ensures { result ≡ bytes.is_digit b }
{
    b'0' <= b && b <= b'9'
}

/// The value of decimal digits, unless it is above `most`.
pub fn digits_value(digits: &[u8], most: u64) -> Option<u64>
    requires { most ≤ 2 ^ 63 }
    ensures value { IfSome result (λ n. n ≡ value_of digits.now) }
    ensures small { IfSome result (λ n. n ≤ most) }
    ensures wide { IfNone result (most < value_of digits.now) }
{
    let mut value: u64 = 0;
    for digit in digits {
        let digit = u64::from(digit.saturating_sub(b'0'));
        if value > most / 10 {
            return None;
        }
        value = value * 10 + digit;
        if value > most {
            return None;
        }
    }
    Some(value)
}

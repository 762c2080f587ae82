// Kinds of bytes, and runs of them.

ghost use Rattle.std.specs.Prelude.{◌≡◌, ◌≤◌, length, drop, slice_get, take};
ghost use Rattle.std.specs.List.{prefix_len};
ghost use Rattle.uc_tree.specs.Bytes as bytes;
ghost use Rattle.uc_lex.specs.Runs.{is_in};

use uc_tree::bytes::{is_blank, is_digit, is_newline};

/// What the bytes of a run are.
#[derive(Clone, Copy)]
pub enum Class {
    /// Letters, `_` and digits.
    Name,
    Digit,
    /// White space other than newlines.
    Blank,
    /// All but newlines.
    Line,
}

impl Class {
    pub fn has(self, b: u8) -> bool
        ensures { result ≡ is_in self b }
    {
        match self {
            Class::Name => is_letter(b) || is_digit(b),
            Class::Digit => is_digit(b),
            Class::Blank => is_blank(b),
            Class::Line => !is_newline(b),
        }
    }
}

pub fn is_letter(b: u8) -> bool
    ensures { result ≡ bytes.is_letter b }
{
    (b'a' <= b && b <= b'z') || (b'A' <= b && b <= b'Z') || b == b'_'
}

pub fn is_printable(b: u8) -> bool
    ensures { result ≡ bytes.is_printable b }
{
    b' ' <= b && b <= b'~'
}

/// The byte for which the letter behind a backslash stands.
pub fn escaped(letter: u8) -> Option<u8>
    ensures { result ≡ bytes.escaped letter }
{
    match letter {
        b'n' => Some(b'\n'),
        b't' => Some(b'\t'),
        b'\\' => Some(b'\\'),
        b'\'' => Some(b'\''),
        b'"' => Some(b'"'),
        b'0' => Some(0),
        _ => None,
    }
}

/// The byte at that offset, if there is one.
pub fn byte_at(text: &[u8], at: usize) -> Option<u8>
    ensures { result ≡ slice_get text.now at }
{
    text.get(at).copied()
}

/// The text from that offset on.
pub fn text_from(text: &[u8], at: usize) -> &[u8]
    requires { at ≤ length text.now }
    ensures { result.now ≡ drop at text.now }
{
    &text[at..]
}

/// The text up to that offset.
pub fn text_to(text: &[u8], end: usize) -> &[u8]
    requires { end ≤ length text.now }
    ensures { result.now ≡ take end text.now }
{
    &text[..end]
}

/// How many bytes of the class the text begins with.
pub fn run_length(rest: &[u8], class: Class) -> usize
    ensures run { result ≡ prefix_len (is_in class) rest.now }
    ensures within { result ≤ length rest.now }
{
    for (i, b) in rest.iter().enumerate() {
        if !class.has(*b) {
            return i;
        }
    }
    rest.len()
}

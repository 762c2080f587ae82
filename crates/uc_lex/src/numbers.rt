// Numbers.

ghost use Rattle.std.specs.Prelude.{◌≡◌, length, ◌<◌};
ghost use Rattle.uc_tree.specs.Tokens as tokens;

use crate::bytes::{Class, run_length};
use uc_tree::bytes::digits_value;
use uc_tree::limits::NUMBER_MAX;
use uc_tree::scan::{Lexeme, LexicalFault};
use uc_tree::token::TokenKind;

/// What begins with a digit.
pub fn number_at(rest: &[u8]) -> Lexeme
    requires { 0 < length rest.now }
    ensures { result ≡ tokens.number_at rest.now }
{
    let length = run_length(rest, Class::Digit);
    if rest[0] == b'0' && length > 1 {
        return Lexeme::Stop(LexicalFault::BadByte, 1);
    }
    match digits_value(&rest[..length], NUMBER_MAX) {
        Some(value) => Lexeme::Take(TokenKind::Number(value as i64), length),
        None => Lexeme::Stop(LexicalFault::NumberTooWide, 0),
    }
}

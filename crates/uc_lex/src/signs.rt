// Signs.

ghost use Rattle.std.specs.Prelude.{◌≡◌, find};
ghost use Rattle.uc_tree.specs.Spelling.{sign_spelling};
ghost use Rattle.uc_tree.specs.Tokens as tokens;

use uc_tree::scan::{Lexeme, LexicalFault};
use uc_tree::token::{Sign, TokenKind};

/// The longest sign that the text begins with.
pub fn sign_at(rest: &[u8]) -> Lexeme
    ensures { result ≡ tokens.sign_at rest.now }
{
    match first_sign(&Sign::ALL, rest) {
        Some(sign) => Lexeme::Take(TokenKind::Sign(sign), sign.spelling().len()),
        None => Lexeme::Stop(LexicalFault::BadByte, 0),
    }
}

// The first of the signs that the text begins with.
fn first_sign(signs: &[Sign], rest: &[u8]) -> Option<Sign>
    ensures { result ≡ find (λ s. tokens.begins rest.now (sign_spelling s)) signs.now }
{
    for sign in signs {
        if rest.starts_with(sign.spelling()) {
            return Some(*sign);
        }
    }
    None
}

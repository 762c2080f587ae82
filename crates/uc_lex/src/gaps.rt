// What gives no token: comments and skipped lines.

ghost use Rattle.std.specs.Prelude.{◌≡◌, ◌<◌, ◌≤◌, length, drop, IfSome};
ghost use Rattle.uc_tree.specs.Tokens as tokens;

use crate::bytes::{Class, run_length, text_from};
use uc_tree::scan::{Lexeme, LexicalFault};

/// How many bytes there are up to and with the first `*/`.
pub fn comment_length(rest: &[u8]) -> Option<usize>
    ensures length { result ≡ tokens.comment_length rest.now }
    ensures within { IfSome result (λ n. n ≤ length rest.now) }
{
    for i in 0..rest.len() {
        if text_from(rest, i).starts_with(b"*/") {
            return Some(i + 2);
        }
    }
    None
}

/// What begins with `/*`.
pub fn comment_at(rest: &[u8]) -> Lexeme
    requires { 2 ≤ length rest.now }
    ensures { result ≡ tokens.comment_found (tokens.comment_length (drop 2 rest.now)) }
{
    match comment_length(text_from(rest, 2)) {
        Some(length) => Lexeme::Skip(length + 2),
        None => Lexeme::Stop(LexicalFault::OpenComment, 0),
    }
}

/// What begins with `#`.
pub fn line_at(rest: &[u8], fresh: bool) -> Lexeme
    requires { 0 < length rest.now }
    ensures { result ≡ tokens.line_at fresh rest.now }
{
    if fresh && names_include(text_from(rest, 1)) {
        return Lexeme::Skip(run_length(rest, Class::Line));
    }
    Lexeme::Stop(LexicalFault::BadByte, 0)
}

fn names_include(rest: &[u8]) -> bool
    ensures { result ≡ tokens.names_include rest.now }
{
    text_from(rest, run_length(rest, Class::Blank)).starts_with(b"include")
}

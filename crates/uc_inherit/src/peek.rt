// What single tokens say of class heads. The lexer gives `virtual` as a name.

ghost use Rattle.std.specs.Prelude.{◌≡◌, ◌<◌, IsTrue, length};
ghost use Rattle.uc_grammar.specs.Spell.{kind_at};
ghost use Rattle.uc_grammar.specs.Tables.{sign_of, word_of};
ghost use Rattle.uc_inherit.specs.ClassHeads.{ends_kind, is_brace, is_colon, is_mutex, is_name, is_public, is_virtual, may_be_mutex};

use uc_parse_expr::peek::{kind_at, sign_at, word_at};
use uc_tree::token::{Sign, Token, TokenKind, Word};

/// Whether the word `virtual` stands at a place.
pub fn is_virtual_at(tokens: &[Token], at: u32) -> bool
    ensures { result ≡ is_virtual (kind_at tokens.now at) }
{
    match kind_at(tokens, at) {
        Some(TokenKind::Name(name)) => name.is(b"virtual"),
        Some(_) => false,
        None => false,
    }
}

/// Whether a name stands at a place.
pub fn is_name_at(tokens: &[Token], at: u32) -> bool
    ensures name { result ≡ is_name (kind_at tokens.now at) }
    ensures inside { IsTrue result → at < length tokens.now }
{
    match kind_at(tokens, at) {
        Some(TokenKind::Name(name)) => !name.is(b"virtual"),
        Some(_) => false,
        None => false,
    }
}

/// Whether the last word of a kind of class stands at a place.
pub fn ends_kind_at(tokens: &[Token], at: u32) -> bool
    ensures kind { result ≡ ends_kind (word_of (kind_at tokens.now at)) }
    ensures inside { IsTrue result → at < length tokens.now }
{
    match word_at(tokens, at) {
        Some(Word::Class) => true,
        Some(Word::Coroutine) => true,
        Some(Word::Monitor) => true,
        Some(Word::Cormonitor) => true,
        Some(Word::Task) => true,
        Some(Word::Event) => true,
        _ => false,
    }
}

/// Whether `class` or `_Coroutine`, which `_Mutex` may stand before, stands at a place.
pub fn may_be_mutex_at(tokens: &[Token], at: u32) -> bool
    ensures { result ≡ may_be_mutex (word_of (kind_at tokens.now at)) }
{
    matches!(word_at(tokens, at), Some(Word::Class | Word::Coroutine))
}

/// Whether `_Mutex` stands at a place.
pub fn is_mutex_at(tokens: &[Token], at: u32) -> bool
    ensures { result ≡ is_mutex (word_of (kind_at tokens.now at)) }
{
    matches!(word_at(tokens, at), Some(Word::Mutex))
}

/// Whether `public` stands at a place.
pub fn is_public_at(tokens: &[Token], at: u32) -> bool
    ensures public { result ≡ is_public (word_of (kind_at tokens.now at)) }
    ensures inside { IsTrue result → at < length tokens.now }
{
    matches!(word_at(tokens, at), Some(Word::Public))
}

/// Whether `:` stands at a place.
pub fn is_colon_at(tokens: &[Token], at: u32) -> bool
    ensures colon { result ≡ is_colon (sign_of (kind_at tokens.now at)) }
    ensures inside { IsTrue result → at < length tokens.now }
{
    matches!(sign_at(tokens, at), Some(Sign::Colon))
}

/// Whether `{` stands at a place.
pub fn is_brace_at(tokens: &[Token], at: u32) -> bool
    ensures brace { result ≡ is_brace (sign_of (kind_at tokens.now at)) }
    ensures inside { IsTrue result → at < length tokens.now }
{
    matches!(sign_at(tokens, at), Some(Sign::OpenBrace))
}

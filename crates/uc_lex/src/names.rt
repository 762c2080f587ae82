// Names and words.

ghost use Rattle.std.specs.Prelude.{◌≡◌, IfOk, find, nat_eq};
ghost use lib.Pointwise.{pointwise};
ghost use Rattle.uc_tree.specs.Spelling.{word_spelling};
ghost use Rattle.uc_tree.specs.Tokens as tokens;

use crate::bytes::{Class, run_length};
use std::alloc::{AllocError, Global};
use uc_tree::limits::NAME_BYTES;
use uc_tree::name::Name;
use uc_tree::scan::{Lexeme, LexicalFault};
use uc_tree::token::{TokenKind, Word};

/// The word that the bytes spell.
pub fn word_of(name: &[u8]) -> Option<Word>
    ensures { result ≡ tokens.word_of name.now }
{
    if name == b"_Exception".as_slice() {
        return Some(Word::Event);
    }
    first_spelled(&Word::ALL, name)
}

// The first of the words that is spelled so.
fn first_spelled(words: &[Word], name: &[u8]) -> Option<Word>
    ensures { result ≡ find (λ w. pointwise nat_eq name.now (word_spelling w)) words.now }
{
    for word in words {
        if name == word.spelling() {
            return Some(*word);
        }
    }
    None
}

/// What begins with a letter or `_`.
pub fn name_at(alloc: Global, rest: &[u8]) -> Result<Lexeme, AllocError>
    ensures { IfOk result (λ found. found ≡ tokens.name_at rest.now) }
{
    if rest.starts_with(b"std::") {
        return Ok(Lexeme::Skip(5));
    }
    let length = run_length(rest, Class::Name);
    if length > NAME_BYTES {
        return Ok(Lexeme::Stop(LexicalFault::BadByte, NAME_BYTES));
    }
    let name = &rest[..length];
    match word_of(name) {
        Some(word) => Ok(Lexeme::Take(TokenKind::Word(word), length)),
        None => {
            let name = Name::new(name.to_vec(alloc)?);
            Ok(Lexeme::Take(TokenKind::Name(name), length))
        }
    }
}

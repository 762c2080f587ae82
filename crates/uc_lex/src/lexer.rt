// The whole text.

ghost use Rattle.std.specs.Prelude.{◌≡◌, ◌+◌, ◌<◌, ◌≤◌, ◌^◌, IfOk, IfErr, IsErr, List, ℕ, length};
ghost use Rattle.uc_tree.specs.Tokens as tokens;
ghost use Rattle.uc_lex.specs.Faults.{IsFault, StandsIn};
ghost use Rattle.uc_lex.specs.Places.{InText};

use crate::bytes::{Class, is_letter, run_length, text_from, text_to};
use crate::fault::LexFault;
use crate::gaps::{comment_at, line_at};
use crate::literals::{character_at, text_at};
use crate::names::name_at;
use crate::numbers::number_at;
use crate::place::{START, place_behind};
use crate::signs::sign_at;
use std::alloc::{AllocError, Global};
use uc_tree::bytes::{is_digit, is_white};
use uc_tree::scan::{Lexeme, LexicalFault};
use uc_tree::token::Token;

// What stands at a place, before which nothing but blanks stands on its line if it is fresh.
#[tactic(auto, unfolding(uc_tree::specs::Tokens::found_at))]
fn found_at(alloc: Global, rest: &[u8], fresh: bool) -> Result<Lexeme, AllocError>
    requires some { 0 < length rest.now }
    requires fits { length rest.now < 2 ^ 32 }
    ensures { IfOk result (λ found. found ≡ tokens.found_at fresh rest.now) }
{
    let b = rest[0];
    if is_white(b) {
        return Ok(Lexeme::Skip(1));
    }
    if b == b'#' {
        return Ok(line_at(rest, fresh));
    }
    if is_letter(b) {
        let found = name_at(alloc, rest)?;
        return Ok(found);
    }
    if is_digit(b) {
        return Ok(number_at(rest));
    }
    if b == b'\'' {
        return Ok(character_at(rest));
    }
    if b == b'"' {
        let found = text_at(alloc, rest)?;
        return Ok(found);
    }
    Ok(other_at(rest))
}

// What begins with any other byte.
fn other_at(rest: &[u8]) -> Lexeme
    requires { length rest.now < 2 ^ 32 }
    ensures { result ≡ tokens.other_at rest.now }
{
    if rest.starts_with(b"//") {
        return Lexeme::Skip(run_length(rest, Class::Line));
    }
    if rest.starts_with(b"/*") {
        return comment_at(rest);
    }
    sign_at(rest)
}

// What stands at the first byte of the text, and that it stands inside of it.
fn next_found(alloc: Global, rest: &[u8], fresh: bool) -> Result<Lexeme, AllocError>
    requires some { 0 < length rest.now }
    requires fits { length rest.now < 2 ^ 32 }
    ensures found { IfOk result (λ found. found ≡ tokens.found_at fresh rest.now) }
    ensures inside { IfOk result (λ found. InText found (length rest.now)) }
{
    let found = found_at(alloc, rest, fresh)?;
    Ok(found)
}

// The fault at that offset.
fn fault_at(why: LexicalFault, at: u32) -> LexFault
    ensures fault { IsFault (tokens.Refused why at) result }
    ensures inside { (room : ℕ) → at < room → StandsIn result room }
{
    match why {
        LexicalFault::BadByte => LexFault::BadByte { at },
        LexicalFault::OpenComment => LexFault::OpenComment { at },
        LexicalFault::OpenText => LexFault::OpenText { at },
        LexicalFault::NumberTooWide => LexFault::NumberTooWide { at },
        LexicalFault::TextTooLong(len) => LexFault::TextTooLong { at, len },
    }
}

/// The tokens of the text, or its first fault. The text has fewer than 2^32 - 1 bytes.
pub fn lex(alloc: Global, text: &[u8]) -> Result<Vec<Token>, LexFault>
    requires { length text.now + 1 < 2 ^ 32 }
    ensures tokens { IfOk result (λ v. tokens.tokens text.now ≡ tokens.Read v.items) }
    ensures few { IfOk result (λ v. length v.items ≤ length text.now) }
    ensures fault { IfErr result (λ f. IsFault (tokens.tokens text.now) f) }
    ensures inside { IfErr result (λ f. StandsIn f (length text.now)) }
    ensures complete { (ts : List Token) → tokens.tokens text.now ≡ tokens.Read ts →
        IfErr result (λ f. f ≡ LexFault.NoMemory) }
    ensures refused { (why : LexicalFault) (at : ℕ) →
        tokens.tokens text.now ≡ tokens.Refused why at → IsErr result }
{
    let mut tokens = Vec::new(alloc);
    let mut place = START;
    while (place.at as usize) < text.len() {
        let rest = text_from(text, place.at as usize);
        match next_found(alloc, rest, place.fresh)? {
            Lexeme::Skip(length) => place = place_behind(place, text_to(rest, length)),
            Lexeme::Take(kind, length) => {
                tokens.push(Token {
                    kind,
                    at: place.at,
                    pos: place.pos,
                })?;
                place = place_behind(place, text_to(rest, length));
            }
            Lexeme::Stop(why, behind) => return Err(fault_at(why, place.at + behind as u32)),
        }
    }
    Ok(tokens)
}

// Characters and texts.

ghost use Rattle.std.specs.Prelude.{◌≡◌, IfOk, length, ◌<◌, ◌≤◌, slice_get, drop, ◌^◌};
ghost use Rattle.uc_tree.specs.Tokens as tokens;
ghost use Rattle.uc_lex.specs.Pieces.{piece_length, ending_of, Moves};
ghost use Rattle.uc_lex.specs.Pieces as pieces;

use crate::bytes::{byte_at, escaped, is_printable, text_from};
use std::alloc::{AllocError, Global};
use uc_tree::bytes::is_newline;
use uc_tree::limits::TEXT_BYTES;
use uc_tree::name::Text;
use uc_tree::scan::{Lexeme, LexicalFault};
use uc_tree::token::TokenKind;

/// What begins with a quote.
pub fn character_at(rest: &[u8]) -> Lexeme
    ensures { result ≡ tokens.character_at rest.now }
{
    let Some(b) = byte_at(rest, 1) else {
        return Lexeme::Stop(LexicalFault::OpenText, 0);
    };
    if is_newline(b) {
        return Lexeme::Stop(LexicalFault::OpenText, 0);
    }
    if b == b'\\' {
        return character_escape(rest);
    }
    if b == b'\'' || !is_printable(b) {
        return Lexeme::Stop(LexicalFault::BadByte, 1);
    }
    character_end(b, 1, byte_at(rest, 2))
}

// What goes on with a backslash behind the quote.
fn character_escape(rest: &[u8]) -> Lexeme
    ensures { result ≡ tokens.character_escape (slice_get rest.now 2) rest.now }
{
    let Some(letter) = byte_at(rest, 2) else {
        return Lexeme::Stop(LexicalFault::OpenText, 0);
    };
    if is_newline(letter) {
        return Lexeme::Stop(LexicalFault::OpenText, 0);
    }
    match escaped(letter) {
        Some(value) => character_end(value, 2, byte_at(rest, 3)),
        None => Lexeme::Stop(LexicalFault::BadByte, 2),
    }
}

// What follows a byte or an escape of `length` bytes.
fn character_end(value: u8, length: usize, next: Option<u8>) -> Lexeme
    requires { length < 3 }
    ensures { result ≡ tokens.character_end value length next }
{
    match next {
        None => Lexeme::Stop(LexicalFault::OpenText, 0),
        Some(b) => {
            if is_newline(b) {
                return Lexeme::Stop(LexicalFault::OpenText, 0);
            }
            if b == b'\'' {
                return Lexeme::Take(TokenKind::Character(value), length + 2);
            }
            Lexeme::Stop(LexicalFault::BadByte, length + 1)
        }
    }
}

/// What stands next in a text literal.
#[derive(Clone, Copy)]
pub enum Piece {
    /// A byte of its value, written by that many bytes.
    Byte(u8, usize),
    /// Its closing quote.
    Close,
    /// The end of the line.
    Open,
    /// A byte that cannot stand in it, behind that many bytes.
    Bad(usize),
}

/// What stands next in a text literal.
pub fn piece_at(rest: &[u8]) -> Piece
    ensures goes_on { tokens.text_ending rest.now
        ≡ ending_of result (tokens.text_ending (drop (piece_length result) rest.now)) }
    ensures moves { Moves result (length rest.now) }
{
    piece_of(byte_at(rest, 0), byte_at(rest, 1))
}

// The piece that begins with these bytes.
fn piece_of(first: Option<u8>, second: Option<u8>) -> Piece
    ensures { result ≡ pieces.piece_of first second }
{
    let Some(b) = first else {
        return Piece::Open;
    };
    if b == b'\\' {
        return piece_of_escape(second);
    }
    if b == b'"' {
        return Piece::Close;
    }
    if is_newline(b) {
        return Piece::Open;
    }
    if is_printable(b) {
        return Piece::Byte(b, 1);
    }
    Piece::Bad(0)
}

// The piece that a backslash begins.
fn piece_of_escape(letter: Option<u8>) -> Piece
    ensures { result ≡ pieces.piece_of_escape letter }
{
    let Some(letter) = letter else {
        return Piece::Open;
    };
    if is_newline(letter) {
        return Piece::Open;
    }
    match escaped(letter) {
        Some(value) => Piece::Byte(value, 2),
        None => Piece::Bad(1),
    }
}

/// What begins with a double quote.
pub fn text_at(alloc: Global, rest: &[u8]) -> Result<Lexeme, AllocError>
    requires some { 0 < length rest.now }
    requires fits { length rest.now < 2 ^ 32 }
    ensures { IfOk result (λ found. found ≡ tokens.text_at rest.now) }
{
    let body = text_from(rest, 1);
    let mut value = Vec::new(alloc);
    let mut at = 0;
    'pieces: while at < body.len() {
        match piece_at(text_from(body, at)) {
            Piece::Byte(b, length) => {
                value.push(b)?;
                at += length;
            }
            Piece::Close => return Ok(closed(value, at + 1)),
            Piece::Open => return Ok(Lexeme::Stop(LexicalFault::OpenText, 0)),
            Piece::Bad(behind) => return Ok(Lexeme::Stop(LexicalFault::BadByte, at + behind + 1)),
        }
    }
    Ok(Lexeme::Stop(LexicalFault::OpenText, 0))
}

// A text literal with this value, which takes that many bytes behind its opening quote.
fn closed(value: Vec<u8>, behind: usize) -> Lexeme
    requires value { length value.items < 2 ^ 32 }
    requires behind { behind ≤ 2 ^ 32 }
    ensures { result ≡ tokens.text_found (tokens.Closed value.items behind) }
{
    if value.len() > TEXT_BYTES {
        return Lexeme::Stop(LexicalFault::TextTooLong(value.len() as u32), 0);
    }
    Lexeme::Take(TokenKind::Text(Text::new(value)), behind + 1)
}

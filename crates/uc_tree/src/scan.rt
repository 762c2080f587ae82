// What the definition of a text's tokens speaks of: places, and what stands at one.

use crate::pos::Pos;
use crate::token::TokenKind;

/// A place on the way through a text.
#[derive(Clone, Copy)]
pub struct ScanPlace {
    /// The offset in the text, from 0.
    pub at: u32,
    pub pos: Pos,
    /// Whether nothing but blanks stands before it on its line.
    pub fresh: bool,
}

/// What stands at a place of a text.
#[derive(Drop)]
pub enum Lexeme {
    /// That many bytes that give no token.
    Skip(usize),
    /// A token of that many bytes.
    Take(TokenKind, usize),
    /// No token can stand here; the number is how far behind the place the fault is.
    Stop(LexicalFault, usize),
}

/// Why a text has no tokens.
#[derive(Clone, Copy)]
pub enum LexicalFault {
    /// A byte that cannot stand there.
    BadByte,
    /// A comment without its end.
    OpenComment,
    /// A text or a character literal without its end on its line.
    OpenText,
    /// A number above `NUMBER_MAX`.
    NumberTooWide,
    /// A text literal whose value has more than `TEXT_BYTES` bytes, and how many it has.
    TextTooLong(u32),
}

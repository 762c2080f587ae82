// Places in a text: lines and columns.

ghost use Rattle.std.specs.Prelude.{◌≡◌, ◌+◌, ◌<◌, ◌≤◌, ◌^◌, length, fold};
ghost use Rattle.uc_tree.specs.Tokens as tokens;
ghost use Rattle.uc_lex.specs.Places.{InRange};

use crate::bytes::text_to;
use uc_tree::bytes::{is_blank, is_newline};
use uc_tree::pos::Pos;
use uc_tree::scan::ScanPlace;

/// Where a text begins.
pub const START: ScanPlace = ScanPlace {
    at: 0,
    pos: Pos { line: 1, col: 1 },
    fresh: true,
};

// The place behind a byte.
fn next_place(place: ScanPlace, b: u8) -> ScanPlace
    requires room { place.at + 2 < 2 ^ 32 }
    requires range { InRange place }
    ensures { result ≡ tokens.next_place place b }
{
    let at = place.at + 1;
    if is_newline(b) {
        let line = place.pos.line + 1;
        return ScanPlace {
            at,
            pos: Pos { line, col: 1 },
            fresh: true,
        };
    }
    let line = place.pos.line;
    let col = place.pos.col + 1;
    let fresh = place.fresh && is_blank(b);
    ScanPlace {
        at,
        pos: Pos { line, col },
        fresh,
    }
}

/// The place behind some bytes.
pub fn place_behind(place: ScanPlace, bytes: &[u8]) -> ScanPlace
    requires room { place.at + length bytes.now + 1 < 2 ^ 32 }
    requires range { InRange place }
    ensures place { result ≡ fold tokens.next_place place bytes.now }
    ensures at { result.at ≡ place.at + length bytes.now }
    ensures range { InRange result }
{
    let mut place = place;
    for b in bytes {
        place = next_place(place, *b);
    }
    place
}

/// The place of an offset in the text, which may be its end.
pub fn pos_at(text: &[u8], at: u32) -> Pos
    requires fits { length text.now + 1 < 2 ^ 32 }
    requires inside { at ≤ length text.now }
    ensures { result ≡ tokens.pos_at text.now at }
{
    place_behind(START, text_to(text, at as usize)).pos
}

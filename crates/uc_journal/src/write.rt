// Writes the text of entries.

ghost use Rattle.std.specs.Prelude.{◌≡◌, ◌≤◌, ◌+◌, ◌++◌, IfOk, OnOk, take, length, [], ◌∷◌};
ghost use Rattle.std.specs.Fmt.{signed_decimal};
ghost use Rattle.uc_acts.specs.Texts as texts;
ghost use Rattle.uc_acts.specs.Fit as fit;
ghost use Rattle.uc_journal.specs.Fields.{all_spaced};
ghost use Rattle.uc_journal.specs.Lines.{IsTextOf};

use crate::form::HEADING;
use crate::word::word_of;
use itoa::Buffer;
use std::alloc::{AllocError, Global};
use uc_entry::entry::Entry;

/// Bytes of a buffer that takes the text of any entry.
const LINE_BYTES: usize = 256;

/// Writes the line of an entry to the front of the buffer, and answers how many bytes it has.
pub fn write_entry(e: &Entry, buffer: &mut [u8; 256]) -> usize
    ensures text { take result buffer.new ≡ texts.line e.now }
    ensures within { result ≤ 256 }
{
    let at = put(buffer, 0, word_of(e.kind));
    let at = put_numbers(buffer, at, &numbers_of(e));
    put(buffer, at, b"\n")
}

/// The text of a journal: the heading, and the line of each entry in order. Where the entries are fit, it is a text
/// that reads back as this journal alone.
pub fn write_journal(alloc: Global, j: &[Entry]) -> Result<Vec<u8>, AllocError>
    ensures text { IfOk result (λ text. text.items ≡ texts.text j.now) }
    ensures back { IfOk result (λ text. fit.AreFit j.now → IsTextOf text.items j.now) }
{
    let mut text = Vec::new(alloc);
    append_journal(&mut text, j)?;
    Ok(text)
}

/// Appends the text of a journal.
pub fn append_journal(text: &mut Vec<u8>, j: &[Entry]) -> Result<(), AllocError>
    ensures { OnOk result (text.new.items ≡ text.old.items ++ texts.text j.now) }
{
    text.extend_from_slice(&HEADING)?;
    let mut buffer = [0; LINE_BYTES];
    for e in j {
        let length = write_entry(e, &mut buffer);
        text.extend_from_slice(&buffer[..length])?;
    }
    Ok(())
}

// The fields of an entry in their order.
fn numbers_of(e: &Entry) -> [i64; 9]
    ensures { result ≡ fit.numbers_of e.now }
{
    [
        i64::from(e.proc),
        i64::from(e.task),
        i64::from(e.ticks),
        i64::from(e.object),
        e.a,
        e.b,
        e.c,
        e.d,
        i64::from(e.line),
    ]
}

// Writes numbers, each behind a space, from a place on, and answers the place behind them.
fn put_numbers(buffer: &mut [u8; 256], from: usize, numbers: &[i64; 9]) -> usize
    requires room { from ≤ 60 }
    ensures text { take result buffer.new ≡ take from buffer.old ++ all_spaced numbers.now }
    ensures within { result ≤ from + 189 }
{
    let mut at = from;
    for number in numbers {
        buffer[at] = b' ';
        at = put_number(buffer, at + 1, *number);
    }
    at
}

// Writes a number from a place on, and answers the place behind it.
fn put_number(buffer: &mut [u8; 256], from: usize, number: i64) -> usize
    requires room { from ≤ 236 }
    ensures text { take result buffer.new ≡ take from buffer.old ++ signed_decimal number }
    ensures within { result ≤ from + 20 }
{
    if 0 <= number && number < 10 {
        buffer[from] = b'0' + number as u8;
        return from + 1;
    }
    let mut digits = Buffer::new();
    put(buffer, from, digits.format(number).as_bytes())
}

// Writes bytes from a place on, and answers the place behind them.
fn put(buffer: &mut [u8; 256], from: usize, bytes: &[u8]) -> usize
    requires room { from + length bytes.now ≤ 256 }
    ensures text { take result buffer.new ≡ take from buffer.old ++ bytes.now }
    ensures place { result ≡ from + length bytes.now }
{
    let end = from + bytes.len();
    buffer[from..end].copy_from_slice(bytes);
    end
}

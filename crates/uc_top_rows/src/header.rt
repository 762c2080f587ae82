// What stands before a text.

use std::alloc::{AllocError, Global};

/// The words and what else a line says of a call.
#[derive(Drop)]
pub(crate) struct Header {
    pub(crate) words: String,
    pub(crate) failing_puts: Option<(u64, u64)>,
    pub(crate) room: usize,
    pub(crate) count: usize,
    pub(crate) length: usize,
    pub(crate) newlines: usize,
    pub(crate) failing_read: u64,
    pub(crate) input: String,
}

impl Header {
    pub(crate) fn read(alloc: Global, line: &str) -> Result<Header, AllocError> {
        let (line, input) = parted(line, " < ");
        let (line, failing_read) = parted(line, " # ");
        let (line, newlines) = parted(line, " % ");
        let (line, length) = parted(line, " + ");
        let (line, count) = parted(line, " * ");
        let (line, room) = parted(line, " > ");
        let (words, puts) = parted(line, " ! ");
        Ok(Header {
            words: String::from_str(alloc, words)?,
            failing_puts: two_numbers(puts),
            room: room.parse::<usize>().unwrap_or(10_000),
            count: count.parse::<usize>().unwrap_or(0),
            length: length.parse::<usize>().unwrap_or(0),
            newlines: newlines.parse::<usize>().unwrap_or(0),
            failing_read: failing_read.parse::<u64>().unwrap_or(0),
            input: String::from_str(alloc, input)?,
        })
    }
}

// What stands before a mark, and what stands behind it.
fn parted<'a>(line: &'a str, mark: &str) -> (&'a str, &'a str) {
    match line.split_once(mark) {
        Some(parts) => parts,
        None => (line, ""),
    }
}

// The two numbers of puts.
fn two_numbers(text: &str) -> Option<(u64, u64)> {
    let (out, err) = text.split_once(' ')?;
    let out = out.parse::<u64>().ok()?;
    let err = err.parse::<u64>().ok()?;
    Some((out, err))
}

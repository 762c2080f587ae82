// Reads the text of a journal.

ghost use Rattle.std.specs.Prelude.{◌≡◌, IfOk, IfErr};
ghost use Rattle.uc_acts.specs.Journal.{Journal};
ghost use Rattle.uc_journal.specs.Lines.{IsTextOf, IsFault, HasNoJournal, NamesLineBehind};

use crate::form::body_of;
use crate::line::read_line;
use std::alloc::Global;
use uc_entry::entry::Entry;

/// Why a text is not read as a journal.
#[derive(Clone, Copy)]
pub enum JournalFault {
    /// The first line, from 1, that is neither the heading, where it stands first, nor the text of a fit entry.
    BadLine { n: u32 },
    /// Memory was refused.
    NoMemory,
}

/// The journal of fit entries whose text this is, or the first line at fault. A text whose first line is not
/// `ucpp-journal 2` is read in the old form, in which an entry has no line: it is 0.
pub fn read_journal(alloc: Global, text: &[u8]) -> Result<Vec<Entry>, JournalFault>
    ensures journal { IfOk result (λ j. IsTextOf text.now j.items) }
    ensures only { IfOk result (λ j. (other : Journal) → IsTextOf text.now other →
        other ≡ j.items) }
    ensures fault { IfErr result (IsFault text.now) }
    ensures none { IfErr result (HasNoJournal text.now) }
{
    let mut entries = Vec::new(alloc);
    let body = body_of(text);
    let mut rest = body.rest;
    while !rest.is_empty() {
        let Some(line) = read_line(rest, body.form) else {
            return Err(bad_line(body.form.lines_before() + entries.len()));
        };
        match entries.push(line.entry) {
            Ok(()) => {}
            Err(_) => return Err(JournalFault::NoMemory),
        }
        rest = line.rest;
    }
    Ok(entries)
}

// The fault of the line behind so many others; of one past the last number that a fault can name, want of memory.
fn bad_line(before: usize) -> JournalFault
    ensures { NamesLineBehind before result }
{
    match u32::try_from(before) {
        Ok(before) => match before.checked_add(1) {
            Some(n) => JournalFault::BadLine { n },
            None => JournalFault::NoMemory,
        },
        Err(_) => JournalFault::NoMemory,
    }
}

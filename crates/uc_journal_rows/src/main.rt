// Reads journals and writes them again. In the input a line `== whole` begins a text, the lines up to the next such line,
// each with its newline; behind `== cut` the last one has none. Of a text its version is printed, and the number of its
// entries and its journal, or the first bad line. Behind `== each` every line is an entry's text behind a heading of its
// own, and behind `== old` one with none, in the old form; it is called fit or bad.
#![tactic(auto)]

use std::alloc::{AllocError, Global};
use std::io::{self, Print};
use uc_journal::{JournalFault, read_journal, version, write_journal};

/// A text, and whether its last newline is left out.
#[derive(Drop)]
struct Row {
    cut: bool,
    text: String,
}

impl Row {
    // The text behind a heading, which is none where each line is judged by itself.
    fn behind(alloc: Global, mode: &str) -> Option<Row> {
        match mode {
            "each" | "old" => None,
            _ => Some(Row {
                cut: mode == "cut",
                text: String::new(alloc),
            }),
        }
    }

    fn add(&mut self, line: &str) -> Result<(), AllocError> {
        self.text.push_str(line)?;
        self.text.push_str("\n")
    }
}

// What stands before the entries of a text.
const HEADING: &str = "ucpp-journal 2\n";

// What reading a text and writing its journal gives.
fn answer(alloc: Global, text: &[u8]) -> Result<String, AllocError> {
    let version = version(text);
    match read_journal(alloc, text) {
        Ok(journal) => {
            let again = write_journal(alloc, &journal)?;
            let shown = String::from_utf8_lossy(alloc, &again)?;
            let count = journal.len();
            format!(in alloc; "version {version}\n{count} entries\n{shown}")
        }
        Err(JournalFault::BadLine { n }) => format!(in alloc; "version {version}\nbad line {n}\n"),
        Err(JournalFault::NoMemory) => String::from_str(alloc, "no memory\n"),
    }
}

// Whether a line is the text of one entry, and that entry is written so. In the old form it is written with line 0.
fn judged(alloc: Global, line: &str, old: bool) -> Result<&'static str, AllocError> {
    let heading = if old { "" } else { HEADING };
    let source = if old { " 0" } else { "" };
    let text = format!(in alloc; "{heading}{line}\n")?;
    let wanted = format!(in alloc; "{HEADING}{line}{source}\n")?;
    match read_journal(alloc, text.as_bytes()) {
        Ok(journal) => {
            let again = write_journal(alloc, &journal)?;
            if again.as_slice() == wanted.as_bytes() {
                Ok("fit")
            } else {
                Ok("changed")
            }
        }
        Err(_) => Ok("bad"),
    }
}

// What is printed of a text.
fn told(alloc: Global, row: &Row) -> Result<String, AllocError> {
    let text = row.text.as_bytes();
    if row.cut && !text.is_empty() {
        return answer(alloc, &text[..text.len() - 1]);
    }
    answer(alloc, text)
}

fn tell<R: Print>(rt: &R, alloc: Global, row: &Option<Row>) -> io::Result<()> {
    match row {
        Some(row) => print!(rt; "{}", told(alloc, row)?),
        None => Ok(()),
    }
}

// A heading ends a text and begins another; any other line goes to the text that is read, or is judged by itself.
fn take_line<R: Print>(
    rt: &R,
    alloc: Global,
    row: &mut Option<Row>,
    old: &mut bool,
    line: &str,
) -> io::Result<()> {
    if let Some(mode) = line.strip_prefix("== ") {
        tell(rt, alloc, row)?;
        println!(rt; "{line}")?;
        *old = mode == "old";
        *row = Row::behind(alloc, mode);
        return Ok(());
    }
    match row {
        Some(row) => {
            row.add(line)?;
            Ok(())
        }
        None => println!(rt; "{} {}", judged(alloc, line, *old)?, line),
    }
}

fn main(rt: HostRuntime) -> io::Result<()> {
    let alloc = rt.alloc();
    let mut row: Option<Row> = None;
    let mut old = false;
    for line in rt.lines(alloc) {
        take_line(&rt, alloc, &mut row, &mut old, line?.as_str())?;
    }
    tell(&rt, alloc, &row)
}

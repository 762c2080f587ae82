// Runs whole programs through the top call. In the input a line `== WORDS` begins a text, the bytes of the file a.cc: the
// lines up to the next such line, parted by newlines. A word `''` is empty. Behind the words may stand, in this order,
//
// - ` ! OUT ERR`: both sinks take a byte a put, and each fails at its put of this number, counted from 1;
// - ` > ROOM`: out has room for so many bytes, and not for 10,000;
// - ` * COUNT`: each `@` of the text stands for so many semicolons;
// - ` + LENGTH`: spaces fill the text to so many bytes;
// - ` % LENGTH`: newlines do;
// - ` # READ`: the store fails at its read of this number, counted from 1;
// - ` < INPUT`: the bytes of the file in.
//
// For each text the words are printed, and what the call put to out and to err, and its status. A line `?? TITLE` begins
// a program that is checked: the title is printed, and the place and the rule that it breaks first, or `accepted`. A line
// `-- NAME LIMIT` reads a file of the folder in which the program runs, and a line `!! TEXT` puts the text to the error
// stream.
#![tactic(auto)]

mod header;
mod outside;

use crate::header::Header;
use std::alloc::{AllocError, Global};
use std::io;
use std::sync::Wait;
use std::thread::Threads;
use uc_outside::{FixedSink, MemSink, MemStore, OpenGate, Sink};
use uc_top::run_words;

/// A text with what stands before it. It has a title where it is only checked.
#[derive(Drop)]
struct Row {
    title: Option<String>,
    header: Header,
    begun: bool,
    text: String,
}

impl Row {
    fn new(alloc: Global, line: &str) -> Result<Row, AllocError> {
        Ok(Row {
            title: None,
            header: Header::read(alloc, line)?,
            begun: false,
            text: String::new(alloc),
        })
    }

    fn checked(alloc: Global, title: &str) -> Result<Row, AllocError> {
        let mut row = Row::new(alloc, "check a.cc")?;
        row.title = Some(String::from_str(alloc, title)?);
        Ok(row)
    }

    fn add(&mut self, line: &str) -> Result<(), AllocError> {
        if self.begun {
            self.text.push('\n')?;
        }
        self.begun = true;
        self.text.push_str(line)?;
        Ok(())
    }
}

// The bytes of the text, with semicolons for each `@`, and with spaces and newlines up to its lengths.
fn filled_text(alloc: Global, row: &Row) -> Result<Vec<u8>, AllocError> {
    let mut text = Vec::new(alloc);
    for byte in row.text.as_bytes() {
        if *byte == b'@' {
            for _k in 0..row.header.count {
                text.push(b';')?;
            }
        } else {
            text.push(*byte)?;
        }
    }
    for _k in text.len()..row.header.length {
        text.push(b' ')?;
    }
    for _k in text.len()..row.header.newlines {
        text.push(b'\n')?;
    }
    Ok(text)
}

fn store_of(alloc: Global, row: &Row) -> Result<MemStore, AllocError> {
    let mut files = Vec::new(alloc);
    files.push((String::from_str(alloc, "a.cc")?, filled_text(alloc, row)?))?;
    files.push((
        String::from_str(alloc, "in")?,
        row.header.input.as_bytes().to_vec(alloc)?,
    ))?;
    Ok(MemStore::new(files, vec![in alloc; row.header.failing_read]?))
}

fn words_of(alloc: Global, row: &Row) -> Result<Vec<String>, AllocError> {
    let mut words = Vec::new(alloc);
    for word in row.header.words.as_str().split_whitespace() {
        let word = if word == "''" { "" } else { word };
        words.push(String::from_str(alloc, word)?)?;
    }
    Ok(words)
}

/// What a call put to out and to err, and its status.
#[derive(Drop)]
struct Told {
    out: String,
    err: String,
    status: u8,
}

fn call<R: Threads + Wait + Sync>(rt: &R, alloc: Global, row: &Row) -> Result<Told, AllocError> {
    let words = words_of(alloc, row)?;
    let mut store = store_of(alloc, row)?;
    let mut out = FixedSink::new(alloc, row.header.room)?;
    let mut err = FixedSink::new(alloc, 1_000)?;
    let outcome = run_words(rt, alloc, &words, &mut store, &mut out, &mut err, &OpenGate);
    Ok(Told {
        out: String::from_utf8_lossy(alloc, out.bytes())?,
        err: String::from_utf8_lossy(alloc, err.bytes())?,
        status: outcome.status,
    })
}

fn answer<R: Threads + Wait + Sync>(
    rt: &R,
    alloc: Global,
    row: &Row,
) -> Result<String, AllocError> {
    let told = call(rt, alloc, row)?;
    format!(in alloc;
        "== {}\n{}|\n{}status {}\n",
        row.header.words, told.out, told.err, told.status
    )
}

// The place and the rule that a program breaks first.
fn answer_of_check<R: Threads + Wait + Sync>(
    rt: &R,
    alloc: Global,
    row: &Row,
    title: &str,
) -> Result<String, AllocError> {
    let told = call(rt, alloc, row)?;
    if told.status == 0 {
        return format!(in alloc; "?? {title}\naccepted\n");
    }
    let err = told.err.as_str();
    let fault = err.strip_prefix("ucpp: ").unwrap_or(err);
    format!(in alloc; "?? {title}\n{fault}")
}

// What each sink took and its faults, and how many entries the journal has.
fn answer_of_failing<R: Threads + Wait + Sync>(
    rt: &R,
    alloc: Global,
    row: &Row,
    out_put: u64,
    err_put: u64,
) -> Result<String, AllocError> {
    let words = words_of(alloc, row)?;
    let mut store = store_of(alloc, row)?;
    let mut out = MemSink::new(alloc, row.header.room, vec![in alloc; out_put]?, 1)?;
    let mut err = MemSink::new(alloc, 1_000, vec![in alloc; err_put]?, 1)?;
    let outcome = run_words(rt, alloc, &words, &mut store, &mut out, &mut err, &OpenGate);
    let entries = outcome.journal.len();
    format!(in alloc;
        "== {}\n{}|\n{}|\nfaults {} {}\nentries {}\nstatus {}\n",
        row.header.words,
        String::from_utf8_lossy(alloc, out.bytes())?,
        String::from_utf8_lossy(alloc, err.bytes())?,
        out.faults(),
        err.faults(),
        entries,
        outcome.status
    )
}

fn any_answer<R: Threads + Wait + Sync>(
    rt: &R,
    alloc: Global,
    row: &Option<Row>,
) -> Result<String, AllocError> {
    let Some(row) = row else {
        return Ok(String::new(alloc));
    };
    if let Some(title) = &row.title {
        return answer_of_check(rt, alloc, row, title.as_str());
    }
    match row.header.failing_puts {
        Some((out, err)) => answer_of_failing(rt, alloc, row, out, err),
        None => answer(rt, alloc, row),
    }
}

fn main(rt: HostRuntime) -> io::Result<()> {
    let alloc = rt.alloc();
    let mut row: Option<Row> = None;
    for line in rt.lines(alloc) {
        let line = line?;
        let line = line.as_str();
        if let Some(words) = line.strip_prefix("== ") {
            print!(rt; "{}", any_answer(&rt, alloc, &row)?)?;
            row = Some(Row::new(alloc, words)?);
        } else if let Some(title) = line.strip_prefix("?? ") {
            print!(rt; "{}", any_answer(&rt, alloc, &row)?)?;
            row = Some(Row::checked(alloc, title)?);
        } else if let Some(file) = line.strip_prefix("-- ") {
            print!(rt; "{}", outside::answer(&rt, alloc, file)?)?;
        } else if let Some(text) = line.strip_prefix("!! ") {
            print!(rt; "{}", outside::told(&rt, alloc, text)?)?;
        } else if let Some(row) = &mut row {
            row.add(line)?;
        }
    }
    print!(rt; "{}", any_answer(&rt, alloc, &row)?)?;
    Ok(())
}

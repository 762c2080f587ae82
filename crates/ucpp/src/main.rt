// The program: the real files, streams and gate around the top call.
#![tactic(auto)]

use std::alloc::Global;
use std::io::ErrorKind;
use std::process::ExitCode;
use std::rt::Env;
use std::{env, io};
use uc_outside::{FileStore, OpenGate, StdErr, StdOut, put_all};
use uc_top::run_words;

fn main(rt: HostRuntime) -> ExitCode {
    let alloc = rt.alloc();
    let mut store = FileStore::new(&rt);
    let mut out = StdOut::new(&rt);
    let mut err = StdErr::new(&rt);
    let words = match read_words(&rt, alloc) {
        Ok(words) => words,
        Err(fault) if fault.kind() == ErrorKind::OutOfMemory => {
            let told = put_all(&mut err, b"ucpp: out of memory\n");
            return ExitCode::from(if told.is_ok() { 8 } else { 4 });
        }
        // Arguments that cannot be read as text are no line of words, and no words are none either.
        Err(_) => Vec::new(alloc),
    };
    let outcome = run_words(
        &rt, alloc, &words, &mut store, &mut out, &mut err, &OpenGate,
    );
    ExitCode::from(outcome.status)
}

// The words after the program's name.
fn read_words(rt: &HostRuntime, alloc: Global) -> io::Result<Vec<String>> {
    let mut words = Vec::new(alloc);
    for word in env::args(rt)?.skip(1) {
        words.push(word)?;
    }
    Ok(words)
}

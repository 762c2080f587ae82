// Runs the program of four tasks on two processors, through a gate at which rides of the two wait for each other, and prints how many
// pairs of rides were out at once, and what the program printed. Then runs a program that has a processor of its own, by one worker,
// through a gate that writes down what it is told, and prints that. Then has two and eight threads write into one diary behind a lock.
#![tactic(auto)]

mod diary;
mod ledger;
mod meeting;

use crate::diary::written;
use crate::ledger::Ledger;
use crate::meeting::Meeting;
use std::alloc::{AllocError, Global};
use std::io;
use std::sync::Wait;
use std::thread::Threads;
use uc_outside::{FixedSink, Gate, OpenGate, SteadyStore};
use uc_top::run_words;

/// What a call put to out, and its status.
#[derive(Drop)]
struct Told {
    out: Vec<u8>,
    status: u8,
}

// What the call does with these words, and with the file a.cc.
fn call<R: Threads + Wait + Sync, G: Gate + Sync>(
    rt: &R,
    alloc: Global,
    line: &str,
    text: Vec<u8>,
    gate: &G,
) -> Result<Told, AllocError> {
    let mut words = Vec::new(alloc);
    for word in line.split_whitespace() {
        words.push(String::from_str(alloc, word)?)?;
    }
    let mut files = Vec::new(alloc);
    files.push((String::from_str(alloc, "a.cc")?, text))?;
    let mut store = SteadyStore::new(files);
    let mut out = FixedSink::new(alloc, 10_000)?;
    let mut err = FixedSink::new(alloc, 1_000)?;
    let outcome = run_words(rt, alloc, &words, &mut store, &mut out, &mut err, gate);
    Ok(Told {
        out: out.bytes().to_vec(alloc)?,
        status: outcome.status,
    })
}

// A program with a second cluster and a processor for it, on which its second task goes on.
const COOK: &str = "
_Task Cook {
    uCluster & kitchen;
    void main() {
        migrate(kitchen);
        cout << 1;
        yield();
        cout << 2 << endl;
    }
  public:
    Cook(uCluster & kitchen) : kitchen(kitchen) { }
};

void uMain::main() {
    uCluster kitchen;
    uProcessor stove(kitchen);
    Cook cook(kitchen);
    yield();
}
";

// Two rides at once.
fn meet<R: Threads + Wait + Sync>(rt: &R, alloc: Global) -> Result<String, AllocError> {
    let made = call(rt, alloc, "make 4", Vec::new(alloc), &OpenGate)?;
    let gate = Meeting::new();
    let told = call(rt, alloc, "run a.cc --processors 2", made.out, &gate)?;
    let out = String::from_utf8_lossy(alloc, &told.out)?;
    format!(in alloc;
        "pairs {}\nin vain {}\nworkers {}\n{}status {}\n",
        gate.pairs(),
        gate.is_in_vain(),
        gate.workers(),
        out,
        told.status
    )
}

// What the gate is told of each ride of one worker.
fn write_down<R: Threads + Wait + Sync>(rt: &R, alloc: Global) -> Result<String, AllocError> {
    let gate = Ledger::new(alloc)?;
    let text = Vec::from_slice(alloc, COOK.as_bytes())?;
    let told = call(rt, alloc, "run a.cc --processors 1", text, &gate)?;
    let out = String::from_utf8_lossy(alloc, &told.out)?;
    format!(in alloc; "{}{}status {}\n", gate.text(alloc)?, out, told.status)
}

fn main(rt: HostRuntime) -> io::Result<()> {
    let alloc = rt.alloc();
    let met = meet(&rt, alloc)?;
    print!(rt; "{met}")?;
    let told = write_down(&rt, alloc)?;
    print!(rt; "{told}")?;
    let two = written(&rt, alloc, 2)?;
    let eight = written(&rt, alloc, 8)?;
    println!(rt; "{two}{}", eight.as_str().trim_end())?;
    Ok(())
}

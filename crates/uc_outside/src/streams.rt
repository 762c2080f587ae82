// The sinks of the standard streams.
ghost use Rattle.std.specs.Prelude.{◌≡◌, ◌+◌, ◌<◌, ◌≤◌, IfOk, OnOk, OnErr, IsTrue, IsFalse, length, None, false};
ghost use Rattle.uc_outside.specs.Faults.{CountRose};

use crate::faults::SinkFault;
use crate::sinks::Sink;
use std::io;
use std::io::Print;
use std::marker::Model;

/// The standard output of a runtime. It tells none of its bytes and has no room.
#[derive(Drop)]
pub struct StdOut<'a, R> {
    rt: &'a R,
    tally: Tally,
}

impl<'a, R> Model for StdOut<'a, R> {
    ghost use Rattle.std.specs.Prelude.{None};
    ghost use Rattle.uc_outside.specs.Taking.{SinkState};

    ghost Value = { SinkState };

    ghost view = { λ s. record { count = s.tally.faults; told = None; room = None; failing = s.tally.failing } };
}

impl<'a, R: Print> StdOut<'a, R> {
    /// The standard output of this runtime, with no failed put so far.
    pub fn new(rt: &'a R) -> StdOut<'a, R>
        ensures { result ≡ record { count = 0; told = None; room = None; failing = false } }
    {
        StdOut {
            rt,
            tally: Tally::new(),
        }
    }
}

impl<'a, R: Print> Sink for StdOut<'a, R> {
    ghost state = { λ s. s };

    fn faults(&self) -> u64 {
        self.tally.faults
    }

    fn put(&mut self, piece: &[u8]) -> Result<usize, SinkFault> {
        took(&mut self.tally, piece, self.rt.write_some(piece))
    }
}

/// A runtime with a stream for error texts.
pub trait ErrorStream {
    /// Writes some of the bytes to the standard error and answers how many, or fails and has
    /// written none.
    fn write_some_error(&self, bytes: &[u8]) -> io::Result<usize>
        ensures { IfOk result (λ n. n ≤ length bytes.now) };
}

impl ErrorStream for HostRuntime {
    fn write_some_error(&self, bytes: &[u8]) -> io::Result<usize> {
        self.stderr().write_some(bytes)
    }
}

/// The standard error of a runtime. It tells none of its bytes and has no room.
#[derive(Drop)]
pub struct StdErr<'a, R> {
    rt: &'a R,
    tally: Tally,
}

impl<'a, R> Model for StdErr<'a, R> {
    ghost use Rattle.std.specs.Prelude.{None};
    ghost use Rattle.uc_outside.specs.Taking.{SinkState};

    ghost Value = { SinkState };

    ghost view = { λ s. record { count = s.tally.faults; told = None; room = None; failing = s.tally.failing } };
}

impl<'a, R: ErrorStream> StdErr<'a, R> {
    /// The standard error of this runtime, with no failed put so far.
    pub fn new(rt: &'a R) -> StdErr<'a, R>
        ensures { result ≡ record { count = 0; told = None; room = None; failing = false } }
    {
        StdErr {
            rt,
            tally: Tally::new(),
        }
    }
}

impl<'a, R: ErrorStream> Sink for StdErr<'a, R> {
    ghost state = { λ s. s };

    fn faults(&self) -> u64 {
        self.tally.faults
    }

    fn put(&mut self, piece: &[u8]) -> Result<usize, SinkFault> {
        took(&mut self.tally, piece, self.rt.write_some_error(piece))
    }
}

/// What a stream's puts came to: how many failed, and whether the last one did.
#[derive(Drop)]
struct Tally {
    faults: u64,
    failing: bool,
}

impl Tally {
    fn new() -> Tally
        ensures faults { result.faults ≡ 0 }
        ensures failing { result.failing ≡ false }
    {
        Tally {
            faults: 0,
            failing: false,
        }
    }
}

/// What a stream's answer to a piece means: to take nothing of it is a fault too.
fn took(tally: &mut Tally, piece: &[u8], answer: io::Result<usize>) -> Result<usize, SinkFault>
    requires { IfOk answer (λ n. n ≤ length piece.now) }
    ensures bound { IfOk result (λ n. n ≤ length piece.now) }
    ensures progress { IfOk result (λ n. 0 < length piece.now → 0 < n) }
    ensures same_count { OnOk result (tally.new.faults ≡ tally.old.faults) }
    ensures well { OnOk result (IsFalse tally.new.failing) }
    ensures rose { OnErr result (CountRose tally.old.faults tally.new.faults) }
    ensures once { OnErr result (tally.new.faults ≤ tally.old.faults + 1) }
    ensures last { OnErr result (IsTrue tally.new.failing) }
    ensures never_falls { tally.old.faults ≤ tally.new.faults }
{
    match answer {
        Ok(n) if n > 0 || piece.is_empty() => {
            tally.failing = false;
            Ok(n)
        }
        _ => {
            tally.failing = true;
            tally.faults = tally.faults.saturating_add(1);
            Err(SinkFault::Failed)
        }
    }
}

// A sink in memory that is taken first.
ghost use Rattle.std.specs.Prelude.{◌≡◌, ◌+◌, ◌<◌, ◌≤◌, length, take, IfOk, OnOk, OnErr, Some, [], IsFalse, false};
ghost use Rattle.uc_outside.specs.Taking.{Took, TookNothing, FailedAt};

use crate::faults::SinkFault;
use crate::sinks::Sink;
use std::alloc::{AllocError, Global};
use std::marker::Model;

/// A sink with a room: it takes each piece that fits whole, and fails at a longer one alone.
#[derive(Drop)]
pub struct FixedSink {
    bytes: Vec<u8>,
    room: usize,
    faults: u64,
    failing: bool,
}

impl Model for FixedSink {
    ghost use Rattle.std.specs.Prelude.{◌≡◌, ◌+◌, ◌≤◌, Some, vec_len, vec_capacity};
    ghost use Rattle.uc_outside.specs.Taking.{SinkState};

    ghost Value = { SinkState };

    ghost view = { λ s. record { count = s.faults; told = Some s.bytes.items; room = Some s.room; failing = s.failing } };

    ghost invariant = { λ s. vec_len s.bytes + s.room ≤ vec_capacity s.bytes };
}

impl FixedSink {
    /// Takes memory for `room` bytes.
    pub fn new(alloc: Global, room: usize) -> Result<FixedSink, AllocError>
        ensures { IfOk result (λ s. s
            ≡ record { count = 0; told = Some []; room = Some room; failing = false }) }
    {
        let bytes = Vec::with_capacity(alloc, room)?;
        Ok(FixedSink {
            bytes,
            room,
            faults: 0,
            failing: false,
        })
    }

    /// The bytes that it took.
    pub fn bytes(&self) -> &[u8]
        ensures { self.now.told ≡ Some result.now }
    {
        self.bytes.as_slice()
    }
}

impl Sink for FixedSink {
    ghost state = { λ s. s };

    fn faults(&self) -> u64 {
        self.faults
    }

    fn put(&mut self, piece: &[u8]) -> Result<usize, SinkFault>
        ensures bound { IfOk result (λ n. n ≤ length piece.now) }
        ensures progress { IfOk result (λ n. 0 < length piece.now → 0 < n) }
        ensures ok { IfOk result (λ n. Took self.old self.new (take n piece.now)) }
        ensures well { OnOk result (IsFalse self.new.failing) }
        ensures never_falls { self.old.count ≤ self.new.count }
        ensures failed { OnErr result (FailedAt self.old self.new piece.now) }
        ensures nothing { OnErr result (TookNothing self.old self.new) }

        // It counts no puts.
        ensures counted { 0 ≤ 0 + 1 }

        // It takes a piece whole or not at all.
        ensures whole { IfOk result (λ n. n ≡ length piece.now) }
    {
        self.failing = piece.len() > self.room;
        if self.failing {
            self.faults = self.faults.saturating_add(1);
            return Err(SinkFault::Failed);
        }
        self.bytes.extend_from_slice(piece).unwrap();
        self.room -= piece.len();
        Ok(piece.len())
    }
}

// A sink in memory that fails at the puts of some numbers.
ghost use Rattle.std.specs.Prelude.{◌≡◌, ◌+◌, ◌<◌, ◌≤◌, length, take, IfOk, OnOk, OnErr, [], IsFalse, false};
ghost use Rattle.uc_outside.specs.Taking.{Took, TookNothing, FailedAt};
ghost use Rattle.uc_outside.specs.Memory.{sink_of, next_call, front_length, PutMustFail};

use crate::faults::SinkFault;
use crate::sinks::Sink;
use std::alloc::{AllocError, Global};
use std::marker::Model;

/// A sink for tests of what a failed put leads to. It takes at most so many bytes a put; its puts
/// are numbered from 1, and those of listed numbers fail, as do those past its memory. A number
/// that stands at the largest `u64` stays there.
#[derive(Drop)]
pub struct MemSink {
    bytes: Vec<u8>,
    left: usize,
    puts: u64,
    fail: Vec<u64>,
    most: usize,
    faults: u64,
    failing: bool,
}

impl Model for MemSink {
    ghost use Rattle.std.specs.Prelude.{◌+◌, ◌<◌, ◌≤◌, vec_len, vec_capacity};
    ghost use Rattle.uc_outside.specs.Memory.{ListedSink};

    ghost Value = { ListedSink };

    ghost view = { λ s. record { count = s.faults; held = s.bytes.items; left = s.left; puts = s.puts; fails = s.fail.items; most = s.most; failing = s.failing } };

    ghost invariant = { λ s. (vec_len s.bytes + s.left ≤ vec_capacity s.bytes) × (0 < s.most) };
}

impl MemSink {
    /// Takes memory for `room` bytes. The puts of the numbers in `fail` fail, and one put takes at
    /// most `most` bytes.
    pub fn new(
        alloc: Global,
        room: usize,
        fail: Vec<u64>,
        most: usize,
    ) -> Result<MemSink, AllocError>
        requires { 0 < most }
        ensures { IfOk result (λ s. s ≡ record {
          count = 0;
          held = [];
          left = room;
          puts = 0;
          fails = fail.items;
          most = most;
          failing = false;
        }) }
    {
        let bytes = Vec::with_capacity(alloc, room)?;
        Ok(MemSink {
            bytes,
            left: room,
            puts: 0,
            fail,
            most,
            faults: 0,
            failing: false,
        })
    }

    /// The bytes that it took.
    pub fn bytes(&self) -> &[u8]
        ensures { result.now ≡ self.now.held }
    {
        self.bytes.as_slice()
    }
}

impl Sink for MemSink {
    ghost state = { sink_of };

    ghost puts = { λ s. s.puts };

    fn faults(&self) -> u64 {
        self.faults
    }

    fn put(&mut self, piece: &[u8]) -> Result<usize, SinkFault>
        ensures bound { IfOk result (λ n. n ≤ length piece.now) }
        ensures progress { IfOk result (λ n. 0 < length piece.now → 0 < n) }
        ensures ok { IfOk result (λ n. Took (sink_of self.old) (sink_of self.new)
            (take n piece.now)) }
        ensures well { OnOk result (IsFalse self.new.failing) }
        ensures counted { self.new.puts ≤ self.old.puts + 1 }
        ensures never_falls { self.old.count ≤ self.new.count }
        ensures failed { OnErr result (FailedAt (sink_of self.old) (sink_of self.new) piece.now) }
        ensures nothing { OnErr result (TookNothing (sink_of self.old) (sink_of self.new)) }
        ensures numbered { self.new.puts ≡ next_call self.old.puts }
        ensures same_list { self.new.fails ≡ self.old.fails }
        ensures same_most { self.new.most ≡ self.old.most }
        ensures takes { IfOk result (λ n. n ≡ front_length self.old piece.now) }
        ensures less_left { IfOk result (λ n. self.new.left + n ≡ self.old.left) }
        ensures same_left { OnErr result (self.new.left ≡ self.old.left) }

        // It fails exactly where its number is listed or the memory that is left is too small.
        ensures must_fail { OnErr result (PutMustFail self.old piece.now) }
        ensures need_not_fail { OnOk result (PutMustFail self.old piece.now → ⊥) }
    {
        self.puts = self.puts.saturating_add(1);
        let front = &piece[..piece.len().min(self.most)];
        self.failing = self.fail.contains(&self.puts) || front.len() > self.left;
        if self.failing {
            self.faults = self.faults.saturating_add(1);
            return Err(SinkFault::Failed);
        }
        self.bytes.extend_from_slice(front).unwrap();
        self.left -= front.len();
        Ok(front.len())
    }
}

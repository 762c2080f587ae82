// What a sink is, and how a whole text is put.
ghost use Rattle.std.specs.Prelude.{◌≡◌, ◌+◌, ◌<◌, ◌≤◌, ℕ, length, take, IfOk, OnOk, OnErr, IsFalse};
ghost use Rattle.uc_outside.specs.Taking.{SinkState, Took, TookNothing, TookPrefix, FailedAt, Stopped};

use crate::faults::SinkFault;

/// Takes bytes.
///
/// Contracts see a sink as its `state`: the count of its failed puts, the bytes that it took where
/// it tells them, its room, the number of bytes that it still takes for certain, where it has one,
/// and whether its last put failed.
pub trait Sink {
    ghost state: { Self → SinkState };

    // How many puts it counts. One that counts none still bounds the puts of generic code, which
    // is proved for each sink.
    ghost puts: { Self → ℕ } = { λ _. 0 };

    /// How many puts have failed. At the largest `u64` the count stands still.
    fn faults(&self) -> u64
        ensures { result ≡ (state self.now).count };

    /// Takes some of the piece's front, at least one byte if there is one, and answers how many.
    fn put(&mut self, piece: &[u8]) -> Result<usize, SinkFault>
        ensures bound { IfOk result (λ n. n ≤ length piece.now) }
        ensures progress { IfOk result (λ n. 0 < length piece.now → 0 < n) }
        ensures ok { IfOk result (λ n. Took (state self.old) (state self.new) (take n piece.now)) }
        ensures well { OnOk result (IsFalse (state self.new).failing) }
        ensures counted { puts self.new ≤ puts self.old + 1 }
        ensures never_falls { (state self.old).count ≤ (state self.new).count }

        // A put that fails counts once. A piece that fits into the room does not fail.
        ensures failed { OnErr result (FailedAt (state self.old) (state self.new) piece.now) }
        ensures nothing { OnErr result (TookNothing (state self.old) (state self.new)) };
}

/// Puts the whole text, in at most as many puts as it has bytes.
pub fn put_all<S: Sink>(s: &mut S, text: &[u8]) -> Result<(), SinkFault>
    ensures ok { OnOk result (Took (S.state s.old) (S.state s.new) text.now) }
    ensures few_puts { S.puts s.new ≤ S.puts s.old + length text.now }
    ensures never_falls { (S.state s.old).count ≤ (S.state s.new).count }

    // No put is made after one that failed.
    ensures stops { Stopped (S.state s.old) (S.state s.new) }

    // A text that fits into the room does not fail.
    ensures failed { OnErr result (FailedAt (S.state s.old) (S.state s.new) text.now) }
    ensures prefix { OnErr result (TookPrefix (S.state s.old) (S.state s.new) text.now) }
{
    let mut rest = text;
    while !rest.is_empty() {
        let taken = s.put(rest)?;
        rest = &rest[taken..];
    }
    Ok(())
}

// Tasks that ask.

ghost use Rattle.std.specs.Prelude.{◌≡◌, ℕ, IfOk, OnOk};
ghost use Rattle.uc_entry.specs.declared.request.Asked.{Asked};
ghost use Rattle.uc_judge.specs.declared.asks.Change.{Change};
ghost use Rattle.uc_judge.specs.Asking.{Walks, IsWhole, OneWalk};

use std::alloc::AllocError;
use uc_entry::request::{Answer, Asked};

/// What a task asks, and the ticks that it makes before.
#[derive(Clone, Copy)]
pub struct Walked {
    pub ticks: u32,
    pub asked: Asked,
}

/// What an entry of a journal changes for the tasks.
#[derive(Clone, Copy)]
pub enum Change {
    /// A task goes on with this.
    Answered { task: u32, answer: Answer },
    /// A task begins, whose own object this is.
    Spawned { object: u32, task: u32 },
    /// An object is no more.
    Gone { object: u32 },
}

/// Tasks that ask: what each asks next is a matter of what it was answered.
///
/// Contracts see what a task may ask as the relation `asks`, of the tasks before, the number of the
/// task, the ticks that it has left, those that it makes, what it asks then, and the tasks behind
/// that; and the tasks behind a change as `told`.
pub trait Asks {
    ghost asks: { Self → ℕ → ℕ → ℕ → Asked → Self → Type 0 };

    ghost told: { Self → Change → Self };

    /// What a task asks within so many ticks. None where it asks nothing: there is no such task, or
    /// its last request is not answered.
    fn ask(&mut self, task: u32, quantum: u32) -> Result<Option<Walked>, AllocError>
        ensures { IfOk result (λ walked. Walks asks self.old task quantum walked self.new) };

    /// Tells the tasks of a change.
    fn tell(&mut self, change: Change) -> Result<(), AllocError>
        ensures { OnOk result (self.new ≡ told self.old change) };

    // What a task asks is one thing, and whole.

    ghost once: { (w : Self) (t q k m : ℕ) (r s : Asked) (x y : Self) → asks w t q k r x → asks w t q m s y → OneWalk k m r s x y };

    ghost whole: { (w : Self) (t q k : ℕ) (r : Asked) (x : Self) → asks w t q k r x → IsWhole r.request };
}

// A gate at which rides of two processors wait for each other.

use std::sync::atomic::{AtomicU64, Ordering};
use uc_outside::Gate;

// So many pairs of rides wait for each other.
const PAIRS: u64 = 5;

// A wait ends after so many turns.
const TURNS: u32 = 1_000_000_000;

/// Ride i of one processor waits until ride i of the other has come, for i from 1 to 5. The first ride of processor 0 is not counted:
/// without it there is no task for another processor. Where a wait ends in vain, no later ride waits.
#[derive(Drop)]
pub struct Meeting {
    // How many rides have come, by the processor; of processor 0 the first one too.
    first: AtomicU64,
    second: AtomicU64,
    // How many rides have come that are behind their worker's first dispatch.
    workers: AtomicU64,
    in_vain: AtomicU64,
}

impl Meeting {
    /// A gate to which nobody has come.
    pub fn new() -> Meeting {
        Meeting {
            first: AtomicU64::new(0),
            second: AtomicU64::new(0),
            workers: AtomicU64::new(0),
            in_vain: AtomicU64::new(0),
        }
    }

    /// How many pairs have come, up to 5.
    pub fn pairs(&self) -> u64 {
        let first = self.first.load(Ordering::SeqCst).saturating_sub(1);
        let second = self.second.load(Ordering::SeqCst);
        first.min(second).min(PAIRS)
    }

    /// How many workers have come, each with its first dispatch.
    pub fn workers(&self) -> u64 {
        self.workers.load(Ordering::SeqCst)
    }

    /// Whether a wait ended in vain.
    pub fn is_in_vain(&self) -> bool {
        self.in_vain.load(Ordering::SeqCst) != 0
    }

    // Waits until so many rides have come of the other processor.
    fn wait(&self, other: &AtomicU64, rides: u64) {
        for _ in 0..TURNS {
            if self.is_in_vain() {
                return;
            }
            if other.load(Ordering::SeqCst) >= rides {
                return;
            }
        }
        self.in_vain.store(1, Ordering::SeqCst);
    }
}

impl Gate for Meeting {
    fn ride(&self, processor: u32, dispatches: u64) {
        if dispatches == 1 {
            self.workers.fetch_add(1, Ordering::SeqCst);
        }
        if processor == 0 {
            // The number of this ride, from 0: the first one is not counted.
            let number = self.first.fetch_add(1, Ordering::SeqCst);
            if number >= 1 && number <= PAIRS {
                self.wait(&self.second, number);
            }
        } else {
            let before = self.second.fetch_add(1, Ordering::SeqCst);
            if before < PAIRS {
                // Of processor 0 one ride more has come then.
                self.wait(&self.first, before + 2);
            }
        }
    }
}

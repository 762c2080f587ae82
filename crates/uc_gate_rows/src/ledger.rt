// A gate that writes down what it is told.

use std::alloc::{AllocError, Global};
use std::sync::atomic::{AtomicU64, Ordering};
use uc_outside::Gate;

// So many rides are written down, more than come.
const RIDES: u32 = 20;

// What the gate was told of a ride.
#[derive(Drop)]
struct Line {
    processor: AtomicU64,
    dispatches: AtomicU64,
}

/// What the gate was told of each ride, in the order in which it was told.
#[derive(Drop)]
pub struct Ledger {
    // How many rides it was told of.
    rides: AtomicU64,
    lines: Vec<Line>,
}

impl Ledger {
    /// A gate that was told of no ride.
    pub fn new(alloc: Global) -> Result<Ledger, AllocError> {
        let mut lines = Vec::new(alloc);
        for _ in 0..RIDES {
            lines.push(Line {
                processor: AtomicU64::new(0),
                dispatches: AtomicU64::new(0),
            })?;
        }
        Ok(Ledger {
            rides: AtomicU64::new(0),
            lines,
        })
    }

    /// How many rides it was told of, and of each the processor and the count of dispatches, a line each.
    pub fn text(&self, alloc: Global) -> Result<String, AllocError> {
        let rides = self.rides.load(Ordering::SeqCst);
        let mut text = format!(in alloc; "rides {rides}\n")?;
        for line in self.lines.iter().take(rides as usize) {
            let processor = line.processor.load(Ordering::SeqCst);
            let dispatches = line.dispatches.load(Ordering::SeqCst);
            text.push_str(&format!(in alloc; "processor {processor} dispatch {dispatches}\n")?)?;
        }
        Ok(text)
    }
}

impl Gate for Ledger {
    fn ride(&self, processor: u32, dispatches: u64) {
        let number = self.rides.fetch_add(1, Ordering::SeqCst);
        if let Some(line) = self.lines.get(number as usize) {
            line.processor.store(u64::from(processor), Ordering::SeqCst);
            line.dispatches.store(dispatches, Ordering::SeqCst);
        }
    }
}

// What workers wait at that find nothing to do.

use std::sync::Wait;
use std::sync::atomic::AtomicU64;
use std::sync::atomic::Ordering::SeqCst;
use std::time::Duration;

// The first sleep, in microseconds. Each that follows is twice as long, up to so many times.
const SHORTEST: u64 = 32;

const DOUBLINGS: u32 = 5;

/// A count of what may be work for one more worker, and of the workers that sleep. Nothing rests on either: a worker that wakes looks
/// at the kernel itself, and none sleeps for long.
#[derive(Drop)]
pub struct Bell {
    rung: AtomicU64,
    sleepers: AtomicU64,
}

impl Bell {
    pub fn new() -> Bell {
        Bell {
            rung: AtomicU64::new(0),
            sleepers: AtomicU64::new(0),
        }
    }

    /// How often it was rung.
    pub fn heard(&self) -> u64 {
        self.rung.load(SeqCst)
    }

    /// There may be work for one more worker.
    pub fn ring(&self) {
        self.rung.fetch_add(1, SeqCst);
        if self.sleepers.load(SeqCst) != 0 {
            self.rung.wake_one();
        }
    }

    /// The run is over.
    pub fn ring_all(&self) {
        self.rung.fetch_add(1, SeqCst);
        self.rung.wake_all();
    }

    /// Sleeps until it is rung more often than was heard before the kernel was looked at, and no longer than a time that grows with
    /// how often that look was in vain.
    pub fn wait<R: Wait>(&self, rt: &R, heard: u64, vain: u32) {
        let time = Duration::from_micros(SHORTEST << vain.min(DOUBLINGS));
        self.sleepers.fetch_add(1, SeqCst);
        self.rung
            .park_timeout(rt, (heard & 0xffff_ffff) as u32, time);
        self.sleepers.fetch_sub(1, SeqCst);
    }
}

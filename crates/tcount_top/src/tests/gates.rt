//! A gate at which two workers meet.
use std::sync::atomic::{AtomicU64, Ordering};
use steal_sweep::Turnstile;

/// Sees whether worker 0 and another were ever inside at once, and counts the passes.
#[derive(Drop)]
pub struct Meeting {
    first: AtomicU64,
    second: AtomicU64,
    met: AtomicU64,
    passes: AtomicU64,
}

impl Meeting {
    /// A gate that nobody has passed.
    pub fn new() -> Meeting {
        Meeting {
            first: AtomicU64::new(0),
            second: AtomicU64::new(0),
            met: AtomicU64::new(0),
            passes: AtomicU64::new(0),
        }
    }

    /// Whether two were inside at once.
    pub fn was_seen(&self) -> bool {
        self.met.load(Ordering::SeqCst) != 0
    }

    /// How many passes there were.
    pub fn passes(&self) -> u64 {
        self.passes.load(Ordering::SeqCst)
    }

    /// Raises one flag, looks for the other for a while, and lowers the own one again.
    fn enter(&self, mine: &AtomicU64, other: &AtomicU64) {
        mine.store(1, Ordering::SeqCst);
        for _ in 0..200_000_000 {
            if other.load(Ordering::SeqCst) == 1 {
                self.met.store(1, Ordering::SeqCst);
                break;
            }
        }
        mine.store(0, Ordering::SeqCst);
    }
}

impl Turnstile for Meeting {
    /// Counts the pass, and looks out for the other worker.
    fn pass(&self, worker: u32, _turn: u64) {
        self.passes.fetch_add(1, Ordering::SeqCst);
        if worker == 0 {
            self.enter(&self.first, &self.second);
        } else {
            self.enter(&self.second, &self.first);
        }
    }
}

use crate::Turnstile;
use std::sync::atomic::{AtomicU64, Ordering};

/// A number that seems random, from a seed and the numbers before it (the mixing step of SplitMix64).
pub fn mix(seed: u64, number: u64) -> u64 {
    let mut z = seed.wrapping_add(number.wrapping_mul(0x9e37_79b9_7f4a_7c15));
    z = (z ^ (z >> 30)).wrapping_mul(0xbf58_476d_1ce4_e5b9);
    z = (z ^ (z >> 27)).wrapping_mul(0x94d0_49bb_1331_11eb);
    z ^ (z >> 31)
}

/// Holds some passes up for a while, by the seed.
#[derive(Drop)]
pub struct Delays {
    pub seed: u64,
    pub spun: AtomicU64,
}

impl Delays {
    /// Delays by a seed.
    pub fn new(seed: u64) -> Delays {
        Delays {
            seed,
            spun: AtomicU64::new(0),
        }
    }
}

impl Turnstile for Delays {
    /// Counts for a while before one pass of four.
    fn pass(&self, worker: u32, turn: u64) {
        let drawn = mix(self.seed, turn.wrapping_mul(8) ^ u64::from(worker));
        if drawn % 4 == 0 {
            for _ in 0..drawn % 20_000 {
                self.spun.fetch_add(1, Ordering::SeqCst);
            }
        }
    }
}

/// Sees whether worker 0 and another were ever inside at once.
#[derive(Drop)]
pub struct Meeting {
    first: AtomicU64,
    second: AtomicU64,
    met: AtomicU64,
}

impl Meeting {
    /// Nobody has come yet.
    pub fn new() -> Meeting {
        Meeting {
            first: AtomicU64::new(0),
            second: AtomicU64::new(0),
            met: AtomicU64::new(0),
        }
    }

    /// Whether two were inside at once.
    pub fn was_seen(&self) -> bool {
        self.met.load(Ordering::SeqCst) != 0
    }

    /// Comes in, and stays until the other comes or a time has passed.
    fn enter(&self, mine: &AtomicU64, other: &AtomicU64) {
        mine.store(1, Ordering::SeqCst);
        for _ in 0..200_000_000 {
            if other.load(Ordering::SeqCst) == 1 {
                self.met.store(1, Ordering::SeqCst);
                break;
            }
        }
        mine.store(0, Ordering::SeqCst);
    }
}

impl Turnstile for Meeting {
    /// Lets worker 0 meet another.
    fn pass(&self, worker: u32, _turn: u64) {
        if worker == 0 {
            self.enter(&self.first, &self.second);
        } else {
            self.enter(&self.second, &self.first);
        }
    }
}

/// Sees whether the passes of one worker come in turn.
#[derive(Drop)]
pub struct Turns {
    next: AtomicU64,
    astray: AtomicU64,
}

impl Turns {
    /// No pass yet.
    pub fn new() -> Turns {
        Turns {
            next: AtomicU64::new(0),
            astray: AtomicU64::new(0),
        }
    }

    /// How many passes there were, if they came in turn.
    pub fn count(&self) -> Option<u64> {
        if self.astray.load(Ordering::SeqCst) == 0 {
            Some(self.next.load(Ordering::SeqCst))
        } else {
            None
        }
    }
}

impl Turnstile for Turns {
    /// Counts a pass, and keeps in mind one that comes astray.
    fn pass(&self, worker: u32, turn: u64) {
        if worker != 0 || turn != self.next.fetch_add(1, Ordering::SeqCst) {
            self.astray.store(1, Ordering::SeqCst);
        }
    }
}

// What a worker passes before each block.
ghost use Rattle.std.specs.Prelude.{◌≡◌, ◌≢◌};

use std::hint::spin_loop;

/// What a worker passes before each block that it has taken. It returns, and nothing that it does changes an answer.
pub trait Turnstile {
    /// Passes before a block: `turn` counts this worker's blocks from 0.
    fn pass(&self, worker: u32, turn: u64);
}

/// Passes at once.
#[derive(Clone, Copy, Debug)]
pub struct OpenWay;

impl Turnstile for OpenWay {
    /// Does nothing.
    fn pass(&self, _worker: u32, _turn: u64) {}
}

/// Passes at once, but where one worker passes before one of its blocks it first counts to a number: so a schedule can be
/// tried in which that worker comes late.
#[derive(Clone, Copy, Debug)]
pub struct Delay {
    /// The worker that is held up.
    pub worker: u32,
    /// The number of the block before which it is held up, counted from 0.
    pub turn: u64,
    /// How far it counts.
    pub spins: u32,
}

impl Delay {
    /// How far a worker counts before one of its blocks: 0 but where it is the worker and the turn that is held up.
    pub fn spins_before(&self, worker: u32, turn: u64) -> u32
        ensures held { worker ≡ self.now.worker → turn ≡ self.now.turn → result ≡ self.now.spins }
        ensures other_worker { worker ≢ self.now.worker → result ≡ 0 }
        ensures other_turn { turn ≢ self.now.turn → result ≡ 0 }
    {
        if worker == self.worker && turn == self.turn {
            self.spins
        } else {
            0
        }
    }
}

impl Turnstile for Delay {
    /// Counts as far as it is to before the block.
    fn pass(&self, worker: u32, turn: u64) {
        for _ in 0..self.spins_before(worker, turn) {
            spin_loop();
        }
    }
}

//! Workers over the shares of a deal: a job at each dealt position, and the least position at which a test is true.
//!
//! `for_each` starts one worker for each share. A worker takes blocks, its own first and then what it can steal, passes
//! a turnstile before each, and does a job at each position on a local of its own, until its share has ended. Which
//! worker does which block is left to the schedule. Whatever it is, each local stands afterwards for the positions of
//! the blocks that its share was given, and the blocks of all shares are those dealt, each once.
//!
//! `least_hit` is a job, `Search`, whose locals share one word, the best position that any worker has found. A worker
//! skips a position where the word is no greater, so the workers help one another, and the answer is the least hit whatever
//! the schedule. The test is stored in a `Sweep` beside the fact that its answer depends on the position alone.
//!
//! No worker waits for another, unless its turnstile does. `for_each` and `least_hit` return once all their workers have. No
//! call but `Best::new` is handed an allocator; a thread that is started has a stack of its own.
#![tactic(auto)]

mod best;
mod each;
mod job;
mod least;
mod rule;
mod search;
mod sweep;
mod turnstile;

pub use best::{Best, BestSeat};
pub use each::for_each;
pub use job::Job;
pub use least::least_hit;
pub use search::{Search, Seeker};
pub use sweep::{Local, Sweep, Test};
pub use turnstile::{Delay, OpenWay, Turnstile};

#[cfg(test)]
mod tests;

// A job over all positions of a deal.
ghost use Rattle.std.specs.Prelude.{◌≡◌, ℕ, ◌<◌, ◌≤◌, [], List, All, IsTrue, map, length, slice_index_or};
ghost use Rattle.work_shares.specs.Shares.{AreDeal, IsFresh, AreEnded, place_of, noted_by, is_ended, load_of};
ghost use Rattle.steal_sweep.specs.Positions.{positions_in};

use crate::job::{Job, do_positions};
use crate::turnstile::Turnstile;
use std::thread;
use std::thread::Threads;
use work_shares::Share;

/// One worker's part of a deal: its blocks, until its share has ended.
fn work<L, J: Job<L>, G: Turnstile>(job: &J, gate: &G, worker: u32, share: &mut Share<L>)
    requires fresh { IsFresh share.old }
    requires own { (p : ℕ) → p < (place_of share.old).total → J.own job.now p }
    requires stands { J.stands job.now share.old.load [] }
    ensures place { place_of share.new ≡ place_of share.old }
    ensures ended { IsTrue (is_ended share.new) }
    ensures stands { J.stands job.now share.new.load (positions_in (noted_by share.new)) }
    ensures name { J.name job.now share.new.load ≡ J.name job.now share.old.load }
{
    let mut turn = 0u64;
    while let Some(block) = share.next() {
        gate.pass(worker, turn);
        turn = turn.wrapping_add(1);
        do_positions(job, &mut share.load, block.first, block.count);
    }
}

/// All workers' parts.
fn work_all<H: Threads + Sync, L: Send, J: Job<L> + Sync, G: Turnstile + Sync>(
    th: &H,
    shares: &mut [Share<L>],
    job: &J,
    gate: &G,
)
    requires some { 0 < length shares.old }
    requires few { length shares.old ≤ 8 }
    requires fresh { All IsFresh shares.old }
    requires own { All (λ s. (p : ℕ) → p < (place_of s).total → J.own job.now p) shares.old }
    requires stands { All (λ s. J.stands job.now s.load []) shares.old }
    ensures place { (k : ℕ) (d : Share L) → k < length shares.old
        → place_of (slice_index_or shares.new k d) ≡ place_of (slice_index_or shares.old k d) }
    ensures ended { AreEnded shares.new }
    ensures stands { All (λ s. J.stands job.now s.load (positions_in (noted_by s))) shares.new }
    ensures name { (k : ℕ) (d : Share L) → k < length shares.old
        → J.name job.now (slice_index_or shares.new k d).load ≡ J.name job.now (slice_index_or shares.old k d).load }
{
    let workers = shares.len();
    let part = |worker: usize, share: &mut Share<L>|
        requires { (worker < 8) × IsFresh share.old × J.stands job.now share.old.load []
            × ((p : ℕ) → p < (place_of share.old).total → J.own job.now p) }
    { work(job, gate, worker as u32, share) };
    thread::for_each_mut(th, shares, workers, &part);
}

/// Does the job at each dealt position, with one worker for each share. Each worker takes blocks until its share has
/// ended, and does them on the load of its share, its local. Where no thread can be started the caller does the work.
///
/// It returns once all workers have. Afterwards local j stands for the positions of the blocks that share j was given, in
/// the order in which they were taken, under the name that it had before, and each share stands at its old place in the
/// deal. It takes no memory from an allocator.
pub fn for_each<H: Threads + Sync, L: Send, J: Job<L> + Sync, G: Turnstile + Sync>(
    th: &H,
    shares: &mut Vec<Share<L>>,
    job: &J,
    gate: &G,
)
    requires deal { (total : ℕ) × ((block : ℕ) × AreDeal total block shares.old.items
        × ((p : ℕ) → p < total → J.own job.now p)) }
    requires fresh { All IsFresh shares.old.items }
    requires stands { All (λ local. J.stands job.now local []) (map load_of shares.old.items) }
    ensures deal { (total block : ℕ) → AreDeal total block shares.old.items
        → AreDeal total block shares.new.items }
    ensures place { map place_of shares.new.items ≡ map place_of shares.old.items }
    ensures ended { AreEnded shares.new.items }
    ensures stands { All (λ s. J.stands job.now s.load (positions_in (noted_by s))) shares.new.items }
    ensures name { map (λ s. J.name job.now s.load) shares.new.items
        ≡ map (λ s. J.name job.now s.load) shares.old.items }
{
    work_all(th, shares.as_mut_slice(), job, gate);
}

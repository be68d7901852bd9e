// The least hit of a sweep.
ghost use Rattle.std.specs.Prelude.{◌≡◌, ℕ, ◌<◌, ◌≤◌, Bool, true, false, length, All, map, sum_by, IfSome, IfNone};
ghost use Rattle.work_shares.specs.Shares.{AreDeal, IsFresh, load_of};
ghost use Rattle.steal_sweep.specs.Tests.{fit_for};
ghost use Rattle.steal_sweep.specs.Searches.{IsHit, IsLeastHit};
ghost use Rattle.steal_sweep.specs.Seats.{IsSeatOf, AreNewSeatsOf, known_by};

use crate::best::{Best, BestSeat};
use crate::each::for_each;
use crate::search::{Search, Seeker};
use crate::sweep::{Local, Sweep, Test};
use crate::turnstile::Turnstile;
use std::thread::Threads;
use work_shares::{Share, settle};

/// One seat that knows what all seekers' seats know. Their locals are dropped.
fn join_seats<L: Drop>(best: &Best, mut seekers: Vec<Seeker<L>>) -> BestSeat
    requires some { 0 < length seekers.items }
    requires seats { All (λ s. IsSeatOf best.now s.seat) seekers.items }
    ensures seat { IsSeatOf best.now result }
    ensures parts { (known_by result).parts ≡ sum_by (λ s. (known_by s.seat).parts) seekers.items }
    ensures least { All (λ s. (known_by result).least ≤ (known_by s.seat).least) seekers.items }
    ensures hits { (truth : ℕ → Bool) (total : ℕ)
        → All (λ s. All (IsHit truth total) (known_by s.seat).put) seekers.items
        → All (IsHit truth total) (known_by result).put }
{
    let Some(Seeker { seat, local }) = seekers.pop() else {
        unreachable!()
    };
    drop(local);
    let mut all = seat;
    while let Some(Seeker { seat, local }) = seekers.pop() {
        drop(local);
        best.join(&mut all, seat);
    }
    all
}

/// The least position of the sweep whose truth value is true, by one worker for each share, or `None` where there is
/// none. The shares are settled, and what they carry is dropped. It takes no memory from an allocator.
///
/// What a worker does at a position is a turn of `Search`: it skips a position only where the best word, as it loaded it
/// there, is no greater.
pub fn least_hit<
    H: Threads + Sync,
    L: Local + Send + Sync + Drop,
    F: Test<L> + Sync,
    G: Turnstile + Sync,
>(
    th: &H,
    sweep: &Sweep<L, F>,
    mut shares: Vec<Share<Seeker<L>>>,
    best: Best,
    gate: &G,
) -> Option<u64>
    requires deal { (block : ℕ) × AreDeal sweep.now.total block shares.items }
    requires needs { F.needs sweep.now.test }
    requires fresh { All IsFresh shares.items }
    requires fit { All (λ seeker. fit_for F.fits L.fit sweep.now.test seeker.local ≡ true) (map load_of shares.items) }
    requires seats { AreNewSeatsOf best (map (λ seeker. seeker.seat) (map load_of shares.items)) }
    ensures some { IfSome result (λ p. IsLeastHit (F.truth sweep.now.test) sweep.now.total p) }
    ensures none { IfNone result ((p : ℕ) → p < sweep.now.total → F.truth sweep.now.test p ≡ false) }
{
    let search = Search { sweep, best: &best };
    for_each(th, &mut shares, &search, gate);
    let seat = join_seats(&best, settle(shares).loads());
    let word = best.close(seat);
    if word < sweep.total { Some(word) } else { None }
}

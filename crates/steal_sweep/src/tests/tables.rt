ghost use Rattle.std.specs.Prelude.{◌≡◌, ◌<◌, ◌≤◌, ◌^◌, All, length, map, IfOk};
ghost use Rattle.work_shares.specs.Shares.{AreDeal, IsFresh, load_of};
ghost use Rattle.steal_sweep.specs.Seats.{AreNewSeatsOf};

use crate::{
    Best, BestSeat, Job, Local, Search, Seeker, Sweep, Test, Turnstile, for_each, least_hit,
};
use std::alloc::{AllocError, Global};
use std::sync::atomic::{AtomicU64, Ordering};
use std::thread::Threads;
use work_shares::{Share, deal};

/// A local that counts its own calls.
#[derive(Drop)]
pub struct Calls(u64);

impl Local for Calls {
    ghost use Rattle.std.specs.Prelude.{true};

    ghost fit = { λ _. true };
}

/// A table of truth values, which counts all calls.
#[derive(Drop)]
pub struct Table<'a> {
    truths: &'a [bool],
    asked: AtomicU64,
}

impl<'a> Table<'a> {
    /// A table of these truth values, of which none was asked.
    fn new(truths: &'a [bool]) -> Table<'a>
        ensures { result.truths.now ≡ truths.now }
    {
        Table {
            truths,
            asked: AtomicU64::new(0),
        }
    }
}

impl<'a> Test<Calls> for Table<'a> {
    ghost use Rattle.std.specs.Prelude.{◌≡◌, nat_lt, length, false, slice_index_or};

    ghost may = { λ t l p. nat_lt p (length t.truths.now) };

    ghost gives = { λ t l p r l'. r ≡ slice_index_or t.truths.now p false };

    ghost truth = { λ t p. slice_index_or t.truths.now p false };

    /// The truth value at the position, counted by the local and by the table.
    fn answer(&self, local: &mut Calls, position: u64) -> bool {
        local.0 = local.0.wrapping_add(1);
        self.asked.fetch_add(1, Ordering::SeqCst);
        self.truths[position as usize]
    }
}

/// A seeker for each seat, which has asked nothing.
fn seekers(alloc: Global, seats: Vec<BestSeat>) -> Result<Vec<Seeker<Calls>>, AllocError>
    ensures { IfOk result (λ v. v.items ≡ map (λ seat. record { seat = seat; local = record { 0 = 0 } }) seats.items) }
{
    seats
        .into_iter()
        .map(|seat| Seeker {
            seat,
            local: Calls(0),
        })
        .collect(alloc)
}

/// A best word, and a share in blocks of 64 for each of its seats.
fn deal_seekers(
    alloc: Global,
    total: u64,
    workers: u32,
) -> Result<(Best, Vec<Share<Seeker<Calls>>>), AllocError>
    requires short { total ≤ 2 ^ 29 }
    requires some { 1 ≤ workers }
    requires few { workers ≤ 8 }
    ensures deal { IfOk result (λ r. AreDeal total 64 r.1.items) }
    ensures fresh { IfOk result (λ r. All IsFresh r.1.items) }
    ensures seats { IfOk result (λ r. AreNewSeatsOf r.0 (map (λ s. s.seat) (map load_of r.1.items))) }
{
    let (best, seats) = Best::new(alloc, workers)?;
    let shares = deal(alloc, total, 64, seekers(alloc, seats)?)?;
    Ok((best, shares))
}

/// The least hit of a table, and how often it was asked.
pub fn search_and_count<H: Threads + Sync, G: Turnstile + Sync>(
    th: &H,
    alloc: Global,
    truths: &[bool],
    workers: u32,
    gate: &G,
) -> Result<(Option<u64>, u64), AllocError>
    requires short { length truths.now ≤ 2 ^ 29 }
    requires some { 1 ≤ workers }
    requires few { workers ≤ 8 }
{
    let total = truths.len() as u64;
    let (best, shares) = deal_seekers(alloc, total, workers)?;
    let sweep = Sweep::new(total, Table::new(truths));
    let hit = least_hit(th, &sweep, shares, best, gate);
    Ok((hit, sweep.test.asked.load(Ordering::SeqCst)))
}

/// The least hit of a table.
pub fn search<H: Threads + Sync, G: Turnstile + Sync>(
    th: &H,
    alloc: Global,
    truths: &[bool],
    workers: u32,
    gate: &G,
) -> Result<Option<u64>, AllocError>
    requires short { length truths.now ≤ 2 ^ 29 }
    requires some { 1 ≤ workers }
    requires few { workers ≤ 8 }
{
    let (hit, _asked) = search_and_count(th, alloc, truths, workers, gate)?;
    Ok(hit)
}

/// How often the job of a search asks a table, as its locals count.
pub fn count_calls<H: Threads + Sync, G: Turnstile + Sync>(
    th: &H,
    alloc: Global,
    truths: &[bool],
    workers: u32,
    gate: &G,
) -> Result<u64, AllocError>
    requires short { length truths.now ≤ 2 ^ 29 }
    requires some { 1 ≤ workers }
    requires few { workers ≤ 8 }
{
    let total = truths.len() as u64;
    let (best, mut shares) = deal_seekers(alloc, total, workers)?;
    let sweep = Sweep::new(total, Table::new(truths));
    let search = Search {
        sweep: &sweep,
        best: &best,
    };
    for_each(th, &mut shares, &search, gate);
    let calls = shares.iter().fold(0u64, |calls, share| {
        calls.wrapping_add(share.load.local.0)
    });
    Ok(calls)
}

/// How often each of two seekers of one best word asks a table, where the second has turns at 0 and 5 and the first has its
/// one turn at 3, between them.
pub fn calls_in_turn(alloc: Global, truths: &[bool]) -> Result<(u64, u64), AllocError>
    requires { 5 < length truths.now }
{
    let (best, mut seats) = Best::new(alloc, 2)?;
    let Some(seat_b) = seats.pop() else {
        unreachable!()
    };
    let Some(seat_a) = seats.pop() else {
        unreachable!()
    };
    let mut a = Seeker {
        seat: seat_a,
        local: Calls(0),
    };
    let mut b = Seeker {
        seat: seat_b,
        local: Calls(0),
    };
    let sweep = Sweep::new(truths.len() as u64, Table::new(truths));
    let search = Search {
        sweep: &sweep,
        best: &best,
    };
    search.turn(&mut b, 0);
    search.turn(&mut a, 3);
    search.turn(&mut b, 5);
    Ok((a.local.0, b.local.0))
}

ghost use Rattle.std.specs.Prelude.{◌≡◌, ◌<◌, ◌≤◌, ◌*◌, ◌^◌, ◌==◌, true, All, length, map, slice_index_or, IfOk};
ghost use Rattle.work_shares.specs.Shares.{AreDeal, IsFresh, load_of};
ghost use Rattle.steal_sweep.specs.Seats.{AreNewSeatsOf};

use crate::{Best, BestSeat, Local, OpenWay, Search, Seeker, Sweep, Test, for_each, least_hit};
use std::alloc::{AllocError, Global};
use std::thread::Threads;
use work_shares::{Share, deal};

/// A local that keeps the number of the row that it read last.
#[derive(Drop)]
pub struct Kept {
    row: u64,
    number: u64,
    reads: u64,
}

impl Local for Kept {
    ghost use Rattle.std.specs.Prelude.{true};

    ghost fit = { λ _. true };
}

/// Rows of eight positions, in each of which the place that the row's number names is a hit.
#[derive(Drop)]
pub struct Rows<'a> {
    numbers: &'a [u64],
}

impl<'a> Rows<'a> {
    /// Rows with these numbers.
    fn new(numbers: &'a [u64]) -> Rows<'a>
        ensures { result.numbers.now ≡ numbers.now }
    {
        Rows { numbers }
    }
}

impl<'a> Test<Kept> for Rows<'a> {
    ghost use Rattle.std.specs.Prelude.{◌≡◌, ◌*◌, ◌/◌, ◌%◌, ◌==◌, nat_lt, length, true, slice_index_or};

    ghost fits = { λ t l. slice_index_or t.numbers.now l.row 0 == l.number };

    ghost may = { λ t l p. nat_lt p (8 * length t.numbers.now) };

    ghost gives = { λ t l p r l'. slice_index_or t.numbers.now l.row 0 ≡ l.number
        → (r ≡ (slice_index_or t.numbers.now (p / 8) 0 == p % 8)) × (slice_index_or t.numbers.now l'.row 0 ≡ l'.number) };

    ghost truth = { λ t p. slice_index_or t.numbers.now (p / 8) 0 == p % 8 };

    /// Whether the position is the place that its row's number names. A row is read where it isn't the last one read.
    fn answer(&self, local: &mut Kept, position: u64) -> bool {
        let row = position / 8;
        if local.row != row {
            local.row = row;
            local.number = self.numbers[row as usize];
            local.reads = local.reads.wrapping_add(1);
        }
        local.number == position % 8
    }
}

/// A seeker for each seat, which has read the first row.
fn seekers(alloc: Global, seats: Vec<BestSeat>, first: u64) -> Result<Vec<Seeker<Kept>>, AllocError>
    ensures { IfOk result (λ v. v.items ≡ map (λ seat. record { seat = seat; local = record { row = 0; number = first; reads = 1 } }) seats.items) }
{
    seats
        .into_iter()
        .map(|seat| Seeker {
            seat,
            local: Kept {
                row: 0,
                number: first,
                reads: 1,
            },
        })
        .collect(alloc)
}

/// A best word, and a share in blocks of 64 for each of its seats.
fn deal_seekers(
    alloc: Global,
    numbers: &[u64],
    workers: u32,
) -> Result<(Best, Vec<Share<Seeker<Kept>>>), AllocError>
    requires rows { 0 < length numbers.now }
    requires short { length numbers.now ≤ 2 ^ 20 }
    requires some { 1 ≤ workers }
    requires few { workers ≤ 8 }
    ensures deal { IfOk result (λ r. AreDeal (length numbers.now * 8) 64 r.1.items) }
    ensures fresh { IfOk result (λ r. All IsFresh r.1.items) }
    ensures fits { IfOk result (λ r. All (λ s. slice_index_or numbers.now s.local.row 0 ≡ s.local.number) (map load_of r.1.items)) }
    ensures seats { IfOk result (λ r. AreNewSeatsOf r.0 (map (λ s. s.seat) (map load_of r.1.items))) }
{
    let total = numbers.len() as u64 * 8;
    let (best, seats) = Best::new(alloc, workers)?;
    let shares = deal(alloc, total, 64, seekers(alloc, seats, numbers[0])?)?;
    Ok((best, shares))
}

/// The first hit of the rows, by so many workers.
pub fn first_in_rows<H: Threads + Sync>(
    th: &H,
    alloc: Global,
    numbers: &[u64],
    workers: u32,
) -> Result<Option<u64>, AllocError>
    requires rows { 0 < length numbers.now }
    requires short { length numbers.now ≤ 2 ^ 20 }
    requires some { 1 ≤ workers }
    requires few { workers ≤ 8 }
{
    let (best, shares) = deal_seekers(alloc, numbers, workers)?;
    let sweep = Sweep::new(numbers.len() as u64 * 8, Rows::new(numbers));
    Ok(least_hit(th, &sweep, shares, best, &OpenWay))
}

/// How often one worker reads a row's number.
pub fn reads_of_one<H: Threads + Sync>(
    th: &H,
    alloc: Global,
    numbers: &[u64],
) -> Result<u64, AllocError>
    requires rows { 0 < length numbers.now }
    requires short { length numbers.now ≤ 2 ^ 20 }
{
    let (best, mut shares) = deal_seekers(alloc, numbers, 1)?;
    let sweep = Sweep::new(numbers.len() as u64 * 8, Rows::new(numbers));
    let search = Search {
        sweep: &sweep,
        best: &best,
    };
    for_each(th, &mut shares, &search, &OpenWay);
    Ok(
        shares.iter().fold(0u64, |reads, share| {
            reads.wrapping_add(share.load.local.reads)
        }),
    )
}

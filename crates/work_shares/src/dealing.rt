//! Dealing.
ghost use Rattle.std.specs.Prelude.{◌≡◌, ℕ, ◌<◌, ◌≤◌, ◌/◌, ◌^◌, All, IfOk, Some, map, length, slice_get, vec_len};
ghost use Rattle.work_shares.specs.Cuts.{block_count};
ghost use Rattle.work_shares.specs.Thefts.{deque_into};
ghost use Rattle.work_shares.specs.Owners.{deque_of, pushed_of, IsReady, LeadAllOn};
ghost use Rattle.work_shares.specs.Lending.{AreGiven};
ghost use Rattle.work_shares.specs.Parts.{IsEmpty, HasRoom};
ghost use Rattle.work_shares.specs.Shares.{place_of, AreDeal, IsFresh, load_of};

use crate::block::Cut;
use crate::deque::Owner;
use crate::filling::new_deques;
use crate::lending::lend_all;
use crate::parts::Parts;
use crate::seat::Seat;
use crate::share::Share;
use crate::theft::Theft;
use std::alloc::{AllocError, Global};

/// Room to take a deal apart, at the first worker.
fn room_at<L>(alloc: Global, workers: u32, worker: u32) -> Result<Parts<L>, AllocError>
    ensures empty { IfOk result IsEmpty }
    ensures room { IfOk result (λ parts. worker ≡ 0 → HasRoom workers parts) }
{
    if worker == 0 {
        Parts::with_room(alloc, workers as usize)
    } else {
        Parts::with_room(alloc, 0)
    }
}

/// A worker's share, with room to note every block.
fn share_at<L: Drop>(
    alloc: Global,
    cut: Cut,
    workers: u32,
    worker: u32,
    own: Owner,
    thefts: Vec<Theft>,
    load: L,
) -> Result<Share<L>, AllocError>
    requires worker { (worker < workers) × (workers ≤ 8) }
    requires own { IsReady (block_count cut.total cut.size) workers worker own }
    requires thefts { AreGiven (block_count cut.total cut.size) workers worker thefts.items }
    ensures place { IfOk result (λ share. place_of share ≡ record { total = cut.total; size = cut.size; workers = workers; worker = worker; deque = deque_of own; given = pushed_of own; others = map deque_into thefts.items }) }
    ensures fresh { IfOk result IsFresh }
    ensures load { IfOk result (λ share. share.load ≡ load) }
{
    let noted = Vec::with_capacity(alloc, cut.count() as usize)?;
    let room = room_at(alloc, workers, worker)?;
    Ok(Share {
        load,
        seat: Seat {
            cut,
            workers,
            worker,
            own,
            thefts,
            noted,
            over: false,
            ended: false,
        },
        room,
    })
}

/// The shares of all workers, in order.
fn shares_of<L: Drop>(
    alloc: Global,
    cut: Cut,
    mut owners: Vec<Owner>,
    mut thefts: Vec<Vec<Theft>>,
    mut loads: Vec<L>,
) -> Result<Vec<Share<L>>, AllocError>
    requires few { (0 < vec_len loads) × (vec_len loads ≤ 8) }
    requires lengths { (length owners.items ≡ length loads.items) × (length thefts.items ≡ length loads.items) }
    requires owners { (worker : ℕ) (own : _) → slice_get owners.items worker ≡ Some own → IsReady (block_count cut.total cut.size) (length loads.items) worker own }
    requires thefts { (worker : ℕ) (own : _) → slice_get thefts.items worker ≡ Some own → AreGiven (block_count cut.total cut.size) (length loads.items) worker own.items }
    requires ways { LeadAllOn (map deque_of owners.items) thefts.items }
    ensures deal { IfOk result (λ shares. AreDeal cut.total cut.size shares.items) }
    ensures fresh { IfOk result (λ shares. All IsFresh shares.items) }
    ensures loads { IfOk result (λ shares. map load_of shares.items ≡ loads.items) }
{
    let workers = loads.len();
    let mut shares = Vec::with_capacity(alloc, workers)?;
    for worker in 0..workers {
        let own = owners.remove(0);
        let ways = thefts.remove(0);
        let load = loads.remove(0);
        let share = share_at(alloc, cut, workers as u32, worker as u32, own, ways, load)?;
        shares.push_reserved(share);
    }
    Ok(shares)
}

/// Cuts the positions below `total` into blocks of `block` positions, the last one shorter where needed, and deals them:
/// block i goes into the deque of worker i modulo the workers, in rising order, and behind its blocks each deque gets as
/// many end marks as there are workers. There are as many workers as loads, and share j carries load j.
///
/// Room to note every block and to give the loads back is taken here. After a refusal the loads are dropped.
pub fn deal<L: Drop>(
    alloc: Global,
    total: u64,
    block: u32,
    loads: Vec<L>,
) -> Result<Vec<Share<L>>, AllocError>
    requires block { 0 < block }
    requires workers { (0 < vec_len loads) × (vec_len loads ≤ 8) }
    requires few { total / block < 2 ^ 24 }
    ensures deal { IfOk result (λ shares. AreDeal total block shares.items) }
    ensures fresh { IfOk result (λ shares. All IsFresh shares.items) }
    ensures loads { IfOk result (λ shares. map load_of shares.items ≡ loads.items) }
{
    let cut = Cut { total, size: block };
    let mut owners = new_deques(alloc, cut.count(), loads.len() as u32)?;
    let thefts = lend_all(alloc, &mut owners)?;
    shares_of(alloc, cut, owners, thefts, loads)
}

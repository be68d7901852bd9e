//! Each worker's ways into the deques of the others.
ghost use Rattle.std.specs.Prelude.{◌≡◌, ℕ, ◌-◌, ◌<◌, ◌≤◌, All, IfOk, map, length, slice_index, vec_len};
ghost use Rattle.work_shares.specs.Rule.{all_parts};
ghost use Rattle.work_shares.specs.Ways.{ways_of};
ghost use Rattle.work_shares.specs.Owners.{parts_of, IsUntaken};
ghost use Rattle.work_shares.specs.Lending.{IsLent, Lends, LendsAll};

use crate::deque::{Owner, lend};
use crate::theft::Theft;
use std::alloc::{AllocError, Global};

/// A way into a deque, with one part of its owner's.
fn lend_one(owner: &mut Owner) -> Result<Theft, AllocError>
    requires parts { 1 < parts_of owner.old }
    requires untaken { IsUntaken owner.old }
    ensures { IfOk result (λ theft. IsLent theft owner.old owner.new) }
{
    let thief = owner.stealer()?;
    Ok(Theft {
        thief,
        pass: lend(owner),
        over: false,
    })
}

/// A worker's ways into the deques of the workers after it, counted round.
fn lend_to(alloc: Global, owners: &mut Vec<Owner>, worker: usize) -> Result<Vec<Theft>, AllocError>
    requires few { (worker < vec_len owners.old) × (vec_len owners.old ≤ 8) }
    requires untaken { All IsUntaken owners.old.items }
    requires parts { (d : ℕ) → d < length owners.old.items → ways_of (length owners.old.items) d worker (length owners.old.items - 1) < slice_index (map parts_of owners.old.items) d }
    ensures { IfOk result (λ thefts. Lends worker (length owners.old.items - 1) thefts.items owners.old.items owners.new.items) }
{
    let workers = owners.len();
    let mut thefts = Vec::with_capacity(alloc, workers - 1)?;
    for i in 0..workers - 1 {
        let deque = (worker + 1 + i) % workers;
        let theft = lend_one(&mut owners[deque])?;
        thefts.push_reserved(theft);
    }
    Ok(thefts)
}

/// Each worker's ways into the deques of the workers after it, counted round.
pub fn lend_all(alloc: Global, owners: &mut Vec<Owner>) -> Result<Vec<Vec<Theft>>, AllocError>
    requires few { (0 < vec_len owners.old) × (vec_len owners.old ≤ 8) }
    requires untaken { All IsUntaken owners.old.items }
    requires whole { All (λ owner. parts_of owner ≡ all_parts) owners.old.items }
    ensures { IfOk result (λ thefts. LendsAll (length owners.old.items) thefts.items owners.old.items owners.new.items) }
{
    let workers = owners.len();
    let mut all = Vec::with_capacity(alloc, workers)?;
    for worker in 0..workers {
        let thefts = lend_to(alloc, owners, worker)?;
        all.push_reserved(thefts);
    }
    Ok(all)
}

ghost use Rattle.std.specs.Prelude.{◌≡◌, ◌<◌, ◌≤◌, ◌^◌, All, length, map, vec_len, IfOk};

use crate::{Job, Turnstile, for_each};
use std::alloc::{AllocError, Global};
use std::thread::Threads;
use work_shares::{Share, deal};

/// Counts how often each position was done, in a local with a place for each.
#[derive(Drop)]
pub struct Marks {
    total: u64,
}

impl Job<Vec<u64>> for Marks {
    ghost use Rattle.std.specs.Prelude.{◌≡◌, ◌<◌, [], vec_len};

    ghost own = { λ job p. p < job.total };

    ghost stands = { λ job marks done. vec_len marks ≡ job.total };

    ghost name = { λ job marks. [] };

    /// Counts the position.
    fn turn(&self, local: &mut Vec<u64>, position: u64) {
        let at = position as usize;
        local[at] = local[at].wrapping_add(1);
    }
}

/// For each worker a place for each position, with no mark.
fn blank_marks(alloc: Global, total: u64, workers: u32) -> Result<Vec<Vec<u64>>, AllocError>
    ensures count { IfOk result (λ v. vec_len v ≡ workers) }
    ensures sizes { IfOk result (λ v. All (λ marks. vec_len marks ≡ total) v.items) }
{
    (0..workers)
        .map(|_| vec![in alloc; 0; total as usize])
        .try_collect(alloc)
}

/// Marks the positions of a deal.
pub fn mark<H: Threads + Sync, G: Turnstile + Sync>(
    th: &H,
    alloc: Global,
    total: u64,
    block: u32,
    workers: u32,
    gate: &G,
) -> Result<Vec<Share<Vec<u64>>>, AllocError>
    requires short { total < 2 ^ 24 }
    requires block { 0 < block }
    requires some { 1 ≤ workers }
    requires few { workers ≤ 8 }
{
    let mut shares = deal(alloc, total, block, blank_marks(alloc, total, workers)?)?;
    for_each(th, &mut shares, &Marks { total }, gate);
    Ok(shares)
}

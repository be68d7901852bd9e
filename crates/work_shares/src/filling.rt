//! Deques before anything is taken from them.
ghost use Rattle.std.specs.Prelude.{◌≡◌, ◌+◌, ◌^◌, ◌/◌, ◌<◌, ◌≤◌, [], ◌++◌, IfOk, map, replicate};
ghost use Rattle.crossbeam_deque.specs.Handles.{worker_view, worker_capacity, worker_index, SameWorker};
ghost use Rattle.work_shares.specs.declared.entry.Entry.TheVariants.{Work, End};
ghost use Rattle.work_shares.specs.Cuts.{numbers_of};
ghost use Rattle.work_shares.specs.Entries.{view};
ghost use Rattle.work_shares.specs.Rule.{all_parts};
ghost use Rattle.work_shares.specs.Owners.{IsFilled, AreFilled};

use crate::deque::{Owner, empty, push};
use crate::entry::Entry;
use std::alloc::{AllocError, Global};

/// The numbers of a worker's blocks: its own number, and on in steps of the workers.
fn push_numbers(owner: &mut Owner, count: u32, workers: u32, worker: u32)
    requires few { count ≤ 2 ^ 24 }
    requires worker { (worker < workers) × (workers ≤ 8) }
    requires empty { (worker_view owner.old ≡ view all_parts [] []) × (worker_index owner.old ≡ 0) }
    requires room { count / workers < worker_capacity owner.old }
    ensures view { worker_view owner.new ≡ view all_parts (map Work (numbers_of count workers worker)) [] }
    ensures index { worker_index owner.new ≤ count / workers + 1 }
    ensures same { SameWorker owner.old owner.new }
{
    let mut number = worker;
    while number < count {
        push(owner, Entry::Work(number));
        number += workers;
    }
}

/// As many end marks as there are workers.
fn push_ends(owner: &mut Owner, workers: u32)
    requires parts { (worker_view owner.old).parts ≡ all_parts }
    requires room { worker_index owner.old + workers ≤ worker_capacity owner.old }
    ensures view { worker_view owner.new ≡ view all_parts ((worker_view owner.old).pushed ++ replicate workers End) (worker_view owner.old).got }
    ensures same { SameWorker owner.old owner.new }
{
    for _ in 0..workers {
        push(owner, Entry::End);
    }
}

/// The deque of a worker: the numbers of its blocks, and behind them the end marks.
pub fn new_deque(alloc: Global, count: u32, workers: u32, worker: u32) -> Result<Owner, AllocError>
    requires few { count ≤ 2 ^ 24 }
    requires worker { (worker < workers) × (workers ≤ 8) }
    ensures { IfOk result (λ owner. IsFilled count workers worker owner) }
{
    let mut owner = empty(alloc, (count / workers + 1 + workers) as usize)?;
    push_numbers(&mut owner, count, workers, worker);
    push_ends(&mut owner, workers);
    Ok(owner)
}

/// The deques of all workers, in order.
pub fn new_deques(alloc: Global, count: u32, workers: u32) -> Result<Vec<Owner>, AllocError>
    requires few { count ≤ 2 ^ 24 }
    requires workers { workers ≤ 8 }
    ensures { IfOk result (λ owners. AreFilled count workers workers owners.items) }
{
    let mut owners = Vec::with_capacity(alloc, workers as usize)?;
    for worker in 0..workers {
        let owner = new_deque(alloc, count, workers, worker)?;
        owners.push_reserved(owner);
    }
    Ok(owners)
}

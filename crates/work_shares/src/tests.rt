ghost use Rattle.std.specs.Prelude.{◌≡◌, ◌<◌, ◌≤◌, ◌/◌, ◌^◌, IfOk, map, length, vec_len};
ghost use Rattle.work_shares.specs.Shares.{place_of, blocks_of, AreDeal};

use crate::{Block, Settled, Share, deal, deals_cover, settle};
use std::alloc::{AllocError, Global};
use std::process::Abort;
use std::test::Fail;
use std::thread;
use std::thread::Threads;

/// Takes blocks until none is given, and adds up their positions.
fn finish(share: &mut Share<u64>)
    ensures { place_of share.new ≡ place_of share.old }
{
    while let Some(block) = share.next() {
        share.load = share.load.wrapping_add(u64::from(block.count));
    }
}

/// The same with each share, one after the other.
fn finish_all(shares: &mut Vec<Share<u64>>)
    ensures { map place_of shares.new.items ≡ map place_of shares.old.items }
{
    for i in 0..shares.len() {
        finish(&mut shares[i]);
    }
}

/// The same with each share in a thread of its own.
fn finish_in_threads<R: Threads + Sync>(rt: &R, shares: &mut Vec<Share<u64>>)
    requires { 0 < vec_len shares.old }
    ensures { map place_of shares.new.items ≡ map place_of shares.old.items }
{
    let workers = shares.len();
    thread::for_each_mut(
        rt,
        shares.as_mut_slice(),
        workers,
        &|_, share| finish(share),
    );
}

/// Calls `next` of one share.
fn call(shares: &mut Vec<Share<u64>>, at: usize) -> Option<Block>
    requires { at < vec_len shares.old }
    ensures { map place_of shares.new.items ≡ map place_of shares.old.items }
{
    shares[at].next()
}

/// Calls `next` of shares that a row of numbers picks.
fn call_at_random(shares: &mut Vec<Share<u64>>, calls: u64, numbers: &mut u64)
    requires { 0 < vec_len shares.old }
    ensures { map place_of shares.new.items ≡ map place_of shares.old.items }
{
    for _ in 0..calls {
        let i = draw(numbers, shares.len() as u64) as usize;
        call(shares, i);
    }
}

/// The next of a row of numbers that looks random, below a bound.
fn draw(numbers: &mut u64, bound: u64) -> u64
    requires { 0 < bound }
    ensures { result < bound }
{
    *numbers = numbers
        .wrapping_mul(6364136223846793005)
        .wrapping_add(1442695040888963407);
    (*numbers >> 33) % bound
}

/// A deal with loads of 0.
fn deal_zeros(
    alloc: Global,
    total: u64,
    block: u32,
    workers: u32,
) -> Result<Vec<Share<u64>>, AllocError>
    requires block { 0 < block }
    requires workers { (0 < workers) × (workers ≤ 8) }
    requires few { total / block < 2 ^ 24 }
    ensures deal { IfOk result (λ shares. AreDeal total block shares.items) }
    ensures count { IfOk result (λ shares. vec_len shares ≡ workers) }
{
    deal(
        alloc,
        total,
        block,
        Vec::from_elem(alloc, 0, workers as usize)?,
    )
}

/// The blocks of a plain loop.
fn plain_blocks(alloc: Global, total: u64, block: u32) -> Result<Vec<(u64, u32)>, AllocError>
    requires { (0 < block) × (total < 2 ^ 60) }
{
    let mut blocks = Vec::new(alloc);
    let mut first = 0;
    while first < total {
        let count = (total - first).min(u64::from(block)) as u32;
        blocks.push((first, count))?;
        first += u64::from(block);
    }
    Ok(blocks)
}

/// The blocks of all workers, by rising positions.
fn given_blocks(
    alloc: Global,
    settled: &Settled<u64>,
    workers: u32,
) -> Result<Vec<(u64, u32)>, AllocError>
    requires { workers ≤ length (blocks_of settled.now) }
{
    let mut blocks = Vec::new(alloc);
    for worker in 0..workers {
        for block in settled.blocks(worker) {
            blocks.push((block.first, block.count))?;
        }
    }
    blocks.sort()?;
    Ok(blocks)
}

/// Deals, has shares call at random and then each to its end, and settles.
fn settle_alone(
    alloc: Global,
    total: u64,
    block: u32,
    workers: u32,
    numbers: &mut u64,
) -> Result<Settled<u64>, AllocError>
    requires block { 0 < block }
    requires workers { (0 < workers) × (workers ≤ 8) }
    requires few { total / block < 2 ^ 24 }
    ensures { IfOk result (λ settled. length (blocks_of settled) ≡ workers) }
{
    let mut shares = deal_zeros(alloc, total, block, workers)?;
    call_at_random(&mut shares, total % 97, numbers);
    finish_all(&mut shares);
    Ok(settle(shares))
}

/// Deals, has each share call to its end in a thread of its own, and settles.
fn settle_in_threads<R: Threads + Sync>(
    rt: &R,
    alloc: Global,
    total: u64,
    block: u32,
    workers: u32,
) -> Result<Settled<u64>, AllocError>
    requires block { 0 < block }
    requires workers { (0 < workers) × (workers ≤ 8) }
    requires few { total / block < 2 ^ 24 }
    ensures { IfOk result (λ settled. length (blocks_of settled) ≡ workers) }
{
    let mut shares = deal_zeros(alloc, total, block, workers)?;
    finish_in_threads(rt, &mut shares);
    Ok(settle(shares))
}

/// A worker takes the blocks of its own deque in order.
#[test]
fn blocks_in_the_order_of_a_deque(rt: HostRuntime) -> Result<(), Fail> {
    let mut shares = deal_zeros(rt.alloc(), 130, 64, 2)?;
    assert_eq!(rt;
        shares[1].next(),
        Some(Block {
            first: 64,
            count: 64
        })
    );
    assert_eq!(rt;
        shares[0].next(),
        Some(Block {
            first: 0,
            count: 64
        })
    );
    assert_eq!(rt;
        shares[0].next(),
        Some(Block {
            first: 128,
            count: 2
        })
    );
    assert_eq!(rt; (shares[0].next(), shares[1].next()), (None, None));
    assert!(rt; shares[0].ended() && shares[1].ended());
    Ok(())
}

/// A settled deal shows the blocks and the load of each worker.
#[test]
fn blocks_and_loads_are_shown(rt: HostRuntime) -> Result<(), Fail> {
    let mut shares = deal_zeros(rt.alloc(), 130, 64, 2)?;
    finish_all(&mut shares);
    let settled = settle(shares);
    let own = [
        Block {
            first: 0,
            count: 64,
        },
        Block {
            first: 128,
            count: 2,
        },
        Block {
            first: 64,
            count: 64,
        },
    ];
    assert_eq!(rt; settled.blocks(0), own.as_slice());
    assert_eq!(rt; settled.blocks(1), [].as_slice());
    assert_eq!(rt; settled.loads().as_slice(), [130, 0].as_slice());
    // The blocks that a deal cuts are those of its positions.
    deals_cover(130, 64);
    Ok(())
}

/// A deal that is settled early shows what was given until then.
#[test]
fn a_deal_under_way_shows_what_was_given(rt: HostRuntime) -> Result<(), Fail> {
    let mut shares = deal_zeros(rt.alloc(), 130, 64, 2)?;
    let second = Block {
        first: 64,
        count: 64,
    };
    assert_eq!(rt; call(&mut shares, 1), Some(second));
    let settled = settle(shares);
    assert_eq!(rt; settled.blocks(0), [].as_slice());
    assert_eq!(rt; settled.blocks(1), [second].as_slice());
    assert_eq!(rt; settled.loads().as_slice(), [0, 0].as_slice());
    Ok(())
}

/// A worker steals the block of another whose share takes none.
#[test]
fn stolen_once(rt: HostRuntime) -> Result<(), Fail> {
    for deal in 0..1000 {
        let mut shares = deal_zeros(rt.alloc(), 130, 64, 2)?;
        let mut share = shares.remove(0);
        let mut given = false;
        while let Some(block) = share.next() {
            given = given || block.first == 64 && block.count == 64;
        }
        assert!(rt; given, "in deal {deal}");
    }
    Ok(())
}

/// Calls in any order give the blocks of a plain loop, each once.
#[test]
fn calls_in_any_order_give_each_block_once(rt: HostRuntime) -> Result<(), Fail> {
    let mut numbers = 2026;
    for deal in 0..1000 {
        let total = draw(&mut numbers, 5000);
        let block = draw(&mut numbers, 100) as u32 + 1;
        let workers = draw(&mut numbers, 8) as u32 + 1;
        let settled = settle_alone(rt.alloc(), total, block, workers, &mut numbers)?;
        assert_eq!(rt;
            given_blocks(rt.alloc(), &settled, workers)?,
            plain_blocks(rt.alloc(), total, block)?,
            "deal {deal}: {total} in blocks of {block} to {workers}"
        );
    }
    Ok(())
}

/// Threads take the blocks of a plain loop, each once.
#[test]
fn threads_take_each_block_once(rt: HostRuntime) -> Result<(), Fail> {
    for workers in 1..9 {
        let settled = settle_in_threads(&rt, rt.alloc(), 20_001, 3, workers)?;
        assert_eq!(rt;
            given_blocks(rt.alloc(), &settled, workers)?,
            plain_blocks(rt.alloc(), 20_001, 3)?,
            "by {workers} workers"
        );
        let positions = settled
            .loads()
            .iter()
            .fold(0u64, |sum, load| sum.wrapping_add(*load));
        assert_eq!(rt; positions, 20_001, "by {workers} workers");
    }
    Ok(())
}

ghost use Rattle.std.specs.Prelude.{◌≡◌, ◌<◌, length, IfOk};

mod gates;
mod marks;
mod rows;
mod tables;

use crate::{Delay, OpenWay};
use gates::{Delays, Meeting, Turns, mix};
use marks::mark;
use rows::{first_in_rows, reads_of_one};
use std::alloc::{AllocError, Global};
use std::test::Fail;
use tables::{calls_in_turn, count_calls, search, search_and_count};
use work_shares::Share;

/// Truth values of the positions below `total`: true at the hits.
fn table_of(alloc: Global, total: u64, hits: &[u64]) -> Result<Vec<bool>, AllocError>
    ensures { IfOk result (λ v. length v.items ≡ total) }
{
    (0..total)
        .map(|position| hits.contains(&position))
        .collect(alloc)
}

/// Truth values by a seed, of which about one in 300 is true, or none.
fn table_by(alloc: Global, seed: u64) -> Result<Vec<bool>, AllocError>
    ensures { IfOk result (λ v. length v.items < 1200) }
{
    let total = mix(seed, 0) % 1_200;
    let rare = if seed % 10 == 0 { u64::MAX } else { 300 };
    (0..total)
        .map(|position| mix(seed, position + 1) % rare == 0)
        .collect(alloc)
}

/// The least of the hits of a table is found, and none where there is none.
#[test]
fn the_least_of_three_hits(rt: HostRuntime) -> Result<(), Fail> {
    let truths = table_of(rt.alloc(), 1000, &[700, 701, 130])?;
    assert_eq!(rt; search(&rt, rt.alloc(), &truths, 4, &OpenWay)?, Some(130));
    let none = table_of(rt.alloc(), 1000, &[])?;
    assert_eq!(rt; search(&rt, rt.alloc(), &none, 4, &OpenWay)?, None);
    Ok(())
}

/// One worker asks up to the least hit and no further.
#[test]
fn no_test_beyond_the_least_hit(rt: HostRuntime) -> Result<(), Fail> {
    let truths = table_of(rt.alloc(), 1000, &[700, 130])?;
    // The one worker asks at 0 to 130, and then the word is 130.
    assert_eq!(rt; count_calls(&rt, rt.alloc(), &truths, 1, &OpenWay)?, 131);
    assert_eq!(rt;
        search_and_count(&rt, rt.alloc(), &truths, 1, &OpenWay)?,
        (Some(130), 131)
    );
    Ok(())
}

/// A seeker that comes later skips what lies behind the hit of another.
#[test]
fn a_hit_of_another_seat_is_seen(rt: HostRuntime) -> Result<(), Fail> {
    let truths = table_of(rt.alloc(), 8, &[3])?;
    // The second seeker asks at 0. The first finds the hit at 3, and the second, which loads the word again, skips 5.
    assert_eq!(rt; calls_in_turn(rt.alloc(), &truths)?, (1, 1));
    Ok(())
}

/// A local that keeps the row it has read reads each row once, and the hit is the same.
#[test]
fn a_local_keeps_what_it_has_read(rt: HostRuntime) -> Result<(), Fail> {
    let numbers = [9, 8, 9, 5, 0, 8, 9, 8, 8, 7];
    for workers in [1, 2, 3, 8u32] {
        assert_eq!(rt;
            first_in_rows(&rt, rt.alloc(), &numbers, workers)?,
            Some(29)
        );
    }
    // Ten rows of eight positions, and each row's number is read once.
    assert_eq!(rt; reads_of_one(&rt, rt.alloc(), &[8; 10])?, 10);
    Ok(())
}

/// The least hit is that of a plain loop, for each number of workers and each delay.
#[test]
fn the_least_hit_whatever_the_schedule(rt: HostRuntime) -> Result<(), Fail> {
    for seed in 0..200u64 {
        let truths = table_by(rt.alloc(), seed)?;
        let want = truths.iter().position(|truth| *truth).map(|at| at as u64);
        for workers in [1, 2, 3, 8u32] {
            let gate = Delays::new(seed);
            assert_eq!(rt;
                search(&rt, rt.alloc(), &truths, workers, &gate)?,
                want,
                "seed {seed}, {workers} workers"
            );
        }
    }
    Ok(())
}

/// How often a position was marked, in all locals.
fn marks_at(shares: &[Share<Vec<u64>>], position: u64) -> u64 {
    shares.iter().fold(0u64, |sum, share| {
        sum.wrapping_add(share.load.get(position as usize).copied().unwrap_or(0))
    })
}

/// A job is done once at each position, and all shares have ended.
#[test]
fn each_position_is_done_once(rt: HostRuntime) -> Result<(), Fail> {
    for seed in 0..1_000u64 {
        let total = mix(seed, 1) % 400;
        let block = (mix(seed, 2) % 64) as u32 + 1;
        let workers = (mix(seed, 3) % 8) as u32 + 1;
        let shares = mark(&rt, rt.alloc(), total, block, workers, &Delays::new(seed))?;
        let once = (0..total).all(|position| marks_at(&shares, position) == 1);
        assert!(rt;
            once && shares.iter().all(|share| share.ended()),
            "seed {seed}"
        );
    }
    Ok(())
}

/// Two workers of a job are in the turnstile at once.
#[test]
fn two_workers_meet(rt: HostRuntime) -> Result<(), Fail> {
    let gate = Meeting::new();
    let shares = mark(&rt, rt.alloc(), 256, 64, 2, &gate)?;
    assert_eq!(rt; shares.len(), 2);
    assert!(rt; gate.was_seen());
    Ok(())
}

/// Two workers of a search are in the turnstile at once.
#[test]
fn two_searchers_meet(rt: HostRuntime) -> Result<(), Fail> {
    let gate = Meeting::new();
    let none = table_of(rt.alloc(), 256, &[])?;
    assert_eq!(rt; search(&rt, rt.alloc(), &none, 2, &gate)?, None);
    assert!(rt; gate.was_seen());
    Ok(())
}

/// One worker passes the turnstile before each of its blocks, in turn.
#[test]
fn a_worker_passes_before_each_block(rt: HostRuntime) -> Result<(), Fail> {
    let gate = Turns::new();
    let shares = mark(&rt, rt.alloc(), 257, 64, 1, &gate)?;
    assert_eq!(rt; shares.len(), 1);
    assert_eq!(rt; gate.count(), Some(5));
    Ok(())
}

/// A delay holds one worker up at one of its turns.
#[test]
fn one_turn_is_held_up(rt: HostRuntime) -> Result<(), Fail> {
    let delay = Delay {
        worker: 2,
        turn: 5,
        spins: 300,
    };
    // A worker, one of its turns, and how far it counts.
    for (worker, turn, spins) in [(2, 5, 300), (1, 5, 0), (3, 5, 0), (2, 4, 0), (2, 6, 0)] {
        assert_eq!(rt;
            delay.spins_before(worker, turn),
            spins,
            "worker {worker} at turn {turn}"
        );
    }
    Ok(())
}

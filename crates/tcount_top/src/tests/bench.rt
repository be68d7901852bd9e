//! Circuits that a seed makes, and the lines of `bench`.

use super::answer;
use crate::Status;
use crate::bench::{Generator, bench_circuit};
use std::alloc::{AllocError, Global};
use std::test::Fail;
use std::thread::Threads;
use steal_sweep::OpenWay;

/// What is drawn first by the seed 0.
#[test]
fn first_draws(rt: HostRuntime) {
    let mut generator = Generator::new(0);
    for number in [0, 21468, 9988, 22117, 3498] {
        assert_eq!(rt; generator.draw(), number);
    }
}

/// Whether the outcome for these numbers is this one, by one worker and by two.
fn answers<H: Threads + Sync>(
    th: &H,
    alloc: Global,
    [n, t, seed, bound]: [&str; 4],
    status: Status,
    line: &str,
) -> Result<bool, AllocError> {
    for workers in ["1", "2"] {
        let words = ["bench", n, t, seed, bound, workers];
        let (answered, bytes) = answer(th, alloc, &words, b"", &OpenWay)?;
        if answered != status || bytes.as_slice() != line.as_bytes() {
            return Ok(false);
        }
    }
    Ok(true)
}

/// Numbers, a bound, and the line that is written for the circuit that they make.
#[test]
fn lines(rt: HostRuntime) -> Result<(), Fail> {
    let alloc = rt.alloc();
    let line = "bench 1 3 0 gates 11 t-count 1 word Z\n";
    assert!(rt; answers(&rt, alloc, ["1", "3", "0", "5"], Status::Found, line)?);
    let line = "bench 1 3 0 gates 11 above 0\n";
    assert!(rt; answers(&rt, alloc, ["1", "3", "0", "0"], Status::Above, line)?);
    let line = "bench 2 2 0 gates 6 t-count 2 word IX XI\n";
    assert!(rt; answers(&rt, alloc, ["2", "2", "0", "2"], Status::Found, line)?);
    let line = "bench 3 0 2147483647 gates 0 t-count 0 word\n";
    assert!(rt;
        answers(
            &rt,
            alloc,
            ["3", "0", "2147483647", "0"],
            Status::Found,
            line
        )?
    );
    Ok(())
}

/// A made circuit has a T gate for each letter, so a bound of as many suffices.
#[test]
fn bounds_of_as_many_letters(rt: HostRuntime) -> Result<(), Fail> {
    let alloc = rt.alloc();
    let line = "bench 2 6 7 gates 38 t-count 6 word XX ZI YX YY ZI XY\n";
    assert!(rt; answers(&rt, alloc, ["2", "6", "7", "12"], Status::Found, line)?);
    let line = "bench 3 4 7 gates 46 t-count 4 word YIZ YYY YIX ZYY\n";
    assert!(rt; answers(&rt, alloc, ["3", "4", "7", "8"], Status::Found, line)?);
    Ok(())
}

/// Circuits of 44 letters on one, two and three qubits.
#[test]
fn forty_four_letters(rt: HostRuntime) -> Result<(), Fail> {
    let alloc = rt.alloc();
    let one = bench_circuit(alloc, 1, 44, 7)?;
    assert_eq!(rt; one.gates().len(), 120);
    let line = "bench 1 44 7 gates 120 above 9\n";
    assert!(rt; answers(&rt, alloc, ["1", "44", "7", "9"], Status::Above, line)?);
    let line = "bench 1 44 7 gates 120 t-count 16 word Z Y X Y Z Y Z X Y Z X Y X Y X Z\n";
    assert!(rt; answers(&rt, alloc, ["1", "44", "7", "18"], Status::Found, line)?);
    let two = bench_circuit(alloc, 2, 44, 7)?;
    assert_eq!(rt; two.gates().len(), 276);
    let line = "bench 2 44 7 gates 276 above 6\n";
    assert!(rt; answers(&rt, alloc, ["2", "44", "7", "6"], Status::Above, line)?);
    let three = bench_circuit(alloc, 3, 44, 7)?;
    assert_eq!(rt; three.gates().len(), 370);
    let line = "bench 3 44 7 gates 370 above 4\n";
    assert!(rt; answers(&rt, alloc, ["3", "44", "7", "4"], Status::Above, line)?);
    Ok(())
}

// Pairs of numbers, of which each becomes its difference and its sum. Sixteen pairs are turned at once, in lanes, and the
// pairs that are left one by one.
ghost use Rattle.std.specs.Prelude.{◌≡◌, ◌+◌, ◌*◌, ◌≤◌, ◌+ℤ◌, ◌-ℤ◌, length};
ghost use Rattle.std.specs.Simd.Lanes.{zip2};
ghost use Rattle.channel_rep.specs.Lanes.{LanesFit, AreApart, HasSmallPairs, TurnsPairs};

use std::simd::prelude::*;

/// How many pairs are turned at once.
const LANES: usize = 16;

/// The differences, lane by lane. No lane wraps.
fn differences(x: i16x16, y: i16x16) -> i16x16
    requires { LanesFit x y }
    ensures { result ≡ zip2 ◌-ℤ◌ x y }
{
    x.strict_sub(y)
}

/// The sums, lane by lane. No lane wraps.
fn sums(x: i16x16, y: i16x16) -> i16x16
    requires { LanesFit x y }
    ensures { result ≡ zip2 ◌+ℤ◌ x y }
{
    x.strict_add(y)
}

/// Puts x − y in the place of x, and y + x in the place of y, for sixteen numbers x from one place on and as many numbers y
/// from another.
fn turn_lanes(numbers: &mut [i16], x: usize, y: usize)
    requires apart { AreApart x y 16 }
    requires small { HasSmallPairs x y 16 numbers.old }
    ensures { TurnsPairs x y 16 numbers.old numbers.new }
{
    let first = i16x16::from_slice(&numbers[x..]);
    let second = i16x16::from_slice(&numbers[y..]);
    differences(first, second).copy_to_slice(&mut numbers[x..]);
    sums(second, first).copy_to_slice(&mut numbers[y..]);
}

/// The same for as many runs of sixteen pairs, one behind another.
fn turn_runs(numbers: &mut [i16], x: usize, y: usize, runs: usize)
    requires apart { AreApart x y (runs * 16) }
    requires small { HasSmallPairs x y (runs * 16) numbers.old }
    ensures { TurnsPairs x y (runs * 16) numbers.old numbers.new }
{
    for run in 0..runs {
        turn_lanes(numbers, x + run * LANES, y + run * LANES);
    }
}

/// The same for so many pairs, one by one.
fn turn_one_by_one(numbers: &mut [i16], x: usize, y: usize, count: usize)
    requires apart { AreApart x y count }
    requires small { HasSmallPairs x y count numbers.old }
    ensures { TurnsPairs x y count numbers.old numbers.new }
{
    for k in 0..count {
        let first = numbers[x + k];
        let second = numbers[y + k];
        numbers[x + k] = first - second;
        numbers[y + k] = second + first;
    }
}

/// Puts x − y in the place of x, and y + x in the place of y, for so many numbers x from one place on and as many numbers y
/// from another. No number wraps.
pub fn subtract_and_add(numbers: &mut [i16], x: usize, y: usize, count: usize)
    requires apart { AreApart x y count }
    requires small { HasSmallPairs x y count numbers.old }
    ensures { TurnsPairs x y count numbers.old numbers.new }
{
    let runs = count / LANES;
    let done = runs * LANES;
    turn_runs(numbers, x, y, runs);
    turn_one_by_one(numbers, x + done, y + done, count - done);
}

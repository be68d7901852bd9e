// Cells a + b·√2 in two lists of numbers of sixteen bits: one of the whole parts a, and one of the parts b of √2.
ghost use Rattle.std.specs.Prelude.{◌≡◌, ℕ, ◌-◌, ◌*◌, ◌%◌, ◌^◌, ◌<◌, ◌≤◌, ◌⊎◌, length, nat_abs, false, IsTrue};
ghost use Rattle.ring_laws.specs.Matrix.{identity, Agree};
ghost use Rattle.ring_laws.specs.Ring.{power};
ghost use Rattle.tc_ring.specs.Surds.{surds, surd, surd_times, root2_surd, SurdWithin, IsOdd};
ghost use Rattle.channel_rep.specs.Cells.{cell_of, entries};
ghost use Rattle.channel_rep.specs.Lanes.{number};
ghost use Rattle.channel_rep.specs.Parts.{cells_of};

use tc_ring::Root2;

/// Makes a table into the identity.
pub fn write_identity(a: &mut [i16], b: &mut [i16], size: usize)
    requires whole { length a.old ≡ size * size }
    requires root { length b.old ≡ size * size }
    ensures { Agree surds size (entries size (cells_of a.new b.new)) (identity surds) }
{
    a.fill(0);
    b.fill(0);
    for row in 0..size {
        a[row * size + row] = 1;
    }
}

/// Takes cells apart.
pub fn split(cells: &[Root2], a: &mut [i16], b: &mut [i16])
    requires whole { length a.old ≡ length cells.now }
    requires root { length b.old ≡ length cells.now }
    requires small { (k : ℕ) → k < length cells.now → SurdWithin (2 ^ 14) (cell_of cells.now k) }
    ensures { cells_of a.new b.new ≡ cells.now }
{
    for k in 0..cells.len() {
        let cell = cells[k];
        a[k] = cell.a as i16;
        b[k] = cell.b as i16;
    }
}

/// Puts cells together.
pub fn join(a: &[i16], b: &[i16], cells: &mut [Root2])
    requires whole { length a.now ≡ length cells.old }
    requires root { length b.now ≡ length cells.old }
    ensures { cells.new ≡ cells_of a.now b.now }
{
    for k in 0..cells.len() {
        cells[k] = Root2 {
            a: a[k] as i64,
            b: b[k] as i64,
        };
    }
}

/// The numbers of the cell at a row and a column.
pub fn parts_at(a: &[i16], b: &[i16], size: usize, row: usize, column: usize) -> (i16, i16)
    requires whole { length a.now ≡ size * size }
    requires root { length b.now ≡ size * size }
    requires row { row < size }
    requires column { column < size }
    ensures { surd result.0 result.1 ≡ entries size (cells_of a.now b.now) row column }
{
    let place = row * size + column;
    (a[place], b[place])
}

/// Whether each number is even.
fn all_even(numbers: &[i16]) -> bool
    ensures even { IsTrue result → (k : ℕ) → k < length numbers.now
        → nat_abs (number numbers.now k) % 2 ≡ 0 }
    ensures odd { result ≡ false → (k : ℕ) × (k < length numbers.now) × IsOdd (number numbers.now k) }
{
    for x in numbers {
        if *x % 2 != 0 {
            return false;
        }
    }
    true
}

/// Divides each cell by √2: a + b·√2 becomes b + a/2·√2.
fn halve(a: &mut [i16], b: &mut [i16])
    requires same { length a.old ≡ length b.old }
    requires even { (k : ℕ) → k < length a.old → nat_abs (number a.old k) % 2 ≡ 0 }
    ensures { (k : ℕ) → k < length a.old
        → surd_times root2_surd (cell_of (cells_of a.new b.new) k) ≡ cell_of (cells_of a.old b.old) k }
{
    for k in 0..a.len() {
        let half = a[k] / 2;
        a[k] = b[k];
        b[k] = half;
    }
}

/// Divides the cells by √2 as often as all of them can be divided, at most `exponent` times. What is left of the exponent
/// is 0, or some cell has an odd whole part.
pub fn divide_parts(a: &mut [i16], b: &mut [i16], exponent: u32) -> u32
    requires same { length a.old ≡ length b.old }
    ensures low { result ≤ exponent }
    ensures cells { (k : ℕ) → k < length a.old
        → surd_times (power surds root2_surd (exponent - result)) (cell_of (cells_of a.new b.new) k)
        ≡ cell_of (cells_of a.old b.old) k }
    ensures least { (result ≡ 0) ⊎ ((k : ℕ) × (k < length a.new) × IsOdd (number a.new k)) }
{
    let mut left = exponent;
    while left > 0 && all_even(a) {
        halve(a, b);
        left -= 1;
    }
    left
}

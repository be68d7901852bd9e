// Rows of cells, changed in place. A pair of rows is lent once, and the loop over the two has no test in it.
ghost use Rattle.std.specs.Prelude.{◌≡◌, ◌≢◌, ℕ, ◌+◌, ◌*◌, ◌^◌, ◌<◌, ◌≤◌, length, if◌then◌else◌, true, false, not};
ghost use Rattle.tc_ring.specs.Root2.{surd_of};
ghost use Rattle.tc_ring.specs.Surds.{surd_plus, surd_negative, surd_times, root2_surd, SurdWithin};
ghost use Rattle.channel_rep.specs.Tables.{signed};
ghost use Rattle.channel_rep.specs.Cells.{cell_of, entries, RowWithin};
ghost use Rattle.channel_rep.specs.Changes.{ChangesPair, ChangesRow};

use tc_ring::Root2;

/// Puts x − y in the place of x, and y + x in the place of y, cell by cell.
fn subtract_and_add(x: &mut [Root2], y: &mut [Root2])
    requires same { length x.old ≡ length y.old }
    requires small_x { RowWithin (2 ^ 61) x.old }
    requires small_y { RowWithin (2 ^ 61) y.old }
    ensures x { (k : ℕ) → k < length x.old
        → cell_of x.new k ≡ surd_plus (cell_of x.old k) (surd_negative (cell_of y.old k)) }
    ensures y { (k : ℕ) → k < length x.old
        → cell_of y.new k ≡ surd_plus (cell_of y.old k) (cell_of x.old k) }
{
    for k in 0..x.len() {
        let first = x[k];
        let second = y[k];
        x[k] = first.sub(second);
        y[k] = second.add(first);
    }
}

/// Multiplies a row by √2.
fn multiply_by_root2(row: &mut [Root2])
    requires { RowWithin (2 ^ 61) row.old }
    ensures { (k : ℕ) → k < length row.old
        → cell_of row.new k ≡ surd_times root2_surd (cell_of row.old k) }
{
    for cell in row.iter_mut() {
        *cell = cell.times_root2();
    }
}

/// Turns the sign of a row where it is to be turned.
fn negate_if(row: &mut [Root2], negative: bool)
    requires { RowWithin (2 ^ 62) row.old }
    ensures { (k : ℕ) → k < length row.old → cell_of row.new k ≡ signed negative (cell_of row.old k) }
{
    if negative {
        for cell in row.iter_mut() {
            *cell = cell.neg();
        }
    }
}

/// Puts row `low` minus row `high` in the place of row `low`, and their sum in the place of row `high`; or, where `low`
/// isn't to come first, the other way round: row `high` minus row `low` in the place of row `high`, and their sum in the
/// place of row `low`.
pub fn turn_pair(cells: &mut [Root2], size: usize, low: usize, high: usize, low_first: bool)
    requires order { low < high }
    requires below { high < size }
    requires whole { length cells.old ≡ size * size }
    requires small_low { (c : ℕ) → c < size → SurdWithin (2 ^ 61) (entries size cells.old low c) }
    requires small_high { (c : ℕ) → c < size → SurdWithin (2 ^ 61) (entries size cells.old high c) }
    ensures whole { length cells.new ≡ size * size }
    ensures pair { ChangesPair size low high
        (λ c. surd_plus (entries size cells.old low c) (signed low_first (entries size cells.old high c)))
        (λ c. surd_plus (entries size cells.old high c) (signed (not low_first) (entries size cells.old low c)))
        cells.old cells.new }
{
    let (front, back) = cells.split_at_mut(high * size);
    let x = &mut front[low * size..(low + 1) * size];
    let y = &mut back[..size];
    if low_first {
        subtract_and_add(x, y);
    } else {
        subtract_and_add(y, x);
    }
}

/// Swaps two rows, and turns the signs of those that are to be negative in their new places.
pub fn swap_pair(
    cells: &mut [Root2],
    size: usize,
    low: usize,
    high: usize,
    low_negative: bool,
    high_negative: bool,
)
    requires order { low < high }
    requires below { high < size }
    requires whole { length cells.old ≡ size * size }
    requires small_low { (c : ℕ) → c < size → SurdWithin (2 ^ 62) (entries size cells.old low c) }
    requires small_high { (c : ℕ) → c < size → SurdWithin (2 ^ 62) (entries size cells.old high c) }
    ensures whole { length cells.new ≡ size * size }
    ensures pair { ChangesPair size low high
        (λ c. signed low_negative (entries size cells.old high c))
        (λ c. signed high_negative (entries size cells.old low c))
        cells.old cells.new }
{
    let (front, back) = cells.split_at_mut(high * size);
    let x = &mut front[low * size..(low + 1) * size];
    let y = &mut back[..size];
    x.swap_with_slice(y);
    negate_if(x, low_negative);
    negate_if(y, high_negative);
}

/// Multiplies one row by √2.
pub fn scale_row(cells: &mut [Root2], size: usize, row: usize)
    requires below { row < size }
    requires whole { length cells.old ≡ size * size }
    requires small { (c : ℕ) → c < size → SurdWithin (2 ^ 61) (entries size cells.old row c) }
    ensures whole { length cells.new ≡ size * size }
    ensures row { ChangesRow size row (λ c. surd_times root2_surd (entries size cells.old row c))
        cells.old cells.new }
{
    multiply_by_root2(&mut cells[row * size..(row + 1) * size]);
}

/// Turns the sign of one row where it is to be negative.
pub fn sign_row(cells: &mut [Root2], size: usize, row: usize, negative: bool)
    requires below { row < size }
    requires whole { length cells.old ≡ size * size }
    requires small { (c : ℕ) → c < size → SurdWithin (2 ^ 62) (entries size cells.old row c) }
    ensures whole { length cells.new ≡ size * size }
    ensures row { ChangesRow size row (λ c. signed negative (entries size cells.old row c))
        cells.old cells.new }
{
    negate_if(&mut cells[row * size..(row + 1) * size], negative);
}

/// The cell at a row and a column.
pub fn cell_at(cells: &[Root2], size: usize, row: usize, column: usize) -> Root2
    requires whole { length cells.now ≡ size * size }
    requires row { row < size }
    requires column { column < size }
    ensures { surd_of result ≡ entries size cells.now row column }
{
    cells[row * size + column]
}

/// Puts a row, with a sign, in the place of a row.
pub fn put_row(cells: &mut [Root2], size: usize, row: usize, new_row: &[Root2], negative: bool)
    requires below { row < size }
    requires whole { length cells.old ≡ size * size }
    requires long { length new_row.now ≡ size }
    requires small { RowWithin (2 ^ 62) new_row.now }
    ensures whole { length cells.new ≡ size * size }
    ensures row { ChangesRow size row (λ c. signed negative (cell_of new_row.now c)) cells.old cells.new }
{
    let place = &mut cells[row * size..(row + 1) * size];
    place.copy_from_slice(new_row);
    negate_if(place, negative);
}

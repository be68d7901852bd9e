// Rotations of cells in two lists, row by row. The whole parts of a pair of rows are turned as their parts of √2 are.
ghost use Rattle.std.specs.Prelude.{◌≡◌, ℕ, ◌*◌, ◌^◌, ◌<◌, ◌≤◌, length, not};
ghost use Rattle.tc_ring.specs.Surds.{surd_plus, surd_times, root2_surd, SurdWithin};
ghost use Rattle.channel_rep.specs.Tables.{signed};
ghost use Rattle.channel_rep.specs.Rows.{rotated, rotation_turn};
ghost use Rattle.channel_rep.specs.Cells.{entries, EntriesWithin};
ghost use Rattle.channel_rep.specs.Changes.{ChangesPair, ChangesRow, ChangesRows};
ghost use Rattle.channel_rep.specs.Lanes.{most_small};
ghost use Rattle.channel_rep.specs.Parts.{cells_of};

use crate::lanes::subtract_and_add;
use crate::steps::codes;
use pauli_basis::Pauli;

/// Multiplies one row by √2: a + b·√2 becomes 2b + a·√2.
fn scale_parts(a: &mut [i16], b: &mut [i16], size: usize, row: usize)
    requires below { row < size }
    requires whole { length a.old ≡ size * size }
    requires root { length b.old ≡ size * size }
    requires small { (c : ℕ) → c < size → SurdWithin most_small (entries size (cells_of a.old b.old) row c) }
    ensures { ChangesRow size row
        (λ c. surd_times root2_surd (entries size (cells_of a.old b.old) row c))
        (cells_of a.old b.old) (cells_of a.new b.new) }
{
    for place in row * size..(row + 1) * size {
        let whole = a[place];
        a[place] = 2 * b[place];
        b[place] = whole;
    }
}

/// Puts row `low` minus row `high` in the place of row `low`, and their sum in the place of row `high`; or, where `low`
/// isn't to come first, the other way round: row `high` minus row `low` in the place of row `high`, and their sum in the
/// place of row `low`.
fn turn_parts(a: &mut [i16], b: &mut [i16], size: usize, low: usize, high: usize, low_first: bool)
    requires order { low < high }
    requires below { high < size }
    requires whole { length a.old ≡ size * size }
    requires root { length b.old ≡ size * size }
    requires small_low { (c : ℕ) → c < size → SurdWithin most_small (entries size (cells_of a.old b.old) low c) }
    requires small_high { (c : ℕ) → c < size → SurdWithin most_small (entries size (cells_of a.old b.old) high c) }
    ensures { ChangesPair size low high
        (λ c. surd_plus (entries size (cells_of a.old b.old) low c)
        (signed low_first (entries size (cells_of a.old b.old) high c)))
        (λ c. surd_plus (entries size (cells_of a.old b.old) high c)
        (signed (not low_first) (entries size (cells_of a.old b.old) low c)))
        (cells_of a.old b.old) (cells_of a.new b.new) }
{
    if low_first {
        subtract_and_add(a, low * size, high * size, size);
        subtract_and_add(b, low * size, high * size, size);
    } else {
        subtract_and_add(a, high * size, low * size, size);
        subtract_and_add(b, high * size, low * size, size);
    }
}

/// A rotation at the turn of one row: a row that commutes is multiplied by √2, and one that doesn't is turned together
/// with its partner, at the lower of the two.
fn rotate_row(a: &mut [i16], b: &mut [i16], p: &Pauli, inverse: bool, row: usize)
    requires below { row < 4 ^ p.now.qubits }
    requires whole { length a.old ≡ 4 ^ p.now.qubits * 4 ^ p.now.qubits }
    requires root { length b.old ≡ 4 ^ p.now.qubits * 4 ^ p.now.qubits }
    requires small { (r c : ℕ) → r < 4 ^ p.now.qubits → c < 4 ^ p.now.qubits
        → rotation_turn p.now.qubits p.now.code r ≡ row
        → SurdWithin most_small (entries (4 ^ p.now.qubits) (cells_of a.old b.old) r c) }
    ensures { ChangesRows (4 ^ p.now.qubits) (rotation_turn p.now.qubits p.now.code) row
        (rotated p.now.qubits inverse p.now.code) (cells_of a.old b.old) (cells_of a.new b.new) }
{
    let n = p.qubits();
    let size = codes(n);
    let q = Pauli::of_code(n, row as u8);
    if p.commutes(&q) {
        scale_parts(a, b, size, row);
    } else {
        let image = p.anti_image(&q);
        let partner = image.code() as usize;
        if row < partner {
            turn_parts(a, b, size, row, partner, image.is_negative() == inverse);
        }
    }
}

/// The rotation by `p`, or its inverse, of every row.
pub fn rotate_parts(a: &mut [i16], b: &mut [i16], p: &Pauli, inverse: bool)
    requires whole { length a.old ≡ 4 ^ p.now.qubits * 4 ^ p.now.qubits }
    requires root { length b.old ≡ 4 ^ p.now.qubits * 4 ^ p.now.qubits }
    requires small { EntriesWithin most_small (4 ^ p.now.qubits) (cells_of a.old b.old) }
    ensures code { p.now.code < 4 ^ p.now.qubits }
    ensures rows { (r c : ℕ) → r < 4 ^ p.now.qubits → c < 4 ^ p.now.qubits
        → entries (4 ^ p.now.qubits) (cells_of a.new b.new) r c
        ≡ rotated p.now.qubits inverse p.now.code (entries (4 ^ p.now.qubits) (cells_of a.old b.old)) r c }
{
    for row in 0..codes(p.qubits()) {
        rotate_row(a, b, p, inverse, row);
    }
}

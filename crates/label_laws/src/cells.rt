// The fold of a column that is kept by its cells other than 0.
ghost use Rattle.std.specs.Prelude.{◌≡◌, ℕ, ◌^◌, ◌<◌, length, slice_index};
ghost use Rattle.tc_ring.specs.Surds.{SurdWithin};
ghost use Rattle.channel_rep.specs.Cells.{cell_of};
ghost use Rattle.channel_rep.specs.Tables.{SurdTable};
ghost use Rattle.label_laws.specs.Congruence.{IsCongruent};
ghost use Rattle.label_laws.specs.Folds.{weighed};
ghost use Rattle.label_laws.specs.Sparse.{IsSparseColumn, AreWeights};

use tc_ring::Root2;

/// The fold of a column modulo 2^64, from its cells other than 0: the sum over them of a times its row's whole weight and b times
/// its row's part weight. `rows` are their rows, rising, and `cells` the cells, a cell a row; the weights have a row's at its place.
pub fn fold_cells(rows: &[u8], cells: &[Root2], whole_weights: &[u64], part_weights: &[u64]) -> u64
    requires long { length cells.now ≡ length rows.now }
    requires small { (k : ℕ) → k < length cells.now → SurdWithin (2 ^ 62) (cell_of cells.now k) }
    requires wholes { (k : ℕ) → k < length rows.now → slice_index rows.now k < length whole_weights.now }
    requires parts { (k : ℕ) → k < length rows.now → slice_index rows.now k < length part_weights.now }
    ensures { (size : ℕ) (w m : SurdTable) (column : ℕ) → IsSparseColumn size m column rows.now cells.now
        → AreWeights size w whole_weights.now part_weights.now → IsCongruent (2 ^ 64) (weighed size w m column) result }
{
    let mut sum = 0u64;
    for k in 0..rows.len() {
        let row = rows[k] as usize;
        let cell = cells[k];
        sum = sum
            .wrapping_add(whole_weights[row].wrapping_mul(cell.a.cast_unsigned()))
            .wrapping_add(part_weights[row].wrapping_mul(cell.b.cast_unsigned()));
    }
    sum
}

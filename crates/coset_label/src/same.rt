// Whether two labels are the same, row by row.
ghost use Rattle.std.specs.Prelude.{◌≡◌, ℕ, ◌^◌, ◌<◌, ◌↔◌, length, map, All, IsTrue};
ghost use Rattle.tc_ring.specs.Root2.{surd_of};
ghost use Rattle.channel_rep.specs.Cells.{cell_of, RowWithin};
ghost use Rattle.coset_label.specs.Scratch.{IsArranged, kept_column, cell_at};

use crate::columns::turn_sign;
use channel_rep::Channel;
use tc_ring::Root2;

/// The cell of a row that stands at a place of a label.
fn cell_at_place(line: &[Root2], negative: &[bool], order: &[u8], place: usize) -> Root2
    requires place { place < length order.now }
    requires below { All (λ column. column < length line.now) order.now }
    requires signs { length negative.now ≡ length line.now }
    requires small { RowWithin (2 ^ 62) line.now }
    ensures { surd_of result ≡ cell_at (cell_of line.now) negative.now order.now place }
{
    let column = order[place] as usize;
    turn_sign(line[column], negative[column])
}

/// Whether the cells of two labels in one row are the same.
fn same_row(
    x: &[Root2],
    x_negative: &[bool],
    x_order: &[u8],
    y: &[Root2],
    y_negative: &[bool],
    y_order: &[u8],
) -> bool
    requires places { length x_order.now ≡ length y_order.now }
    requires x_below { All (λ column. column < length x.now) x_order.now }
    requires x_signs { length x_negative.now ≡ length x.now }
    requires x_small { RowWithin (2 ^ 62) x.now }
    requires y_below { All (λ column. column < length y.now) y_order.now }
    requires y_signs { length y_negative.now ≡ length y.now }
    requires y_small { RowWithin (2 ^ 62) y.now }
    ensures { IsTrue result ↔ ((place : ℕ) → place < length x_order.now
        → cell_at (cell_of x.now) x_negative.now x_order.now place
        ≡ cell_at (cell_of y.now) y_negative.now y_order.now place) }
{
    for place in 0..x_order.len() {
        if cell_at_place(x, x_negative, x_order, place)
            != cell_at_place(y, y_negative, y_order, place)
        {
            return false;
        }
    }
    true
}

/// Whether two labels have the same columns.
pub fn same_columns(
    x: &Channel,
    x_negative: &[bool],
    x_order: &[u8],
    y: &Channel,
    y_negative: &[bool],
    y_order: &[u8],
) -> bool
    requires qubits { x.now.qubits ≡ y.now.qubits }
    requires x { IsArranged x.now x_negative.now x_order.now }
    requires y { IsArranged y.now y_negative.now y_order.now }
    ensures { IsTrue result
        ↔ (map (kept_column x.now x_negative.now) x_order.now
        ≡ map (kept_column y.now y_negative.now) y_order.now) }
{
    for row in 0..x_order.len() {
        if !same_row(
            x.row(row),
            x_negative,
            x_order,
            y.row(row),
            y_negative,
            y_order,
        ) {
            return false;
        }
    }
    true
}

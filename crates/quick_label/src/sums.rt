// The sums of a table's columns by the weights of the fold and of the digits, in one pass over their numbers.
ghost use Rattle.std.specs.Prelude.{◌≡◌, ℕ, ◌^◌, ◌<◌, ◌≤◌, length, slice_index};
ghost use Rattle.quick_label.specs.Columns.{RowsBelow};
ghost use Rattle.quick_label.specs.Sums.{IsSumWithRun, IsSumOfColumn, AreSumsOfColumns};

use crate::columns::Columns;
use crate::weights::Weights;

/// A column's sums modulo 2^64 by the weights of the fold, of the high digits and of the low ones.
#[derive(Clone, Copy)]
pub struct ColumnSums {
    pub fold: u64,
    pub high: u64,
    pub low: u64,
}

/// Sums with the numbers from one place to another more, each times the weights of its row.
fn with_run(
    sums: ColumnSums,
    rows: &[u8],
    values: &[i16],
    start: usize,
    end: usize,
    fold: &[u64],
    high: &[u64],
    low: &[u64],
) -> ColumnSums
    requires end { end ≤ length rows.now }
    requires long { length values.now ≡ length rows.now }
    requires fold { RowsBelow (length fold.now) rows.now }
    requires high { RowsBelow (length high.now) rows.now }
    requires low { RowsBelow (length low.now) rows.now }
    ensures fold { IsSumWithRun rows.now values.now start end fold.now sums.fold result.fold }
    ensures high { IsSumWithRun rows.now values.now start end high.now sums.high result.high }
    ensures low { IsSumWithRun rows.now values.now start end low.now sums.low result.low }
{
    let (mut fold_sum, mut high_sum, mut low_sum) = (sums.fold, sums.high, sums.low);
    for k in start..end {
        let row = rows[k] as usize;
        let value = i64::from(values[k]).cast_unsigned();
        fold_sum = fold_sum.wrapping_add(fold[row].wrapping_mul(value));
        high_sum = high_sum.wrapping_add(high[row].wrapping_mul(value));
        low_sum = low_sum.wrapping_add(low[row].wrapping_mul(value));
    }
    ColumnSums {
        fold: fold_sum,
        high: high_sum,
        low: low_sum,
    }
}

/// A column's sums.
fn weigh_column(
    columns: &Columns,
    column: usize,
    fold: &Weights,
    high: &Weights,
    low: &Weights,
) -> ColumnSums
    requires column { column < columns.now.size }
    requires fold { length fold.now.wholes ≡ columns.now.size }
    requires high { length high.now.wholes ≡ columns.now.size }
    requires low { length low.now.wholes ≡ columns.now.size }
    ensures fold { IsSumOfColumn columns.now fold.now column result.fold }
    ensures high { IsSumOfColumn columns.now high.now column result.high }
    ensures low { IsSumOfColumn columns.now low.now column result.low }
{
    let none = ColumnSums {
        fold: 0,
        high: 0,
        low: 0,
    };
    let (rows, values) = (columns.rows(), columns.values());
    let (start, middle, end) = columns.runs(column);
    let wholes = with_run(
        none,
        rows,
        values,
        start,
        middle,
        fold.wholes(),
        high.wholes(),
        low.wholes(),
    );
    with_run(
        wholes,
        rows,
        values,
        middle,
        end,
        fold.parts(),
        high.parts(),
        low.parts(),
    )
}

/// Writes the sums of each column.
pub fn weigh_columns(
    columns: &Columns,
    fold: &Weights,
    high: &Weights,
    low: &Weights,
    folds: &mut [u64],
    highs: &mut [u64],
    lows: &mut [u64],
)
    requires fold { length fold.now.wholes ≡ columns.now.size }
    requires high { length high.now.wholes ≡ columns.now.size }
    requires low { length low.now.wholes ≡ columns.now.size }
    requires folds { length folds.old ≡ columns.now.size }
    requires highs { length highs.old ≡ columns.now.size }
    requires lows { length lows.old ≡ columns.now.size }
    ensures folds { AreSumsOfColumns columns.now fold.now folds.new }
    ensures highs { AreSumsOfColumns columns.now high.now highs.new }
    ensures lows { AreSumsOfColumns columns.now low.now lows.new }
{
    for column in 0..columns.size() {
        let sums = weigh_column(columns, column, fold, high, low);
        folds[column] = sums.fold;
        highs[column] = sums.high;
        lows[column] = sums.low;
    }
}

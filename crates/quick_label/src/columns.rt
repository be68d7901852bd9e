// The columns of a channel without their zeros.
ghost use Rattle.std.specs.Prelude.{◌≡◌, ℕ, ◌+◌, ◌-◌, ◌*◌, ◌^◌, ◌<◌, ◌≤◌, ℤ, ◌+ℤ◌, ◌*ℤ◌, if◌then◌else◌, Bool, List, IfOk, length, slice_index};
ghost use Rattle.channel_rep.specs.Cells.{table_of};
ghost use Rattle.quick_label.specs.Blocks.{block_rows};
ghost use Rattle.quick_label.specs.Columns.{StoredColumns, IsColumnRoom, RowsBelow, run_sum};
ghost use Rattle.quick_label.specs.ColumnParts.{IsKeptTo, IsRunOf, AreRuns};
ghost use Rattle.quick_label.specs.Rooms.{AreBlocks};
ghost use Rattle.quick_label.specs.Tables.{IsSparseTable};

use crate::blocks::Blocks;
use crate::spans::codes;
use channel_rep::Narrow;
use std::alloc::{AllocError, Global};
use std::marker::Model;

/// Writes a row and its number at a place. The result is the place behind it, or the same place where the number is 0.
fn write_number(row: u8, number: i16, end: usize, rows: &mut [u8], values: &mut [i16]) -> usize
    requires room { end < length rows.old }
    requires long { length values.old ≡ length rows.old }
    ensures rows { length rows.new ≡ length rows.old }
    ensures values { length values.new ≡ length values.old }
    ensures from { end ≤ result }
    ensures most { result ≤ end + 1 }
    ensures below { (size : ℕ) → row < size → RowsBelow size rows.old → RowsBelow size rows.new }
    ensures kept { IsKeptTo end rows.old rows.new values.old values.new }
    ensures sum { (w : ℕ → ℤ) (start : ℕ) → start ≤ end → run_sum w rows.new values.new start (result - start)
        ≡ run_sum w rows.old values.old start (end - start) +ℤ w row *ℤ number }
{
    rows[end] = row;
    values[end] = number;
    end + usize::from(number != 0)
}

/// The whole part of a cell, or its part of √2.
fn number_at(channel: &Narrow, row: usize, column: usize, part: bool) -> i16
    requires row { row < 4 ^ channel.now.qubits }
    requires column { column < 4 ^ channel.now.qubits }
    ensures { result ≡ (if part then (table_of channel.now row column).b else (table_of channel.now row column).a) }
{
    let (whole, root) = channel.cell(row, column);
    if part { root } else { whole }
}

/// Writes the whole parts of a column's cells in the rows of its block, or their parts of √2, without zeros, from a place on. The
/// result is the place behind them.
fn write_run(
    channel: &Narrow,
    column: usize,
    block: &[u8],
    part: bool,
    start: usize,
    rows: &mut [u8],
    values: &mut [i16],
) -> usize
    requires column { column < 4 ^ channel.now.qubits }
    requires block { RowsBelow (4 ^ channel.now.qubits) block.now }
    requires room { start + length block.now ≤ length rows.old }
    requires long { length values.old ≡ length rows.old }
    requires below { RowsBelow (4 ^ channel.now.qubits) rows.old }
    ensures rows { length rows.new ≡ length rows.old }
    ensures values { length values.new ≡ length values.old }
    ensures from { start ≤ result }
    ensures most { result ≤ start + length block.now }
    ensures below { RowsBelow (4 ^ channel.now.qubits) rows.new }
    ensures kept { IsKeptTo start rows.old rows.new values.old values.new }
    ensures sum { IsRunOf block.now (λ row. if part then (table_of channel.now row column).b else (table_of channel.now row column).a)
        rows.new values.new start result }
{
    let mut end = start;
    for k in 0..block.len() {
        let row = block[k];
        let number = number_at(channel, row as usize, column, part);
        end = write_number(row, number, end, rows, values);
    }
    end
}

/// Writes all columns of a channel without their zeros, one behind the other, and where each of their runs starts: the whole parts
/// of a column, and then its parts of √2.
fn write_columns(
    channel: &Narrow,
    blocks: &Blocks,
    starts: &mut [u16],
    rows: &mut [u8],
    values: &mut [i16],
)
    requires size { blocks.now.size ≡ 4 ^ channel.now.qubits }
    requires few { blocks.now.size ≤ 64 }
    requires blocks { (span : List Bool) × AreBlocks (4 ^ channel.now.qubits) span blocks.now }
    requires starts { length starts.old ≡ 2 * blocks.now.size + 1 }
    requires rows { length rows.old ≡ 2 * (blocks.now.size * blocks.now.size) }
    requires values { length values.old ≡ 2 * (blocks.now.size * blocks.now.size) }
    requires below { RowsBelow (4 ^ channel.now.qubits) rows.old }
    ensures starts { length starts.new ≡ length starts.old }
    ensures rows { length rows.new ≡ length rows.old }
    ensures values { length values.new ≡ length values.old }
    ensures inside { (run : ℕ) → run ≤ 2 * blocks.now.size → slice_index starts.new run ≤ 2 * (blocks.now.size * blocks.now.size) }
    ensures below { RowsBelow (4 ^ channel.now.qubits) rows.new }
    ensures columns { (span : List Bool) → AreBlocks (4 ^ channel.now.qubits) span blocks.now
        → AreRuns (table_of channel.now) (block_rows (4 ^ channel.now.qubits) span) (4 ^ channel.now.qubits) starts.new rows.new values.new }
{
    let size = blocks.size();
    let mut end = 0;
    starts[0] = 0;
    for column in 0..size {
        let block = blocks.rows_of(column);
        let middle = write_run(channel, column, block, false, end, rows, values);
        end = write_run(channel, column, block, true, middle, rows, values);
        starts[2 * column + 1] = middle as u16;
        starts[2 * column + 2] = end as u16;
    }
}

/// The columns of a channel, each by its numbers other than 0 and their rows. They stand one behind the other in room for all
/// numbers of a table, which is taken once.
#[derive(Drop)]
pub struct Columns {
    size: usize,
    starts: Vec<u16>,
    rows: Vec<u8>,
    values: Vec<i16>,
}

impl Model for Columns {
    ghost use Rattle.quick_label.specs.Columns.{StoredColumns, IsColumnRoom};

    ghost Value = { StoredColumns };

    ghost view = { λ c. record { size = c.size; starts = c.starts.items; rows = c.rows.items; values = c.values.items } };

    ghost invariant = { λ c. IsColumnRoom
        (record { size = c.size; starts = c.starts.items; rows = c.rows.items; values = c.values.items }) };
}

impl Columns {
    ghost use Rattle.quick_label.specs.Columns.{HoldsColumns};

    /// Room for the columns of a channel on n qubits, all without numbers.
    pub fn new(alloc: Global, n: u8) -> Result<Columns, AllocError>
        requires { n ≤ 3 }
        ensures { IfOk result (λ columns. columns.size ≡ 4 ^ n) }
    {
        let size = codes(n);
        let starts = vec![in alloc; 0u16; 2 * size + 1]?;
        let rows = vec![in alloc; 0u8; 2 * (size * size)]?;
        let values = vec![in alloc; 0i16; 2 * (size * size)]?;
        Ok(Columns {
            size,
            starts,
            rows,
            values,
        })
    }

    /// How many columns there are, 4^n.
    pub fn size(&self) -> usize
        ensures value { result ≡ self.now.size }
        ensures few { result ≤ 64 }
    {
        self.size
    }

    /// Takes the columns of a channel in place of those before, where the channel is 0 between different blocks.
    pub fn take(&mut self, channel: &Narrow, blocks: &Blocks)
        requires size { self.old.size ≡ 4 ^ channel.now.qubits }
        requires blocks { blocks.now.size ≡ 4 ^ channel.now.qubits }
        requires held { (span : List Bool) × AreBlocks (4 ^ channel.now.qubits) span blocks.now }
        ensures size { self.new.size ≡ self.old.size }
        ensures columns { (span : List Bool) → AreBlocks (4 ^ channel.now.qubits) span blocks.now
            → IsSparseTable (4 ^ channel.now.qubits) span (table_of channel.now)
            → HoldsColumns (4 ^ channel.now.qubits) (table_of channel.now) self.new }
    {
        write_columns(
            channel,
            blocks,
            &mut self.starts,
            &mut self.rows,
            &mut self.values,
        );
    }

    /// Where the whole parts of a column start, where its parts of √2 do, and where they end.
    pub fn runs(&self, column: usize) -> (usize, usize, usize)
        requires { column < self.now.size }
        ensures start { result.0 ≡ slice_index self.now.starts (2 * column) }
        ensures middle { result.1 ≡ slice_index self.now.starts (2 * column + 1) }
        ensures end { result.2 ≡ slice_index self.now.starts (2 * column + 2) }
        ensures middle_inside { result.1 ≤ length self.now.rows }
        ensures end_inside { result.2 ≤ length self.now.rows }
    {
        (
            self.starts[2 * column] as usize,
            self.starts[2 * column + 1] as usize,
            self.starts[2 * column + 2] as usize,
        )
    }

    /// The rows of all numbers.
    pub fn rows(&self) -> &[u8]
        ensures value { result.now ≡ self.now.rows }
        ensures below { RowsBelow self.now.size result.now }
    {
        &self.rows
    }

    /// The numbers.
    pub fn values(&self) -> &[i16]
        ensures value { result.now ≡ self.now.values }
        ensures long { length result.now ≡ length self.now.rows }
    {
        &self.values
    }
}

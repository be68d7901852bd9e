// The parities of a channel's numbers, and how often a letter's rotation can be divided.
ghost use Rattle.std.specs.Prelude.{◌≡◌, ◌≢◌, ℕ, ◌+◌, ◌^◌, ◌<◌, ◌≤◌, Bool, List, IfOk, false, length, slice_index_or};
ghost use Rattle.std.specs.Int.{bit_at};
ghost use Rattle.pauli_basis.specs.Products.{commute};
ghost use Rattle.channel_rep.specs.Cells.{table_of};
ghost use Rattle.channel_rep.specs.Rows.{rotated};
ghost use Rattle.channel_rep.specs.Tables.{SurdTable};
ghost use Rattle.word_laws.specs.Divisions.{IsDivisionCount};
ghost use Rattle.word_laws.specs.Parities.{parity};
ghost use Rattle.quick_label.specs.Columns.{RowsBelow};
ghost use Rattle.quick_label.specs.ParityWords.{HasBitsAt, HoldsParities};
ghost use Rattle.quick_label.specs.Rooms.{AreBlocks};
ghost use Rattle.quick_label.specs.Tables.{IsSparseTable};

use crate::blocks::Blocks;
use crate::spans::codes;
use channel_rep::Narrow;
use pauli_basis::Pauli;
use std::alloc::{AllocError, Global};
use std::marker::Model;

/// A word with the parity of a number as the bit at a place, which was 0 or is that parity.
fn with_parity(word: u64, place: usize, number: i16) -> u64
    requires place { place < 64 }
    ensures below { (bits : ℕ) → place < bits → word < 2 ^ bits → result < 2 ^ bits }
    ensures kept { (k : ℕ) → k ≢ place → bit_at result k ≡ bit_at word k }
    ensures fresh { bit_at word place ≡ 0 → bit_at result place ≡ parity number }
    ensures again { bit_at word place ≡ parity number → bit_at result place ≡ parity number }
{
    if number % 2 == 0 {
        word
    } else {
        word | 1 << place
    }
}

/// The parities of a row's numbers, a bit a column: those of the whole parts, and those of the parts of √2.
fn row_parities(channel: &Narrow, row: usize) -> (u64, u64)
    requires { row < 4 ^ channel.now.qubits }
    ensures whole_below { result.0 < 2 ^ 4 ^ channel.now.qubits }
    ensures part_below { result.1 < 2 ^ 4 ^ channel.now.qubits }
    ensures wholes { (k : ℕ) → k < 4 ^ channel.now.qubits → bit_at result.0 k ≡ parity (table_of channel.now row k).a }
    ensures parts { (k : ℕ) → k < 4 ^ channel.now.qubits → bit_at result.1 k ≡ parity (table_of channel.now row k).b }
{
    let mut wholes = 0;
    let mut parts = 0;
    for column in 0..codes(channel.qubits()) {
        let (whole, part) = channel.cell(row, column);
        wholes = with_parity(wholes, column, whole);
        parts = with_parity(parts, column, part);
    }
    (wholes, parts)
}

/// Writes the parities of a channel's rows.
fn write_parities(channel: &Narrow, wholes: &mut [u64], parts: &mut [u64])
    requires wholes { length wholes.old ≡ 4 ^ channel.now.qubits }
    requires parts { length parts.old ≡ 4 ^ channel.now.qubits }
    ensures wholes { length wholes.new ≡ 4 ^ channel.now.qubits }
    ensures parts { length parts.new ≡ 4 ^ channel.now.qubits }
    ensures parities { HoldsParities channel.now.qubits (table_of channel.now)
        (record { qubits = channel.now.qubits; wholes = wholes.new; parts = parts.new }) }
{
    for row in 0..codes(channel.qubits()) {
        let (whole, part) = row_parities(channel, row);
        wholes[row] = whole;
        parts[row] = part;
    }
}

/// The parities of a row's numbers in some columns, a bit a column, and else 0.
fn block_parities(channel: &Narrow, row: usize, columns: &[u8]) -> (u64, u64)
    requires row { row < 4 ^ channel.now.qubits }
    requires columns { RowsBelow (4 ^ channel.now.qubits) columns.now }
    requires few { 4 ^ channel.now.qubits ≤ 64 }
    ensures whole_below { result.0 < 2 ^ 4 ^ channel.now.qubits }
    ensures part_below { result.1 < 2 ^ 4 ^ channel.now.qubits }
    ensures wholes { HasBitsAt columns.now (λ k. parity (table_of channel.now row k).a) result.0 }
    ensures parts { HasBitsAt columns.now (λ k. parity (table_of channel.now row k).b) result.1 }
{
    let mut wholes = 0;
    let mut parts = 0;
    for k in 0..columns.len() {
        let column = columns[k] as usize;
        let (whole, part) = channel.cell(row, column);
        wholes = with_parity(wholes, column, whole);
        parts = with_parity(parts, column, part);
    }
    (wholes, parts)
}

/// Writes the parities of a channel's rows, where the channel is 0 between different blocks. A row's block is that of its columns.
fn write_within(channel: &Narrow, blocks: &Blocks, wholes: &mut [u64], parts: &mut [u64])
    requires size { blocks.now.size ≡ 4 ^ channel.now.qubits }
    requires blocks { (span : List Bool) × AreBlocks (4 ^ channel.now.qubits) span blocks.now }
    requires wholes { length wholes.old ≡ 4 ^ channel.now.qubits }
    requires parts { length parts.old ≡ 4 ^ channel.now.qubits }
    ensures wholes { length wholes.new ≡ 4 ^ channel.now.qubits }
    ensures parts { length parts.new ≡ 4 ^ channel.now.qubits }
    ensures parities { (span : List Bool) → AreBlocks (4 ^ channel.now.qubits) span blocks.now
        → IsSparseTable (4 ^ channel.now.qubits) span (table_of channel.now)
        → HoldsParities channel.now.qubits (table_of channel.now)
        (record { qubits = channel.now.qubits; wholes = wholes.new; parts = parts.new }) }
{
    for row in 0..blocks.size() {
        let (whole, part) = block_parities(channel, row, blocks.rows_of(row));
        wholes[row] = whole;
        parts[row] = part;
    }
}

/// The parities of a channel's numbers, a word a row and a bit a column, in room that is taken once.
#[derive(Drop)]
pub struct Parities {
    n: u8,
    wholes: Vec<u64>,
    parts: Vec<u64>,
}

impl Model for Parities {
    ghost use Rattle.quick_label.specs.ParityWords.{ParityWords, IsParityRoom};

    ghost Value = { ParityWords };

    ghost view = { λ p. record { qubits = p.n; wholes = p.wholes.items; parts = p.parts.items } };

    ghost invariant = { λ p. IsParityRoom (record { qubits = p.n; wholes = p.wholes.items; parts = p.parts.items }) };
}

impl Parities {
    /// Room for the parities of a channel on n qubits.
    pub fn new(alloc: Global, n: u8) -> Result<Parities, AllocError>
        requires { n ≤ 3 }
        ensures { IfOk result (λ parities. parities.qubits ≡ n) }
    {
        let rows = codes(n);
        let wholes = vec![in alloc; 0u64; rows]?;
        let parts = vec![in alloc; 0u64; rows]?;
        Ok(Parities { n, wholes, parts })
    }

    /// Takes the parities of a channel's numbers in place of those before.
    pub fn take(&mut self, channel: &Narrow)
        requires { self.old.qubits ≡ channel.now.qubits }
        ensures { HoldsParities channel.now.qubits (table_of channel.now) self.new }
    {
        write_parities(channel, &mut self.wholes, &mut self.parts);
    }

    /// Takes the parities of a channel that is 0 between different blocks of these.
    pub fn take_within(&mut self, channel: &Narrow, blocks: &Blocks)
        requires same { self.old.qubits ≡ channel.now.qubits }
        requires size { blocks.now.size ≡ 4 ^ channel.now.qubits }
        requires blocks { (span : List Bool) × AreBlocks (4 ^ channel.now.qubits) span blocks.now }
        ensures { (span : List Bool) → AreBlocks (4 ^ channel.now.qubits) span blocks.now
            → IsSparseTable (4 ^ channel.now.qubits) span (table_of channel.now)
            → HoldsParities channel.now.qubits (table_of channel.now) self.new }
    {
        write_within(channel, blocks, &mut self.wholes, &mut self.parts);
    }

    /// How often the product of the rotation by `p`, or of its inverse, and the table can be divided by √2: 0, 1, or 2 for at
    /// least twice.
    /// `commuting` says which rows commute with `p`.
    pub fn divisions(&self, commuting: &[bool], p: Pauli) -> u8
        requires same { p.qubits ≡ self.now.qubits }
        requires long { length commuting.now ≡ 4 ^ self.now.qubits }
        ensures { (n : ℕ) (inverse : Bool) (m : SurdTable) → HoldsParities n m self.now
            → ((row : ℕ) → row < 4 ^ n → slice_index_or commuting.now row false ≡ commute n p.code row)
            → IsDivisionCount n (rotated n inverse p.code m) result }
    {
        word_laws::divisions(&self.wholes, &self.parts, commuting, p.code() as usize)
    }
}

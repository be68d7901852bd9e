// The blocks of a span.
ghost use Rattle.std.specs.Prelude.{◌≡◌, ◌≢◌, ℕ, ◌+◌, ◌*◌, ◌^◌, ◌<◌, ◌≤◌, ◌↔◌, Bool, List, length, IsTrue, IfOk, EachIndex, slice_index, if◌then◌else◌};
ghost use Rattle.pauli_basis.specs.Products.{product_code};
ghost use Rattle.quick_label.specs.Blocks.{in_block, block_rows, rows_behind};
ghost use Rattle.quick_label.specs.Rooms.{HeldBlocks, IsBlockRoom, MarksSubspace, AreBlocks, HasSmallBlocks, AreHomes, ArePlaced};

use crate::spans::codes;
use std::alloc::{AllocError, Global};
use std::marker::Model;

/// The most rows of a block whose digits find room in 128 bits.
const MOST_ROWS: u8 = 16;

/// The home of a column whose block is not known yet.
const NO_HOME: u8 = 255;

/// The blocks of a span: codes that differ by one of its own lie in one block.
///
/// A block's rows stand together, the last first, at the block's home, which is its least code.
#[derive(Drop)]
pub struct Blocks {
    size: usize,
    homes: Vec<u8>,
    rows: Vec<u8>,
    counts: Vec<u8>,
    behind: Vec<u8>,
}

impl Model for Blocks {
    ghost Value = { HeldBlocks };

    ghost view = { λ b. record { size = b.size; homes = b.homes.items; rows = b.rows.items; counts = b.counts.items; behind = b.behind.items } };

    ghost invariant = { λ b. IsBlockRoom (record { size = b.size; homes = b.homes.items; rows = b.rows.items; counts = b.counts.items; behind = b.behind.items }) };
}

/// Makes a code the home of all codes in its block.
fn settle_block(span: &[bool], home: usize, homes: &mut [u8])
    requires long { length homes.old ≡ length span.now }
    requires closed { (v : ℕ) → v < length span.now → product_code home v < length span.now }
    requires low { home < 255 }
    ensures { (x : ℕ) → x < length span.now
        → slice_index homes.new x ≡ (if in_block span.now home x then home else slice_index homes.old x) }
{
    for v in 0..span.len() {
        if span[v] {
            homes[home ^ v] = home as u8;
        }
    }
}

/// Finds a home for each code: the least of its block.
fn find_homes(span: &[bool], homes: &mut [u8])
    requires subspace { MarksSubspace (length homes.old) span.now }
    requires few { length homes.old ≤ 64 }
    requires closed { (x y : ℕ) → x < length homes.old → y < length homes.old → product_code x y < length homes.old }
    ensures { AreHomes (length homes.old) span.now homes.new }
{
    homes.fill(NO_HOME);
    for code in 0..homes.len() {
        if homes[code] == NO_HOME {
            settle_block(span, code, homes);
        }
    }
}

/// Puts each row to its home, the last row first, and counts those behind it.
fn place_rows(homes: &[u8], rows: &mut [u8], counts: &mut [u8], behind: &mut [u8])
    requires few { length homes.now ≤ 64 }
    requires below { (x : ℕ) → x < length homes.now → slice_index homes.now x < length homes.now }
    requires rows { length rows.old ≡ length homes.now * length homes.now }
    requires counts { length counts.old ≡ length homes.now }
    requires behind { length behind.old ≡ length homes.now }
    ensures { ArePlaced (length homes.now) homes.now rows.new counts.new behind.new }
{
    counts.fill(0);
    let mut row = homes.len();
    while row > 0 {
        row -= 1;
        let home = homes[row] as usize;
        let count = counts[home];
        behind[row] = count;
        rows[home * homes.len() + count as usize] = row as u8;
        counts[home] = count + 1;
    }
}

/// Whether no block has more rows than digits find room.
fn has_small_counts(counts: &[u8]) -> bool
    ensures { IsTrue result ↔ EachIndex counts.now (λ home. slice_index counts.now home ≤ 16) }
{
    counts.iter().all(|count| *count <= MOST_ROWS)
}

impl Blocks {
    /// Room for the blocks of a span on n qubits. It holds no blocks yet.
    pub fn new(alloc: Global, n: u8) -> Result<Blocks, AllocError>
        requires { n ≤ 3 }
        ensures { IfOk result (λ blocks. blocks.size ≡ 4 ^ n) }
    {
        let size = codes(n);
        let homes = vec![in alloc; 0u8; size]?;
        let rows = vec![in alloc; 0u8; size * size]?;
        let counts = vec![in alloc; 0u8; size]?;
        let behind = vec![in alloc; 0u8; size]?;
        Ok(Blocks {
            size,
            homes,
            rows,
            counts,
            behind,
        })
    }

    /// Finds the blocks of a span that marks a subspace of the codes. True only where no block has more than 16 rows.
    pub fn take(&mut self, span: &[bool]) -> bool
        requires { MarksSubspace self.old.size span.now }
        ensures size { self.new.size ≡ self.old.size }
        ensures blocks { AreBlocks self.old.size span.now self.new }
        ensures small { IsTrue result → HasSmallBlocks self.old.size span.now }
    {
        find_homes(span, &mut self.homes);
        place_rows(
            &self.homes,
            &mut self.rows,
            &mut self.counts,
            &mut self.behind,
        );
        has_small_counts(&self.counts)
    }

    /// How many codes there are, 4^n.
    pub fn size(&self) -> usize
        ensures value { result ≡ self.now.size }
        ensures few { result ≤ 64 }
    {
        self.size
    }

    /// The home of a code's block, which is the same for all codes of the block and one of them.
    pub fn home(&self, code: usize) -> usize
        requires { code < self.now.size }
        ensures value { result ≡ slice_index self.now.homes code }
        ensures below { result < self.now.size }
    {
        self.homes[code] as usize
    }

    /// The rows of a column's block, the last first.
    pub fn rows_of(&self, column: usize) -> &[u8]
        requires { column < self.now.size }
        ensures { (span : List Bool) → AreBlocks self.now.size span self.now → result.now ≡ block_rows self.now.size span column }
    {
        let home = self.homes[column] as usize;
        let start = home * self.size;
        &self.rows[start..start + self.counts[home] as usize]
    }

    /// How many rows of a row's own block stand behind it.
    pub fn behind(&self, row: usize) -> u8
        requires { row < self.now.size }
        ensures value { result ≡ slice_index self.now.behind row }
        ensures blocks { (span : List Bool) → AreBlocks self.now.size span self.now → result ≡ rows_behind self.now.size span row }
    {
        self.behind[row]
    }
}

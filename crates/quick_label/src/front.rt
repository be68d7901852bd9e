// Room for what a letter before a word makes, and the steps from one part of it to the next.
ghost use Rattle.std.specs.Prelude.{◌≡◌, ◌≢◌, ℕ, ◌+◌, ◌*◌, ◌^◌, ◌<◌, ◌≤◌, ℤ, pos, ◌+ℤ◌, ◌*ℤ◌, nat_abs, if◌then◌else◌, Bool, List, IsTrue, IfOk, length, slice_index, slice_index_or};
ghost use Rattle.label_laws.specs.Congruence.{IsCongruent};
ghost use Rattle.quick_label.specs.Blocks.{block_rows};
ghost use Rattle.quick_label.specs.FrontRooms.{IsFrontRoom, AreHalves, AreLedBy};
ghost use Rattle.quick_label.specs.Rooms.{AreBlocks};

use crate::blocks::Blocks;
use crate::numbers::{lead_of, number_of};
use crate::spans::codes;
use crate::weights::Weights;
use std::alloc::{AllocError, Global};

/// Room for what a letter before a word makes.
#[derive(Drop)]
pub struct Front {
    /// A span, while another is made of it.
    pub span: Vec<bool>,
    /// The weights before the letter that make the sums behind it, by those of the fold, of the high digits and of the low ones.
    pub fold_before: Weights,
    pub high_before: Weights,
    pub low_before: Weights,
    /// The sums of the word's columns by these weights.
    pub folds: Vec<u64>,
    pub highs: Vec<u64>,
    pub lows: Vec<u64>,
    /// The columns behind the letter: their numbers, their lead rows, and their places in the label.
    pub numbers: Vec<i128>,
    pub leads: Vec<u8>,
    pub places: Vec<u8>,
}

impl Front {
    /// Room on n qubits.
    pub fn new(alloc: Global, n: u8) -> Result<Front, AllocError>
        requires { n ≤ 3 }
        ensures { IfOk result (IsFrontRoom n) }
    {
        let size = codes(n);
        Ok(Front {
            span: vec![in alloc; false; size]?,
            fold_before: Weights::new(alloc, n)?,
            high_before: Weights::new(alloc, n)?,
            low_before: Weights::new(alloc, n)?,
            folds: vec![in alloc; 0u64; size]?,
            highs: vec![in alloc; 0u64; size]?,
            lows: vec![in alloc; 0u64; size]?,
            numbers: vec![in alloc; 0i128; size]?,
            leads: vec![in alloc; 0u8; size]?,
            places: vec![in alloc; 0u8; size]?,
        })
    }
}

/// Writes the number of each column from its halves, or from those of twice the number.
pub fn number_columns(highs: &[u64], lows: &[u64], halve: bool, numbers: &mut [i128])
    requires highs { length highs.now ≡ length numbers.old }
    requires lows { length lows.now ≡ length numbers.old }
    ensures long { length numbers.new ≡ length numbers.old }
    ensures numbers { (x y z : ℕ → ℤ) → AreHalves (length numbers.old) highs.now lows.now halve x y z
        → (column : ℕ) → column < length numbers.old → slice_index_or numbers.new column (pos 0) ≡ z column }
{
    for column in 0..numbers.len() {
        numbers[column] = number_of(highs[column], lows[column], halve);
    }
}

/// Writes the lead row of each column, by its number. True only where no number is 0.
pub fn find_leads(numbers: &[i128], blocks: &Blocks, leads: &mut [u8]) -> bool
    requires numbers { length numbers.now ≡ blocks.now.size }
    requires leads { length leads.old ≡ blocks.now.size }
    ensures long { length leads.new ≡ length leads.old }
    ensures leads { (span : List Bool) → AreBlocks blocks.now.size span blocks.now → IsTrue result
        → AreLedBy blocks.now.size span numbers.now leads.new }
{
    let mut all = true;
    for column in 0..numbers.len() {
        let number = numbers[column];
        all &= number != 0;
        leads[column] = lead_of(blocks.rows_of(column), number);
    }
    all
}

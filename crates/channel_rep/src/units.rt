// Lines of cells in which one is 1 or −1 and the others are 0.
ghost use Rattle.std.specs.Prelude.{◌≡◌, ℕ, ◌+◌, ◌*◌, ◌<◌, ◌≤◌, ◌↔◌, length, IsTrue};
ghost use Rattle.tc_ring.specs.Root2.{surd_of};
ghost use Rattle.tc_ring.specs.Surds.{zero_surd, one_surd};
ghost use Rattle.channel_rep.specs.Tables.{signed};
ghost use Rattle.channel_rep.specs.Cells.{cell_of, entries, IsUnit, HasOneUnit};

use crate::rows::cell_at;
use pauli_basis::SignedPauli;
use tc_ring::Root2;

const ZERO: Root2 = Root2 { a: 0, b: 0 };

const ONE: Root2 = Root2 { a: 1, b: 0 };

const MINUS_ONE: Root2 = Root2 { a: -1, b: 0 };

/// Whether a number is 0.
fn is_zero(x: Root2) -> bool
    ensures { IsTrue result ↔ (surd_of x ≡ zero_surd) }
{
    x == ZERO
}

/// Whether a number is 1 or −1.
fn is_unit(x: Root2) -> bool
    ensures { IsTrue result ↔ IsUnit (surd_of x) }
{
    x == ONE || x == MINUS_ONE
}

/// Whether one cell of a line is 1 or −1, and the others are 0. The line has `size` cells, `step` places apart.
fn has_one_unit(cells: &[Root2], first: usize, step: usize, size: usize) -> bool
    requires { (k : ℕ) → k < size → first + k * step < length cells.now }
    ensures { IsTrue result ↔ HasOneUnit size (λ k. cell_of cells.now (first + k * step)) }
{
    let mut found = false;
    for k in 0..size {
        let cell = cells[first + k * step];
        if !is_zero(cell) {
            if found || !is_unit(cell) {
                return false;
            }
            found = true;
        }
    }
    found
}

/// Whether that is so of each of `size` lines, `across` places apart.
fn all_have_one_unit(cells: &[Root2], size: usize, across: usize, step: usize) -> bool
    requires { (line k : ℕ) → line < size → k < size → line * across + k * step < length cells.now }
    ensures { IsTrue result
        ↔ ((line : ℕ) → line < size → HasOneUnit size (λ k. cell_of cells.now (line * across + k * step))) }
{
    for line in 0..size {
        if !has_one_unit(cells, line * across, step, size) {
            return false;
        }
    }
    true
}

/// Whether each row and each column of a table has one cell 1 or −1 and else 0.
pub fn is_signed_permutation(cells: &[Root2], size: usize) -> bool
    requires { length cells.now ≡ size * size }
    ensures { IsTrue result
        ↔ (((row : ℕ) → row < size → HasOneUnit size (λ column. entries size cells.now row column))
        × ((column : ℕ) → column < size → HasOneUnit size (λ row. entries size cells.now row column))) }
{
    all_have_one_unit(cells, size, size, 1) && all_have_one_unit(cells, size, 1, size)
}

/// The row of the one cell of a column that isn't 0, as a code, with the sign of that cell.
pub fn unit_of_column(cells: &[Root2], size: usize, column: usize) -> SignedPauli
    requires few { size ≤ 64 }
    requires whole { length cells.now ≡ size * size }
    requires below { column < size }
    requires one { HasOneUnit size (λ row. entries size cells.now row column) }
    ensures row { result.code < size }
    ensures cell { entries size cells.now result.code column ≡ signed result.is_negative one_surd }
{
    for row in 0..size {
        let cell = cell_at(cells, size, row, column);
        if !is_zero(cell) {
            return SignedPauli::new(row as u8, cell == MINUS_ONE);
        }
    }
    unreachable!()
}

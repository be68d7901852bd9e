// Steps on a table, row by row.
ghost use Rattle.std.specs.Prelude.{◌≡◌, ℕ, ◌+◌, ◌*◌, ◌^◌, ◌<◌, ◌≤◌, length};
ghost use Rattle.channel_rep.specs.Cells.{entries, EntriesWithin};
ghost use Rattle.channel_rep.specs.Changes.{ChangesRows};
ghost use Rattle.channel_rep.specs.Rows.{rotated, moved, rotation_turn, gate_turn};
ghost use Rattle.channel_rep.specs.Conjugations.{IsPauliMap, MovesRows};
ghost use Rattle.channel_rep.specs.Gates.{GateFits};
ghost use Rattle.tc_ring.specs.Surds.{SurdWithin};

use crate::rows::{put_row, scale_row, sign_row, swap_pair, turn_pair};
use crate::{ChannelGate, Conjugation};
use pauli_basis::Pauli;
use tc_ring::Root2;

/// The number of Pauli operators on n qubits, 4^n.
pub fn codes(n: u8) -> usize
    requires { n ≤ 3 }
    ensures { result ≡ 4 ^ n }
{
    1 << (2 * n)
}

/// A rotation at the turn of one row: a row that commutes is multiplied by √2, and one that doesn't is turned together
/// with its partner, at the lower of the two.
fn rotate_row(cells: &mut [Root2], p: &Pauli, inverse: bool, row: usize)
    requires below { row < 4 ^ p.now.qubits }
    requires whole { length cells.old ≡ 4 ^ p.now.qubits * 4 ^ p.now.qubits }
    requires small { (r c : ℕ) → r < 4 ^ p.now.qubits → c < 4 ^ p.now.qubits
        → rotation_turn p.now.qubits p.now.code r ≡ row
        → SurdWithin (2 ^ 61) (entries (4 ^ p.now.qubits) cells.old r c) }
    ensures whole { length cells.new ≡ 4 ^ p.now.qubits * 4 ^ p.now.qubits }
    ensures change { ChangesRows (4 ^ p.now.qubits) (rotation_turn p.now.qubits p.now.code) row
        (rotated p.now.qubits inverse p.now.code) cells.old cells.new }
{
    let n = p.qubits();
    let size = codes(n);
    let q = Pauli::of_code(n, row as u8);
    if p.commutes(&q) {
        scale_row(cells, size, row);
    } else {
        let image = p.anti_image(&q);
        let partner = image.code() as usize;
        if row < partner {
            turn_pair(cells, size, row, partner, image.is_negative() == inverse);
        }
    }
}

/// The rotation by `p`, or its inverse, of every row.
pub fn rotate_rows(cells: &mut [Root2], p: &Pauli, inverse: bool)
    requires whole { length cells.old ≡ 4 ^ p.now.qubits * 4 ^ p.now.qubits }
    requires small { EntriesWithin (2 ^ 61) (4 ^ p.now.qubits) cells.old }
    ensures whole { length cells.new ≡ 4 ^ p.now.qubits * 4 ^ p.now.qubits }
    ensures code { p.now.code < 4 ^ p.now.qubits }
    ensures rows { (r c : ℕ) → r < 4 ^ p.now.qubits → c < 4 ^ p.now.qubits
        → entries (4 ^ p.now.qubits) cells.new r c
        ≡ rotated p.now.qubits inverse p.now.code (entries (4 ^ p.now.qubits) cells.old) r c }
{
    for row in 0..codes(p.qubits()) {
        rotate_row(cells, p, inverse, row);
    }
}

/// A gate at the turn of one row: a row that stays in its place may turn its sign, and two rows that change places are
/// swapped at the lower of the two.
fn move_row(cells: &mut [Root2], n: u8, gate: ChannelGate, row: usize)
    requires some { 0 < n }
    requires few { n ≤ 3 }
    requires fits { GateFits n gate }
    requires below { row < 4 ^ n }
    requires whole { length cells.old ≡ 4 ^ n * 4 ^ n }
    requires small { (r c : ℕ) → r < 4 ^ n → c < 4 ^ n → gate_turn n gate r ≡ row
        → SurdWithin (2 ^ 62) (entries (4 ^ n) cells.old r c) }
    ensures whole { length cells.new ≡ 4 ^ n * 4 ^ n }
    ensures change { ChangesRows (4 ^ n) (gate_turn n gate) row (moved n gate) cells.old cells.new }
{
    let size = codes(n);
    let image = gate.image(row as u8);
    let code = image.code();
    let negative = image.is_negative();
    let partner = code as usize;
    if row < partner {
        let back = gate.image(code);
        swap_pair(cells, size, row, partner, back.is_negative(), negative);
    } else if partner == row {
        sign_row(cells, size, row, negative);
    }
}

/// The gate on every row.
pub fn move_rows(cells: &mut [Root2], n: u8, gate: ChannelGate)
    requires some { 0 < n }
    requires few { n ≤ 3 }
    requires fits { GateFits n gate }
    requires whole { length cells.old ≡ 4 ^ n * 4 ^ n }
    requires small { EntriesWithin (2 ^ 62) (4 ^ n) cells.old }
    ensures whole { length cells.new ≡ 4 ^ n * 4 ^ n }
    ensures rows { (r c : ℕ) → r < 4 ^ n → c < 4 ^ n
        → entries (4 ^ n) cells.new r c ≡ moved n gate (entries (4 ^ n) cells.old) r c }
{
    for row in 0..codes(n) {
        move_row(cells, n, gate, row);
    }
}

/// Puts each row of other cells at the row of its image, with the image's sign.
pub fn conjugate_rows(cells: &mut [Root2], from: &[Root2], by: &Conjugation)
    requires whole { length cells.old ≡ 4 ^ by.now.qubits * 4 ^ by.now.qubits }
    requires as_long { length from.now ≡ 4 ^ by.now.qubits * 4 ^ by.now.qubits }
    requires small { EntriesWithin (2 ^ 62) (4 ^ by.now.qubits) from.now }
    ensures whole { length cells.new ≡ 4 ^ by.now.qubits * 4 ^ by.now.qubits }
    ensures valid { IsPauliMap by.now }
    ensures rows { MovesRows by.now (entries (4 ^ by.now.qubits) from.now) (entries (4 ^ by.now.qubits) cells.new) }
{
    let size = codes(by.qubits());
    for row in 0..size {
        let image = by.image(row as u8);
        let new_row = image.code() as usize;
        let old_row = &from[row * size..(row + 1) * size];
        put_row(cells, size, new_row, old_row, image.is_negative());
    }
}

ghost use Rattle.std.specs.Prelude.{◌≡◌, ℕ, ◌+◌, ◌*◌, ◌^◌, ◌<◌, ◌≤◌, List, [], ◌∷◌, ◌++◌, length, slice_index_or, if◌then◌else◌, ◌==◌, ◌≢◌, IsTrue, IfOk};
ghost use Rattle.tc_ring.specs.Bounds.{IsWithin};
ghost use Rattle.ring_laws.specs.Cyclotomic.{times, cyclotomics, ω, one_number};
ghost use Rattle.ring_laws.specs.Ring.{power};
ghost use Rattle.tc_ring.specs.Omega.{number_of};
ghost use Rattle.ring_laws.specs.Matrix.{product, Agree, identity};
ghost use Rattle.tc_circuit.specs.Bits.{has_bit, flipped, crossed};
ghost use Rattle.tc_circuit.specs.Gate.{gate_table, gate_exponent, Fits};
ghost use Rattle.tc_circuit.specs.Grid.{entries, no_cell, ColumnWithin};
ghost use Rattle.tc_circuit.specs.Model.{IsMatrixOf};

use crate::Gate;
use std::alloc::{AllocError, Global};
use std::marker::Model;
use tc_ring::Omega;

/// 2^n
fn states(n: u8) -> usize
    requires { n ≤ 3 }
    ensures { result ≡ 2 ^ n }
{
    1 << n
}

/// Whether bit q of the state is 1.
#[tactic(auto, unfolding(crate::specs::Bits::has_bit))]
fn is_set(state: usize, q: u8) -> bool
    requires { q < 3 }
    ensures { result ≡ has_bit q state }
{
    (state >> q) % 2 == 1
}

/// The state with bit q flipped.
fn flip(state: usize, q: u8) -> usize
    requires bit { q < 3 }
    requires small { state < 8 }
    ensures { result ≡ flipped q state }
{
    if is_set(state, q) {
        state - states(q)
    } else {
        state + states(q)
    }
}

/// The state that cx makes of a state.
#[tactic(auto, unfolding(crate::specs::Bits::crossed))]
fn cross(state: usize, control: u8, target: u8) -> usize
    requires control { control < 3 }
    requires target { target < 3 }
    requires small { state < 8 }
    ensures { result ≡ crossed control target state }
{
    if is_set(state, control) {
        flip(state, target)
    } else {
        state
    }
}

/// A cell.
fn cell_at(cells: &[Omega], n: u8, row: usize, col: usize) -> Omega
    requires few { n ≤ 3 }
    requires whole { length cells.now ≡ 2 ^ n * 2 ^ n }
    requires row { row < 2 ^ n }
    requires col { col < 2 ^ n }
    ensures { number_of result ≡ entries n cells.now row col }
{
    cells[row * states(n) + col]
}

/// The turns of ω by which a gate multiplies where its bit is 1.
fn turn_cell(cells: &[Omega], n: u8, q: u8, turns: u8, row: usize, col: usize) -> Omega
    requires few { n ≤ 3 }
    requires bit { q < n }
    requires turns { turns < 8 }
    requires whole { length cells.now ≡ 2 ^ n * 2 ^ n }
    requires row { row < 2 ^ n }
    requires col { col < 2 ^ n }
    requires small { ColumnWithin (2 ^ 125) n cells.now col }
    ensures { number_of result ≡ times (if has_bit q row then power cyclotomics ω turns else one_number) (entries n cells.now row col) }
{
    let cell = cell_at(cells, n, row, col);
    if is_set(row, q) {
        cell.times_omega(turns)
    } else {
        cell
    }
}

/// The cell that the gate puts at a row and column.
fn changed_cell(cells: &[Omega], n: u8, gate: Gate, row: usize, col: usize) -> Omega
    requires few { n ≤ 3 }
    requires fits { Fits n gate }
    requires whole { length cells.now ≡ 2 ^ n * 2 ^ n }
    requires row { row < 2 ^ n }
    requires col { col < 2 ^ n }
    requires small { ColumnWithin (2 ^ 125) n cells.now col }
    ensures { number_of result ≡ product cyclotomics (2 ^ n) (gate_table gate) (entries n cells.now) row col }
{
    match gate {
        Gate::H(q) => {
            let here = cell_at(cells, n, row, col);
            let there = cell_at(cells, n, flip(row, q), col);
            if is_set(row, q) {
                there.sub(here)
            } else {
                there.add(here)
            }
        }
        Gate::S(q) => turn_cell(cells, n, q, 2, row, col),
        Gate::Sdg(q) => turn_cell(cells, n, q, 6, row, col),
        Gate::T(q) => turn_cell(cells, n, q, 1, row, col),
        Gate::Tdg(q) => turn_cell(cells, n, q, 7, row, col),
        Gate::Cx(control, target) => cell_at(cells, n, cross(row, control, target), col),
    }
}

/// The column that the gate makes of a column.
fn changed_column(cells: &[Omega], n: u8, gate: Gate, col: usize) -> [Omega; 8]
    requires few { n ≤ 3 }
    requires fits { Fits n gate }
    requires whole { length cells.now ≡ 2 ^ n * 2 ^ n }
    requires col { col < 2 ^ n }
    requires small { ColumnWithin (2 ^ 125) n cells.now col }
    ensures { (r : ℕ) → r < 2 ^ n → number_of (slice_index_or result r no_cell) ≡ product cyclotomics (2 ^ n) (gate_table gate) (entries n cells.now) r col }
{
    let mut column = [Omega { x: [0; 4] }; 8];
    for row in 0..states(n) {
        column[row] = changed_cell(cells, n, gate, row, col);
    }
    column
}

/// Writes a column.
fn write_column(cells: &mut [Omega], n: u8, col: usize, column: &[Omega; 8])
    requires few { n ≤ 3 }
    requires whole { length cells.old ≡ 2 ^ n * 2 ^ n }
    requires col { col < 2 ^ n }
    ensures whole { length cells.new ≡ 2 ^ n * 2 ^ n }
    ensures column { (r : ℕ) → r < 2 ^ n → entries n cells.new r col ≡ number_of (slice_index_or column.now r no_cell) }
    ensures others { (r c : ℕ) → r < 2 ^ n → c < 2 ^ n → c ≢ col → entries n cells.new r c ≡ entries n cells.old r c }
{
    for row in 0..states(n) {
        cells[row * states(n) + col] = column[row];
    }
}

/// Applies the gate to each column.
fn change_cells(cells: &mut [Omega], n: u8, gate: Gate)
    requires few { n ≤ 3 }
    requires fits { Fits n gate }
    requires whole { length cells.old ≡ 2 ^ n * 2 ^ n }
    requires small { (c : ℕ) → c < 2 ^ n → ColumnWithin (2 ^ 125) n cells.old c }
    ensures whole { length cells.new ≡ 2 ^ n * 2 ^ n }
    ensures product { Agree cyclotomics (2 ^ n) (entries n cells.new) (product cyclotomics (2 ^ n) (gate_table gate) (entries n cells.old)) }
{
    for col in 0..states(n) {
        let column = changed_column(cells, n, gate, col);
        write_column(cells, n, col, &column);
    }
}

/// The cell of the identity at a row and a column.
fn identity_cell(row: usize, col: usize) -> Omega
    ensures { number_of result ≡ identity cyclotomics row col }
{
    if row == col {
        Omega { x: [1, 0, 0, 0] }
    } else {
        Omega { x: [0; 4] }
    }
}

/// The cells of the identity.
fn identity_cells(alloc: Global, n: u8) -> Result<Vec<Omega>, AllocError>
    requires few { n ≤ 3 }
    ensures whole { IfOk result (λ cells. length cells.items ≡ 2 ^ n * 2 ^ n) }
    ensures identity { IfOk result (λ cells. Agree cyclotomics (2 ^ n) (entries n cells.items) (identity cyclotomics)) }
{
    let size = states(n);
    let mut cells = Vec::new(alloc);
    for place in 0..size * size {
        cells.push(identity_cell(place / size, place % size))?;
    }
    Ok(cells)
}

/// A matrix of 2^n rows and 2^n columns over Z[ω], all divided by one power √2^k, with k at most 120.
///
/// No coordinate of a cell passes 2^k in absolute value, so 16 bytes a coordinate are enough.
#[derive(Drop)]
pub struct Matrix {
    n: u8,
    k: u32,
    cells: Vec<Omega>,
}

impl Model for Matrix {
    ghost use Rattle.tc_circuit.specs.Grid.{Grid, IsGrid};

    ghost Value = { Grid };

    ghost view = { λ m. record { qubits = m.n; exponent = m.k; cells = m.cells.items } };

    ghost invariant = { λ m. IsGrid (record { qubits = m.n; exponent = m.k; cells = m.cells.items }) };
}

impl Matrix {
    ghost use Rattle.tc_circuit.specs.Grid.{grid_table, grid_matrix};
    ghost use Rattle.tc_circuit.specs.declared.circuit.Gate.{Gate};

    /// The identity on n qubits, with exponent 0.
    pub fn identity(alloc: Global, n: u8) -> Result<Matrix, AllocError>
        requires some { 0 < n }
        requires few { n ≤ 3 }
        ensures qubits { IfOk result (λ m. m.qubits ≡ n) }
        ensures exponent { IfOk result (λ m. m.exponent ≡ 0) }
        ensures table { IfOk result (λ m. Agree cyclotomics (2 ^ n) (grid_table m) (identity cyclotomics)) }
        ensures built { IfOk result (λ m. IsMatrixOf n [] (grid_matrix m)) }
    {
        let cells = identity_cells(alloc, n)?;
        Ok(Matrix { n, k: 0, cells })
    }

    /// Makes the matrix into the gate's matrix times it, in place. It takes no memory.
    pub fn apply(&mut self, gate: Gate)
        requires fits { Fits self.old.qubits gate }
        requires room { gate_exponent gate + self.old.exponent ≤ 120 }
        ensures qubits { self.new.qubits ≡ self.old.qubits }
        ensures exponent { self.new.exponent ≡ gate_exponent gate + self.old.exponent }
        ensures table { Agree cyclotomics (2 ^ self.old.qubits) (grid_table self.new) (product cyclotomics (2 ^ self.old.qubits) (gate_table gate) (grid_table self.old)) }
        ensures built { (gates : List Gate) → IsMatrixOf self.old.qubits gates (grid_matrix self.old)
            → IsMatrixOf self.old.qubits (gates ++ gate ∷ []) (grid_matrix self.new) }
    {
        change_cells(&mut self.cells, self.n, gate);
        if let Gate::H(_) = gate {
            self.k += 1;
        }
    }

    /// How many qubits the matrix is on.
    pub fn qubits(&self) -> u8
        ensures { result ≡ self.now.qubits }
    {
        self.n
    }

    /// The power of √2 by which every cell is divided.
    pub fn exponent(&self) -> u32
        ensures value { result ≡ self.now.exponent }
        ensures low { result ≤ 120 }
    {
        self.k
    }

    /// The cell at a row and a column, before it is divided.
    pub fn cell(&self, row: usize, col: usize) -> Omega
        requires row { row < 2 ^ self.now.qubits }
        requires col { col < 2 ^ self.now.qubits }
        ensures value { number_of result ≡ grid_table self.now row col }
        ensures small { IsWithin (2 ^ self.now.exponent) (number_of result) }
        ensures exponent { self.now.exponent ≤ 120 }
    {
        cell_at(&self.cells, self.n, row, col)
    }
}

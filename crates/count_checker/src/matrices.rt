// The matrices of circuits, and whether two are the same up to a phase.
ghost use Rattle.std.specs.Prelude.{◌≡◌, ◌↔◌, ℕ, ◌+◌, ◌-◌, ◌^◌, ◌<◌, ◌≤◌, IfOk, IsTrue};
ghost use Rattle.ring_laws.specs.Cyclotomic.{times, cyclotomics, ω, root2};
ghost use Rattle.ring_laws.specs.Ring.{power};
ghost use Rattle.tc_ring.specs.Bounds.{IsWithin};
ghost use Rattle.tc_ring.specs.Omega.{number_of};
ghost use Rattle.tc_circuit.specs.Grid.{grid_matrix};
ghost use Rattle.tc_circuit.specs.Model.{IsMatrixOf, SameUpTo, h_count_of};
ghost use Rattle.count_checker.specs.Check.{most_h_gates, SameEntry};

use std::alloc::{AllocError, Global};
use tc_circuit::{Circuit, Matrix};
use tc_ring::Omega;

/// The matrix of a circuit.
pub fn matrix_of(alloc: Global, circuit: &Circuit) -> Result<Matrix, AllocError>
    requires { h_count_of circuit.now.gates ≤ most_h_gates }
    ensures qubits { IfOk result (λ m. m.qubits ≡ circuit.now.qubits) }
    ensures matrix { IfOk result (λ m. IsMatrixOf circuit.now.qubits circuit.now.gates (grid_matrix m)) }
{
    let mut matrix = Matrix::identity(alloc, circuit.qubits())?;
    for gate in circuit.gates() {
        matrix.apply(*gate);
    }
    Ok(matrix)
}

/// The number times √2, so many times.
fn raise(number: Omega, factors: u32) -> Omega
    requires few { factors ≤ 120 }
    requires small { IsWithin (2 ^ (120 - factors)) (number_of number) }
    ensures { number_of result ≡ times (power cyclotomics root2 factors) (number_of number) }
{
    let mut product = number;
    for _ in 0..factors {
        product = product.times_root2();
    }
    product
}

/// Whether they are one number.
fn is_equal(a: Omega, b: Omega) -> bool
    ensures { IsTrue result ↔ (number_of a ≡ number_of b) }
{
    a == b
}

/// Whether the entry of the first matrix is ω^turns times that of the second, both brought to one power of √2.
fn is_same_entry(a: &Matrix, b: &Matrix, turns: u8, row: usize, column: usize) -> bool
    requires turns { turns < 8 }
    requires size { a.now.qubits ≡ b.now.qubits }
    requires row { row < 2 ^ a.now.qubits }
    requires column { column < 2 ^ a.now.qubits }
    ensures { IsTrue result ↔ SameEntry turns (grid_matrix a.now) (grid_matrix b.now) row column }
{
    let left = a.cell(row, column);
    let right = b.cell(row, column).times_omega(turns);
    let (low, high) = (a.exponent(), b.exponent());
    if low <= high {
        is_equal(raise(left, high - low), right)
    } else {
        is_equal(left, raise(right, low - high))
    }
}

/// Whether each entry of the first matrix is ω^turns times that of the second.
fn is_same_up_to(a: &Matrix, b: &Matrix, turns: u8) -> bool
    requires turns { turns < 8 }
    requires size { a.now.qubits ≡ b.now.qubits }
    requires few { a.now.qubits ≤ 3 }
    ensures { IsTrue result ↔ SameUpTo (2 ^ a.now.qubits) turns (grid_matrix a.now) (grid_matrix b.now) }
{
    let size = 1_usize << a.qubits();
    for place in 0..size * size {
        if !is_same_entry(a, b, turns, place / size, place % size) {
            return false;
        }
    }
    true
}

/// Whether the matrices are the same up to one of the eight phases.
pub fn is_same(a: &Matrix, b: &Matrix) -> bool
    requires size { a.now.qubits ≡ b.now.qubits }
    requires few { a.now.qubits ≤ 3 }
    ensures { IsTrue result ↔ ((turns : ℕ) × (turns < 8) × SameUpTo (2 ^ a.now.qubits) turns (grid_matrix a.now) (grid_matrix b.now)) }
{
    for turns in 0..8 {
        if is_same_up_to(a, b, turns) {
            return true;
        }
    }
    false
}

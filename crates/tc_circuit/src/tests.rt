ghost use Rattle.std.specs.Prelude.{◌<◌};
ghost use Rattle.tc_circuit.specs.Gate.{Fits};

use crate::{Circuit, Gate, Matrix};
use std::alloc::{AllocError, Global};
use std::test::Fail;
use tc_ring::Omega;

/// A cell of a gate's matrix on two qubits.
fn entry(alloc: Global, gate: Gate, row: usize, col: usize) -> Result<Omega, AllocError>
    requires fits { Fits 2 gate }
    requires row { row < 4 }
    requires col { col < 4 }
{
    let mut matrix = Matrix::identity(alloc, 2)?;
    matrix.apply(gate);
    Ok(matrix.cell(row, col))
}

/// The exponent of √2 below a gate's matrix on two qubits.
fn exponent(alloc: Global, gate: Gate) -> Result<u32, AllocError>
    requires { Fits 2 gate }
{
    let mut matrix = Matrix::identity(alloc, 2)?;
    matrix.apply(gate);
    Ok(matrix.exponent())
}

/// Gates, and whether they are of two qubits.
#[test]
fn gates_fit_qubits(rt: HostRuntime) -> Result<(), Fail> {
    let rows = [
        (Gate::T(1), true),
        (Gate::H(2), false),
        (Gate::Cx(0, 1), true),
        (Gate::Cx(1, 1), false),
        (Gate::Cx(2, 0), false),
        (Gate::Cx(0, 2), false),
    ];
    for (gate, fits) in rows {
        assert_eq!(rt; gate.fits(2), fits, "{gate:?}");
    }
    Ok(())
}

/// A circuit keeps its gates in order, and counts those of a kind.
#[test]
fn circuit_calls(rt: HostRuntime) -> Result<(), Fail> {
    let mut circuit = Circuit::new(rt.alloc(), 2);
    assert!(rt; circuit.gates().is_empty());
    circuit.push(Gate::T(0))?;
    circuit.push(Gate::H(1))?;
    circuit.push(Gate::Cx(1, 0))?;
    circuit.push(Gate::Tdg(1))?;
    circuit.push(Gate::S(0))?;
    assert_eq!(rt; circuit.qubits(), 2);
    let want = [
        Gate::T(0),
        Gate::H(1),
        Gate::Cx(1, 0),
        Gate::Tdg(1),
        Gate::S(0),
    ];
    assert!(rt; circuit.gates() == want.as_slice());
    assert_eq!(rt; circuit.t_count(), 2);
    assert_eq!(rt; circuit.h_count(), 1);
    Ok(())
}

/// The cells and the exponents of the gates' matrices, worked by hand.
#[test]
fn gate_matrices(rt: HostRuntime) -> Result<(), Fail> {
    let alloc = rt.alloc();
    let cases = [
        (entry(alloc, Gate::H(0), 0, 1)?, [1, 0, 0, 0]),
        (entry(alloc, Gate::H(0), 1, 1)?, [-1, 0, 0, 0]),
        (entry(alloc, Gate::H(0), 2, 1)?, [0, 0, 0, 0]),
        (entry(alloc, Gate::H(1), 3, 1)?, [1, 0, 0, 0]),
        (entry(alloc, Gate::H(1), 3, 3)?, [-1, 0, 0, 0]),
        (entry(alloc, Gate::S(0), 3, 3)?, [0, 0, 1, 0]),
        (entry(alloc, Gate::S(0), 2, 2)?, [1, 0, 0, 0]),
        (entry(alloc, Gate::Sdg(1), 2, 2)?, [0, 0, -1, 0]),
        (entry(alloc, Gate::T(1), 2, 2)?, [0, 1, 0, 0]),
        (entry(alloc, Gate::T(1), 1, 1)?, [1, 0, 0, 0]),
        (entry(alloc, Gate::T(1), 1, 2)?, [0, 0, 0, 0]),
        (entry(alloc, Gate::Tdg(0), 1, 1)?, [0, 0, 0, -1]),
        (entry(alloc, Gate::Cx(0, 1), 3, 1)?, [1, 0, 0, 0]),
        (entry(alloc, Gate::Cx(0, 1), 1, 1)?, [0, 0, 0, 0]),
        (entry(alloc, Gate::Cx(1, 0), 3, 2)?, [1, 0, 0, 0]),
        (entry(alloc, Gate::Cx(1, 0), 1, 1)?, [1, 0, 0, 0]),
    ];
    for (cell, want) in cases {
        assert_eq!(rt; cell.x, want);
    }
    assert_eq!(rt; exponent(alloc, Gate::H(1))?, 1);
    assert_eq!(rt; exponent(alloc, Gate::T(0))?, 0);
    Ok(())
}

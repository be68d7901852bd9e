ghost use Rattle.std.specs.Prelude.{◌≡◌, ◌+◌, ◌^◌, ◌<◌, ◌≤◌, IfOk};

use crate::{channel_of, laws, rotation_gates};
use channel_rep::MOST_EXPONENT;
use pauli_basis::Pauli;
use std::alloc::{AllocError, Global};
use std::process::Abort;
use std::test::Fail;
use tc_circuit::{Circuit, Gate, Matrix};
use tc_ring::{Omega, Root2};

/// x0 + x1·ω + x2·ω² + x3·ω³.
#[derive(Clone, Copy, Debug, PartialEq, Eq)]
struct Number(i128, i128, i128, i128);

/// The number of a cell.
fn number_of(x: Omega) -> Number {
    let [x0, x1, x2, x3] = x.x;
    Number(x0, x1, x2, x3)
}

/// The matrix of gates on three qubits.
fn matrix_of(rt: &impl Abort, alloc: Global, gates: &[Gate]) -> Result<Matrix, AllocError>
    ensures { IfOk result (λ m. m.qubits ≡ 3) }
{
    let mut m = Matrix::identity(alloc, 3)?;
    for gate in gates {
        assert!(rt; gate.fits(3));
        assert!(rt; m.exponent() < 120);
        m.apply(*gate);
    }
    Ok(m)
}

/// The product with √2^k, by √2 = ω − ω³.
fn scale(x: Number, k: u32) -> Number {
    let mut y = x;
    for _ in 0..k {
        y = Number(
            y.1.wrapping_sub(y.3),
            y.0.wrapping_add(y.2),
            y.1.wrapping_add(y.3),
            y.2.wrapping_sub(y.0),
        );
    }
    y
}

/// The quarter turns of a letter's entry at two bits, if it isn't 0: I, X, Y = [[0, −i], [i, 0]], Z.
fn letter_turns(letter: u8, row: usize, col: usize) -> Option<u8> {
    match (letter, row, col) {
        (0, 0, 0) | (0, 1, 1) | (1, 0, 1) | (1, 1, 0) | (3, 0, 0) => Some(0),
        (2, 1, 0) => Some(1),
        (3, 1, 1) => Some(2),
        (2, 0, 1) => Some(3),
        _ => None,
    }
}

/// The quarter turns of a Pauli's entry, if it isn't 0.
fn entry_turns(p: &Pauli, row: usize, col: usize) -> Option<u8> {
    let mut turns = 0u8;
    for q in 0..p.qubits() {
        let turn = letter_turns(p.letter(q), (row >> q) % 2, (col >> q) % 2)?;
        turns = turns.wrapping_add(turn) % 4;
    }
    Some(turns)
}

/// An entry of (1 + ω)·I + (1 − ω)·P.
fn rotation_entry(p: &Pauli, row: usize, col: usize) -> Number {
    let same = i128::from(row == col);
    match entry_turns(p, row, col) {
        Some(0) => Number(same + 1, same - 1, 0, 0),
        Some(1) => Number(same, same, 1, -1),
        Some(2) => Number(same - 1, same + 1, 0, 0),
        Some(_) => Number(same, same, -1, 1),
        None => Number(same, same, 0, 0),
    }
}

/// Each Pauli's block of gates has the channel of its rotation.
#[test]
fn blocks_are_rotations(rt: HostRuntime) -> Result<(), Fail> {
    for code in 1..64u8 {
        let p = Pauli::new(3, code).ok_or("no such Pauli")?;
        let mut gates = Vec::with_capacity(rt.alloc(), 17)?;
        rotation_gates(p, &mut gates);
        let m = matrix_of(&rt, rt.alloc(), &gates)?;
        for row in 0..8 {
            for col in 0..8 {
                assert_eq!(rt;
                    scale(number_of(m.cell(row, col)), 2),
                    scale(rotation_entry(&p, row, col), m.exponent()),
                    "{code} at {row}, {col}"
                );
            }
        }
    }
    Ok(())
}

/// No block is longer than that of YYY.
#[test]
fn the_longest_block_is_that_of_yyy(rt: HostRuntime) -> Result<(), Fail> {
    let yyy = Pauli::new(3, 42).ok_or("no such Pauli")?;
    let mut gates = Vec::with_capacity(rt.alloc(), 17)?;
    rotation_gates(yyy, &mut gates);
    let front = [
        Gate::Sdg(0),
        Gate::H(0),
        Gate::Sdg(1),
        Gate::H(1),
        Gate::Sdg(2),
        Gate::H(2),
        Gate::Cx(0, 2),
        Gate::Cx(1, 2),
    ];
    let back = [
        Gate::Cx(1, 2),
        Gate::Cx(0, 2),
        Gate::H(2),
        Gate::S(2),
        Gate::H(1),
        Gate::S(1),
        Gate::H(0),
        Gate::S(0),
    ];
    assert_eq!(rt; gates.len(), 17);
    assert_eq!(rt; &gates[..8], front.as_slice());
    assert_eq!(rt; gates[8], Gate::T(2));
    assert_eq!(rt; &gates[9..], back.as_slice());
    Ok(())
}

/// The circuit of gates on n qubits.
fn circuit_of(rt: &impl Abort, alloc: Global, n: u8, gates: &[Gate]) -> Result<Circuit, AllocError>
    requires some { 0 < n }
    requires few { n ≤ 3 }
    ensures { IfOk result (λ c. c.qubits ≡ n) }
{
    let mut c = Circuit::new(alloc, n);
    for gate in gates {
        assert!(rt; gate.fits(n));
        c.push(*gate)?;
    }
    Ok(c)
}

/// 4^n.
fn codes(n: u8) -> usize
    requires { n ≤ 3 }
    ensures { result ≡ 4 ^ n }
{
    match n {
        0 => 1,
        1 => 4,
        2 => 16,
        _ => 64,
    }
}

/// The cell that a table of rows, columns and cells has at a place, or 0.
fn cell_in(cells: &[(usize, usize, Root2)], row: usize, col: usize) -> Root2 {
    for (r, c, cell) in cells {
        if *r == row && *c == col {
            return *cell;
        }
    }
    Root2 { a: 0, b: 0 }
}

/// Compares the channel of gates with an exponent and cells, all others being 0.
fn assert_channel(
    rt: &impl Abort,
    alloc: Global,
    n: u8,
    gates: &[Gate],
    exponent: u32,
    cells: &[(usize, usize, Root2)],
) -> Result<(), AllocError>
    requires some { 0 < n }
    requires few { n ≤ 3 }
{
    let c = circuit_of(rt, alloc, n, gates)?;
    assert!(rt; c.gates().len() < 45);
    assert!(rt; c.t_count() <= MOST_EXPONENT);
    let channel = channel_of(alloc, &c)?;
    assert_eq!(rt; channel.exponent(), exponent);
    let size = codes(n);
    for row in 0..size {
        for col in 0..size {
            assert_eq!(rt; channel.cell(row, col), cell_in(cells, row, col));
        }
    }
    Ok(())
}

/// The channels of h, s and t on one qubit, cell by cell.
#[test]
fn channels_of_single_gates(rt: HostRuntime) -> Result<(), Fail> {
    let one = Root2 { a: 1, b: 0 };
    let minus = Root2 { a: -1, b: 0 };
    let root2 = Root2 { a: 0, b: 1 };
    let alloc = rt.alloc();
    // h takes X to Z, Y to −Y and Z to X; s takes X to Y and Y to −X
    let h = [(0, 0, one), (3, 1, one), (2, 2, minus), (1, 3, one)];
    let s = [(0, 0, one), (2, 1, one), (1, 2, minus), (3, 3, one)];
    let sdg = [(0, 0, one), (2, 1, minus), (1, 2, one), (3, 3, one)];
    // t takes X to (X + Y)/√2 and Y to (Y − X)/√2
    let t = [
        (0, 0, root2),
        (1, 1, one),
        (2, 1, one),
        (1, 2, minus),
        (2, 2, one),
        (3, 3, root2),
    ];
    let tdg = [
        (0, 0, root2),
        (1, 1, one),
        (2, 1, minus),
        (1, 2, one),
        (2, 2, one),
        (3, 3, root2),
    ];
    assert_channel(&rt, alloc, 1, &[Gate::H(0)], 0, &h)?;
    assert_channel(&rt, alloc, 1, &[Gate::S(0)], 0, &s)?;
    assert_channel(&rt, alloc, 1, &[Gate::Sdg(0)], 0, &sdg)?;
    assert_channel(&rt, alloc, 1, &[Gate::T(0)], 1, &t)?;
    assert_channel(&rt, alloc, 1, &[Gate::Tdg(0)], 1, &tdg)?;
    assert_channel(&rt, alloc, 1, &[Gate::T(0), Gate::T(0)], 0, &s)?;
    Ok(())
}

/// The images of Paulis under cx, in its channel.
#[test]
fn the_channel_of_cx(rt: HostRuntime) -> Result<(), Fail> {
    let one = Root2 { a: 1, b: 0 };
    let minus = Root2 { a: -1, b: 0 };
    // X on the control goes to XX, Z on the target to ZZ, and the rest by products, such as Y·Y to −X·Z
    let cx = [
        (0, 0, one),
        (5, 1, one),
        (6, 2, one),
        (3, 3, one),
        (4, 4, one),
        (1, 5, one),
        (2, 6, one),
        (7, 7, one),
        (11, 8, one),
        (14, 9, one),
        (13, 10, minus),
        (8, 11, one),
        (15, 12, one),
        (10, 13, minus),
        (9, 14, one),
        (12, 15, one),
    ];
    assert_channel(&rt, rt.alloc(), 2, &[Gate::Cx(0, 1)], 0, &cx)?;
    Ok(())
}

/// Calls the laws, which do nothing.
#[test]
fn laws_are_called() {
    laws::codes_multiply_as_matrices();
    laws::circuits_have_one_channel();
    laws::channels_multiply();
    laws::one_channel_where_same();
    laws::entries_are_traces();
    laws::unit_scalars_are_powers();
    laws::circuits_are_words();
    laws::words_have_circuits();
    laws::rotations_have_channels();
    laws::squares_are_cliffords();
}

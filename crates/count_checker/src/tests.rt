// Pairs of circuits: by hand, and made from numbers and compared plainly, entry by entry.
ghost use Rattle.std.specs.Prelude.{◌≡◌, ◌<◌, IfOk};

use crate::{CheckFault, same};
use std::alloc::{AllocError, Global};
use std::process::Abort;
use std::test::Fail;
use tc_circuit::Gate::{self, Cx, H, S, Sdg, T, Tdg};
use tc_circuit::{Circuit, Matrix};
use tc_ring::Omega;

/// The circuit of the gates.
fn circuit_of(rt: &impl Abort, alloc: Global, n: u8, gates: &[Gate]) -> Result<Circuit, AllocError>
    ensures { IfOk result (λ c. c.qubits ≡ n) }
{
    assert!(rt; 0 < n && n <= 3);
    let mut circuit = Circuit::new(alloc, n);
    for gate in gates {
        assert!(rt; gate.fits(n));
        circuit.push(*gate)?;
    }
    Ok(circuit)
}

/// What `same` answers for the circuits of the gates.
fn answer(
    rt: &impl Abort,
    alloc: Global,
    (n, a): (u8, &[Gate]),
    (m, b): (u8, &[Gate]),
) -> Result<bool, CheckFault> {
    let a = circuit_of(rt, alloc, n, a)?;
    let b = circuit_of(rt, alloc, m, b)?;
    assert!(rt; a.gates().len() < 1000 && b.gates().len() < 1000);
    same(alloc, &a, &b)
}

const X: &[Gate] = &[H(0), S(0), S(0), H(0)];

// Two circuits, each by its qubits and its gates, and whether they are the same.
const PAIRS: [(u8, &[Gate], u8, &[Gate], bool); 16] = [
    (1, &[], 1, &[], true),
    (1, &[], 2, &[], false),
    (3, &[T(0)], 2, &[T(0)], false),
    (1, &[T(0), H(0), S(0), S(0), H(0), T(0)], 1, X, true),
    (1, &[T(0)], 1, &[Tdg(0)], false),
    (1, &[T(0), T(0)], 1, &[S(0)], true),
    (1, &[S(0), S(0), S(0)], 1, &[Sdg(0)], true),
    (1, &[H(0), H(0)], 1, &[], true),
    (1, &[], 1, &[H(0), H(0)], true),
    (1, &[H(0)], 1, &[], false),
    (1, X, 1, &[S(0), S(0)], false),
    (2, &[T(0), Cx(0, 1)], 2, &[Cx(0, 1), T(0)], true),
    (2, &[T(1), Cx(0, 1)], 2, &[Cx(0, 1), T(1)], false),
    (
        2,
        &[Cx(0, 1), Cx(1, 0), Cx(0, 1)],
        2,
        &[Cx(1, 0), Cx(0, 1), Cx(1, 0)],
        true,
    ),
    (3, &[H(2), Cx(1, 2), H(2)], 3, &[H(1), Cx(2, 1), H(1)], true),
    (
        3,
        &[H(2), Cx(1, 2), H(2)],
        3,
        &[H(1), Cx(0, 1), H(1)],
        false,
    ),
];

/// Pairs of circuits, and whether they are the same up to a phase.
#[test]
fn pairs_by_hand(rt: HostRuntime) {
    for (n, a, m, b, want) in PAIRS {
        assert_eq!(rt;
            answer(&rt, rt.alloc(), (n, a), (m, b)),
            Ok(want),
            "{a:?} and {b:?}"
        );
    }
}

/// The limit of h gates, on either side.
#[test]
fn many_h_gates(rt: HostRuntime) -> Result<(), Fail> {
    let alloc = rt.alloc();
    let few = vec![in alloc; H(0); 120]?;
    let many = vec![in alloc; H(0); 121]?;
    let more = vec![in alloc; H(1); 122]?;
    assert_eq!(rt; answer(&rt, alloc, (1, &few), (1, &few)), Ok(true));
    assert_eq!(rt;
        answer(&rt, alloc, (1, &few), (1, &many)),
        Err(CheckFault::TooManyH { count: 121 })
    );
    assert_eq!(rt;
        answer(&rt, alloc, (1, &many), (1, &few)),
        Err(CheckFault::TooManyH { count: 121 })
    );
    assert_eq!(rt;
        answer(&rt, alloc, (2, &more), (1, &many)),
        Err(CheckFault::TooManyH { count: 122 })
    );
    Ok(())
}

/// The next number of a linear congruence, and a draw from it.
fn draw(state: &mut u32) -> u32 {
    *state = state.wrapping_mul(1_664_525).wrapping_add(1_013_904_223);
    *state >> 16
}

/// A gate on n qubits.
fn drawn_gate(state: &mut u32, n: u8) -> Gate {
    let q = (draw(state) % 3) as u8 % n.max(1);
    let other = (q + 1) % n.max(1);
    match draw(state) % 6 {
        0 => H(q),
        1 => S(q),
        2 => Sdg(q),
        3 => T(q),
        4 if other != q => Cx(q, other),
        _ => Tdg(q),
    }
}

/// The gate that undoes it.
fn inverse(gate: Gate) -> Gate {
    match gate {
        S(q) => Sdg(q),
        Sdg(q) => S(q),
        T(q) => Tdg(q),
        Tdg(q) => T(q),
        other => other,
    }
}

// The gates h s s h, t, h s s h, t, whose matrix is ω times the identity: x t x t.
const TURN: [Gate; 10] = [H(0), S(0), S(0), H(0), T(0), H(0), S(0), S(0), H(0), T(0)];

/// Drawn gates on n qubits.
fn drawn_gates(alloc: Global, state: &mut u32, n: u8) -> Result<Vec<Gate>, AllocError> {
    let mut gates = Vec::new(alloc);
    for _ in 0..12 {
        gates.push(drawn_gate(state, n))?;
    }
    Ok(gates)
}

/// The gates behind a drawn number of turns by ω, and every third or so followed by another gate and its inverse.
fn with_nothing_added(
    alloc: Global,
    state: &mut u32,
    n: u8,
    gates: &[Gate],
) -> Result<Vec<Gate>, AllocError> {
    let mut longer = Vec::new(alloc);
    for _ in 0..draw(state) % 8 {
        longer.extend_from_slice(&TURN)?;
    }
    for gate in gates {
        longer.push(*gate)?;
        if draw(state) % 3 == 0 {
            let between = drawn_gate(state, n);
            longer.push(between)?;
            longer.push(inverse(between))?;
        }
    }
    Ok(longer)
}

// The Pauli operator on one qubit with which a gate commutes there. An h commutes with none of them.
#[derive(Clone, Copy, PartialEq, Eq)]
enum Axis {
    X,
    Z,
    Neither,
}

/// How a gate acts on a qubit, where it does.
fn axis_of(gate: Gate, qubit: u8) -> Option<Axis> {
    match gate {
        H(q) if q == qubit => Some(Axis::Neither),
        S(q) | Sdg(q) | T(q) | Tdg(q) if q == qubit => Some(Axis::Z),
        Cx(control, _) if control == qubit => Some(Axis::Z),
        Cx(_, target) if target == qubit => Some(Axis::X),
        _ => None,
    }
}

/// Whether the gates commute, since they act alike on each qubit that both act on.
fn commute(a: Gate, b: Gate) -> bool {
    for qubit in 0..3 {
        if let (Some(x), Some(y)) = (axis_of(a, qubit), axis_of(b, qubit)) {
            if x != y {
                return false;
            }
        }
    }
    true
}

/// Exchanges about half of the neighbours that commute, and counts those exchanges that change the list.
fn exchange_neighbours(state: &mut u32, gates: &mut [Gate]) -> u32 {
    let mut exchanges = 0_u32;
    for place in 1..gates.len() {
        let (left, right) = (gates[place - 1], gates[place]);
        if left != right && commute(left, right) && draw(state) % 2 == 0 {
            gates.swap(place - 1, place);
            exchanges = exchanges.saturating_add(1);
        }
    }
    exchanges
}

/// The matrix of the gates.
fn matrix_of(rt: &impl Abort, alloc: Global, n: u8, gates: &[Gate]) -> Result<Matrix, AllocError>
    ensures { IfOk result (λ m. m.qubits ≡ n) }
{
    assert!(rt; 0 < n && n <= 3);
    let mut matrix = Matrix::identity(alloc, n)?;
    for gate in gates {
        assert!(rt; gate.fits(n) && matrix.exponent() < 120);
        matrix.apply(*gate);
    }
    Ok(matrix)
}

/// The coordinates of the product with √2 = ω − ω³, so many times, and then with ω, so many times.
fn scale(number: Omega, roots: u32, turns: u32) -> [i128; 4] {
    let mut x = number.x;
    for step in 0..roots.saturating_add(turns) {
        let [x0, x1, x2, x3] = x;
        x = if step < roots {
            [
                x1.wrapping_sub(x3),
                x0.wrapping_add(x2),
                x1.wrapping_add(x3),
                x2.wrapping_sub(x0),
            ]
        } else {
            [x3.wrapping_neg(), x0, x1, x2]
        };
    }
    x
}

/// Whether each entry of the first, over its power of √2, is ω^turns times that of the second.
fn are_turned(rt: &impl Abort, a: &Matrix, b: &Matrix, turns: u32) -> bool
    requires { b.now.qubits ≡ a.now.qubits }
{
    assert!(rt; a.qubits() <= 3);
    let size = 1_usize << a.qubits();
    for place in 0..size * size {
        let (left, right) = (
            a.cell(place / size, place % size),
            b.cell(place / size, place % size),
        );
        if scale(left, b.exponent(), 0) != scale(right, a.exponent(), turns) {
            return false;
        }
    }
    true
}

/// Whether they are the same up to a phase, by a plain comparison.
fn are_plainly_same(
    rt: &impl Abort,
    alloc: Global,
    n: u8,
    a: &[Gate],
    b: &[Gate],
) -> Result<bool, AllocError> {
    let left = matrix_of(rt, alloc, n, a)?;
    let right = matrix_of(rt, alloc, n, b)?;
    for turns in 0..8 {
        if are_turned(rt, &left, &right, turns) {
            return Ok(true);
        }
    }
    Ok(false)
}

/// Drawn gates, and the same with nothing added and neighbours exchanged: half of the pairs unchanged, and half with one gate drawn anew.
#[test]
fn pairs_from_numbers(rt: HostRuntime) -> Result<(), Fail> {
    let alloc = rt.alloc();
    let mut state = 1;
    let mut exchanges = 0_u32;
    let mut counts = [0_u32; 2];
    for number in 0..200_usize {
        let n = (number % 3 + 1) as u8;
        let a = drawn_gates(alloc, &mut state, n)?;
        let mut b = with_nothing_added(alloc, &mut state, n, &a)?;
        let is_changed = number % 2 == 1;
        if is_changed {
            let place = number % 12;
            assert!(rt; place < b.len());
            b[place] = drawn_gate(&mut state, n);
        }
        for _ in 0..3 {
            exchanges = exchanges.saturating_add(exchange_neighbours(&mut state, &mut b));
        }
        let want = are_plainly_same(&rt, alloc, n, &a, &b)?;
        assert_eq!(rt;
            answer(&rt, alloc, (n, &a), (n, &b)),
            Ok(want),
            "{a:?} and {b:?}"
        );
        assert!(rt; want || is_changed, "{a:?} and {b:?}");
        counts[usize::from(want)] = counts[usize::from(want)].saturating_add(1);
    }
    assert!(rt; counts[0] >= 60 && counts[1] >= 100, "{counts:?}");
    assert!(rt; exchanges >= 1000, "{exchanges}");
    Ok(())
}

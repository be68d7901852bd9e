ghost use Rattle.std.specs.Prelude.{◌≡◌, ◌^◌, ◌<◌, ◌≤◌, IfOk};
ghost use Rattle.tc_circuit.specs.Gate.{Fits};
ghost use Rattle.tc_circuit.specs.Model.{t_count_of};
ghost use Rattle.channel_rep.specs.Cells.{scaled, IsSignedPermutation};
ghost use Rattle.channel_rep.specs.Tables.{IsCircuitChannel};

use crate::circuit::undo_gates;
use crate::rest;
use channel_rep::{Channel, ChannelGate};
use pauli_basis::Pauli;
use std::alloc::Global;
use std::process::Abort;
use std::test::Fail;
use tc_bridge::channel_of;
use tc_circuit::{Circuit, Gate};

/// The channel of gates on n qubits, which are to be without T gates.
fn channel(rt: &impl Abort, alloc: Global, n: u8, gates: &[Gate]) -> Result<Channel, Fail>
    requires some { 0 < n }
    requires few { n ≤ 3 }
    ensures qubits { IfOk result (λ c. c.qubits ≡ n) }
    ensures permutation { IfOk result IsSignedPermutation }
    ensures channel { IfOk result (λ c. IsCircuitChannel n (scaled c)) }
{
    let mut circuit = Circuit::new(alloc, n);
    for gate in gates {
        assert!(rt; gate.fits(n), "{gate:?} of {n} qubits");
        circuit.push(*gate)?;
    }
    assert!(rt; circuit.gates().len() < 1000);
    assert!(rt; circuit.t_count() == 0);
    let channel = channel_of(alloc, &circuit)?;
    assert!(rt; channel.signed_permutation(), "{gates:?}");
    Ok(channel)
}

/// How many Pauli operators there are on n qubits.
fn codes(n: u8) -> usize
    requires { n ≤ 3 }
    ensures { result ≡ 4 ^ n }
{
    match n {
        0 => 1,
        1 => 4,
        2 => 16,
        _ => 64,
    }
}

/// Whether two channels have the same cells in a row.
fn same_row(a: &Channel, b: &Channel, row: usize) -> bool
    requires same { a.now.qubits ≡ b.now.qubits }
    requires row { row < 4 ^ a.now.qubits }
{
    for column in 0..codes(a.qubits()) {
        if a.cell(row, column) != b.cell(row, column) {
            return false;
        }
    }
    true
}

/// Whether two channels have the same cells.
fn same(a: &Channel, b: &Channel) -> bool
    requires { a.now.qubits ≡ b.now.qubits }
{
    for row in 0..codes(a.qubits()) {
        if !same_row(a, b, row) {
            return false;
        }
    }
    true
}

/// Asserts that the rest of the gates' channel has that channel.
fn assert_rest(rt: &impl Abort, alloc: Global, n: u8, gates: &[Gate]) -> Result<(), Fail>
    requires some { 0 < n }
    requires few { n ≤ 3 }
{
    let given = channel(rt, alloc, n, gates)?;
    let circuit = rest(alloc, &given)?;
    let made = channel(rt, alloc, n, circuit.gates())?;
    assert!(rt; same(&given, &made), "{gates:?}");
    Ok(())
}

/// A gate on n qubits, by a number.
fn gate(n: u8, number: u64) -> Gate
    requires some { 0 < n }
    requires few { n ≤ 3 }
    ensures { Fits n result }
{
    let q = (number / 4 % u64::from(n)) as u8;
    match number % 4 {
        0 => Gate::H(q),
        1 => Gate::S(q),
        2 => Gate::Sdg(q),
        _ if n == 1 => Gate::S(q),
        _ => Gate::Cx(q, (q + 1 + (number / 16 % u64::from(n - 1)) as u8) % n),
    }
}

/// Gates on n qubits, drawn from a seed.
fn draw_gates(alloc: Global, n: u8, seed: u64) -> Result<Vec<Gate>, Fail>
    requires some { 0 < n }
    requires few { n ≤ 3 }
{
    let mut state = seed;
    let mut gates = Vec::new(alloc);
    for _ in 0..30 {
        state = state
            .wrapping_mul(6_364_136_223_846_793_005)
            .wrapping_add(1_442_695_040_888_963_407);
        gates.push(gate(n, state >> 33))?;
    }
    Ok(gates)
}

/// The images of X and Z, as one number below 64.
fn images(rt: &impl Abort, c: &Channel) -> Result<u8, Fail>
    requires permutation { IsSignedPermutation c.now }
    requires one { c.now.qubits ≡ 1 }
{
    let x = c.image(Pauli::of_code(1, 1));
    let z = c.image(Pauli::of_code(1, 3));
    assert!(rt; x.code() < 4 && z.code() < 4);
    Ok(x.code() * 16 + z.code() * 4 + u8::from(x.is_negative()) * 2 + u8::from(z.is_negative()))
}

/// Gates h and s by the bits of a number.
fn letters(alloc: Global, count: u8, number: u16) -> Result<Vec<Gate>, Fail> {
    let mut gates = Vec::new(alloc);
    for place in 0..count.min(15) {
        gates.push(if (number >> place) % 2 == 0 {
            Gate::H(0)
        } else {
            Gate::S(0)
        })?;
    }
    Ok(gates)
}

/// Every Clifford of one qubit is a product of at most seven gates h and s.
#[test]
fn one_qubit(rt: HostRuntime) -> Result<(), Fail> {
    let mut seen = [false; 64];
    let mut count = 0u8;
    for length in 0..8u8 {
        for number in 0..1u16 << length {
            let gates = letters(rt.alloc(), length, number)?;
            assert_rest(&rt, rt.alloc(), 1, &gates)?;
            let key = images(&rt, &channel(&rt, rt.alloc(), 1, &gates)?)? as usize;
            assert!(rt; key < 64);
            if !seen[key] {
                seen[key] = true;
                count = count.wrapping_add(1);
            }
        }
    }
    assert_eq!(rt; count, 24);
    Ok(())
}

/// The rests of gates drawn on two and three qubits.
#[test]
fn products_on_two_and_three_qubits(rt: HostRuntime) -> Result<(), Fail> {
    for seed in 0..300 {
        assert_rest(&rt, rt.alloc(), 2, &draw_gates(rt.alloc(), 2, seed)?)?;
        assert_rest(&rt, rt.alloc(), 3, &draw_gates(rt.alloc(), 3, seed)?)?;
    }
    Ok(())
}

/// Gates, what the sweep undoes, and the rest, worked by hand.
#[test]
fn undo_lists(rt: HostRuntime) -> Result<(), Fail> {
    use channel_rep::ChannelGate::{Cx, H, Sdg};
    // −i·Z·Z on two qubits: X0 to −Y0 Z1, X1 to −Z0 Y1
    let half_turn = [Gate::Cx(0, 1), Gate::Sdg(1), Gate::Cx(0, 1)];
    let half_turn_undone = [
        Sdg(0),
        H(1),
        Cx(0, 1),
        Sdg(0),
        Sdg(0),
        Sdg(1),
        H(1),
        Sdg(1),
        H(1),
    ];
    let half_turn_rest = [
        Gate::H(1),
        Gate::S(1),
        Gate::H(1),
        Gate::S(1),
        Gate::S(0),
        Gate::S(0),
        Gate::Cx(0, 1),
        Gate::H(1),
        Gate::S(0),
    ];
    let bell = [Gate::H(0), Gate::Cx(0, 1)];
    let bell_undone = [H(0), H(0), Cx(0, 1), H(0)];
    let bell_rest = [Gate::H(0), Gate::Cx(0, 1), Gate::H(0), Gate::H(0)];
    let cases: [(u8, &[Gate], &[ChannelGate], &[Gate]); 5] = [
        (2, &half_turn, &half_turn_undone, &half_turn_rest),
        (2, &bell, &bell_undone, &bell_rest),
        (1, &[Gate::S(0)], &[Sdg(0)], &[Gate::S(0)]),
        (
            1,
            &[Gate::S(0), Gate::S(0)],
            &[Sdg(0), Sdg(0)],
            &[Gate::S(0), Gate::S(0)],
        ),
        (
            3,
            &[Gate::H(0), Gate::H(1), Gate::H(2)],
            &[H(0), H(1), H(2)],
            &[Gate::H(2), Gate::H(1), Gate::H(0)],
        ),
    ];
    for (n, gates, undone, want) in cases {
        assert!(rt; 0 < n && n <= 3);
        let c = channel(&rt, rt.alloc(), n, gates)?;
        assert!(rt;
            undo_gates(rt.alloc(), &c)?.as_slice() == undone,
            "undone of {gates:?}"
        );
        assert!(rt; rest(rt.alloc(), &c)?.gates() == want, "rest of {gates:?}");
    }
    Ok(())
}

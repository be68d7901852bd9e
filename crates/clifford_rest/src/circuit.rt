// The gates that undo a Clifford operator, and the circuit that undoes these.
ghost use Rattle.std.specs.Prelude.{◌≡◌, ◌*◌, ◌^◌, ◌<◌, ◌≤◌, length, IfOk};
ghost use Rattle.std.specs.List.{AllByRecursion};
ghost use Rattle.tc_circuit.specs.Model.{matrix_of, t_count_of};
ghost use Rattle.channel_rep.specs.Cells.{scaled, table_of, IsSignedPermutation};
ghost use Rattle.channel_rep.specs.Gates.{GateFits};
ghost use Rattle.channel_rep.specs.Tables.{IsBuiltOf, IsCircuitChannel};
ghost use Rattle.tc_bridge.specs.Block.{as_gate, as_gates, inverse_gate, undone};
ghost use Rattle.tc_bridge.specs.Channel.{IsChannel};
ghost use Rattle.tc_bridge.specs.Steps.{steps_of};
ghost use Rattle.clifford_rest.specs.Rest.{IsRestGate, sent_to, undo_gates, rest_of};
ghost use Rattle.clifford_rest.specs.State.{gates_behind};
ghost use Rattle.channel_rep.specs.Conjugations.{conjugated_by};

use crate::pauli::{conjugate_by, image_of};
use crate::qubit::sweep_qubit;
use crate::steps::QubitSweep;
use channel_rep::{Channel, ChannelGate};
use pauli_basis::SignedPauli;
use std::alloc::{AllocError, Global};
use tc_circuit::{Circuit, Gate};

/// The most gates that undo an operator on three qubits.
const MOST_GATES: usize = 45;

/// The inverse of a gate.
fn inverse(gate: ChannelGate) -> Gate
    ensures { result ≡ as_gate (inverse_gate gate) }
{
    match gate {
        ChannelGate::H(q) => Gate::H(q),
        ChannelGate::S(q) => Gate::Sdg(q),
        ChannelGate::Sdg(q) => Gate::S(q),
        ChannelGate::Cx(control, target) => Gate::Cx(control, target),
    }
}

/// The code of X on a qubit.
fn x_on(q: u8) -> u8
    requires { q < 3 }
    ensures { result ≡ 4 ^ q }
{
    1 << (2 * q)
}

/// The code of Z on a qubit.
fn z_on(q: u8) -> u8
    requires { q < 3 }
    ensures { result ≡ 3 * 4 ^ q }
{
    3 << (2 * q)
}

/// What the operator of a signed permutation, with gates behind it, makes of a code.
fn image_behind(c: &Channel, gates: &[ChannelGate], code: u8) -> SignedPauli
    requires permutation { IsSignedPermutation c.now }
    requires fit { AllByRecursion (GateFits c.now.qubits) gates.now }
    requires below { code < 4 ^ c.now.qubits }
    ensures value { result ≡ conjugated_by c.now.qubits gates.now (sent_to c.now.qubits (table_of c.now) code) }
    ensures below { result.code < 4 ^ c.now.qubits }
{
    conjugate_by(image_of(c, code), c.qubits(), gates)
}

/// The gates that undo qubit q of the operator of a signed permutation, with gates behind it.
fn more_gates(
    alloc: Global,
    c: &Channel,
    gates: &[ChannelGate],
    q: u8,
) -> Result<QubitSweep, AllocError>
    requires permutation { IsSignedPermutation c.now }
    requires fit { AllByRecursion (GateFits c.now.qubits) gates.now }
    requires qubit { q < c.now.qubits }
    ensures qubits { IfOk result (λ s. s.qubits ≡ c.now.qubits) }
    ensures gates { IfOk result (λ s. s.sweep.gates ≡ gates_behind c.now gates.now q) }
{
    let n = c.qubits();
    let a = image_behind(c, gates, x_on(q));
    let b = image_behind(c, gates, z_on(q));
    let qubit = sweep_qubit(alloc, n, q, a, b)?;
    Ok(qubit)
}

/// The gates that undo the operator of a signed permutation, the first undone first.
pub fn undo_gates(alloc: Global, c: &Channel) -> Result<Vec<ChannelGate>, AllocError>
    requires { IsSignedPermutation c.now }
    ensures value { IfOk result (λ gates. gates.items ≡ undo_gates c.now) }
    ensures fit { IfOk result (λ gates. AllByRecursion (GateFits c.now.qubits) gates.items) }
{
    let mut gates = Vec::with_capacity(alloc, MOST_GATES)?;
    for q in 0..c.qubits() {
        let swept = more_gates(alloc, c, &gates, q)?;
        gates.extend_from_slice(swept.gates())?;
    }
    Ok(gates)
}

/// The circuit of the inverse gates in reverse order.
fn inverse_circuit(alloc: Global, n: u8, gates: &[ChannelGate]) -> Result<Circuit, AllocError>
    requires some { 0 < n }
    requires few { n ≤ 3 }
    requires fit { AllByRecursion (GateFits n) gates.now }
    ensures qubits { IfOk result (λ r. r.qubits ≡ n) }
    ensures gates { IfOk result (λ r. r.gates ≡ as_gates (undone gates.now)) }
{
    let mut circuit = Circuit::new(alloc, n);
    for place in (0..gates.len()).rev() {
        circuit.push(inverse(gates[place]))?;
    }
    Ok(circuit)
}

/// The circuit of a Clifford operator, from its channel: a circuit of h, s and cx gates that has this channel.
///
/// # Errors
/// Want of memory.
pub fn rest(alloc: Global, c: &Channel) -> Result<Circuit, AllocError>
    requires permutation { IsSignedPermutation c.now }
    requires channel { IsCircuitChannel c.now.qubits (scaled c.now) }
    ensures qubits { IfOk result (λ r. r.qubits ≡ c.now.qubits) }
    ensures gates { IfOk result (λ r. r.gates ≡ rest_of c.now) }
    ensures kinds { IfOk result (λ r. AllByRecursion IsRestGate r.gates) }
    ensures no_t { IfOk result (λ r. t_count_of r.gates ≡ 0) }
    ensures short { IfOk result (λ r. length r.gates ≤ 45) }

    // Its channel is c: built step by step, and of its matrix.
    ensures built { IfOk result (λ r. IsBuiltOf c.now.qubits (steps_of r.gates) (scaled c.now)) }
    ensures channel { IfOk result (λ r. IsChannel c.now.qubits (matrix_of c.now.qubits r.gates).table (scaled c.now)) }
{
    let gates = undo_gates(alloc, c)?;
    let circuit = inverse_circuit(alloc, c.qubits(), &gates)?;
    Ok(circuit)
}

// Known gates on the qubits of a circuit.
ghost use Rattle.std.specs.Prelude.{◌≡◌, ◌∷◌, [], ◌++◌, length, map, min, OnOk, slice_index, Option, option_map};
ghost use Rattle.std.specs.List.{flat_map};
ghost use Rattle.tc_circuit.specs.Model.{IsCircuit, t_count_of};
ghost use Rattle.qasm_reader.specs.State.{placed};
ghost use Rattle.qasm_reader.specs.View.{gates_with, times, count_at};

use crate::gates::Size;
use std::alloc::AllocError;
use tc_circuit::{Circuit, Gate};

/// The qubit at a place, or 0 where there is none.
fn qubit_at(qubits: &[u8], a: u8) -> u8
    ensures { result ≡ slice_index qubits.now a }
{
    qubits.get(usize::from(a)).copied().unwrap_or(0)
}

/// The gate with qubits in place of the numbers of the arguments.
pub fn placed(qubits: &[u8], gate: Gate) -> Gate
    ensures { result ≡ placed qubits.now gate }
{
    match gate {
        Gate::H(a) => Gate::H(qubit_at(qubits, a)),
        Gate::S(a) => Gate::S(qubit_at(qubits, a)),
        Gate::Sdg(a) => Gate::Sdg(qubit_at(qubits, a)),
        Gate::T(a) => Gate::T(qubit_at(qubits, a)),
        Gate::Tdg(a) => Gate::Tdg(qubit_at(qubits, a)),
        Gate::Cx(a, b) => Gate::Cx(qubit_at(qubits, a), qubit_at(qubits, b)),
    }
}

/// Adds gates on the qubits in place of the numbers of their arguments.
fn push_placed(circuit: &mut Circuit, gates: &[Gate], qubits: &[u8]) -> Result<(), AllocError>
    requires { IsCircuit circuit.old.qubits (map (placed qubits.now) gates.now) }
    ensures qubits { circuit.new.qubits ≡ circuit.old.qubits }
    ensures gates { OnOk result (circuit.new.gates ≡ circuit.old.gates ++ map (placed qubits.now) gates.now) }
{
    for gate in gates {
        circuit.push(placed(qubits, *gate))?;
    }
    Ok(())
}

/// Adds gates of one argument on each of the qubits in turn.
fn push_each(circuit: &mut Circuit, gates: &[Gate], qubits: &[u8]) -> Result<(), AllocError>
    requires { IsCircuit circuit.old.qubits (flat_map (λ q. map (placed (q ∷ [])) gates.now) qubits.now) }
    ensures qubits { circuit.new.qubits ≡ circuit.old.qubits }
    ensures gates { OnOk result (circuit.new.gates ≡ circuit.old.gates ++ flat_map (λ q. map (placed (q ∷ [])) gates.now) qubits.now) }
{
    for q in qubits {
        push_placed(circuit, gates, &[*q])?;
    }
    Ok(())
}

/// Adds the gates of a gate of this size, which may be known, on these qubits.
pub fn push_gates(
    circuit: &mut Circuit,
    size: Option<Size>,
    gates: &[Gate],
    qubits: &[u8],
) -> Result<(), AllocError>
    requires { IsCircuit circuit.old.qubits (gates_with size gates.now qubits.now) }
    ensures qubits { circuit.new.qubits ≡ circuit.old.qubits }
    ensures gates { OnOk result (circuit.new.gates ≡ circuit.old.gates ++ gates_with size gates.now qubits.now) }
{
    match size {
        None => Ok(()),
        Some(size) => {
            if size.arity == 1 {
                push_each(circuit, gates, qubits)
            } else {
                push_placed(circuit, gates, qubits)
            }
        }
    }
}

/// How many of the gates are T gates.
pub fn t_count(gates: &[Gate]) -> usize
    ensures { result ≡ t_count_of gates.now }
{
    gates
        .iter()
        .filter(|gate| matches!(gate, Gate::T(_) | Gate::Tdg(_)))
        .count()
}

/// How many gates there are where a gate of this number of arguments, with so many gates, is applied to so many qubits, or the
/// greatest number where there are more.
pub fn times(arity: usize, count: usize, qubits: usize) -> usize
    ensures { result ≡ min (times arity count qubits) usize.MAX }
{
    if arity == 1 {
        count.saturating_mul(qubits)
    } else {
        count
    }
}

/// How many T gates a gate of this size, which may be known, has on these qubits, or the greatest number where it has more.
pub fn t_count_at(size: Option<Size>, qubits: &[u8]) -> usize
    ensures { result ≡ min (count_at (λ z. z.t_count) size (length qubits.now)) usize.MAX }
{
    match size {
        None => 0,
        Some(size) => times(size.arity, size.t_count, qubits.len()),
    }
}

/// How many gates it has on them, or the greatest number where it has more.
pub fn length_at(size: Option<Size>, qubits: &[u8]) -> usize
    ensures { result ≡ min (count_at (λ z. z.length) size (length qubits.now)) usize.MAX }
{
    match size {
        None => 0,
        Some(size) => times(size.arity, size.length, qubits.len()),
    }
}

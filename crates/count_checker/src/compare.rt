// Whether two circuits are the same.
ghost use Rattle.std.specs.Prelude.{◌≡◌, ◌↔◌, ◌^◌, ◌<◌, ◌≤◌, length, IfOk, IfErr, OnOk, IsTrue};
ghost use Rattle.tc_circuit.specs.Model.{h_count_of};
ghost use Rattle.count_checker.specs.Check.{most_h_gates, AreSame, IsTooManyH, IsFault};
ghost use Rattle.count_checker.specs.declared.fault.CheckFault.TheVariants.{TooManyH};

use crate::CheckFault;
use crate::matrices::{is_same, matrix_of};
use std::alloc::Global;
use tc_circuit::Circuit;

const MOST_H_GATES: u32 = 120;

/// Refuses a circuit with too many h gates.
fn limit_h(circuit: &Circuit) -> Result<(), CheckFault>
    requires { length circuit.now.gates < 2 ^ 32 }
    ensures ok { OnOk result (h_count_of circuit.now.gates ≤ most_h_gates) }
    ensures err { IfErr result (λ fault. (most_h_gates < h_count_of circuit.now.gates) × (fault ≡ TooManyH (h_count_of circuit.now.gates))) }
{
    let count = circuit.h_count();
    if count > MOST_H_GATES {
        return Err(CheckFault::TooManyH { count });
    }
    Ok(())
}

/// Whether two circuits are the same: on one number of qubits, and with one matrix up to one of the eight phases ω^j.
///
/// # Errors
///
/// [`CheckFault::TooManyH`] exactly where one of them has more than 120 h gates; the count is that of `a` where `a` has too
/// many, else that of `b`.
pub fn same(alloc: Global, a: &Circuit, b: &Circuit) -> Result<bool, CheckFault>
    requires first { length a.now.gates < 2 ^ 32 }
    requires second { length b.now.gates < 2 ^ 32 }
    ensures few { OnOk result ((h_count_of a.now.gates ≤ most_h_gates) × (h_count_of b.now.gates ≤ most_h_gates)) }
    ensures ok { IfOk result (λ same. IsTrue same ↔ AreSame a.now b.now) }
    ensures err { IfErr result (IsFault a.now b.now) }
{
    limit_h(a)?;
    limit_h(b)?;
    if a.qubits() != b.qubits() {
        return Ok(false);
    }
    let first = matrix_of(alloc, a)?;
    let second = matrix_of(alloc, b)?;
    Ok(is_same(&first, &second))
}

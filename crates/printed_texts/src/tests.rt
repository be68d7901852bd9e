// Circuits through the code: printed, read, and printed again.
ghost use Rattle.std.specs.Prelude.{◌≡◌, ◌<◌, ◌≤◌, All, IfOk};
ghost use Rattle.tc_circuit.specs.Gate.{Fits};

use crate::printed_texts_read_back;
use circuit_writer::text;
use pauli_basis::Pauli;
use qasm_reader::{MOST_STATEMENTS, MOST_T_GATES, ReadFault, read};
use std::alloc::{AllocError, Global};
use std::test::Fail;
use tc_circuit::Circuit;
use tc_circuit::Gate::{self, Cx, H, S, Sdg, T, Tdg};

/// The circuit of these gates, which have to fit.
fn circuit(alloc: Global, n: u8, gates: &[Gate]) -> Result<Circuit, Fail>
    requires some { 0 < n }
    requires few { n ≤ 3 }
    ensures { IfOk result (λ c. c.qubits ≡ n) }
{
    let mut circuit = Circuit::new(alloc, n);
    for gate in gates {
        if !gate.fits(n) {
            Err("no such gate")?;
        } else {
            circuit.push(*gate)?;
        }
    }
    Ok(circuit)
}

/// Adds a gate so many times.
fn push_times(circuit: &mut Circuit, gate: Gate, times: usize) -> Result<(), AllocError>
    requires { Fits circuit.old.qubits gate }
    ensures { circuit.new.qubits ≡ circuit.old.qubits }
{
    for _ in 0..times {
        circuit.push(gate)?;
    }
    Ok(())
}

/// The word of the letters of these codes.
fn word(alloc: Global, n: u8, codes: &[u8]) -> Result<Vec<Pauli>, Fail>
    ensures { IfOk result (λ word. All (λ letter. letter.qubits ≡ n) word.items) }
{
    let mut word = Vec::new(alloc);
    for code in codes {
        word.push(Pauli::new(n, *code).ok_or("no such Pauli")?)?;
    }
    Ok(word)
}

// How many qubits, the gates, and the codes of a word's letters.
const CIRCUITS: [(u8, &[Gate], &[u8]); 7] = [
    (1, &[], &[]),
    (1, &[T(0)], &[3]),
    (1, &[H(0), S(0), Sdg(0), T(0), Tdg(0)], &[0, 1, 2, 3]),
    (2, &[Cx(0, 1)], &[]),
    (
        2,
        &[
            H(0),
            H(1),
            S(0),
            S(1),
            Sdg(0),
            Sdg(1),
            T(0),
            T(1),
            Tdg(0),
            Tdg(1),
            Cx(0, 1),
            Cx(1, 0),
        ],
        &[3, 12, 15, 6],
    ),
    (3, &[], &[]),
    (
        3,
        &[
            H(0),
            H(1),
            H(2),
            S(0),
            S(1),
            S(2),
            Sdg(0),
            Sdg(1),
            Sdg(2),
            T(0),
            T(1),
            T(2),
            Tdg(0),
            Tdg(1),
            Tdg(2),
            Cx(0, 1),
            Cx(0, 2),
            Cx(1, 0),
            Cx(1, 2),
            Cx(2, 0),
            Cx(2, 1),
        ],
        &[27, 1, 48, 12, 3, 63],
    ),
];

/// A print reads as its circuit, whose print it is.
#[test]
fn prints_read_back(rt: HostRuntime) -> Result<(), Fail> {
    // The law is a call that does nothing.
    printed_texts_read_back();
    for (n, gates, codes) in CIRCUITS {
        assert!(rt; 0 < n && n <= 3);
        let circuit = circuit(rt.alloc(), n, gates)?;
        let word = word(rt.alloc(), n, codes)?;
        let printed = text(rt.alloc(), &circuit, &word)?;
        let again = read(rt.alloc(), &printed)?;
        assert_eq!(rt; again.qubits(), n, "of {gates:?}");
        assert_eq!(rt; again.gates(), gates, "on {n} qubits");
        let second = text(rt.alloc(), &again, &word)?;
        assert!(rt; second.as_slice() == printed.as_slice(), "of {gates:?}");
    }
    Ok(())
}

// The most gates of a print that is read, beside the include and the register.
const MOST_GATES: usize = MOST_STATEMENTS - 2;

// How many gates t and how many h, and the number for which the print is refused, none within the limits.
const LIMITS: [(usize, usize, Option<u8>); 5] = [
    (MOST_T_GATES, MOST_GATES - MOST_T_GATES, None),
    (0, MOST_GATES, None),
    (MOST_T_GATES + 1, 0, Some(9)),
    (MOST_T_GATES, MOST_GATES - MOST_T_GATES + 1, Some(10)),
    (0, MOST_GATES + 1, Some(10)),
];

/// Prints within the limits are read, and those past them refused.
#[test]
fn limits(rt: HostRuntime) -> Result<(), Fail> {
    for (t, h, refusal) in LIMITS {
        let mut circuit = Circuit::new(rt.alloc(), 1);
        push_times(&mut circuit, T(0), t)?;
        push_times(&mut circuit, H(0), h)?;
        let printed = text(rt.alloc(), &circuit, &[])?;
        match read(rt.alloc(), &printed) {
            Ok(again) => {
                assert_eq!(rt; again.gates(), circuit.gates(), "of {t} and {h} gates");
                assert_eq!(rt; None, refusal, "of {t} and {h} gates");
            }
            Err(ReadFault::Refused { number, .. }) => {
                assert_eq!(rt; Some(number), refusal, "of {t} and {h} gates");
            }
            Err(ReadFault::Memory) => Err("memory")?,
        }
    }
    Ok(())
}

// Texts with what they read as, worked out by hand.
mod circuits;
mod definitions;
mod halves;
mod long;
mod refusals;
mod turns;

use crate::{
    ReadFault, one_halving, one_reading, read, read_circuits_are_small,
    statements_within_limits_are_taken,
};
use std::alloc::{AllocError, Global};

const HEADS: [&[u8]; 4] = [
    b"",
    b"OPENQASM 2.0;\nqreg q[1];\n",
    b"OPENQASM 2.0;\nqreg q[2];\n",
    b"OPENQASM 2.0;\nqreg q[3];\n",
];

/// The header and a register q of so many qubits, or nothing for 0, and then the lines.
fn text(alloc: Global, qubits: usize, lines: &[u8]) -> Result<Vec<u8>, AllocError> {
    let mut bytes = Vec::new(alloc);
    for (n, head) in HEADS.iter().enumerate() {
        if n == qubits {
            bytes.extend_from_slice(head)?;
        }
    }
    bytes.extend_from_slice(lines)?;
    Ok(bytes)
}

/// The header and a register q of one qubit, and then a line so many times.
fn text_of_times(alloc: Global, line: &[u8], times: usize) -> Result<Vec<u8>, AllocError> {
    let mut bytes = text(alloc, 1, b"")?;
    for _ in 0..times {
        bytes.extend_from_slice(line)?;
    }
    Ok(bytes)
}

/// The number and the place of a text's refusal, if it is refused.
fn refusal(alloc: Global, text: &[u8]) -> Option<(u8, usize)> {
    match read(alloc, text) {
        Err(ReadFault::Refused { number, place }) => Some((number, place)),
        _ => None,
    }
}

/// How many gates a text has, or its refusal.
fn outcome(alloc: Global, text: &[u8]) -> Result<usize, (u8, usize)> {
    match read(alloc, text) {
        Ok(circuit) => Ok(circuit.gates().len()),
        Err(ReadFault::Refused { number, place }) => Err((number, place)),
        Err(ReadFault::Memory) => Err((0, 0)),
    }
}

/// The laws are calls that do nothing.
#[test]
fn laws_are_calls(_rt: HostRuntime) {
    // Each carries its contract alone.
    one_reading();
    read_circuits_are_small();
    statements_within_limits_are_taken();
    one_halving();
}

//! Circuits by a seed.
ghost use Rattle.std.specs.Prelude.{◌<◌, ◌≤◌};

use std::alloc::{AllocError, Global};
use std::fmt::Write;

/// A number that seems random, from a seed and the numbers before it (the mixing step of SplitMix64).
fn mix(seed: u64, number: u64) -> u64 {
    let mut z = seed.wrapping_add(number.wrapping_mul(0x9e37_79b9_7f4a_7c15));
    z = (z ^ (z >> 30)).wrapping_mul(0xbf58_476d_1ce4_e5b9);
    z = (z ^ (z >> 27)).wrapping_mul(0x94d0_49bb_1331_11eb);
    z ^ (z >> 31)
}

/// Appends a few Clifford gates that a number draws: h or s on a qubit, a controlled not from it to the next one, and h there.
fn push_clifford(text: &mut String, qubits: u64, drawn: u64) -> Result<(), AllocError>
    requires some { 0 < qubits }
    requires few { qubits ≤ 3 }
{
    let qubit = drawn % qubits;
    let next = (qubit + 1) % qubits;
    let name = if drawn & 8 == 0 { "h" } else { "s" };
    write!(
        text,
        "{name} q[{qubit}];\ncx q[{qubit}],q[{next}];\nh q[{next}];\n"
    )?;
    Ok(())
}

/// Appends a T gate behind a few Clifford gates, both drawn by a seed and a number.
fn push_layer(text: &mut String, qubits: u64, seed: u64, number: u64) -> Result<(), AllocError>
    requires some { 0 < qubits }
    requires few { qubits ≤ 3 }
{
    let drawn = mix(seed, number);
    push_clifford(text, qubits, drawn >> 8)?;
    let qubit = (drawn >> 40) % qubits;
    write!(text, "t q[{qubit}];\n")?;
    Ok(())
}

/// Two qubits or three.
fn qubits_by(seed: u64) -> u64
    ensures some { 0 < result }
    ensures few { result ≤ 3 }
{
    if seed % 2 == 0 { 2 } else { 3 }
}

/// A number up to 4 as a word.
fn word_of(number: u64) -> &'static str {
    match number {
        0 => "0",
        1 => "1",
        2 => "2",
        3 => "3",
        _ => "4",
    }
}

/// How many T gates a seed asks for: at most four on two qubits, and on three at most three or, each tenth time, four.
fn count_by(seed: u64, qubits: u64) -> u64
    requires { qubits ≤ 3 }
{
    if seed % 20 == 1 {
        4
    } else {
        mix(seed, 0) % (7 - qubits)
    }
}

/// The text of a circuit by a seed, on two or three qubits with at most four T gates; and how many it has, as a word.
pub fn circuit(alloc: Global, seed: u64) -> Result<(Vec<u8>, &'static str), AllocError> {
    let qubits = qubits_by(seed);
    let count = count_by(seed, qubits);
    let mut text = format!(in alloc; "OPENQASM 2.0;\nqreg q[{qubits}];\n")?;
    for number in 0..count {
        push_layer(&mut text, qubits, seed, number)?;
    }
    push_clifford(&mut text, qubits, mix(seed, count))?;
    Ok((text.into_bytes(), word_of(count)))
}

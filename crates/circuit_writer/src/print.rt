//! The print of a whole circuit.
ghost use Rattle.std.specs.Prelude.{◌≡◌, ◌+◌, ◌*◌, ◌<◌, ◌≤◌, ◌++◌, length, All, OnOk, IfOk, [], codes, decimal, string_bytes, vec_len};
ghost use Rattle.std.specs.List.{flat_map};
ghost use Rattle.tc_circuit.specs.Model.{IsCircuit, t_count_of};
ghost use Rattle.circuit_writer.specs.Shown.{gate_line, IsWord, letter_texts, word_text, shown};

use crate::line::{LONGEST_LINE, push_gate};
use pauli_basis::Pauli;
use std::alloc::{AllocError, Global};
use std::fmt::Write;
use tc_circuit::{Circuit, Gate};

/// The most bytes of a print beside its letters and gates: the fixed text and two numbers, of 20 digits and of one.
const LONGEST_FRAME: usize = 87;

/// The most bytes that a letter takes: a space and three characters.
const LONGEST_LETTER: usize = 4;

/// How many bytes to reserve for a print. More than can be reserved stays more than can be reserved.
fn room_for(letters: usize, gates: usize) -> usize {
    let word = letters.saturating_mul(LONGEST_LETTER);
    let program = gates.saturating_mul(LONGEST_LINE);
    word.saturating_add(program).saturating_add(LONGEST_FRAME)
}

/// How many gates are t or tdg.
fn t_gates(gates: &[Gate]) -> usize
    ensures { result ≡ t_count_of gates.now }
{
    gates
        .iter()
        .filter(|gate| matches!(gate, Gate::T(_) | Gate::Tdg(_)))
        .count()
}

/// Appends the T-count's line, and the next one up to its letters.
fn push_count(out: &mut String, count: usize) -> Result<(), AllocError>
    ensures { OnOk result (string_bytes out.new
        ≡ string_bytes out.old ++ (codes "// t-count " ++ decimal count ++ codes "\n// word")) }
{
    write!(out, "// t-count {count}\n// word")?;
    Ok(())
}

/// Appends a space and the letter's text for each letter of a word.
fn push_word(out: &mut String, word: &[Pauli]) -> Result<(), AllocError>
    ensures { OnOk result (string_bytes out.new ≡ string_bytes out.old ++ word_text (letter_texts word.now)) }
{
    for letter in word {
        write!(out, " {letter}")?;
    }
    Ok(())
}

/// Appends the end of the word's line, and the program's lines before its gates.
fn push_head(out: &mut String, qubits: u8) -> Result<(), AllocError>
    ensures { OnOk result (string_bytes out.new
        ≡ string_bytes out.old
        ++ (codes "\nOPENQASM 2.0;\ninclude \"qelib1.inc\";\nqreg q[" ++ decimal qubits ++ codes "];\n")) }
{
    write!(
        out,
        "\nOPENQASM 2.0;\ninclude \"qelib1.inc\";\nqreg q[{qubits}];\n"
    )?;
    Ok(())
}

/// Appends a line for each gate.
fn push_gates(out: &mut String, gates: &[Gate]) -> Result<(), AllocError>
    requires { IsCircuit 3 gates.now }
    ensures { OnOk result (string_bytes out.new ≡ string_bytes out.old ++ flat_map gate_line gates.now) }
{
    for gate in gates {
        push_gate(out, *gate)?;
    }
    Ok(())
}

/// Writes the print of a circuit with the word of its rotations into an empty text.
#[tactic(auto, unfolding(crate::specs::Shown::shown))]
fn write_print(
    out: &mut String,
    qubits: u8,
    gates: &[Gate],
    word: &[Pauli],
) -> Result<(), AllocError>
    requires empty { string_bytes out.old ≡ [] }
    requires circuit { IsCircuit 3 gates.now }
    ensures { OnOk result (string_bytes out.new ≡ shown qubits gates.now (letter_texts word.now)) }
{
    push_count(out, t_gates(gates))?;
    push_word(out, word)?;
    push_head(out, qubits)?;
    push_gates(out, gates)?;
    Ok(())
}

/// The print of a circuit with the word of its rotations.
///
/// # Errors
/// Want of memory. All of it is reserved at the start.
pub fn text(alloc: Global, c: &Circuit, word: &[Pauli]) -> Result<Vec<u8>, AllocError>
    requires { All (λ letter. letter.qubits ≡ c.now.qubits) word.now }
    ensures shown { IfOk result (λ bytes.
        bytes.items ≡ shown c.now.qubits c.now.gates (letter_texts word.now)) }
    ensures letters { OnOk result (IsWord c.now.qubits (length word.now) (letter_texts word.now)) }
    ensures short { IfOk result (λ bytes.
        vec_len bytes ≤ 87 + 4 * length word.now + 14 * length c.now.gates) }
{
    let gates = c.gates();
    let mut out = String::with_capacity(alloc, room_for(word.len(), gates.len()))?;
    write_print(&mut out, c.qubits(), gates, word)?;
    Ok(out.into_bytes())
}

//! The circuit with the fewest T gates for a channel, as text.
ghost use Rattle.std.specs.Prelude.{◌≡◌, ◌≢◌, ℕ, ◌+◌, ◌*◌, ◌≤◌, ◌++◌, [], ◌∷◌, All, IfOk, OnOk, length};
ghost use Rattle.tc_circuit.specs.Circuit.{Gates, IsSmallCircuit};
ghost use Rattle.tc_circuit.specs.Model.{IsCircuit, t_count_of};
ghost use Rattle.channel_rep.specs.Cells.{scaled, most_exponent, IsReduced};
ghost use Rattle.channel_rep.specs.Tables.{SameTable, IsBuiltOf, IsCircuitChannel};
ghost use Rattle.coset_label.specs.Words.{most_letters};
ghost use Rattle.tc_bridge.specs.Block.{block, word_gates};
ghost use Rattle.tc_bridge.specs.Steps.{steps_of};
ghost use Rattle.level_laws.specs.Levels.{IsLeastWord, removed};
ghost use Rattle.meet_middle.specs.Halves.{spelled};
ghost use Rattle.tcount_top.specs.Printed.{IsLeft, codes_of};
ghost use Rattle.tcount_top.specs.Out.{ShowsLike};

use channel_rep::Channel;
use channel_rep::laws::tables_compare;
use circuit_writer::text;
use clifford_rest::rest;
use level_laws::laws::{exponents_bound_lengths, letters_come_off};
use meet_laws::laws::words_stand_behind_rests;
use meet_middle::Word2;
use pauli_basis::Pauli;
use printed_texts::printed_texts_read_back;
use std::alloc::{AllocError, Global};
use tc_bridge::rotation_gates;
use tc_circuit::{Circuit, Gate};

/// The most gates of a letter's block.
const LONGEST_BLOCK: usize = 17;

/// The letters of a word.
pub fn letters_of(alloc: Global, word: &Word2) -> Result<Vec<Pauli>, AllocError>
    ensures qubits { IfOk result (λ v. All (λ p. p.qubits ≡ word.now.first.qubits) v.items) }
    ensures other { IfOk result (λ v. All (λ p. p.code ≢ 0) v.items) }
    ensures codes { IfOk result (λ v. codes_of v.items
        ≡ spelled word.now.first.letters word.now.middle word.now.last.letters) }
{
    let mut letters = Vec::with_capacity(alloc, word.len() as usize)?;
    for i in 0..word.len() {
        letters.push(word.letter(i))?;
    }
    Ok(letters)
}

/// Takes letters off a channel from the left, the first one first.
fn take_off(channel: &mut Channel, letters: &[Pauli])
    requires qubits { All (λ p. p.qubits ≡ channel.old.qubits) letters.now }
    requires other { All (λ p. p.code ≢ 0) letters.now }
    requires room { channel.old.exponent + length letters.now ≤ most_exponent }
    ensures qubits { channel.new.qubits ≡ channel.old.qubits }
    ensures table { SameTable channel.old.qubits (scaled channel.new)
        (removed channel.old.qubits (scaled channel.old) (codes_of letters.now)) }
{
    // Called for its contract: what is left without a letter is that of the rest of the word.
    letters_come_off();
    for letter in letters {
        channel.left_rotation_inverse(*letter);
    }
}

/// What is left of a channel without a word's letters, with the least exponent.
fn left_without(alloc: Global, channel: &Channel, letters: &[Pauli]) -> Result<Channel, AllocError>
    requires qubits { All (λ p. p.qubits ≡ channel.now.qubits) letters.now }
    requires other { All (λ p. p.code ≢ 0) letters.now }
    requires room { channel.now.exponent + length letters.now ≤ most_exponent }
    ensures { IfOk result (λ left. IsLeft channel.now.qubits (scaled channel.now) (codes_of letters.now) left) }
{
    // Called for its contract: equal tables may stand for one another.
    tables_compare();
    let mut left = Channel::identity(alloc, channel.qubits())?;
    left.copy_from(channel);
    take_off(&mut left, letters);
    left.reduce();
    // Called for its contract: what is left is a grid of a channel.
    let _grid = left.qubits();
    Ok(left)
}

/// The blocks of letters, the last letter's first.
pub fn blocks_of(alloc: Global, n: u8, letters: &[Pauli]) -> Result<Vec<Gate>, AllocError>
    requires qubits { All (λ p. p.qubits ≡ n) letters.now }
    requires other { All (λ p. p.code ≢ 0) letters.now }
    requires few { length letters.now ≤ 44 }
    ensures blocks { IfOk result (λ gates. gates.items ≡ word_gates n (codes_of letters.now)) }
    ensures circuit { IfOk result (λ gates. IsCircuit n gates.items) }
    ensures count { IfOk result (λ gates. t_count_of gates.items ≡ length letters.now) }
    ensures short { IfOk result (λ gates. length gates.items ≤ 17 * length letters.now) }
{
    let mut gates = Vec::with_capacity(alloc, LONGEST_BLOCK * letters.len())?;
    for place in (0..letters.len()).rev() {
        rotation_gates(letters[place], &mut gates);
    }
    Ok(gates)
}

/// Puts gates behind a circuit.
pub fn push_all(circuit: &mut Circuit, gates: &[Gate]) -> Result<(), AllocError>
    requires { IsCircuit circuit.old.qubits gates.now }
    ensures qubits { circuit.new.qubits ≡ circuit.old.qubits }
    ensures gates { OnOk result (circuit.new.gates ≡ circuit.old.gates ++ gates.now) }
{
    for gate in gates {
        circuit.push(*gate)?;
    }
    Ok(())
}

/// The print of the circuit that a circuit's channel and its least word give: what is left of the channel without the word,
/// as a circuit without T gates, and the blocks of the word's letters behind it, from the last letter to the first.
///
/// Each circuit with this channel has as its least T-count the number of the word's letters, and the printed circuit is like
/// it, with so many T gates.
///
/// # Errors
/// Want of memory.
pub fn printed(alloc: Global, target: &Channel, word: &Word2) -> Result<Vec<u8>, AllocError>
    requires circuit { IsCircuitChannel target.now.qubits (scaled target.now) }
    requires reduced { IsReduced target.now }
    requires qubits { word.now.first.qubits ≡ target.now.qubits }
    requires least { IsLeastWord target.now.qubits (scaled target.now)
        (spelled word.now.first.letters word.now.middle word.now.last.letters) }
    requires short { length (spelled word.now.first.letters word.now.middle word.now.last.letters)
        ≤ 2 * most_letters target.now.qubits }
    ensures { IfOk result (λ bytes. (c : Gates) → IsSmallCircuit c → c.qubits ≡ target.now.qubits
        → IsBuiltOf c.qubits (steps_of c.gates) (scaled target.now)
        → ShowsLike c (length (spelled word.now.first.letters word.now.middle word.now.last.letters)) bytes.items) }
{
    // Called for their contracts: what is left of a channel behind its least word is a Clifford operator's, and its circuit
    // with the blocks behind it, as a text, reads as itself.
    tables_compare();
    exponents_bound_lengths();
    letters_come_off();
    words_stand_behind_rests();
    printed_texts_read_back();
    let letters = letters_of(alloc, word)?;
    let left = left_without(alloc, target, &letters)?;
    let blocks = blocks_of(alloc, target.qubits(), &letters)?;
    let mut circuit = rest(alloc, &left)?;
    // Called for its contract: the gates are those of a circuit.
    let _rest = circuit.gates();
    push_all(&mut circuit, &blocks)?;
    text(alloc, &circuit, &letters)
}

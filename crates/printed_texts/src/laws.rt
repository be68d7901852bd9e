// What holds of the definitions.
ghost use Rattle.std.specs.Prelude.{◌≢◌, ℕ, ◌-◌, ◌<◌, ◌≤◌, List, length, All};
ghost use Rattle.tc_circuit.specs.declared.circuit.Gate.{Gate};
ghost use Rattle.tc_circuit.specs.Model.{IsCircuit, t_count_of};
ghost use Rattle.qasm_reader.specs.Limits.{most_qubits, most_t_gates, most_statements};
ghost use Rattle.qasm_reader.specs.Read.{Reads};
ghost use Rattle.circuit_writer.specs.Shown.{IsWord, shown};

use qasm_reader::statements_within_limits_are_taken;

/// The print of a circuit reads as this circuit, on the same qubits and with the same gates in order: of every circuit on
/// one to three qubits within the limits of a text, with every word.
///
/// The limits are 120 T gates and 4,096 statements, which are the include, the register and 4,094 gates. The word stands in
/// a comment, so its letters may be any texts without a line feed, as those of Pauli operators are. The call does nothing.
pub fn printed_texts_read_back()
    ensures word { (n t : ℕ) (gates : List Gate) (letters : List (List ℕ)) → 0 < n → n ≤ most_qubits → IsCircuit n gates
        → t_count_of gates ≤ most_t_gates → length gates ≤ most_statements - 2 → IsWord n t letters
        → Reads (shown n gates letters) (record { qubits = n; gates = gates }) }
    ensures letters { (n : ℕ) (gates : List Gate) (letters : List (List ℕ)) → 0 < n → n ≤ most_qubits → IsCircuit n gates
        → t_count_of gates ≤ most_t_gates → length gates ≤ most_statements - 2 → All (λ letter. All (λ c. c ≢ 10) letter) letters
        → Reads (shown n gates letters) (record { qubits = n; gates = gates }) }
{
    // The include, the register and the gates of a print are taken.
    statements_within_limits_are_taken();
}

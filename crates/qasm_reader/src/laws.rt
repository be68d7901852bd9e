// What holds of the definitions.
ghost use Rattle.std.specs.Prelude.{◌≡◌, ◌⊎◌, ℕ, ◌<◌, ◌≤◌, List, length};
ghost use Rattle.tc_circuit.specs.Circuit.{Gates};
ghost use Rattle.tc_circuit.specs.Model.{IsCircuit, t_count_of};
ghost use Rattle.qasm_reader.specs.Limits.{most_qubits, most_t_gates, most_gates};
ghost use Rattle.qasm_lex.specs.Tokens.{Bad};
ghost use Rattle.qasm_reader.specs.Halves.{HasHalves, HasNoHalves};
ghost use Rattle.qasm_reader.specs.Read.{Reads, Refused};
ghost use Rattle.qasm_reader.specs.Within.{IncludesAreTaken, RegistersAreTaken, GatesAreTaken};

/// Every text reads as a circuit or is refused, never both, and as one circuit, or with one number at one place.
///
/// So [`read`](crate::read), which gives a circuit only where the text reads as it and a refusal only where the text is refused
/// so, gives each of them exactly there.
pub fn one_reading()
    ensures some { (text : List ℕ) → ((c : Gates) × Reads text c) ⊎ ((n : ℕ) × (p : ℕ) × Refused text n p) }
    ensures never_both { (text : List ℕ) (c : Gates) (n p : ℕ) → Reads text c → Refused text n p → ⊥ }
    ensures circuit { (text : List ℕ) (c d : Gates) → Reads text c → Reads text d → c ≡ d }
    ensures refusal { (text : List ℕ) (n p m q : ℕ) → Refused text n p → Refused text m q → (n ≡ m) × (p ≡ q) }
{}

/// A circuit that a text reads as is small: it is on 1 to 3 qubits, each of its gates fits them, and it has at most 120 T gates and
/// at most 100,000 gates.
pub fn read_circuits_are_small()
    ensures some { (text : List ℕ) (c : Gates) → Reads text c → 0 < c.qubits }
    ensures few { (text : List ℕ) (c : Gates) → Reads text c → c.qubits ≤ most_qubits }
    ensures fit { (text : List ℕ) (c : Gates) → Reads text c → IsCircuit c.qubits c.gates }
    ensures low { (text : List ℕ) (c : Gates) → Reads text c → t_count_of c.gates ≤ most_t_gates }
    ensures short { (text : List ℕ) (c : Gates) → Reads text c → length c.gates ≤ most_gates }
{}

/// A text is refused at a place of it, or at its end.
pub fn refusals_stand_in_texts()
    ensures { (text : List ℕ) (n p : ℕ) → Refused text n p → p ≤ length text }
{}

/// No row applies to an include of `qelib1.inc` behind few statements, nor to a register of qubits that is new and within the
/// limits, nor to a known gate on as many arguments as it takes, each with an index in its register, which name different qubits,
/// within the limits.
///
/// So a text can be shown to read as a circuit one statement after another, without a look at the rows.
pub fn statements_within_limits_are_taken()
    ensures include { IncludesAreTaken }
    ensures register { RegistersAreTaken }
    ensures gate { GatesAreTaken }
{}

/// Every text has two halves, has none, or has a bad byte; it has one alone of these, and its halves at one place.
///
/// So [`halves`](crate::halves), which answers each only where it holds, answers each exactly there.
pub fn one_halving()
    ensures some { (text : List ℕ) → ((p : ℕ) × HasHalves text p) ⊎ (HasNoHalves text ⊎ ((p : ℕ) × Bad text p)) }
    ensures place { (text : List ℕ) (p q : ℕ) → HasHalves text p → HasHalves text q → p ≡ q }
    ensures never_none { (text : List ℕ) (p : ℕ) → HasHalves text p → HasNoHalves text → ⊥ }
    ensures never_bad { (text : List ℕ) (p q : ℕ) → HasHalves text p → Bad text q → ⊥ }
    ensures none_never_bad { (text : List ℕ) (q : ℕ) → HasNoHalves text → Bad text q → ⊥ }
{}

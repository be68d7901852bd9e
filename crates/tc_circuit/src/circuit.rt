ghost use Rattle.std.specs.Prelude.{◌≡◌, IsTrue, ℕ, ◌+◌, ◌^◌, ◌<◌, ◌≤◌, [], ◌∷◌, ◌++◌, length, OnOk, OnErr};
ghost use Rattle.tc_circuit.specs.Model.{t_count_of};

use std::alloc::{AllocError, Global};
use std::marker::Model;

/// A gate, with its qubits.
#[derive(Clone, Copy, Debug, PartialEq, Eq)]
pub enum Gate {
    /// The Hadamard gate.
    H(u8),
    /// The phase gate diag(1, i).
    S(u8),
    /// The inverse of s.
    Sdg(u8),
    /// The T gate diag(1, ω).
    T(u8),
    /// The inverse of t.
    Tdg(u8),
    /// The controlled not, with the control first.
    Cx(u8, u8),
}

impl Gate {
    ghost use Rattle.tc_circuit.specs.Gate.{Fits};

    /// Whether the gate is one of n qubits: its qubits are below n, and those of a cx differ.
    pub fn fits(self, n: u8) -> bool
        ensures fits { IsTrue result → Fits n self }
        ensures told { Fits n self → IsTrue result }
    {
        match self {
            Gate::H(q) | Gate::S(q) | Gate::Sdg(q) | Gate::T(q) | Gate::Tdg(q) => q < n,
            Gate::Cx(control, target) => control < n && target < n && control != target,
        }
    }
}

/// How many of the gates are t or tdg.
pub fn t_count(gates: &[Gate]) -> usize
    ensures { result ≡ t_count_of gates.now }
{
    gates
        .iter()
        .filter(|gate| matches!(gate, Gate::T(_) | Gate::Tdg(_)))
        .count()
}

/// Gates on one to three qubits, in the order in which they are applied.
#[derive(Drop)]
pub struct Circuit {
    n: u8,
    gates: Vec<Gate>,
}

impl Model for Circuit {
    ghost use Rattle.tc_circuit.specs.Circuit.{Gates, IsSmallCircuit};

    ghost Value = { Gates };

    ghost view = { λ c. record { qubits = c.n; gates = c.gates.items } };

    ghost invariant = { λ c. IsSmallCircuit (record { qubits = c.n; gates = c.gates.items }) };
}

impl Circuit {
    ghost use Rattle.tc_circuit.specs.Gate.{Fits};
    ghost use Rattle.tc_circuit.specs.Model.{IsCircuit, h_count_of};

    /// A circuit of n qubits with no gates. It takes no memory.
    pub fn new(alloc: Global, n: u8) -> Circuit
        requires some { 0 < n }
        requires few { n ≤ 3 }
        ensures qubits { result.qubits ≡ n }
        ensures gates { result.gates ≡ [] }
    {
        Circuit {
            n,
            gates: Vec::new(alloc),
        }
    }

    /// Adds a gate behind the others. Want of memory changes nothing.
    pub fn push(&mut self, gate: Gate) -> Result<(), AllocError>
        requires { Fits self.old.qubits gate }
        ensures qubits { self.new.qubits ≡ self.old.qubits }
        ensures ok { OnOk result (self.new.gates ≡ self.old.gates ++ gate ∷ []) }
        ensures err { OnErr result (self.new.gates ≡ self.old.gates) }
    {
        self.gates.push(gate)?;
        Ok(())
    }

    /// How many qubits the circuit is on, 1 to 3.
    pub fn qubits(&self) -> u8
        ensures value { result ≡ self.now.qubits }
        ensures some { 0 < result }
        ensures few { result ≤ 3 }
    {
        self.n
    }

    /// The gates, the first applied first.
    pub fn gates(&self) -> &[Gate]
        ensures value { result.now ≡ self.now.gates }
        ensures fit { IsCircuit self.now.qubits result.now }
    {
        &self.gates
    }

    /// The T-count: how many gates are t or tdg.
    pub fn t_count(&self) -> u32
        requires { length self.now.gates < 2 ^ 32 }
        ensures { result ≡ t_count_of self.now.gates }
    {
        t_count(&self.gates) as u32
    }

    /// How many gates are h.
    pub fn h_count(&self) -> u32
        requires { length self.now.gates < 2 ^ 32 }
        ensures { result ≡ h_count_of self.now.gates }
    {
        let mut count = 0;
        for gate in &self.gates {
            if matches!(gate, Gate::H(_)) {
                count += 1;
            }
        }
        count
    }
}

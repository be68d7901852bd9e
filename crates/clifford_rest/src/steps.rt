// The sweep of one qubit: its state, and the gates that it undoes.
ghost use Rattle.std.specs.Prelude.{◌≡◌, ◌+◌, ◌-◌, ◌<◌, ◌≤◌, ◌^◌, OnOk, [], IfOk};
ghost use Rattle.std.specs.List.{AllByRecursion};
ghost use Rattle.channel_rep.specs.Gates.{GateFits};
ghost use Rattle.clifford_rest.specs.Sweep.{undo, undo_if, first_x, fetch_x, put_x};

use crate::pauli::conjugate;
use channel_rep::ChannelGate;
use pauli_basis::SignedPauli;
use std::alloc::{AllocError, Global};
use std::marker::Model;

/// The most gates that the sweep of one qubit undoes.
const MOST_GATES: usize = 19;

/// What an operator, with the gates behind it that were undone so far, makes of X and Z on the qubit that is swept.
#[derive(Drop)]
pub struct QubitSweep {
    n: u8,
    a: SignedPauli,
    b: SignedPauli,
    gates: Vec<ChannelGate>,
}

impl Model for QubitSweep {
    ghost use Rattle.clifford_rest.specs.State.{Sweeping, IsSweeping};

    ghost Value = { Sweeping };

    ghost view = { λ s. record { qubits = s.n; sweep = record { a = s.a; b = s.b; gates = s.gates.items } } };

    ghost invariant = { λ s. IsSweeping (record { qubits = s.n; sweep = record { a = s.a; b = s.b; gates = s.gates.items } }) };
}

impl QubitSweep {
    /// A sweep that has undone nothing yet, of an operator on n qubits that makes `a` of X and `b` of Z.
    pub fn start(
        alloc: Global,
        n: u8,
        a: SignedPauli,
        b: SignedPauli,
    ) -> Result<QubitSweep, AllocError>
        requires some { 0 < n }
        requires few { n ≤ 3 }
        requires a_below { a.code < 4 ^ n }
        requires b_below { b.code < 4 ^ n }
        ensures { IfOk result (λ s. s ≡ record { qubits = n; sweep = record { a = a; b = b; gates = [] } }) }
    {
        let gates = Vec::with_capacity(alloc, MOST_GATES)?;
        Ok(QubitSweep { n, a, b, gates })
    }

    /// The gates that were undone, the first first.
    pub fn gates(&self) -> &[ChannelGate]
        ensures value { result.now ≡ self.now.sweep.gates }
        ensures fit { AllByRecursion (GateFits self.now.qubits) result.now }
    {
        &self.gates
    }

    /// How many qubits there are.
    pub fn qubits(&self) -> u8
        ensures value { result ≡ self.now.qubits }
        ensures some { 0 < result }
        ensures few { result ≤ 3 }
    {
        self.n
    }

    /// What the operator makes of X on the qubit by now.
    pub fn a(&self) -> SignedPauli
        ensures value { result ≡ self.now.sweep.a }
        ensures few { self.now.qubits ≤ 3 }
    {
        self.a
    }

    /// What it makes of Z.
    pub fn b(&self) -> SignedPauli
        ensures value { result ≡ self.now.sweep.b }
        ensures few { self.now.qubits ≤ 3 }
    {
        self.b
    }

    /// Puts a gate behind the operator.
    pub fn undo(&mut self, gate: ChannelGate) -> Result<(), AllocError>
        requires { GateFits self.old.qubits gate }
        ensures { OnOk result (self.new ≡ record self.old { sweep = undo self.old.qubits gate self.old.sweep }) }
    {
        self.gates.push(gate)?;
        self.a = conjugate(self.a, self.n, gate);
        self.b = conjugate(self.b, self.n, gate);
        Ok(())
    }

    /// Puts a gate behind the operator where that is asked for.
    pub fn undo_if(&mut self, asked: bool, gate: ChannelGate) -> Result<(), AllocError>
        requires { GateFits self.old.qubits gate }
        ensures { OnOk result (self.new ≡ record self.old { sweep = undo_if asked self.old.qubits gate self.old.sweep }) }
    {
        if asked {
            self.undo(gate)?;
        }
        Ok(())
    }
}

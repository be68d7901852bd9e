// The sweep of one qubit as a whole.
ghost use Rattle.std.specs.Prelude.{◌≡◌, ◌^◌, ◌<◌, ◌≤◌, OnOk, IfOk};
ghost use Rattle.std.specs.List.{AllByRecursion};
ghost use Rattle.channel_rep.specs.Gates.{GateFits};
ghost use Rattle.clifford_rest.specs.Sweep.{sweep_a, sweep_b, sign_a, sign_b, sweep, qubit_gates};

use crate::pauli::is_z;
use crate::steps::QubitSweep;
use channel_rep::ChannelGate;
use pauli_basis::SignedPauli;
use std::alloc::{AllocError, Global};

impl QubitSweep {
    /// Makes A into X on q, up to its sign.
    fn sweep_a(&mut self, q: u8) -> Result<(), AllocError>
        requires { q < self.old.qubits }
        ensures { OnOk result (self.new ≡ record self.old { sweep = sweep_a self.old.qubits q self.old.sweep }) }
    {
        self.clear_all_a(q)?;
        self.put_x(q)?;
        self.drop_all_a(q)?;
        Ok(())
    }

    /// Makes B into Z on q, up to its sign, and keeps A.
    fn sweep_b(&mut self, q: u8) -> Result<(), AllocError>
        requires { q < self.old.qubits }
        ensures { OnOk result (self.new ≡ record self.old { sweep = sweep_b self.old.qubits q self.old.sweep }) }
    {
        if is_z(self.b(), q) {
            return Ok(());
        }
        self.undo(ChannelGate::H(q))?;
        self.clear_all_b(q)?;
        self.drop_all_b(q)?;
        self.undo(ChannelGate::H(q))?;
        Ok(())
    }

    /// Turns the sign of A where it is negative.
    fn sign_a(&mut self, q: u8) -> Result<(), AllocError>
        requires { q < self.old.qubits }
        ensures { OnOk result (self.new ≡ record self.old { sweep = sign_a self.old.qubits q self.old.sweep }) }
    {
        if self.a().is_negative() {
            self.undo(ChannelGate::Sdg(q))?;
            self.undo(ChannelGate::Sdg(q))?;
        }
        Ok(())
    }

    /// Turns the sign of B where it is negative.
    fn sign_b(&mut self, q: u8) -> Result<(), AllocError>
        requires { q < self.old.qubits }
        ensures { OnOk result (self.new ≡ record self.old { sweep = sign_b self.old.qubits q self.old.sweep }) }
    {
        if self.b().is_negative() {
            self.undo(ChannelGate::H(q))?;
            self.undo(ChannelGate::Sdg(q))?;
            self.undo(ChannelGate::Sdg(q))?;
            self.undo(ChannelGate::H(q))?;
        }
        Ok(())
    }

    /// Makes A into X on q and B into Z on q.
    fn sweep(&mut self, q: u8) -> Result<(), AllocError>
        requires { q < self.old.qubits }
        ensures { OnOk result (self.new ≡ record self.old { sweep = sweep self.old.qubits q self.old.sweep }) }
    {
        self.sweep_a(q)?;
        self.sweep_b(q)?;
        self.sign_a(q)?;
        self.sign_b(q)?;
        Ok(())
    }
}

/// The sweep of qubit q of an operator that makes `a` of X and `b` of Z on q.
pub fn sweep_qubit(
    alloc: Global,
    n: u8,
    q: u8,
    a: SignedPauli,
    b: SignedPauli,
) -> Result<QubitSweep, AllocError>
    requires few { n ≤ 3 }
    requires qubit { q < n }
    requires a_below { a.code < 4 ^ n }
    requires b_below { b.code < 4 ^ n }
    ensures qubits { IfOk result (λ s. s.qubits ≡ n) }
    ensures gates { IfOk result (λ s. s.sweep.gates ≡ qubit_gates n q a b) }
{
    let mut qubit = QubitSweep::start(alloc, n, a, b)?;
    qubit.sweep(q)?;
    Ok(qubit)
}

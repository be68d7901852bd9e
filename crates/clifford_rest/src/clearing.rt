// The steps of the sweep of one qubit.
ghost use Rattle.std.specs.Prelude.{◌≡◌, ◌-◌, suc, ◌<◌, ◌≤◌, OnOk, IfSome};
ghost use Rattle.clifford_rest.specs.Sweep.{each, clear_a, clear_b, drop_a, drop_b, first_x, put_x};

use crate::pauli::has_letter;
use crate::steps::QubitSweep;
use channel_rep::ChannelGate;
use std::alloc::AllocError;

impl QubitSweep {
    /// Makes the letter of A on qubit j I or X.
    fn clear_a(&mut self, j: u8) -> Result<(), AllocError>
        requires { j < self.old.qubits }
        ensures { OnOk result (self.new ≡ record self.old { sweep = clear_a self.old.qubits j self.old.sweep }) }
    {
        self.undo_if(has_letter(self.a(), 3, j), ChannelGate::H(j))?;
        self.undo_if(has_letter(self.a(), 2, j), ChannelGate::Sdg(j))?;
        Ok(())
    }

    /// Makes the letter of B on qubit j I or X, but leaves Z on the swept qubit.
    fn clear_b(&mut self, q: u8, j: u8) -> Result<(), AllocError>
        requires { j < self.old.qubits }
        ensures { OnOk result (self.new ≡ record self.old { sweep = clear_b self.old.qubits q j self.old.sweep }) }
    {
        self.undo_if(has_letter(self.b(), 2, j), ChannelGate::Sdg(j))?;
        self.undo_if(has_letter(self.b(), 3, j) && j != q, ChannelGate::H(j))?;
        Ok(())
    }

    /// Makes the letters of A on the qubits from q on I or X.
    pub fn clear_all_a(&mut self, q: u8) -> Result<(), AllocError>
        requires { q < self.old.qubits }
        ensures { OnOk result (self.new ≡ record self.old { sweep = each (clear_a self.old.qubits) q (self.old.qubits - q) self.old.sweep }) }
    {
        let n = self.qubits();
        for j in q..n {
            self.clear_a(j)?;
        }
        Ok(())
    }

    /// Makes the letters of B on the qubits from q on I or X, but leaves Z on q.
    pub fn clear_all_b(&mut self, q: u8) -> Result<(), AllocError>
        requires { q < self.old.qubits }
        ensures { OnOk result (self.new ≡ record self.old { sweep = each (clear_b self.old.qubits q) q (self.old.qubits - q) self.old.sweep }) }
    {
        let n = self.qubits();
        for j in q..n {
            self.clear_b(q, j)?;
        }
        Ok(())
    }

    /// Takes X on the qubits above q from A, by X on q.
    pub fn drop_all_a(&mut self, q: u8) -> Result<(), AllocError>
        requires { q < self.old.qubits }
        ensures { OnOk result (self.new ≡ record self.old { sweep = each (drop_a self.old.qubits q) (suc q) (self.old.qubits - suc q) self.old.sweep }) }
    {
        let n = self.qubits();
        for j in q + 1..n {
            self.undo_if(has_letter(self.a(), 1, j), ChannelGate::Cx(q, j))?;
        }
        Ok(())
    }

    /// Takes X on the qubits above q from B.
    pub fn drop_all_b(&mut self, q: u8) -> Result<(), AllocError>
        requires { q < self.old.qubits }
        ensures { OnOk result (self.new ≡ record self.old { sweep = each (drop_b self.old.qubits q) (suc q) (self.old.qubits - suc q) self.old.sweep }) }
    {
        let n = self.qubits();
        for j in q + 1..n {
            self.undo_if(has_letter(self.b(), 1, j), ChannelGate::Cx(q, j))?;
        }
        Ok(())
    }

    /// The lowest qubit above q on which A has X.
    fn lowest_x(&self, q: u8) -> Option<u8>
        requires { q < self.now.qubits }
        ensures value { result ≡ first_x (suc q) (self.now.qubits - suc q) self.now.sweep.a }
        ensures above { IfSome result (λ j. q < j) }
        ensures below { IfSome result (λ j. j < self.now.qubits) }
    {
        let n = self.qubits();
        for j in q + 1..n {
            if has_letter(self.a(), 1, j) {
                return Some(j);
            }
        }
        None
    }

    /// Puts X on q into A, from the lowest qubit above that has it, where A has I on q.
    pub fn put_x(&mut self, q: u8) -> Result<(), AllocError>
        requires { q < self.old.qubits }
        ensures { OnOk result (self.new ≡ record self.old { sweep = put_x self.old.qubits q self.old.sweep }) }
    {
        if has_letter(self.a(), 0, q) {
            if let Some(j) = self.lowest_x(q) {
                self.undo(ChannelGate::Cx(j, q))?;
            }
        }
        Ok(())
    }
}

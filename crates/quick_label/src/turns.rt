// What a letter does to each row.
ghost use Rattle.std.specs.Prelude.{◌≡◌, ℕ, ◌*◌, ◌^◌, ◌<◌, ◌≤◌, false, length, IfOk, slice_index_or};
ghost use Rattle.pauli_basis.specs.Products.{commute, anti_sign};
ghost use Rattle.quick_label.specs.Letters.{HeldTurns, IsTurnRoom};

use crate::spans::codes;
use pauli_basis::Pauli;
use std::alloc::{AllocError, Global};
use std::marker::Model;

/// For each letter P and each row Q on n qubits: whether they commute, and whether −i·P·Q is the negative of a Pauli.
#[derive(Drop)]
pub struct Turns {
    n: u8,
    commuting: Vec<bool>,
    negative: Vec<bool>,
}

impl Model for Turns {
    ghost Value = { HeldTurns };

    ghost view = { λ t. record { qubits = t.n } };

    ghost invariant = { λ t. IsTurnRoom t.n t.commuting.items t.negative.items };
}

/// Whether two Paulis commute, and whether −i·P·Q is the negative of a Pauli, by their codes on n qubits.
fn turn_of(n: u8, p: usize, row: usize) -> (bool, bool)
    requires some { 0 < n }
    requires few { n ≤ 3 }
    requires letter { p < 4 ^ n }
    requires row { row < 4 ^ n }
    ensures commutes { result.0 ≡ commute n p row }
    ensures sign { result.1 ≡ anti_sign n p row }
{
    let (Some(letter), Some(operator)) = (Pauli::new(n, p as u8), Pauli::new(n, row as u8)) else {
        return (false, false);
    };
    let (_, turns) = letter.product(&operator);
    (letter.commutes(&operator), turns == 3)
}

impl Turns {
    /// The turns of all letters on one to three qubits.
    pub fn new(alloc: Global, n: u8) -> Result<Turns, AllocError>
        requires some { 0 < n }
        requires few { n ≤ 3 }
        ensures { IfOk result (λ turns. turns.qubits ≡ n) }
    {
        let size = codes(n);
        let mut commuting = Vec::with_capacity(alloc, size * size)?;
        let mut negative = Vec::with_capacity(alloc, size * size)?;
        for place in 0..size * size {
            let (commutes, sign) = turn_of(n, place / size, place % size);
            commuting.push(commutes)?;
            negative.push(sign)?;
        }
        Ok(Turns {
            n,
            commuting,
            negative,
        })
    }

    /// For each row whether the letter commutes with it.
    pub fn commuting(&self, letter: usize) -> &[bool]
        requires { letter < 4 ^ self.now.qubits }
        ensures long { length result.now ≡ 4 ^ self.now.qubits }
        ensures value { (row : ℕ) → row < 4 ^ self.now.qubits
            → slice_index_or result.now row false ≡ commute self.now.qubits letter row }
    {
        let size = codes(self.n);
        &self.commuting[letter * size..(letter + 1) * size]
    }

    /// For each row Q whether −i·P·Q is the negative of a Pauli.
    pub fn negative(&self, letter: usize) -> &[bool]
        requires { letter < 4 ^ self.now.qubits }
        ensures long { length result.now ≡ 4 ^ self.now.qubits }
        ensures value { (row : ℕ) → row < 4 ^ self.now.qubits
            → slice_index_or result.now row false ≡ anti_sign self.now.qubits letter row }
    {
        let size = codes(self.n);
        &self.negative[letter * size..(letter + 1) * size]
    }
}

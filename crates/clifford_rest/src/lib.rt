//! The circuit of a Clifford operator, from its channel.
//!
//! A Clifford operator takes each Pauli operator to a Pauli operator with a sign, so its channel is a signed permutation.
//! [`rest`] gives a circuit of h, s and cx with that channel: a sweep over the qubits puts gates behind the operator until
//! it takes X and Z on each qubit to themselves, and the circuit undoes these gates (Aaronson and Gottesman, Improved
//! simulation of stabilizer circuits, 2004). [`laws`] has what this rests on, as facts.
#![tactic(auto)]

mod circuit;
mod clearing;
pub mod laws;
mod pauli;
mod qubit;
mod steps;

pub use circuit::rest;

#[cfg(test)]
mod tests;

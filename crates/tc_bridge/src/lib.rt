//! What joins the complex matrices of circuits with the real tables of their channels.
//!
//! `channel_of` gives a circuit's channel, and `rotation_gates` the circuit of a rotation by a Pauli operator. `laws` has
//! what these rest on, as facts: the codes of Pauli operators multiply as their matrices do, each circuit has exactly one
//! channel, two circuits have one channel exactly where they are the same up to global phase, and a circuit with t T gates
//! is a product of t rotations and a Clifford operator (Gosset, Kliuchnikov, Mosca, Russo 2014).
#![tactic(auto)]

mod block;
mod channel;
pub mod laws;
mod progress;

pub use block::rotation_gates;
pub use channel::channel_of;

#[cfg(test)]
mod tests;

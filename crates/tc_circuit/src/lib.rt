//! Circuits of h, s, sdg, t, tdg and cx on one to three qubits, their complex matrices, and the definitions of the model:
//! a circuit's matrix, sameness up to global phase, T-count and least T-count (`specs/Model`).
#![tactic(auto)]

pub mod circuit;
pub mod matrix;
#[cfg(test)]
mod tests;

pub use circuit::{Circuit, Gate, t_count};
pub use matrix::Matrix;

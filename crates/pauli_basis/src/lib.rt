//! The Pauli operators on one to three qubits.
//!
//! A Pauli operator is a tensor product of the letters I, X, Y and Z, one for each qubit. It is held as a code with two
//! bits a qubit, qubit 0 lowest: I = 0, X = 1, Y = 2, Z = 3. The product of two of them is a third up to a power of i, so
//! all that the layers above need of the complex matrices are rules on codes: the code of a product, its quarter turns,
//! and which operators commute (Nielsen and Chuang, Quantum Computation and Quantum Information, sections 2.1.3 and
//! 10.5.1).
#![tactic(auto)]

pub mod laws;
mod pauli;
mod signed;

pub use pauli::Pauli;
pub use signed::SignedPauli;

#[cfg(test)]
mod tests;

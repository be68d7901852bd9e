//! Channels of unitaries on one to three qubits, as exact tables over the Pauli operators.
//!
//! The channel of a unitary U has the entry tr(P·U·Q·U†)/2^n at row P and column Q. Over Clifford and T gates each entry
//! is a number a + b·√2 over one power of √2, so a `Channel` is a table of such numbers with one exponent. It changes in
//! place and takes no memory: a Clifford gate permutes the rows and turns signs, and a rotation by a Pauli P multiplies
//! the rows that commute with P by √2 and adds and subtracts the others in pairs (Gosset, Kliuchnikov, Mosca and Russo,
//! An algorithm for the T-count, 2014, section 2.3).
//!
//! A run of Clifford gates is held as a `Conjugation`: what it makes of each Pauli, in 64 bytes. A gate more changes these
//! bytes alone, and a channel takes the whole run in one pass over its rows.
//!
//! The search for words uses rows of numbers of sixteen bits: a `Narrow` stands for the same tables, up to a smaller exponent, and
//! its rotations turn sixteen pairs of numbers at once.
//!
//! Each change says that the table becomes the product of the step's table with the one before, the sum over the middle
//! index. No complex matrix occurs here.
#![tactic(auto)]

mod channel;
mod conjugation;
mod gate;
mod halves;
mod lanes;
pub mod laws;
mod narrow;
mod parts;
mod rows;
mod steps;
mod turns;
mod units;

pub use channel::{Channel, MOST_EXPONENT};
pub use conjugation::Conjugation;
pub use gate::ChannelGate;
pub use narrow::{MOST_NARROW_EXPONENT, Narrow};

#[cfg(test)]
mod narrow_tests;
#[cfg(test)]
mod tests;

//! What one more letter does to a word's channel: the mathematics on which quick labels rest.
//!
//! A word's channel is a product of rotations by Pauli operators (Gosset, Kliuchnikov, Mosca and Russo, An algorithm for the
//! T-count, 2014). [`laws`] says where it is 0, how its least exponent changes with a letter, which letters may change places,
//! and when a word taken off a channel leaves a signed permutation. [`divisions`] reads the exponent's change from the parities
//! of the numbers before the rotation.
#![tactic(auto)]

pub mod laws;
mod parity_rows;

pub use parity_rows::divisions;

#[cfg(test)]
mod tests;

//! The print of a circuit: its T-count and the letters of its word in two comment lines, and then a program for it in
//! OpenQASM 2.0 (Cross, Bishop, Smolin, Gambetta, Open Quantum Assembly Language, 2017) with a gate a line.
//!
//! [`text`] is the one call, and `specs/Shown` says which bytes it gives.
#![tactic(auto)]

mod line;
mod print;
#[cfg(test)]
mod tests;

pub use print::text;

//! Compares two circuits by their complex matrices, up to global phase.
//!
//! It stands on the definition of a circuit's matrix alone: no channel, coset or word occurs here. So it is an independent
//! witness for what a synthesiser writes.
#![tactic(auto)]

mod compare;
mod fault;
mod laws;
mod matrices;

pub use compare::same;
pub use fault::CheckFault;
pub use laws::sameness_is_decided;

#[cfg(test)]
mod tests;

//! `tcount` over any source and sink: [`run`] does what the words of the command line ask for.
//!
//! `synth` reads a program text, finds the least T-count of its circuit, and writes a circuit that has it, or that the least
//! T-count is greater than a bound. `check` reads two programs and writes whether their circuits are the same. `levels` writes
//! how many cosets have each T-count. `bench` makes a circuit from a seed and searches it. The contract of [`run`] is in
//! `specs/Words` (which words are which command), `specs/Out` (which status and bytes are the outcome for which words and
//! text), `specs/Printed` (which of the circuits with the least T-count is written) and `specs/Run` (how a run hands the
//! bytes over).
#![tactic(auto)]

mod bench;
mod check;
mod command;
pub mod laws;
mod lines;
mod print;
mod search;
mod sizes;
mod synth;
#[cfg(test)]
mod tests;
pub mod top;

pub use bench::bench_circuit;
pub use print::printed;
pub use top::{Status, run};

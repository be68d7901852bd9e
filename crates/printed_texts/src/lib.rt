//! What a printed circuit reads as.
//!
//! `circuit_writer` prints a circuit, and `qasm_reader` reads a text. Each has its own definitions: `shown` says which
//! bytes are printed, and `Reads` which circuit a text is. [`printed_texts_read_back`] is the law that joins them.
#![tactic(auto)]

mod laws;
#[cfg(test)]
mod tests;

pub use laws::printed_texts_read_back;

//! Reads a text of OpenQASM 2.0 (Cross, Bishop, Smolin and Gambetta, 2017) as a circuit.
//!
//! A text is the header `OPENQASM 2.0;` and statements, each up to its `;`: an include of `qelib1.inc`, a register of qubits or of
//! bits, a barrier, a known gate on arguments, or `u1` or `rz` of a multiple of pi/4 on an argument; or a definition of a gate without
//! parameters, up to its `}`, which makes this gate known. [`read`] gives the circuit of all its gates, or the number of the first reason
//! for which the text is refused, with its place. [`one_reading`] says that each text has exactly one of the two.
//!
//! The reader is more lenient than the standard: gate names are known without the include, which may stand anywhere and more than
//! once; names of gates and of registers are apart; a number may have leading zeros; a barrier may name an argument twice.
#![tactic(auto)]

mod bodies;
mod circuits;
mod declare;
mod definitions;
mod expand;
mod fault;
mod finding;
mod forms;
mod gates;
mod laws;
mod lexemes;
mod limits;
mod openings;
mod pieces;
mod reading;
mod refusal;
mod rows;
mod scan;
mod statements;
mod writing;

pub use fault::ReadFault;
pub use laws::{
    one_halving, one_reading, read_circuits_are_small, refusals_stand_in_texts,
    statements_within_limits_are_taken,
};
pub use limits::{MOST_GATES, MOST_GATES_DEFINED, MOST_QUBITS, MOST_STATEMENTS, MOST_T_GATES};
pub use openings::halves;
pub use reading::read;

#[cfg(test)]
mod tests;

//! Cuts a text into the tokens of OpenQASM 2.0 (Cross, Bishop, Smolin and Gambetta, 2017).
//!
//! Blanks and comments are skipped, and at every other place the longest token that begins there is taken. Two things
//! differ from the standard: a name may begin with any ASCII letter or `_`, and a number has no exponent and has digits
//! on both sides of its point. [`lex`] gives the tokens of a text or its first bad byte, and [`one_cut`] says that every
//! text has exactly one of the two.
#![tactic(auto)]

mod fault;
mod front;
mod gap;
mod laws;
mod lexer;
mod token;

pub use fault::LexFault;
pub use laws::one_cut;
pub use lexer::lex;
pub use token::{Kind, Token};

#[cfg(test)]
mod tests;

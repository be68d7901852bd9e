//! Quick marks of words with one letter more before them.
//!
//! A `Suffix` keeps what the words that end in a word at hand share: its channel's columns without their zeros, the parities of its
//! numbers and the span of its letters. From these the mark of a letter before it is made by sums over the columns, with no
//! channel of the longer word and no label.
#![tactic(auto)]

mod before;
mod blocks;
mod classes;
mod columns;
mod front;
pub mod laws;
mod numbers;
mod parities;
mod places;
mod slow;
mod spans;
mod suffix;
mod sums;
mod turns;
mod weights;

pub use parities::Parities;
pub use suffix::Suffix;
pub use turns::Turns;

#[cfg(test)]
mod tests;

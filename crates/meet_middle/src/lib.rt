//! The search from both ends for the least word of a coset.
//!
//! The letters of a word are the rotations of a circuit, so the least word of the coset of a circuit's channel has as many
//! letters as the circuit needs T gates. The totals of letters are tried from 0 up, each as two halves: a front, which is a
//! word of a level and at an odd total one letter more, is taken off the target, and the rest is looked up in the same level.
//! The first front whose rest stands there spells the least word with what it meets. `least_word` asks the fronts of a total
//! by workers, and makes the levels that it needs.
#![tactic(auto)]

mod answer;
mod fronts;
mod least;
mod probe;
mod remainder;
mod rests;
mod search;
mod trail;
mod word2;

pub use answer::Answer;
pub use least::least_word;
pub use word2::Word2;

#[cfg(test)]
mod tests;

//! Whether two words of rotations lie in one coset of the Clifford group, told by their letters and one channel.
//!
//! Neighbours that commute may change places in a word, and most words of one coset come of each other by such exchanges,
//! which [`exchanges`] finds from the letters alone. Of other words the channel of one tells (Gosset, Kliuchnikov, Mosca and
//! Russo, An algorithm for the T-count, 2014, section 4): what the inverse of the other leaves of it is a signed permutation
//! exactly where both lie in one coset.
//!
//! A [`Mark`] tells most words of different cosets apart before that: words of one coset have one mark.
#![tactic(auto)]

mod comparison;
mod exchange;
pub mod laws;
mod mark;

pub use comparison::of_one_coset;
pub use exchange::exchanges;
pub use mark::{Mark, mark_of};

#[cfg(test)]
mod tests;

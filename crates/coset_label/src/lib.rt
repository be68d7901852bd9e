//! Words of rotations, and labels of cosets of the Clifford group.
//!
//! Two unitaries differ by a Clifford operator on the right exactly where the columns of their channels agree up to order
//! and signs (Gosset, Kliuchnikov, Mosca and Russo, An algorithm for the T-count, 2014, section 4). So a label is what is
//! left of a channel when each column has a fixed sign and the columns stand in order. A `Scratch` makes one with no cell
//! moved: it keeps the channel's cells as they are, the order of the columns and their signs.
#![tactic(auto)]

mod columns;
pub mod laws;
mod same;
mod scratch;
mod sums;
mod word;

pub use scratch::{
    Scratch, channel_of_word, label_into, label_narrow, label_of_front, label_of_word, lies_in,
    narrow_of_word, same_label, tag,
};
pub use word::Word;

#[cfg(test)]
mod tests;

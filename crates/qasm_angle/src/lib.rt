//! Angles as texts of OpenQASM 2.0 write them, where they are whole multiples of pi/4.
//!
//! An angle is a sum of terms, each a number times pi over a number, as in `3*pi/4-pi` or `pi*2/8`; or 0. [`angle`] says of tokens
//! whether they are one, and if so, how many eighths of a full turn it is, where each of its terms is a whole number of them.
//! [`AngleReading`] says the same, token by token. [`one_value`] says that each list of tokens is one of the three.
#![tactic(auto)]

mod angles;
mod laws;
mod readings;
mod symbols;
mod terms;

pub use angles::{AngleValue, angle};
pub use laws::one_value;
pub use readings::AngleReading;
pub use symbols::Symbol;

#[cfg(test)]
mod tests;

//! Sources and sinks of bytes, each with a count of how often it failed.
//!
//! A caller reads and writes through the traits [`Source`] and [`Sink`]. Their contracts tell
//! which bytes move and that a failure shows in a count, so that whoever hands in a device
//! can tell a fault of that device from an answer that was made up.
#![tactic(auto)]

pub mod clean;
pub mod device;
mod front;
pub mod memory;
pub mod streams;
#[cfg(test)]
mod tests;
pub mod whole;

pub use clean::{CleanSink, CleanSource};
pub use device::{Failed, Sink, Source};
pub use memory::{MemSink, MemSource};
pub use streams::{StdSink, StdSource};
pub use whole::{ReadAllFault, read_all, write_all};

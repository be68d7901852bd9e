//! What lies in a deque, and what a pass knows of it.
use std::collections::LinkedList;

/// The number of a block, or the mark that no block follows.
#[derive(Clone, Copy, PartialEq, Eq, Debug)]
pub enum Entry {
    /// A block, by its number.
    Work(u32),
    /// The mark that no block follows.
    End,
}

/// What a pass knows: how many parts of the right to take it has, what was pushed, and what it took. No value of it is
/// made.
pub struct View {
    /// How many of the eight parts it has.
    pub parts: u64,
    /// What was pushed, in order.
    pub pushed: LinkedList<Entry>,
    /// What it took, in order.
    pub got: LinkedList<Entry>,
}

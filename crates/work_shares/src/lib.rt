//! Work cut into blocks of positions, dealt to workers and stolen between them.
//!
//! `deal` cuts the positions below a total into blocks and puts each block into the deque of one worker. Each worker then
//! takes blocks by `Share::next`, from any thread: those of its own deque first, and then those that it can steal. `settle`
//! shows which worker was given which blocks: at any time no block was given twice, and once every share has ended these are
//! the dealt blocks, each once.
//!
//! No call waits for another thread. What keeps the blocks apart is the rule of one deque: what was taken from it and
//! what it still holds is what was pushed, and each entry that was taken is known to just one of those who may take.
#![tactic(auto)]

mod block;
mod dealing;
mod deque;
mod entry;
mod filling;
mod law;
mod lending;
mod parts;
mod returns;
mod seat;
mod settling;
mod share;
mod theft;

pub use block::Block;
pub use dealing::deal;
pub use law::deals_cover;
pub use settling::{Settled, settle};
pub use share::Share;

#[cfg(test)]
mod tests;

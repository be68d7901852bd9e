//! A table of cosets that several callers fill together, each coset once and with the least word offered of it.
//!
//! `start_table` gives a table of empty buckets and a seat for each caller. A caller offers words through its seat, from a
//! thread of its own, and `close` takes the seats back and gives the buckets. Whatever order the callers' steps fell in, the
//! buckets hold the words that one caller would have left: of each coset that was offered the least word offered, once. No
//! lock is taken and nobody waits.
//!
//! A bucket is one word of 64 bits, a tag and below it the letters of a word. An offer looks at bucket after bucket, from its
//! word's home up and round, until it meets an empty bucket, into which it puts its word by one exchange, or a word of its own
//! coset, which it lowers by one `fetch_min`. Words of one coset have one tag, so words are compared where tags are equal
//! alone, and no label of a stored word is made.
#![tactic(auto)]

mod close;
pub mod laws;
mod offer;
mod rule;
mod start;
mod table;
mod words;

pub use close::Buckets;
pub use offer::{Offered, place_behind};
pub use rule::Shape;
pub use start::start_table;
pub use table::{OpenTable, TableSeat};
pub use words::word_of_bucket;

#[cfg(test)]
mod tests;

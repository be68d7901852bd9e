//! Labels and tags as sums over columns: the mathematics on which quick labels rest.
//!
//! A tag is a fold of a label's numbers, column by column in their order. [`laws`] says that it is a sum, to which each column
//! gives its own fold, in whatever order, by its sign and its place; that the folds behind a letter come of the cells before it;
//! and how places are counted. [`fold_cells`] is the fold of a column that is kept by its cells other than 0.
#![tactic(auto)]

mod cells;
pub mod laws;

pub use cells::fold_cells;

#[cfg(test)]
mod tests;

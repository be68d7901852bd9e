//! Least words and least circuits, and halves that meet: the mathematics on which the search rests, without code.
//!
//! A circuit's least T-count is the number of letters of the least word of its channel. That word is found as two halves:
//! each front and each back of a least word is the least word of its own coset, so both stand in levels of half as many
//! letters (Gosset, Kliuchnikov, Mosca and Russo, An algorithm for the T-count, 2014, section 5). [`laws`] has this as facts
//! for a caller's proof.
#![tactic(auto)]

pub mod laws;

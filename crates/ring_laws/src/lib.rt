//! Commutative rings for contracts and proofs, with no code of the product.
//!
//! `specs/Ring` has a ring's operations and laws as records, and powers; `specs/Matrix` finite sums and matrices over
//! any operations; `specs/Cyclotomic` the ring Z[ω]. `proofs/` has the laws of sums and matrices, and a solver of
//! polynomial identities with a reader (`proofs/Reader` says how to call it).
#![tactic(auto)]

ghost use Rattle.std.specs.Prelude.{◌≡◌, pos};
ghost use Rattle.ring_laws.specs.Ring.{RingLaws, integers, power};
ghost use Rattle.ring_laws.specs.Cyclotomic.{cyclotomics, ω, root2, integer, one_number, negative, times};

/// The laws that the crates above rest on, as clauses: the whole numbers and Z[ω] are commutative rings, √2·√2 = 2,
/// ω⁴ = −1 and ω⁸ = 1. The call does nothing.
pub fn ring_laws_hold()
    ensures integers { RingLaws integers }
    ensures cyclotomics { RingLaws cyclotomics }
    ensures root { times root2 root2 ≡ integer (pos 2) }
    ensures fourth { power cyclotomics ω 4 ≡ negative one_number }
    ensures eighth { power cyclotomics ω 8 ≡ one_number }
{}

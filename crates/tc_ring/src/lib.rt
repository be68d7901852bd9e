//! Exact numbers for circuits over Clifford and T gates, in machine words.
//!
//! `Omega` stands for a number of Z[ω], ω the eighth root of unity (1 + i)/√2, and `Root2` for a number of Z[√2]. Each
//! call is the ring operation on these numbers, under a bound that keeps every coordinate in its word. No call takes
//! memory or refuses.
#![tactic(auto)]

ghost use Rattle.std.specs.Prelude.{◌≡◌, pos};
ghost use Rattle.ring_laws.specs.Ring.{RingLaws};
ghost use Rattle.ring_laws.specs.Cyclotomic.{cyclotomics, root2};
ghost use Rattle.tc_ring.specs.Surds.{Surd, surds, surd_times, surd_integer, root2_surd, embed, IsRingHomomorphism};

pub mod omega;
pub mod root2;

pub use omega::Omega;
pub use root2::Root2;

/// The laws of Z[√2] that the crates above rest on, as clauses: it is a commutative ring in which √2·√2 = 2, and
/// `embed` is a ring homomorphism into Z[ω] that is one to one. The call does nothing.
pub fn surd_laws_hold()
    ensures surds { RingLaws surds }
    ensures root { surd_times root2_surd root2_surd ≡ surd_integer (pos 2) }
    ensures embedding { IsRingHomomorphism surds cyclotomics embed }
    ensures embedded_root { embed root2_surd ≡ root2 }
    ensures one_to_one { (x y : Surd) → embed x ≡ embed y → x ≡ y }
{}

#[cfg(test)]
mod tests;

//! The facts that the rest stands on.
//!
//! Each of these functions does nothing. Its contract is the law, for a caller's proof to use.
ghost use Rattle.clifford_rest.specs.Laws.{SweepsEndAtIdentity, PermutationsHaveCircuits, CircuitsHavePermutations};

/// The sweep ends at the identity, for each signed permutation that is a circuit's channel, in at most 45 gates.
pub fn sweeps_end_at_identity()
    ensures { SweepsEndAtIdentity }
{}

/// A signed permutation that is a circuit's channel is the channel of its rest, which is a circuit without T gates.
pub fn permutations_have_circuits()
    ensures { PermutationsHaveCircuits }
{}

/// The channel of each circuit without T gates, with the least exponent, is a signed permutation.
pub fn circuits_have_permutations()
    ensures { CircuitsHavePermutations }
{}

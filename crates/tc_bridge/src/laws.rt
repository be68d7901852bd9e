//! The facts that join circuits with channels.
//!
//! Each of these functions does nothing. Its contract is the law, for a caller's proof to use.
ghost use Rattle.tc_bridge.specs.Laws.{PaulisMultiply, PaulisSwap, AntiImages, CircuitsHaveChannels, ChannelsAreUnique, BuiltTablesAreChannels, RotationsHaveChannels, ChannelsMultiply, OneChannelWhereSame, EntriesAreTraces, UnitScalarsArePowers, CircuitsAreWords, WordsHaveCircuits, SquaresAreCliffords};

/// The rules on codes are those of the Pauli matrices: their products with quarter turns, which of them commute, and −i·P·Q
/// where they do not.
pub fn codes_multiply_as_matrices()
    ensures product { PaulisMultiply }
    ensures swap { PaulisSwap }
    ensures anti { AntiImages }
{}

/// Each circuit has exactly one channel: the table that its steps build.
pub fn circuits_have_one_channel()
    ensures exists { CircuitsHaveChannels }
    ensures unique { ChannelsAreUnique }
    ensures built { BuiltTablesAreChannels }
{}

/// The table of the rotation by P is the channel of its matrix R(P).
pub fn rotations_have_channels()
    ensures { RotationsHaveChannels }
{}

/// The channel of a product is the product of the channels.
pub fn channels_multiply()
    ensures { ChannelsMultiply }
{}

/// Two circuits on as many qubits have one channel exactly where they are the same up to global phase.
pub fn one_channel_where_same()
    ensures { OneChannelWhereSame }
{}

/// The entry of a circuit's channel at row P and column Q is tr(P·U·Q·U†)/2^n.
pub fn entries_are_traces()
    ensures { EntriesAreTraces }
{}

/// A number over a power of √2 whose absolute value is 1 is one of the eight powers of ω.
pub fn unit_scalars_are_powers()
    ensures { UnitScalarsArePowers }
{}

/// A circuit with t T gates is, up to global phase, a product of t rotations behind a circuit without T gates.
pub fn circuits_are_words()
    ensures { CircuitsAreWords }
{}

/// Each product of t rotations behind a circuit without T gates has a circuit with t T gates.
pub fn words_have_circuits()
    ensures { WordsHaveCircuits }
{}

/// R(P)² is a Clifford operator: the matrix of a circuit without T gates.
pub fn squares_are_cliffords()
    ensures { SquaresAreCliffords }
{}

//! Facts on tables and on channels.
//!
//! Each of these functions does nothing. Its contract is the law, for a caller's proof to use.
ghost use Rattle.channel_rep.specs.Laws.{TablesCompare, TablesMultiply, StepsMultiply, RotationsUndo, ChannelsHaveNorms, NormsBoundEntries, ColumnsAreOrthogonal, RowsAreOrthogonal};

// ---- tables and their products

/// To have the same entries, whatever the powers of √2, is an equivalence of tables.
pub fn tables_compare()
    ensures { TablesCompare }
{}

/// Tables with their product are a monoid up to the same entries, and what one list of steps behind another builds is the
/// product of what they build.
pub fn tables_multiply()
    ensures monoid { TablesMultiply }
    ensures built { StepsMultiply }
{}

/// The tables of a rotation and of its inverse undo each other.
pub fn rotations_undo()
    ensures { RotationsUndo }
{}

// ---- norms

/// The channel of each circuit is orthogonal: over √2^k, the numbers a + b·√2 of a column have the sum 2^k of all
/// a² + 2b², so that no a and no b is above √2^k, and different columns are orthogonal, as are different rows.
pub fn channels_are_orthogonal()
    ensures norm { ChannelsHaveNorms }
    ensures bound { NormsBoundEntries }
    ensures columns { ColumnsAreOrthogonal }
    ensures rows { RowsAreOrthogonal }
{}

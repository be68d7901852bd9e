//! The facts on which quick marks rest.
//!
//! Each of these functions does nothing. Its contract is the law, for a caller's proof to use.
ghost use Rattle.quick_label.specs.Laws.{SumsBeforeLetters, NumbersAreSums, HalvesFit, NumbersTellSigns, NumbersTellOrder, NumbersBeforeLetters, NumbersTellLeads, SmallByNorm, WordsArePackable};

/// The sums of a table's columns behind a letter are those of the columns before it, by other weights.
pub fn sums_before_letters()
    ensures { SumsBeforeLetters }
{}

/// A column's number comes of two sums, its halves, which fit 64 bits where its block has at most 16 rows.
pub fn numbers_are_sums()
    ensures sums { NumbersAreSums }
    ensures fit { HalvesFit }
{}

/// The number of a column behind a letter comes of two sums over the cells before it.
pub fn numbers_before_letters()
    ensures { NumbersBeforeLetters }
{}

/// A column has the sign of its number, and the columns of one block stand in the order of their numbers without signs.
pub fn numbers_tell_order()
    ensures signs { NumbersTellSigns }
    ensures order { NumbersTellOrder }
{}

/// The size of a column's number tells its lead row.
pub fn numbers_tell_leads()
    ensures { NumbersTellLeads }
{}

/// The numbers of a circuit's channel are small where its exponent is.
pub fn small_by_norm()
    ensures { SmallByNorm }
{}

/// The channel of a word can be told by its columns' numbers where its exponent is small.
pub fn words_are_packable()
    ensures { WordsArePackable }
{}

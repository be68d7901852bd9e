//! The facts on channels of words, letter by letter.
//!
//! Each of these functions does nothing. Its contract is the law, for a caller's proof to use.
ghost use Rattle.word_laws.specs.Laws.{SpansAreSubspaces, ColumnsAreSparse, ColumnsShareBlocks, RotationsDivideOnce, RotationsDivideTwice, RotationsDivideNoMore, ExponentsStepByOne, DivisionsTellExponents, DivisionsStayBelow, RotationsExchange, WordsExchange, RestsTellCosets};

/// The channel of a word is 0 outside the blocks of its letters' span, and columns that are other than 0 in one row lie in
/// one block.
pub fn columns_are_sparse()
    ensures spans { SpansAreSubspaces }
    ensures sparse { ColumnsAreSparse }
    ensures blocks { ColumnsShareBlocks }
{}

/// Parities of the numbers before a rotation tell how often the product can be divided by √2.
pub fn parities_tell_divisions()
    ensures once { RotationsDivideOnce }
    ensures twice { RotationsDivideTwice }
    ensures no_more { RotationsDivideNoMore }
{}

/// A letter changes the least exponent by at most one, and by how much the number of divisions tells, which for circuits'
/// channels is at most the exponent and 1.
pub fn divisions_tell_exponents()
    ensures step { ExponentsStepByOne }
    ensures exponent { DivisionsTellExponents }
    ensures below { DivisionsStayBelow }
{}

/// Neighbours that commute may change places in a word.
pub fn letters_exchange()
    ensures rotations { RotationsExchange }
    ensures words { WordsExchange }
{}

/// What a word's inverse leaves of a circuit's channel tells whether the channel lies in the word's coset.
pub fn rests_tell_cosets()
    ensures { RestsTellCosets }
{}

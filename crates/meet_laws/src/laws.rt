//! The facts on which the search in the middle rests.
//!
//! Each of these functions does nothing. Its contract is the law, for a caller's proof to use.
ghost use Rattle.meet_laws.specs.Laws.{CliffordsLieWithIdentity, CosetsDifferByCliffords, PermutationsMoveBehindWords, PartsAreLeast, LeastCountsExist, LeastCountsAreLengths, CountsPassBounds, WordsStandBehindRests, RestsArePermutations, RestsHaveGrids, LeastWordsMakeCircuits, MeetingsSpellWords, EvenTotals, OddTotals};

/// The channels of circuits without T gates lie in the coset of the identity, and two circuits' channels lie in one coset
/// exactly where they differ by such a circuit on the right.
pub fn cosets_differ_by_cliffords()
    ensures identity { CliffordsLieWithIdentity }
    ensures between { CosetsDifferByCliffords }
{}

/// A signed permutation that is a circuit's channel, before a word, moves behind a word as long, up to another one.
pub fn permutations_move_behind_words()
    ensures { PermutationsMoveBehindWords }
{}

/// Each front and each back of a least word is the least word of its own coset.
pub fn parts_are_least()
    ensures { PartsAreLeast }
{}

/// The least T-count of a circuit, which it has, is the number of letters of its channel's least word.
pub fn least_counts_are_lengths()
    ensures exists { LeastCountsExist }
    ensures lengths { LeastCountsAreLengths }
    ensures above { CountsPassBounds }
{}

/// A word of the coset of a circuit's channel, behind what is left without it, is a circuit that is the same, and a least
/// one where the word is the least.
pub fn words_stand_behind_rests()
    ensures same { WordsStandBehindRests }
    ensures permutation { RestsArePermutations }
    ensures grid { RestsHaveGrids }
    ensures least { LeastWordsMakeCircuits }
{}

/// A front that meets spells a word of the coset, the first one that meets the least word, and where none meets there is no
/// word of so many letters.
pub fn halves_meet()
    ensures spelled { MeetingsSpellWords }
    ensures even { EvenTotals }
    ensures odd { OddTotals }
{}

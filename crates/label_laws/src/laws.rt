//! The facts on labels and tags.
//!
//! Each of these functions does nothing. Its contract is the law, for a caller's proof to use.
ghost use Rattle.label_laws.specs.Laws.{FoldsAreSums, RotationsChangeWeights, FoldsDividedOnce, FoldsDividedTwice, LabelsAreSums, SumsHaveTags, SumsAreHalved, FrontsHaveTags, PlacesAreRanks, SumsByPlaceAreSums, PlacesByTests, LaterLeadsAreLess, NumbersCompare, NumbersHaveSigns, PackedHaveSigns, PackedCompare};

/// A column's fold is linear in its cells: a rotation in front changes the weights alone, and a division by √2 halves.
pub fn folds_are_sums()
    ensures columns { FoldsAreSums }
    ensures rotations { RotationsChangeWeights }
    ensures once { FoldsDividedOnce }
    ensures twice { FoldsDividedTwice }
{}

/// A label's fold, and so its tag, is a sum over the columns in whatever order, and half of a sum is the sum of the halves.
pub fn labels_are_sums()
    ensures sums { LabelsAreSums }
    ensures tags { SumsHaveTags }
    ensures halves { SumsAreHalved }
{}

/// The tag of a letter before a word comes of folds of the word's own columns, with the signs and places of the columns
/// behind the letter.
pub fn fronts_have_tags()
    ensures { FrontsHaveTags }
{}

/// In a strictly rising list the place of a member is the number of lesser ones, which for columns leads and tests tell.
pub fn places_are_ranks()
    ensures places { PlacesAreRanks }
    ensures sums { SumsByPlaceAreSums }
    ensures tests { PlacesByTests }
    ensures leads { LaterLeadsAreLess }
{}

/// Columns that are 0 outside the same rows have the signs of their numbers, and stand in the order of these without signs.
pub fn packed_numbers_tell_order()
    ensures compare { NumbersCompare }
    ensures signs { NumbersHaveSigns }
    ensures column_signs { PackedHaveSigns }
    ensures columns { PackedCompare }
{}

//! The facts that join labels with cosets.
//!
//! Each of these functions does nothing. Its contract is the law, for a caller's proof to use.
ghost use Rattle.coset_label.specs.Laws.{LabelsTellCosets, CosetsDifferByPermutations, CosetsAreClasses, CosetsHaveOneTag, EqualLabelsMeanOneCoset, WordsHaveOneLabel, LabelsTellWords, TablesAreClasses, CosetsAreDecided, CosetsHaveOneLabel, ProductsKeepCosets, StepsKeepCosets, ExponentsBoundTables, ExponentsBoundWords};

/// The labels of two circuits' channels are equal exactly where the channels lie in one coset.
pub fn labels_tell_cosets()
    ensures { LabelsTellCosets }
{}

/// Two circuits' channels lie in one coset exactly where one is the other times a signed permutation.
pub fn cosets_differ_by_permutations()
    ensures { CosetsDifferByPermutations }
{}

/// To lie in one coset is an equivalence on words.
pub fn cosets_are_classes()
    ensures { CosetsAreClasses }
{}

/// Words of one coset have one label.
pub fn cosets_have_one_label()
    ensures { CosetsHaveOneLabel }
{}

/// Words of one coset have one tag.
pub fn cosets_have_one_tag()
    ensures { CosetsHaveOneTag }
{}

/// Words of equal labels lie in one coset.
pub fn equal_labels_mean_one_coset()
    ensures { EqualLabelsMeanOneCoset }
{}

/// A word has at most one label.
pub fn words_have_one_label()
    ensures { WordsHaveOneLabel }
{}

/// The label of a circuit's channel is that of a word exactly where the word lies in the channel's coset.
pub fn labels_tell_words()
    ensures { LabelsTellWords }
{}

/// To lie in one coset is an equivalence on tables.
pub fn tables_are_classes()
    ensures { TablesAreClasses }
{}

/// Whether two tables lie in one coset is decided by their cells.
pub fn cosets_are_decided()
    ensures { CosetsAreDecided }
{}

/// What is put in front of two tables of one coset, a table or a step, leaves them in one coset.
pub fn cosets_stay_behind()
    ensures tables { ProductsKeepCosets }
    ensures steps { StepsKeepCosets }
{}

/// The least exponent of a table is at most that of each table of its coset, and the number of letters of each word there.
pub fn exponents_bound_cosets()
    ensures tables { ExponentsBoundTables }
    ensures words { ExponentsBoundWords }
{}

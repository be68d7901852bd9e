//! What is known of marks.
//!
//! The function does nothing. Its contract is the law, for a caller's proof to use.
ghost use Rattle.coset_words.specs.Marks.{CosetsHaveOneMark};

/// Words of one coset have one mark.
pub fn cosets_have_one_mark()
    ensures { CosetsHaveOneMark }
{}

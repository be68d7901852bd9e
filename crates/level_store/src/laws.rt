//! What is known of stored levels.
//!
//! The function does nothing. Its contract is the law, for a caller's proof to use.
ghost use Rattle.level_store.specs.Stored.{StoredLevelsAreLevels};

/// The words of a stored level are the level as a list: all words of its length, in order, of whose coset no word is shorter
/// and none of the length is earlier.
pub fn stored_levels_are_levels()
    ensures { StoredLevelsAreLevels }
{}

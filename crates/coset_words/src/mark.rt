// Marks of words.
ghost use Rattle.std.specs.Prelude.{ℕ, List};
ghost use Rattle.coset_label.specs.Labels.{IsLabelOfWord};
ghost use Rattle.coset_words.specs.Marks.{IsMarkOf};

use coset_label::{Scratch, tag};

/// What is the same for all words of one coset and other for nearly all others.
#[derive(Clone, Copy, PartialEq, Eq, Debug)]
pub struct Mark {
    /// The least exponent of the word's channel: the power of √2 by which every number of it is divided.
    pub exponent: u32,
    /// The tag of the word's label, a number of 38 bits.
    pub tag: u64,
}

/// The mark of each word with the label.
pub fn mark_of(label: &Scratch) -> Mark
    ensures { (w : List ℕ) → IsLabelOfWord label.now.qubits w label.now.label → IsMarkOf label.now.qubits w result }
{
    Mark {
        exponent: label.exponent(),
        tag: tag(label),
    }
}

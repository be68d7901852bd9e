// The probe for the coset of a word in the buckets of a level.
ghost use Rattle.std.specs.Prelude.{◌≡◌, ℕ, IfSome, IfNone, length, get_or};
ghost use Rattle.coset_label.specs.Cosets.{SameCosetWords};
ghost use Rattle.coset_table.specs.BucketWords.{IsBucketWord, letters_of};
ghost use Rattle.coset_table.specs.Capacity.{IsShape};
ghost use Rattle.coset_table.specs.Ends.{IsFull, IsReached, Stands};
ghost use Rattle.level_store.specs.Probes.{HaveTag, IsMissed};

use channel_rep::Narrow;
use coset_label::Word;
use coset_table::{Shape, place_behind, word_of_bucket};
use coset_words::of_one_coset;

/// The word of a bucket word, where it lies in the coset of a word with a tag. It compares letters only where the tags are
/// equal.
fn word_beside(shape: Shape, found: u64, tag: u64, word: Word, room: &mut Narrow) -> Option<Word>
    requires shape { IsShape shape }
    requires found { IsBucketWord shape found }
    requires qubits { word.qubits ≡ shape.qubits }
    requires tag { HaveTag shape (SameCosetWords shape.qubits word.letters) tag }
    requires room { room.old.qubits ≡ word.qubits }
    ensures room { room.new.qubits ≡ room.old.qubits }
    ensures some { IfSome result (λ w. (w.qubits ≡ shape.qubits) × (w.letters ≡ letters_of shape found)
        × SameCosetWords shape.qubits word.letters (letters_of shape found)) }
    ensures none { IfNone result (SameCosetWords shape.qubits word.letters (letters_of shape found) → ⊥) }
{
    if found >> 24 != tag {
        return None;
    }
    let there = word_of_bucket(shape, found);
    if of_one_coset(word, there, room) {
        Some(there)
    } else {
        None
    }
}

/// Looks in the buckets for the word in the coset of a word, from the home of the word's tag up and round, until it meets the
/// coset or an empty bucket.
pub fn probe_word(
    shape: Shape,
    words: &[u64],
    tag: u64,
    word: Word,
    room: &mut Narrow,
) -> Option<Word>
    requires shape { IsShape shape }
    requires long { length words.now ≡ shape.capacity }
    requires valid { (k : ℕ) → IsFull shape words.now k → IsBucketWord shape (get_or words.now k 0) }
    requires reached { (k : ℕ) → IsFull shape words.now k → IsReached shape words.now k }
    requires qubits { word.qubits ≡ shape.qubits }
    requires tag { HaveTag shape (SameCosetWords shape.qubits word.letters) tag }
    requires room { room.old.qubits ≡ word.qubits }
    ensures room { room.new.qubits ≡ room.old.qubits }
    ensures some { IfSome result (λ w. (w.qubits ≡ shape.qubits) × Stands shape words.now w.letters
        × SameCosetWords shape.qubits word.letters w.letters) }
    ensures none { IfNone result ((k : ℕ) → IsMissed shape (SameCosetWords shape.qubits word.letters) words.now k) }
{
    let home = tag % shape.capacity;
    for steps in 0..shape.capacity {
        let bucket = place_behind(shape.capacity, home, steps);
        let found = words[bucket as usize];
        if found == 0 {
            return None;
        }
        if let Some(there) = word_beside(shape, found, tag, word, room) {
            return Some(there);
        }
    }
    None
}

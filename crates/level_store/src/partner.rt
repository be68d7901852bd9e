// Which candidates the turn of a position makes.
ghost use Rattle.std.specs.Prelude.{◌≡◌, ◌≢◌, ◌+◌, ◌*◌, ◌-◌, ◌^◌, ◌<◌, ◌∷◌, ◌++◌, length, drop};
ghost use Rattle.coset_label.specs.Words.{most_letters};
ghost use Rattle.level_laws.specs.Levels.{letter_at, word_at};
ghost use Rattle.level_store.specs.InOrder.{qubits_of, len_of};
ghost use Rattle.level_store.specs.Partners.{Makes};
ghost use Rattle.level_store.specs.Stored.{letters_in};

use crate::level::Level;
use coset_label::Word;
use pauli_basis::Pauli;

/// What the turn of a position makes.
#[derive(Clone, Copy)]
pub enum Turn {
    /// Nothing: its partner's turn makes both candidates.
    Nothing,
    /// The candidate alone, which has no partner.
    One,
    /// The candidate, and this one, which is its partner.
    Two(Word),
}

/// A word with a letter in place of its first.
fn with_first(letter: Pauli, word: Word) -> Word
    requires qubits { letter.qubits ≡ word.qubits }
    requires other { letter.code ≢ 0 }
    requires some { 0 < length word.letters }
    requires room { length word.letters < most_letters word.qubits }
    ensures qubits { result.qubits ≡ word.qubits }
    ensures letters { result.letters ≡ letter.code ∷ drop 1 word.letters }
{
    let mut replaced = Word::empty(word.qubits()).push_back(letter);
    for i in 1..word.len() {
        replaced = replaced.push_back(word.letter(i));
    }
    replaced
}

/// What the turn of a position makes whose candidate is a letter before a word of a level. Where the letter and the first
/// letter of the word differ and commute, they may change places: the candidate with both exchanged is its partner, if the
/// word that then stands behind the first letter is one of the level. Of two partners the turn of the earlier makes both.
pub fn turn_of(level: &Level, letters: u64, position: u64, letter: Pauli, word: Word) -> Turn
    requires letters { letters + 1 ≡ 4 ^ qubits_of level.now }
    requires qubits { (letter.qubits ≡ qubits_of level.now) × (word.qubits ≡ qubits_of level.now) }
    requires other { letter.code ≢ 0 }
    requires len { length word.letters ≡ len_of level.now }
    requires room { length word.letters < most_letters word.qubits }
    requires few { length (letters_in level.now) * letters < 2 ^ 24 }
    requires letter { letter.code ≡ letter_at (qubits_of level.now) position }
    requires word { word.letters ≡ word_at (qubits_of level.now) (letters_in level.now) position }
    ensures { Makes (qubits_of level.now) (letters_in level.now) position result }
{
    if word.len() == 0 {
        return Turn::One;
    }
    let first = word.letter(0);
    if first == letter || !letter.commutes(&first) {
        return Turn::One;
    }
    let behind = with_first(letter, word);
    let Some(place) = level.place(behind) else {
        return Turn::One;
    };
    let partner = place * letters + (u64::from(first.code()) - 1);
    if position < partner {
        Turn::Two(behind.push_front(first))
    } else {
        Turn::Nothing
    }
}

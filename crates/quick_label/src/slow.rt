// Marks by labels, for words whose numbers grow too large for the quick way.
ghost use Rattle.std.specs.Prelude.{◌≡◌, ◌≢◌, ℕ, ◌<◌, List, ◌∷◌};
ghost use Rattle.channel_rep.specs.Cells.{most_exponent, scaled};
ghost use Rattle.channel_rep.specs.Tables.{IsBuiltOf};
ghost use Rattle.coset_label.specs.Words.{word_steps};
ghost use Rattle.coset_words.specs.Marks.{IsMarkOf};

use channel_rep::{Channel, Narrow};
use coset_label::{Scratch, label_of_front};
use coset_words::{Mark, mark_of};
use pauli_basis::Pauli;

/// The mark of a word with one letter more before its first, by the longer word's label. `narrow` is the word's channel, and `room`
/// and `label` are written over.
pub fn mark_by_label(
    narrow: &Narrow,
    letter: Pauli,
    room: &mut Channel,
    label: &mut Scratch,
) -> Mark
    requires same { letter.qubits ≡ narrow.now.qubits }
    requires other { letter.code ≢ 0 }
    requires low { narrow.now.exponent < most_exponent }
    requires room { room.old.qubits ≡ narrow.now.qubits }
    requires label { label.old.qubits ≡ narrow.now.qubits }
    ensures room { room.new.qubits ≡ room.old.qubits }
    ensures label { label.new.qubits ≡ label.old.qubits }
    ensures mark { (w : List ℕ) → IsBuiltOf narrow.now.qubits (word_steps w) (scaled narrow.now)
        → IsMarkOf narrow.now.qubits (letter.code ∷ w) result }
{
    room.copy_from_narrow(narrow);
    label_of_front(room, letter, label);
    mark_of(label)
}

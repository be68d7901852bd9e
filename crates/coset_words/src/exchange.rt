// Words that come of each other by exchanges of letters that commute.
ghost use Rattle.std.specs.Prelude.{◌≡◌, ◌+◌, ◌-◌, ◌≤◌, ℕ, List, ◌∷◌, ◌++◌, length, drop, IfSome, IsTrue};
ghost use Rattle.coset_label.specs.Cosets.{SameCosetWords};
ghost use Rattle.coset_label.specs.Words.{most_letters};

use coset_label::Word;
use pauli_basis::Pauli;

/// The word with the letters of another behind it, from a place on.
fn followed_by(front: Word, word: Word, from: u8) -> Word
    requires same { front.qubits ≡ word.qubits }
    requires from { from ≤ length word.letters }
    requires room { length front.letters + (length word.letters - from) ≤ most_letters word.qubits }
    ensures qubits { result.qubits ≡ word.qubits }
    ensures letters { result.letters ≡ front.letters ++ drop from word.letters }
{
    let mut joined = front;
    for i in from..word.len() {
        joined = joined.push_back(word.letter(i));
    }
    joined
}

/// What stands behind a letter once it is brought to the front of a word, or `None` where the letters before it don't all
/// commute with it, or it isn't there.
fn behind_letter(word: Word, p: Pauli) -> Option<Word>
    requires { p.qubits ≡ word.qubits }
    ensures qubits { IfSome result (λ r. r.qubits ≡ word.qubits) }
    ensures len { IfSome result (λ r. length r.letters + 1 ≡ length word.letters) }
    ensures coset { IfSome result (λ r. (front : List ℕ)
        → SameCosetWords word.qubits (front ++ word.letters) (front ++ p.code ∷ r.letters)) }
{
    let mut before = Word::empty(word.qubits());
    for i in 0..word.len() {
        let q = word.letter(i);
        if q == p {
            return Some(followed_by(before, word, i + 1));
        }
        if !q.commutes(&p) {
            return None;
        }
        before = before.push_back(q);
    }
    None
}

/// Whether a word comes of another by exchanges of neighbours that commute. It takes no memory.
pub fn exchanges(v: Word, w: Word) -> bool
    requires { v.qubits ≡ w.qubits }
    ensures { IsTrue result → SameCosetWords v.qubits v.letters w.letters }
{
    if v.len() != w.len() {
        return false;
    }
    let mut rest = w;
    for i in 0..v.len() {
        let Some(behind) = behind_letter(rest, v.letter(i)) else {
            return false;
        };
        rest = behind;
    }
    true
}

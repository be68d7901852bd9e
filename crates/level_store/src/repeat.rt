// Candidates that lie two levels below.
ghost use Rattle.std.specs.Prelude.{◌≡◌, ◌↔◌, IsTrue};
ghost use Rattle.level_laws.specs.Levels.{ComesAgain};

use coset_label::Word;
use pauli_basis::Pauli;

/// Whether a letter comes again in a word, behind none but letters that commute with it. The candidate of the two then lies
/// two levels below the next one: R(P)·R(P) is a Clifford operator, so that a word of two letters fewer is in its coset.
pub fn comes_again(letter: Pauli, word: Word) -> bool
    requires { letter.qubits ≡ word.qubits }
    ensures { IsTrue result ↔ ComesAgain word.qubits letter.code word.letters }
{
    for i in 0..word.len() {
        let other = word.letter(i);
        if other == letter {
            return true;
        }
        if !letter.commutes(&other) {
            return false;
        }
    }
    false
}

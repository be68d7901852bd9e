// A word of two halves.
ghost use Rattle.std.specs.Prelude.{◌≡◌, ◌≢◌, ◌<◌, Some, length, slice_get};
ghost use Rattle.std.specs.Option.{ForSome};
ghost use Rattle.meet_middle.specs.Halves.{spelled};

use coset_label::Word;
use pauli_basis::Pauli;

/// A word in two halves, and maybe a letter between them: it spells the first half, the middle letter, the last half.
#[derive(Clone, Copy)]
pub struct Word2 {
    /// The first half.
    pub first: Word,
    /// The letter between the halves.
    pub middle: Option<Pauli>,
    /// The last half.
    pub last: Word,
    /// Both halves are on as many qubits.
    ghost qubits: { first.qubits ≡ last.qubits },
    /// So is the middle letter.
    ghost middle_is: { ForSome middle (λ p. p.qubits ≡ first.qubits) },
    /// The middle letter isn't the identity.
    ghost other: { ForSome middle (λ p. p.code ≢ 0) },
}

impl Word2 {
    /// The number of letters.
    pub fn len(&self) -> u8
        ensures { result ≡ length (spelled self.now.first.letters self.now.middle self.now.last.letters) }
    {
        let middle = if self.middle.is_some() { 1 } else { 0 };
        self.first.len() + middle + self.last.len()
    }

    /// The letter at a place, the first at place 0.
    pub fn letter(&self, i: u8) -> Pauli
        requires { i < length (spelled self.now.first.letters self.now.middle self.now.last.letters) }
        ensures qubits { result.qubits ≡ self.now.first.qubits }
        ensures code { slice_get (spelled self.now.first.letters self.now.middle self.now.last.letters) i ≡ Some result.code }
        ensures other { result.code ≢ 0 }
    {
        let first = self.first.len();
        if i < first {
            return self.first.letter(i);
        }
        match self.middle {
            Some(middle) => {
                if i == first {
                    middle
                } else {
                    self.last.letter(i - first - 1)
                }
            }
            None => self.last.letter(i - first),
        }
    }
}

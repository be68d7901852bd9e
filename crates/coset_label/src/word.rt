// Words of rotations, packed.
ghost use Rattle.std.specs.Prelude.{◌≡◌, ◌≢◌, ◌^◌, ◌<◌, ◌≤◌, ◌↔◌, Some, IsTrue, [], ◌∷◌, ◌++◌, length, slice_get};
ghost use Rattle.std.specs.Ordering.{nat_cmp};
ghost use Rattle.std.specs.declared.cmp.Ordering.TheVariants.{Less};
ghost use Rattle.std.specs.Cmp.Lexicographic.{slice_cmp};
ghost use Rattle.coset_label.specs.Packing.{digits, IsPackedWord};
ghost use Rattle.coset_label.specs.Words.{RotationWord, IsShortWord, most_letters, packed};

use pauli_basis::Pauli;
use std::marker::Model;

/// The product R(P1)· .. ·R(Pt) of rotations by Pauli operators other than the identity, on one to three qubits: at most
/// nine of them on one qubit, six on two and four on three.
#[derive(Clone, Copy, PartialEq, Eq)]
pub struct Word {
    n: u8,
    len: u8,
    letters: u32,
}

impl Model for Word {
    ghost use Rattle.std.specs.Prelude.{◌^◌, length};
    ghost use Rattle.coset_label.specs.Words.{RotationWord, packed};
    ghost use Rattle.coset_label.specs.Packing.{digits, IsPackedWord, length-packed, packed-digits};

    ghost Value = { RotationWord };

    ghost view = { λ w. record { qubits = w.n; letters = digits (4 ^ w.n) w.len w.letters } };

    ghost invariant = { λ w. IsPackedWord w.n w.len w.letters };

    ghost inverse = { λ w. record { n = w.qubits; len = length w.letters; letters = packed w.qubits w.letters } };

    ghost inverse_ok = { λ w h i. record { n = w.n; len = length-packed w.n w.len w.letters i; letters = packed-digits w.n w.len w.letters h i } };
}

impl Word {
    /// The empty word on n qubits.
    pub fn empty(n: u8) -> Word
        requires some { 0 < n }
        requires few { n ≤ 3 }
        ensures { result ≡ record { qubits = n; letters = [] } }
    {
        Word {
            n,
            len: 0,
            letters: 0,
        }
    }

    /// The word of so many letters on n qubits that are packed into one number, 2n bits each, the first letter highest.
    pub fn from_letters(n: u8, len: u8, letters: u32) -> Word
        requires { IsPackedWord n len letters }
        ensures qubits { result.qubits ≡ n }
        ensures letters { result.letters ≡ digits (4 ^ n) len letters }
    {
        Word { n, len, letters }
    }

    /// The word with one more letter before its first.
    pub fn push_front(&self, p: Pauli) -> Word
        requires same { p.qubits ≡ self.now.qubits }
        requires other { p.code ≢ 0 }
        requires room { length self.now.letters < most_letters self.now.qubits }
        ensures { result ≡ record self.now { letters = p.code ∷ self.now.letters } }
    {
        Word {
            n: self.n,
            len: self.len + 1,
            letters: self.letters + ((p.code() as u32) << (2 * self.n * self.len)),
        }
    }

    /// The word with one more letter after its last.
    pub fn push_back(&self, p: Pauli) -> Word
        requires same { p.qubits ≡ self.now.qubits }
        requires other { p.code ≢ 0 }
        requires room { length self.now.letters < most_letters self.now.qubits }
        ensures { result ≡ record self.now { letters = self.now.letters ++ p.code ∷ [] } }
    {
        Word {
            n: self.n,
            len: self.len + 1,
            letters: (self.letters << (2 * self.n)) + p.code() as u32,
        }
    }

    /// The number of qubits, 1 to 3.
    pub fn qubits(&self) -> u8
        ensures value { result ≡ self.now.qubits }
        ensures valid { IsShortWord self.now }
    {
        self.n
    }

    /// The number of letters.
    pub fn len(&self) -> u8
        ensures value { result ≡ length self.now.letters }
        ensures valid { IsShortWord self.now }
    {
        self.len
    }

    /// The letter at a place, the first at place 0.
    pub fn letter(&self, i: u8) -> Pauli
        requires { i < length self.now.letters }
        ensures qubits { result.qubits ≡ self.now.qubits }
        ensures code { slice_get self.now.letters i ≡ Some result.code }
        ensures other { result.code ≢ 0 }
    {
        let behind = self.letters >> (2 * self.n * (self.len - 1 - i));
        let code = behind & ((1 << (2 * self.n)) - 1);
        Pauli::of_code(self.n, code as u8)
    }

    /// The letters as one number, 2n bits each, the first letter highest.
    pub fn letters(&self) -> u32
        ensures value { result ≡ packed self.now.qubits self.now.letters }
        ensures low { result < 2 ^ 24 }
        ensures valid { IsShortWord self.now }
    {
        self.letters
    }

    /// Whether the letters come first in the lexicographic order of their codes. Their packed numbers are in the same
    /// order.
    pub fn before(&self, o: &Word) -> bool
        requires qubits { self.now.qubits ≡ o.now.qubits }
        requires len { length self.now.letters ≡ length o.now.letters }
        ensures order { IsTrue result
            ↔ (slice_cmp nat_cmp self.now.letters o.now.letters ≡ Less) }
        ensures packed { IsTrue result
            ↔ (packed self.now.qubits self.now.letters < packed o.now.qubits o.now.letters) }
    {
        self.letters < o.letters
    }
}

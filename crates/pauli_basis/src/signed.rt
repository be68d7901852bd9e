// A Pauli operator with a sign.
ghost use Rattle.std.specs.Prelude.{◌≡◌, ◌<◌};
ghost use Rattle.pauli_basis.specs.Letters.{letter_of};

use std::marker::Model;

/// A Pauli operator on up to three qubits with a sign, as an operator that takes Paulis to Paulis makes it of one: the
/// code, and whether the sign is negative.
#[derive(Clone, Copy, Debug, PartialEq, Eq)]
pub struct SignedPauli {
    code: u8,
    negative: bool,
}

impl Model for SignedPauli {
    ghost use Rattle.pauli_basis.specs.Products.{Signed};

    ghost Value = { Signed };

    ghost view = { λ p. record { code = p.code; is_negative = p.negative } };

    ghost inverse = { λ s. record { code = s.code; negative = s.is_negative } };
}

impl SignedPauli {
    /// The Pauli of a code, with a sign.
    pub fn new(code: u8, negative: bool) -> SignedPauli
        ensures { result ≡ record { code = code; is_negative = negative } }
    {
        SignedPauli { code, negative }
    }

    /// The code: two bits a qubit, qubit 0 lowest, I = 0, X = 1, Y = 2, Z = 3.
    pub fn code(self) -> u8
        ensures { result ≡ self.code }
    {
        self.code
    }

    /// Whether the sign is negative.
    pub fn is_negative(self) -> bool
        ensures { result ≡ self.is_negative }
    {
        self.negative
    }

    /// The letter on qubit `q`, whatever the sign: I = 0, X = 1, Y = 2, Z = 3.
    pub fn letter(self, q: u8) -> u8
        requires { q < 3 }
        ensures value { result ≡ letter_of q self.code }
        ensures small { result < 4 }
    {
        (self.code >> (2 * q)) % 4
    }
}

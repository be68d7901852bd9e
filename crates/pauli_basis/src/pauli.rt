// A Pauli operator on one to three qubits.
ghost use Rattle.std.specs.Prelude.{◌≡◌, ℕ, ◌+◌, ◌%◌, ◌^◌, ◌<◌, ◌≤◌, ◌↔◌, Some, IsTrue, IsSome, IfSome, bit_xor, false, [], ◌∷◌};
ghost use Rattle.pauli_basis.specs.Letters.{letter_of};
ghost use Rattle.pauli_basis.specs.Pauli.{PauliString, IsPauliCode, letter_glyph, pauli_text};
ghost use Rattle.pauli_basis.specs.Products.{product_code, turns, commute, anti_sign, sign_turns};

use crate::SignedPauli;
use std::fmt;
use std::marker::Model;

/// The low bit of each qubit's letter.
const LOW_BITS: u8 = 0b0101_0101;

/// A Pauli operator on one to three qubits: a letter I, X, Y or Z for each of them.
#[derive(Clone, Copy, Debug, PartialEq, Eq)]
pub struct Pauli {
    n: u8,
    code: u8,
}

impl Model for Pauli {
    ghost Value = { PauliString };

    ghost view = { λ p. record { qubits = p.n; code = p.code } };

    ghost invariant = { λ p. IsPauliCode p.n p.code };

    ghost inverse = { λ p. record { n = p.qubits; code = p.code } };
}

/// The text of a letter.
fn letter_text(letter: u8) -> &'static str
    requires { letter < 4 }
    ensures { result.now ≡ letter_glyph letter ∷ [] }
{
    match letter {
        0 => "I",
        1 => "X",
        2 => "Y",
        _ => "Z",
    }
}

/// The quarter turns of the product of two codes, modulo 4.
///
/// A letter's bits are (z, y), so the letters of p and q clash where z·y' + y·z' is odd, the symplectic product. A clash
/// is one quarter turn in the order X, Y, Z, X, and three the other way round.
fn quarter_turns(p: u8, q: u8) -> u8
    requires left { p < 64 }
    requires right { q < 64 }
    ensures { result ≡ turns 3 p q % 4 }
{
    let clashing = ((p & (q >> 1)) ^ ((p >> 1) & q)) & LOW_BITS;
    let reversed = clashing & ((p >> 1) ^ (q & (p | (q >> 1))));
    ((clashing.count_ones() + 2 * reversed.count_ones()) % 4) as u8
}

impl Pauli {
    /// The Pauli of a code on `n` qubits. `None` where `n` is not 1, 2 or 3, or the code is not below 4^n.
    pub fn new(n: u8, code: u8) -> Option<Pauli>
        ensures some { IsSome result ↔ IsPauliCode n code }
        ensures value { IfSome result (λ p. p ≡ record { qubits = n; code = code }) }
    {
        if (1..=3).contains(&n) && code >> (2 * n) == 0 {
            Some(Pauli { n, code })
        } else {
            None
        }
    }

    /// The Pauli of a code's letters on one to three qubits. Letters on other qubits are left out.
    pub fn of_code(n: u8, code: u8) -> Pauli
        requires some { 0 < n }
        requires few { n ≤ 3 }
        ensures qubits { result.qubits ≡ n }
        ensures code { result.code ≡ code % 4 ^ n }
        ensures whole { code < 4 ^ n → result.code ≡ code }
    {
        Pauli {
            n,
            code: code & ((1 << (2 * n)) - 1),
        }
    }

    /// The number of qubits, 1 to 3.
    pub fn qubits(&self) -> u8
        ensures value { result ≡ self.now.qubits }
        ensures some { 0 < result }
        ensures few { result ≤ 3 }
        ensures valid { IsPauliCode self.now.qubits self.now.code }
    {
        self.n
    }

    /// The code: two bits a qubit, qubit 0 lowest, I = 0, X = 1, Y = 2, Z = 3.
    pub fn code(&self) -> u8
        ensures value { result ≡ self.now.code }
        ensures below { result < 4 ^ self.now.qubits }
    {
        self.code
    }

    /// The letter on qubit `q`: I = 0, X = 1, Y = 2, Z = 3.
    pub fn letter(&self, q: u8) -> u8
        requires { q < self.now.qubits }
        ensures value { result ≡ letter_of q self.now.code }
        ensures small { result < 4 }
    {
        (self.code >> (2 * q)) % 4
    }

    /// Whether both products of the two operators are the same: they commute where their letters clash on an even number
    /// of qubits, and else they anticommute.
    pub fn commutes(&self, o: &Pauli) -> bool
        requires { self.now.qubits ≡ o.now.qubits }
        ensures value { result ≡ commute self.now.qubits self.now.code o.now.code }
        ensures even { IsTrue result
            ↔ (turns self.now.qubits self.now.code o.now.code % 2 ≡ 0) }
        ensures both_orders { IsTrue result
            ↔ (turns self.now.qubits self.now.code o.now.code % 4
            ≡ turns self.now.qubits o.now.code self.now.code % 4) }
    {
        quarter_turns(self.code, o.code) % 2 == 0
    }

    /// The product P·Q as i^t·R: the Pauli R, and the quarter turns t, 0 to 3.
    pub fn product(&self, o: &Pauli) -> (Pauli, u8)
        requires { self.now.qubits ≡ o.now.qubits }
        ensures qubits { result.0.qubits ≡ self.now.qubits }
        ensures code { result.0.code ≡ product_code self.now.code o.now.code }
        ensures turns { result.1 ≡ turns self.now.qubits self.now.code o.now.code % 4 }
        ensures letters { (q : ℕ)
            → letter_of q result.0.code ≡ bit_xor (letter_of q self.now.code) (letter_of q o.now.code) }
    {
        let product = Pauli {
            n: self.n,
            code: self.code ^ o.code,
        };
        (product, quarter_turns(self.code, o.code))
    }

    /// The Hermitian operator −i·P·Q of two that anticommute, which is a Pauli with a sign.
    pub fn anti_image(&self, q: &Pauli) -> SignedPauli
        requires same { self.now.qubits ≡ q.now.qubits }
        requires anticommute { commute self.now.qubits self.now.code q.now.code ≡ false }
        ensures below { result.code < 4 ^ self.now.qubits }
        ensures code { result.code ≡ product_code self.now.code q.now.code }
        ensures sign { result.is_negative ≡ anti_sign self.now.qubits self.now.code q.now.code }
        ensures turns { (turns self.now.qubits self.now.code q.now.code + 3) % 4 ≡ sign_turns result.is_negative }
    {
        let (image, turns) = self.product(q);
        SignedPauli::new(image.code(), turns == 3)
    }
}

impl fmt::Display for Pauli {
    ghost output = { λ p. Some (pauli_text p.qubits p.code) };

    /// Writes the letters, that of the highest qubit first.
    fn fmt<W: fmt::Write>(&self, f: &mut fmt::Formatter<W>) -> fmt::Result {
        for q in (0..self.n).rev() {
            write!(f, "{}", letter_text(self.letter(q)))?;
        }
        Ok(())
    }
}

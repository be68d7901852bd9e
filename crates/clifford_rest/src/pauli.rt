// What gates make of a Pauli with a sign.
ghost use Rattle.std.specs.Prelude.{◌≡◌, ◌==◌, ◌*◌, ◌^◌, ◌<◌, ◌≤◌};
ghost use Rattle.std.specs.List.{AllByRecursion};
ghost use Rattle.channel_rep.specs.Cells.{table_of, IsSignedPermutation};
ghost use Rattle.channel_rep.specs.Gates.{GateFits};
ghost use Rattle.channel_rep.specs.Conjugations.{conjugated, conjugated_by};
ghost use Rattle.clifford_rest.specs.Sweep.{has_letter};
ghost use Rattle.clifford_rest.specs.Rest.{sent_to};

use channel_rep::{Channel, ChannelGate};
use pauli_basis::{Pauli, SignedPauli};

/// Whether a Pauli is Z on one qubit, up to its sign.
pub fn is_z(p: SignedPauli, q: u8) -> bool
    requires { q < 3 }
    ensures { result ≡ (p.code == 3 * 4 ^ q) }
{
    p.code() == 3 << (2 * q)
}

/// Whether the letter on a qubit is this one: I = 0, X = 1, Y = 2, Z = 3.
pub fn has_letter(p: SignedPauli, letter: u8, q: u8) -> bool
    requires { q < 3 }
    ensures { result ≡ has_letter letter q p }
{
    p.letter(q) == letter
}

/// What conjugation by a gate makes of a Pauli.
pub fn conjugate(p: SignedPauli, n: u8, gate: ChannelGate) -> SignedPauli
    requires some { 0 < n }
    requires few { n ≤ 3 }
    requires fits { GateFits n gate }
    requires below { p.code < 4 ^ n }
    ensures value { result ≡ conjugated n gate p }
    ensures below { result.code < 4 ^ n }
{
    let image = gate.image(p.code());
    SignedPauli::new(image.code(), p.is_negative() != image.is_negative())
}

/// What conjugation by gates one after another makes of a Pauli.
pub fn conjugate_by(p: SignedPauli, n: u8, gates: &[ChannelGate]) -> SignedPauli
    requires some { 0 < n }
    requires few { n ≤ 3 }
    requires fits { AllByRecursion (GateFits n) gates.now }
    requires below { p.code < 4 ^ n }
    ensures value { result ≡ conjugated_by n gates.now p }
    ensures below { result.code < 4 ^ n }
{
    let mut image = p;
    for gate in gates {
        image = conjugate(image, n, *gate);
    }
    image
}

/// What a signed permutation makes of a code.
pub fn image_of(c: &Channel, code: u8) -> SignedPauli
    requires permutation { IsSignedPermutation c.now }
    requires below { code < 4 ^ c.now.qubits }
    ensures value { result ≡ sent_to c.now.qubits (table_of c.now) code }
    ensures below { result.code < 4 ^ c.now.qubits }
{
    c.image(Pauli::of_code(c.qubits(), code))
}

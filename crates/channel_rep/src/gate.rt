// The Clifford gates of a circuit, and what conjugation by them makes of a Pauli operator.
ghost use Rattle.std.specs.Prelude.{◌≡◌, ◌≢◌, ℕ, ◌^◌, ◌<◌, ◌≤◌};
ghost use Rattle.pauli_basis.specs.Letters.{letter_of};
ghost use Rattle.channel_rep.specs.Gates.{h_letter, s_letter, sdg_letter, with_letter, cx_image};

use pauli_basis::SignedPauli;

/// A Clifford gate, on qubits numbered from 0. `Cx` names the control first.
#[derive(Clone, Copy, Debug, PartialEq, Eq)]
pub enum ChannelGate {
    /// The Hadamard gate.
    H(u8),
    /// The phase gate diag(1, i).
    S(u8),
    /// The inverse of the phase gate, diag(1, −i).
    Sdg(u8),
    /// The controlled not: control, target.
    Cx(u8, u8),
}

/// The letter on a qubit.
fn letter_of(code: u8, q: u8) -> u8
    requires { q < 3 }
    ensures value { result ≡ letter_of q code }
    ensures small { result < 4 }
{
    (code >> (2 * q)) % 4
}

/// The code with another letter on a qubit.
fn with_letter(code: u8, q: u8, letter: u8) -> u8
    requires qubit { q < 3 }
    requires letter { letter < 4 }
    ensures { result ≡ with_letter q code letter }
{
    code ^ ((letter_of(code, q) ^ letter) << (2 * q))
}

/// The code with the image of its letter on a qubit, and the sign of that image.
fn on_qubit(code: u8, q: u8, image: SignedPauli) -> SignedPauli
    requires qubit { q < 3 }
    requires letter { image.code < 4 }
    ensures { result ≡ record { code = with_letter q code image.code; is_negative = image.is_negative } }
{
    SignedPauli::new(with_letter(code, q, image.code()), image.is_negative())
}

/// What h makes of a letter.
fn h_letter(letter: u8) -> SignedPauli
    requires { letter < 4 }
    ensures value { result ≡ h_letter letter }
    ensures small { result.code < 4 }
{
    match letter {
        0 => SignedPauli::new(0, false),
        1 => SignedPauli::new(3, false),
        2 => SignedPauli::new(2, true),
        _ => SignedPauli::new(1, false),
    }
}

/// What s makes of a letter.
fn s_letter(letter: u8) -> SignedPauli
    requires { letter < 4 }
    ensures value { result ≡ s_letter letter }
    ensures small { result.code < 4 }
{
    match letter {
        0 => SignedPauli::new(0, false),
        1 => SignedPauli::new(2, false),
        2 => SignedPauli::new(1, true),
        _ => SignedPauli::new(3, false),
    }
}

/// What sdg makes of a letter.
fn sdg_letter(letter: u8) -> SignedPauli
    requires { letter < 4 }
    ensures value { result ≡ sdg_letter letter }
    ensures small { result.code < 4 }
{
    match letter {
        0 => SignedPauli::new(0, false),
        1 => SignedPauli::new(2, true),
        2 => SignedPauli::new(1, false),
        _ => SignedPauli::new(3, false),
    }
}

/// What cx makes of a code: X and Y of the control put X on the target, Y and Z of the
/// target put Z on the control, and where both happen the sign turns for X with Z and for Y with Y (Aaronson and
/// Gottesman, Improved simulation of stabilizer circuits, 2004).
fn cx_image(control: u8, target: u8, code: u8) -> SignedPauli
    requires control { control < 3 }
    requires target { target < 3 }
    requires apart { control ≢ target }
    requires code { code < 64 }
    ensures { (n : ℕ) → n ≤ 3 → control < n → target < n → code < 4 ^ n
        → result ≡ cx_image n control target code }
{
    let c = letter_of(code, control);
    let t = letter_of(code, target);
    // A letter's bits are (z, y): it has Z where z is 1, and X where z and y differ.
    let control_x = (c ^ (c >> 1)) % 2;
    let control_z = c >> 1;
    let target_x = (t ^ (t >> 1)) % 2;
    let target_z = t >> 1;
    let spread = (control_x << (2 * target)) ^ ((3 * target_z) << (2 * control));
    let turned = control_x * target_z * (1 - (target_x ^ control_z));
    SignedPauli::new(code ^ spread, turned == 1)
}

impl ChannelGate {
    ghost use Rattle.channel_rep.specs.Gates.{image, GateFits};

    /// What conjugation by the gate makes of a code, g·P·g†.
    pub fn image(self, code: u8) -> SignedPauli
        requires fits { GateFits 3 self }
        requires code { code < 64 }
        ensures { (n : ℕ) → n ≤ 3 → GateFits n self → code < 4 ^ n
            → result ≡ image n self code }
    {
        match self {
            ChannelGate::H(q) => on_qubit(code, q, h_letter(letter_of(code, q))),
            ChannelGate::S(q) => on_qubit(code, q, s_letter(letter_of(code, q))),
            ChannelGate::Sdg(q) => on_qubit(code, q, sdg_letter(letter_of(code, q))),
            ChannelGate::Cx(control, target) => cx_image(control, target, code),
        }
    }
}

// Conjugation by a run of Clifford gates. Each image is a byte: the code in its low six bits, and the sign in the next.
// A letter's bits are (high, low), and X = (0, 1), Y = (1, 0), Z = (1, 1). A gate changes all images in one loop without
// a branch, for which the compiler has vector instructions.
ghost use Rattle.std.specs.Prelude.{◌≡◌, ◌≢◌, ℕ, ◌/◌, ◌%◌, ◌*◌, ◌+◌, ◌^◌, ◌<◌, ◌≤◌, List, [], ◌∷◌, ◌++◌, slice_index};
ghost use Rattle.channel_rep.specs.Gates.{GateFits, positive};
ghost use Rattle.channel_rep.specs.Conjugations.{pauli_in, conjugated};

use crate::ChannelGate;
use pauli_basis::SignedPauli;
use std::marker::Model;

/// The codes of the Paulis on three qubits.
const CODES: usize = 64;

/// An image behind h on a qubit: X and Z change places, and Y takes a sign.
fn after_h(image: u8, q: u8) -> u8
    requires { q < 3 }
    ensures { pauli_in result ≡ conjugated 3 (ChannelGate.H q) (pauli_in image) }
{
    let low = (image >> (2 * q)) % 2;
    let high = (image >> (2 * q + 1)) % 2;
    let turned = high & (low ^ 1);
    image ^ (low << (2 * q + 1)) ^ (turned << 6)
}

/// An image behind s on a qubit: X goes to Y, and Y to −X.
fn after_s(image: u8, q: u8) -> u8
    requires { q < 3 }
    ensures { pauli_in result ≡ conjugated 3 (ChannelGate.S q) (pauli_in image) }
{
    let low = (image >> (2 * q)) % 2;
    let high = (image >> (2 * q + 1)) % 2;
    let turned = high & (low ^ 1);
    image ^ ((3 * (high ^ low)) << (2 * q)) ^ (turned << 6)
}

/// An image behind sdg on a qubit: X goes to −Y, and Y to X.
fn after_sdg(image: u8, q: u8) -> u8
    requires { q < 3 }
    ensures { pauli_in result ≡ conjugated 3 (ChannelGate.Sdg q) (pauli_in image) }
{
    let low = (image >> (2 * q)) % 2;
    let high = (image >> (2 * q + 1)) % 2;
    let turned = low & (high ^ 1);
    image ^ ((3 * (high ^ low)) << (2 * q)) ^ (turned << 6)
}

/// An image behind cx: X and Y of the control put X on the target, Y and Z of the target put Z on the control, and where
/// both happen the sign turns for X with Z and for Y with Y.
fn after_cx(image: u8, control: u8, target: u8) -> u8
    requires control { control < 3 }
    requires target { target < 3 }
    requires apart { control ≢ target }
    ensures { pauli_in result ≡ conjugated 3 (ChannelGate.Cx control target) (pauli_in image) }
{
    let control_high = (image >> (2 * control + 1)) % 2;
    let control_x = (image >> (2 * control)) % 2 ^ control_high;
    let target_high = (image >> (2 * target + 1)) % 2;
    let target_x = (image >> (2 * target)) % 2 ^ target_high;
    let turned = control_x & target_high & (target_x ^ control_high ^ 1);
    image ^ (control_x << (2 * target)) ^ ((3 * target_high) << (2 * control)) ^ (turned << 6)
}

/// Changes each image by a rule.
fn change_each<F: Fn(u8) -> u8>(images: &mut [u8; CODES], rule: F)
    requires { F.IsAlwaysCallable rule }
    ensures { (p : ℕ) → p < 64 → F.post rule (slice_index images.old p) (slice_index images.new p) }
{
    for image in images.iter_mut() {
        *image = rule(*image);
    }
}

/// Puts a gate behind each image. The gate is looked at once, and not at each image.
fn put_behind(images: &mut [u8; CODES], gate: ChannelGate)
    requires { GateFits 3 gate }
    ensures { (p : ℕ) → p < 64
        → pauli_in (slice_index images.new p) ≡ conjugated 3 gate (pauli_in (slice_index images.old p)) }
{
    match gate {
        ChannelGate::H(q) => change_each(images, |image| after_h(image, q)),
        ChannelGate::S(q) => change_each(images, |image| after_s(image, q)),
        ChannelGate::Sdg(q) => change_each(images, |image| after_sdg(image, q)),
        ChannelGate::Cx(control, target) => {
            change_each(images, |image| after_cx(image, control, target));
        }
    }
}

/// What conjugation by a Clifford operator C on one to three qubits makes of each Pauli operator P: C·P·C†, which is a
/// Pauli operator with a sign. It takes no memory.
#[derive(Drop)]
pub struct Conjugation {
    n: u8,
    images: [u8; CODES],
}

impl Model for Conjugation {
    ghost use Rattle.channel_rep.specs.Conjugations.{PauliMap, IsPauliMap};

    ghost Value = { PauliMap };

    ghost view = { λ c. record { qubits = c.n; bytes = c.images } };

    ghost invariant = { λ c. IsPauliMap (record { qubits = c.n; bytes = c.images }) };
}

impl Conjugation {
    ghost use Rattle.channel_rep.specs.Conjugations.{IsPauliMap, IsConjugationBy, image_of};

    /// Conjugation by no gate, on n qubits.
    pub fn identity(n: u8) -> Conjugation
        requires some { 0 < n }
        requires few { n ≤ 3 }
        ensures qubits { result.qubits ≡ n }
        ensures images { (p : ℕ) → p < 4 ^ n → image_of result p ≡ positive p }
        ensures by { IsConjugationBy [] result }
    {
        let mut images = [0; CODES];
        for code in 0..CODES {
            images[code] = code as u8;
        }
        Conjugation { n, images }
    }

    /// Puts a gate behind it: the image of each Pauli becomes what the gate makes of that image.
    pub fn then(&mut self, gate: ChannelGate)
        requires { GateFits self.old.qubits gate }
        ensures qubits { self.new.qubits ≡ self.old.qubits }
        ensures images { (p : ℕ) → p < 4 ^ self.old.qubits
            → image_of self.new p ≡ conjugated self.old.qubits gate (image_of self.old p) }
        ensures by { (gates : List ChannelGate) → IsConjugationBy gates self.old
            → IsConjugationBy (gates ++ gate ∷ []) self.new }
    {
        put_behind(&mut self.images, gate);
    }

    /// The number of qubits, 1 to 3.
    pub fn qubits(&self) -> u8
        ensures value { result ≡ self.now.qubits }
        ensures valid { IsPauliMap self.now }
    {
        self.n
    }

    /// What it makes of the Pauli of a code.
    pub fn image(&self, code: u8) -> SignedPauli
        requires { code < 64 }
        ensures { result ≡ image_of self.now code }
    {
        let image = self.images[code as usize];
        SignedPauli::new(image % 64, image / 64 % 2 == 1)
    }
}

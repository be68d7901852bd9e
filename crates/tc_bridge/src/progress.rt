// The channel of a circuit's first gates. A run of Clifford gates is gathered as a conjugation, and goes into the channel
// in one pass, before the next rotation and at the end.
ghost use Rattle.std.specs.Prelude.{◌≡◌, ◌≢◌, ℕ, ◌+◌, ◌<◌, ◌≤◌, List, [], ◌∷◌, ◌++◌, if◌then◌else◌, IfOk};
ghost use Rattle.tc_circuit.specs.Gate.{Fits as FitsGate, is_t};
ghost use Rattle.channel_rep.specs.Cells.{scaled, most_exponent};
ghost use Rattle.channel_rep.specs.Conjugations.{IsConjugationBy};
ghost use Rattle.channel_rep.specs.Gates.{GateFits};
ghost use Rattle.channel_rep.specs.Tables.{Step, by_gate, by_rotation, by_inverse_rotation, IsBuiltOf};
ghost use Rattle.tc_bridge.specs.Steps.{z_on as z_code, step_of};

use channel_rep::{Channel, ChannelGate, Conjugation};
use pauli_basis::Pauli;
use std::alloc::{AllocError, Global};
use std::mem;
use tc_circuit::Gate;

/// Z on one of n qubits.
fn z_on(n: u8, q: u8) -> Pauli
    requires few { n ≤ 3 }
    requires qubit { q < n }
    ensures qubits { result.qubits ≡ n }
    ensures code { result.code ≡ z_code q }
    ensures other { result.code ≢ 0 }
{
    Pauli::of_code(n, 3 << (2 * q))
}

/// The channel of the gates that were taken: that of the conjugation `pending` times `channel`. The next channel is made
/// in `spare`, and the two take turns.
#[derive(Drop)]
pub struct Progress {
    channel: Channel,
    spare: Channel,
    pending: Conjugation,
    ghost spare_alike: { spare.qubits ≡ channel.qubits },
    ghost pending_alike: { pending.qubits ≡ channel.qubits },
}

impl Progress {
    ghost use Rattle.tc_bridge.specs.Progress.{HasTaken};

    /// No gate, on n qubits.
    pub fn start(alloc: Global, n: u8) -> Result<Progress, AllocError>
        requires some { 0 < n }
        requires few { n ≤ 3 }
        ensures qubits { IfOk result (λ p. p.channel.qubits ≡ n) }
        ensures exponent { IfOk result (λ p. p.channel.exponent ≡ 0) }
        ensures taken { IfOk result (HasTaken []) }
    {
        let channel = Channel::identity(alloc, n)?;
        let spare = Channel::identity(alloc, n)?;
        Ok(Progress {
            channel,
            spare,
            pending: Conjugation::identity(n),
        })
    }

    /// Takes the pending gates into the channel.
    fn settle(&mut self)
        ensures qubits { self.new.channel.qubits ≡ self.old.channel.qubits }
        ensures exponent { self.new.channel.exponent ≡ self.old.channel.exponent }
        ensures pending { IsConjugationBy [] self.new.pending }
        ensures built { (steps : List Step) → HasTaken steps self.old
            → IsBuiltOf self.old.channel.qubits steps (scaled self.new.channel) }
    {
        self.spare.conjugate_from(&self.channel, &self.pending);
        mem::swap(&mut self.channel, &mut self.spare);
        self.pending = Conjugation::identity(self.channel.qubits());
    }

    /// Puts a Clifford gate behind the pending ones.
    fn gather(&mut self, gate: ChannelGate)
        requires { GateFits self.old.channel.qubits gate }
        ensures qubits { self.new.channel.qubits ≡ self.old.channel.qubits }
        ensures exponent { self.new.channel.exponent ≡ self.old.channel.exponent }
        ensures taken { (steps : List Step) → HasTaken steps self.old
            → HasTaken (steps ++ by_gate gate ∷ []) self.new }
    {
        self.pending.then(gate);
    }

    /// Takes the rotation by Z on a qubit.
    fn rotate(&mut self, q: u8)
        requires qubit { q < self.old.channel.qubits }
        requires room { self.old.channel.exponent < most_exponent }
        ensures qubits { self.new.channel.qubits ≡ self.old.channel.qubits }
        ensures exponent { self.new.channel.exponent ≡ self.old.channel.exponent + 1 }
        ensures taken { (steps : List Step) → HasTaken steps self.old
            → HasTaken (steps ++ by_rotation (z_code q) ∷ []) self.new }
    {
        self.settle();
        self.channel.left_rotation(z_on(self.channel.qubits(), q));
    }

    /// Takes the inverse of the rotation by Z on a qubit.
    fn rotate_back(&mut self, q: u8)
        requires qubit { q < self.old.channel.qubits }
        requires room { self.old.channel.exponent < most_exponent }
        ensures qubits { self.new.channel.qubits ≡ self.old.channel.qubits }
        ensures exponent { self.new.channel.exponent ≡ self.old.channel.exponent + 1 }
        ensures taken { (steps : List Step) → HasTaken steps self.old
            → HasTaken (steps ++ by_inverse_rotation (z_code q) ∷ []) self.new }
    {
        self.settle();
        self.channel
            .left_rotation_inverse(z_on(self.channel.qubits(), q));
    }

    /// Takes a gate. A T gate is a rotation by Z, or the inverse of one.
    pub fn take(&mut self, gate: Gate)
        requires fits { FitsGate self.old.channel.qubits gate }
        requires room { self.old.channel.exponent + (if is_t gate then 1 else 0) ≤ most_exponent }
        ensures qubits { self.new.channel.qubits ≡ self.old.channel.qubits }
        ensures exponent { self.new.channel.exponent ≡ self.old.channel.exponent + (if is_t gate then 1 else 0) }
        ensures taken { (steps : List Step) → HasTaken steps self.old
            → HasTaken (steps ++ step_of gate ∷ []) self.new }
    {
        match gate {
            Gate::H(q) => self.gather(ChannelGate::H(q)),
            Gate::S(q) => self.gather(ChannelGate::S(q)),
            Gate::Sdg(q) => self.gather(ChannelGate::Sdg(q)),
            Gate::T(q) => self.rotate(q),
            Gate::Tdg(q) => self.rotate_back(q),
            Gate::Cx(control, target) => self.gather(ChannelGate::Cx(control, target)),
        }
    }

    /// The channel of all gates that were taken.
    pub fn finish(self) -> Channel
        ensures qubits { result.qubits ≡ self.channel.qubits }
        ensures exponent { result.exponent ≡ self.channel.exponent }
        ensures built { (steps : List Step) → HasTaken steps self
            → IsBuiltOf self.channel.qubits steps (scaled result) }
    {
        let mut last = self;
        last.settle();
        last.channel
    }
}

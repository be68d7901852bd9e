// What is left of a target, and its least exponent without one letter more.
ghost use Rattle.std.specs.Prelude.{◌≡◌, ◌≢◌, ◌+◌, ◌^◌, ◌<◌, ◌≤◌, [], ◌∷◌, IfOk};
ghost use Rattle.channel_rep.specs.Cells.{scaled, IsReduced};
ghost use Rattle.channel_rep.specs.Tables.{IsCircuitChannel};
ghost use Rattle.level_laws.specs.Levels.{removed};
ghost use Rattle.meet_middle.specs.Remainders.{IsLeastExponentOf};

use channel_rep::Narrow;
use pauli_basis::Pauli;
use quick_label::{Parities, Turns};
use std::alloc::{AllocError, Global};
use std::marker::Model;

/// What is left of a target without a word, with the least exponent, and what tells the least exponent without one letter more.
///
/// No memory is taken but by `new`.
#[derive(Drop)]
pub struct Remainder {
    narrow: Narrow,
    /// The parities of its numbers.
    parities: Parities,
}

impl Model for Remainder {
    ghost use Rattle.channel_rep.specs.Cells.{ChannelGrid};
    ghost use Rattle.meet_middle.specs.Remainders.{IsRemainder};

    ghost Value = { ChannelGrid };

    ghost view = { λ r. r.narrow };

    ghost invariant = { λ r. IsRemainder r.narrow r.parities };
}

impl Remainder {
    /// The identity on n qubits.
    pub fn new(alloc: Global, n: u8) -> Result<Remainder, AllocError>
        requires some { 0 < n }
        requires few { n ≤ 3 }
        ensures { IfOk result (λ r. r.qubits ≡ n) }
    {
        let narrow = Narrow::new(alloc, n)?;
        let mut parities = Parities::new(alloc, n)?;
        parities.take(&narrow);
        Ok(Remainder { narrow, parities })
    }

    /// Becomes a channel that has the least exponent.
    pub fn take(&mut self, narrow: &Narrow)
        requires same { narrow.now.qubits ≡ self.old.qubits }
        requires reduced { IsReduced narrow.now }
        ensures { self.new ≡ narrow.now }
    {
        self.narrow.copy_from(narrow);
        self.parities.take(narrow);
    }

    /// The channel.
    pub fn narrow(&self) -> &Narrow
        ensures value { result.now ≡ self.now }
        ensures reduced { IsReduced self.now }
    {
        &self.narrow
    }

    /// The least exponent of what is left without one letter more. Nothing is taken off for it.
    pub fn exponent_without(&self, turns: &Turns, letter: Pauli) -> u32
        requires turns { turns.now.qubits ≡ self.now.qubits }
        requires same { letter.qubits ≡ self.now.qubits }
        requires other { letter.code ≢ 0 }
        requires circuit { IsCircuitChannel self.now.qubits (scaled self.now) }
        ensures letter { letter.code < 4 ^ letter.qubits }
        ensures near { self.now.exponent ≤ result + 1 }
        ensures least { IsLeastExponentOf self.now.qubits
            (removed self.now.qubits (scaled self.now) (letter.code ∷ [])) result }
    {
        let commuting = turns.commuting(letter.code() as usize);
        let divisions = self.parities.divisions(commuting, letter);
        self.narrow.exponent() + 1 - divisions as u32
    }
}

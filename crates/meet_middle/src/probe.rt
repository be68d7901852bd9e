// What a worker searches with.
ghost use Rattle.std.specs.Prelude.{◌≡◌, ◌≢◌, ◌*◌, ◌^◌, ◌<◌, ◌≤◌, true, false, ◌++◌, IsTrue, IfOk, IfSome};
ghost use Rattle.channel_rep.specs.Cells.{scaled, IsReduced};
ghost use Rattle.channel_rep.specs.Tables.{ScaledTable, IsCircuitChannel};
ghost use Rattle.channel_rep.specs.Words.{IsWord};
ghost use Rattle.coset_label.specs.Words.{most_letters};
ghost use Rattle.level_laws.specs.Levels.{removed, StandsIn};
ghost use Rattle.level_store.specs.InOrder.{IsLevelOf};
ghost use Rattle.level_store.specs.Stored.{Finds, letters_in};
ghost use Rattle.meet_middle.specs.Fronts.{front_of, fronts_of};
ghost use Rattle.meet_middle.specs.Kept.{keeps};
ghost use Rattle.meet_middle.specs.Halves.{middle_letters};
ghost use Rattle.meet_middle.specs.Trails.{IsRest};

use crate::fronts::split_front;
use crate::rests::find_rest;
use crate::trail::Trail;
use channel_rep::Channel;
use coset_label::{Scratch, Word};
use level_store::Level;
use pauli_basis::Pauli;
use std::alloc::{AllocError, Global};
use steal_sweep::Local;

/// What a worker searches with, on N qubits. It keeps the target without what fronts begin with, so that what neighbours share
/// is made once.
#[derive(Drop)]
pub struct Probe<const N: u8> {
    /// The target, and what is left of it.
    trail: Trail,
    /// Room for the rest's label.
    label: Scratch,
    /// Room for the label of a word that is met.
    other: Scratch,
}

impl<const N: u8> Local for Probe<N> {
    ghost use Rattle.std.specs.Prelude.{◌&&◌, ◌==◌};

    ghost fit = { λ l. l.trail.word.qubits == N && l.label.qubits == N && l.other.qubits == N };
}

impl<const N: u8> Probe<N> {
    /// Room to search in for what is left of a target.
    pub fn new(alloc: Global, target: &Channel) -> Result<Probe<N>, AllocError>
        requires some { 0 < N }
        requires few { N ≤ 3 }
        requires qubits { target.now.qubits ≡ N }
        requires low { target.now.exponent ≤ 2 * most_letters N }
        requires reduced { IsReduced target.now }
        requires circuit { IsCircuitChannel N (scaled target.now) }
        ensures fit { IfOk result (λ l. ⟦<Probe<N> as Local>⟧.fit l ≡ true) }
        ensures keeps { IfOk result (λ l. keeps N (scaled target.now) l.trail ≡ true) }
    {
        Ok(Probe {
            trail: Trail::new(alloc, target)?,
            label: Scratch::new(alloc, N)?,
            other: Scratch::new(alloc, N)?,
        })
    }

    /// Makes what is left of the target without a prefix and a last letter, where the least exponents allow a word of so many
    /// letters behind it.
    fn leave(&mut self, prefix: Word, last: &Option<Pauli>, half: u8) -> bool
        requires fit { ⟦<Probe<N> as Local>⟧.fit self.old ≡ true }
        requires prefix { prefix.qubits ≡ N }
        requires word { IsWord N prefix.letters }
        requires last { IfSome last.now (λ p. (p.qubits ≡ N) × (p.code < 4 ^ N) × (p.code ≢ 0)) }
        requires few { half ≤ 9 }
        ensures fit { ⟦<Probe<N> as Local>⟧.fit self.new ≡ true }
        ensures target { self.new.trail.target ≡ self.old.trail.target }
        ensures rest { IsTrue result → IsRest N (scaled self.old.trail.target)
            (prefix.letters ++ middle_letters last.now) self.new.trail.rest }
        ensures none { result ≡ false → StandsIn N half
            (removed N (scaled self.old.trail.target) (prefix.letters ++ middle_letters last.now)) → ⊥ }
    {
        match last {
            Some(letter) => self.trail.reach(prefix, half + 1) && self.trail.leave(*letter, half),
            None => {
                if self.trail.reach(prefix, half) {
                    self.trail.leave_all();
                    true
                } else {
                    false
                }
            }
        }
    }

    /// The word of the level that the front of a position meets, if there is one. No label is made where an exponent on the way
    /// tells that there is none.
    pub fn look(&mut self, level: &Level, half: u8, odd: bool, position: u64) -> Option<Word>
        requires fit { ⟦<Probe<N> as Local>⟧.fit self.old ≡ true }
        requires number { IsLevelOf N half level.now }
        requires below { position < fronts_of N (letters_in level.now) odd }
        ensures fit { ⟦<Probe<N> as Local>⟧.fit self.new ≡ true }
        ensures target { self.new.trail.target ≡ self.old.trail.target }
        ensures finds { (target : ScaledTable) → keeps N target self.old.trail ≡ true
            → Finds N half (removed N target (front_of N (letters_in level.now) odd position)) result }
    {
        let (prefix, last) = split_front(level, N, half, odd, position);
        if !self.leave(prefix, &last, half) {
            return None;
        }
        find_rest(
            level,
            half,
            self.trail.rest(),
            &mut self.label,
            &mut self.other,
        )
    }
}

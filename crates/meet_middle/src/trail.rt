// The target without the first letters of a word.
ghost use Rattle.std.specs.Prelude.{◌≡◌, ◌≢◌, ℕ, ◌+◌, ◌<◌, ◌≤◌, IsTrue, false, All, [], ◌∷◌, ◌++◌, IfOk, length, take};
ghost use Rattle.channel_rep.specs.Cells.{scaled, IsReduced};
ghost use Rattle.channel_rep.specs.Parts.{most_narrow_exponent};
ghost use Rattle.channel_rep.specs.Tables.{SameTable, IsCircuitChannel};
ghost use Rattle.coset_label.specs.Words.{most_letters};
ghost use Rattle.level_laws.specs.Levels.{removed};
ghost use Rattle.meet_middle.specs.Trails.{IsRest, IsPast, HasPast};

use crate::remainder::Remainder;
use channel_rep::{Channel, Narrow};
use coset_label::Word;
use pauli_basis::Pauli;
use quick_label::Turns;
use std::alloc::{AllocError, Global};
use std::marker::Model;

/// How many letters a word has at most.
fn word_room(n: u8) -> usize
    ensures value { result ≡ most_letters n }
    ensures few { result ≤ 9 }
{
    match n {
        1 => 9,
        2 => 6,
        _ => 4,
    }
}

/// So many remainders as a word has first parts at most, each of which is the target.
fn rests_of(alloc: Global, target: &Narrow) -> Result<Vec<Remainder>, AllocError>
    requires { IsReduced target.now }
    ensures long { IfOk result (λ v. length v.items ≡ most_letters target.now.qubits + 1) }
    ensures all { IfOk result (λ v. All (λ r. r ≡ target.now) v.items) }
{
    let n = target.qubits();
    let mut rests = Vec::new(alloc);
    for _ in 0..word_room(n) + 1 {
        let mut rest = Remainder::new(alloc, n)?;
        rest.take(target);
        rests.push(rest)?;
    }
    Ok(rests)
}

/// The letters that two words begin with alike.
fn common_prefix(v: Word, w: Word) -> Word
    requires { v.qubits ≡ w.qubits }
    ensures qubits { result.qubits ≡ v.qubits }
    ensures of_first { result.letters ≡ take (length result.letters) v.letters }
    ensures of_second { result.letters ≡ take (length result.letters) w.letters }
{
    let mut alike = Word::empty(v.qubits());
    for i in 0..v.len().min(w.len()) {
        let letter = v.letter(i);
        if letter != w.letter(i) {
            return alike;
        }
        alike = alike.push_back(letter);
    }
    alike
}

/// A target without each first part of a word, with the least exponents. The next word keeps what it begins with alike.
///
/// Words that follow one another in a level mostly differ in their last letters, so few letters are taken off for each.
#[derive(Drop)]
pub struct Trail {
    /// The letters that are taken off.
    word: Word,
    /// The target without the first j letters stands at place j.
    rests: Vec<Remainder>,
    /// What is left without one letter more.
    rest: Narrow,
    turns: Turns,
}

impl Model for Trail {
    ghost use Rattle.meet_middle.specs.Trails.{HeldTrail, IsTrail, without};

    ghost Value = { HeldTrail };

    ghost view = { λ t. record { target = without t.rests.items 0; word = t.word; rest = t.rest } };

    ghost invariant = { λ t. IsTrail t.rests.items t.word t.rest t.turns };
}

impl Trail {
    /// The target without a letter off.
    pub fn new(alloc: Global, target: &Channel) -> Result<Trail, AllocError>
        requires low { target.now.exponent ≤ most_narrow_exponent }
        requires reduced { IsReduced target.now }
        requires circuit { IsCircuitChannel target.now.qubits (scaled target.now) }
        ensures target { IfOk result (λ t. t.target ≡ target.now) }
        ensures qubits { IfOk result (λ t. t.word.qubits ≡ target.now.qubits) }
    {
        let n = target.qubits();
        let mut rest = Narrow::new(alloc, n)?;
        rest.take(target);
        let rests = rests_of(alloc, &rest)?;
        let turns = Turns::new(alloc, n)?;
        Ok(Trail {
            word: Word::empty(n),
            rests,
            rest,
            turns,
        })
    }

    /// Makes the rest what is left without one letter more, unless its least exponent passes the number of letters that may be
    /// left behind it. Where it does, nothing is taken off.
    pub fn leave(&mut self, letter: Pauli, left: u8) -> bool
        requires same { letter.qubits ≡ self.old.word.qubits }
        requires other { letter.code ≢ 0 }
        requires few { left + 1 < most_narrow_exponent }
        ensures target { self.new.target ≡ self.old.target }
        ensures word { self.new.word ≡ self.old.word }
        ensures rest { IsTrue result → IsRest self.old.word.qubits (scaled self.old.target)
            (self.old.word.letters ++ letter.code ∷ []) self.new.rest }
        ensures past { result ≡ false → IsPast self.old.word.qubits (scaled self.old.target)
            (self.old.word.letters ++ letter.code ∷ []) left }
    {
        let kept = &self.rests[self.word.len() as usize];
        if kept.exponent_without(&self.turns, letter) > left as u32 {
            return false;
        }
        self.rest.copy_from(kept.narrow());
        self.rest.left_rotation_inverse(letter);
        self.rest.reduce();
        true
    }

    /// Makes the rest what is left without the word.
    pub fn leave_all(&mut self)
        ensures target { self.new.target ≡ self.old.target }
        ensures word { self.new.word ≡ self.old.word }
        ensures rest { IsRest self.old.word.qubits (scaled self.old.target) self.old.word.letters self.new.rest }
    {
        let kept = &self.rests[self.word.len() as usize];
        self.rest.copy_from(kept.narrow());
    }

    /// Takes one letter more off, unless the least exponent without it passes the number of letters that may be left behind it.
    fn push(&mut self, letter: Pauli, left: u8) -> bool
        requires same { letter.qubits ≡ self.old.word.qubits }
        requires other { letter.code ≢ 0 }
        requires few { left + 1 < most_narrow_exponent }
        requires room { length self.old.word.letters < most_letters self.old.word.qubits }
        ensures target { self.new.target ≡ self.old.target }
        ensures qubits { self.new.word.qubits ≡ self.old.word.qubits }
        ensures letters { IsTrue result → self.new.word.letters ≡ self.old.word.letters ++ letter.code ∷ [] }
        ensures past { result ≡ false → IsPast self.old.word.qubits (scaled self.old.target)
            (self.old.word.letters ++ letter.code ∷ []) left }
    {
        if !self.leave(letter, left) {
            return false;
        }
        let place = self.word.len() as usize + 1;
        self.rests[place].take(&self.rest);
        self.word = self.word.push_back(letter);
        true
    }

    /// Keeps the letters that the word begins with as another does, and no further ones.
    fn turn_back(&mut self, word: Word)
        requires { word.qubits ≡ self.old.word.qubits }
        ensures target { self.new.target ≡ self.old.target }
        ensures qubits { self.new.word.qubits ≡ self.old.word.qubits }
        ensures letters { self.new.word.letters ≡ take (length self.new.word.letters) word.letters }
    {
        self.word = common_prefix(self.word, word);
    }

    /// Takes a word off in place of the one before, unless the least exponent behind a first part of it passes the number of
    /// letters that are left: those of the rest of the word, and so many behind it. Letters that both words begin with stay off.
    pub fn reach(&mut self, word: Word, behind: u8) -> bool
        requires same { word.qubits ≡ self.old.word.qubits }
        requires few { behind ≤ 10 }
        ensures target { self.new.target ≡ self.old.target }
        ensures qubits { self.new.word.qubits ≡ self.old.word.qubits }
        ensures letters { IsTrue result → self.new.word.letters ≡ word.letters }
        ensures past { result ≡ false → HasPast self.old.word.qubits (scaled self.old.target) word.letters behind }
    {
        if self.word == word {
            return true;
        }
        self.turn_back(word);
        for i in self.word.len()..word.len() {
            if !self.push(word.letter(i), word.len() - 1 - i + behind) {
                return false;
            }
        }
        true
    }

    /// What is left behind the front that was looked at last.
    pub fn rest(&self) -> &Narrow
        ensures value { result.now ≡ self.now.rest }
    {
        &self.rest
    }
}

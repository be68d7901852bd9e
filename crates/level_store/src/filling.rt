// A table filled with the candidates of the last level.
ghost use Rattle.std.specs.Prelude.{◌≡◌, ◌≢◌, ◌+◌, ◌^◌, ◌<◌, ◌≤◌, ◌∷◌, IfOk, length};
ghost use Rattle.coset_label.specs.Words.{most_letters};
ghost use Rattle.coset_table.specs.Ends.{counts_in};
ghost use Rattle.coset_words.specs.Marks.{IsMarkOf};
ghost use Rattle.level_laws.specs.Levels.{candidate_at};
ghost use Rattle.level_store.specs.Filling.{position_count, height_of, last_letters, IsFilled, OffersAdd, TellsNew};
ghost use Rattle.level_store.specs.InOrder.{IsLevelOf};
ghost use Rattle.level_store.specs.Partners.{Makes};
ghost use Rattle.level_store.specs.Stored.{qubits_of_all, levels_of, letters_in, IsStoredWord};

use crate::hand::{Hand, hands_of, seats_of};
use crate::level::Level;
use crate::levels::Levels;
use crate::partner::{Turn, turn_of};
use crate::repeat::comes_again;
use channel_rep::Narrow;
use coset_label::Word;
use coset_table::{Buckets, OpenTable, start_table};
use coset_words::Mark;
use pauli_basis::Pauli;
use std::alloc::{AllocError, Global};
use std::thread::Threads;
use steal_sweep::{Job, Turnstile, for_each};
use work_shares::{deal, settle};

/// How many positions a block has that a worker takes.
const BLOCK: u32 = 64;

/// The job to offer the candidates of the last level to a table.
#[derive(Drop)]
pub struct Filling<'a> {
    pub table: &'a OpenTable,
    pub levels: &'a Levels,
}

impl<'a> Job<Hand> for Filling<'a> {
    ghost use Rattle.std.specs.Prelude.{◌≡◌, ◌<◌};
    ghost use Rattle.coset_table.specs.Seats.{numbers_of};
    ghost use Rattle.level_store.specs.Filling.{position_count, IsFilling, StandsFor};
    ghost use Rattle.level_store.specs.Hands.{IsHand};
    ghost use Rattle.level_store.specs.Stored.{qubits_of_all};

    ghost own = { λ job p. (p < position_count job.levels.now) × IsFilling job.table.now job.levels.now };

    ghost stands = { λ job hand done. IsHand (qubits_of_all job.levels.now) hand
        × StandsFor job.table.now job.levels.now hand.seat done };

    ghost name = { λ job hand. numbers_of hand.seat };

    /// Offers the candidate of a position and its partner, unless their coset stands in one of the two levels below: nothing
    /// where its partner's turn does. A letter that comes again tells so without a mark.
    fn turn(&self, local: &mut Hand, position: u64) {
        let (letter, word) = self.levels.parts_at(position);
        if comes_again(letter, word) {
            return;
        }
        match self.levels.turn_at(position, letter, word) {
            Turn::Nothing => {}
            Turn::One => {
                self.offer_if_new(local, letter, word, None);
            }
            Turn::Two(other) => {
                self.offer_if_new(local, letter, word, Some(other));
            }
        }
    }
}

impl<'a> Filling<'a> {
    ghost use Rattle.std.specs.Prelude.{◌≡◌, ◌≢◌, ◌∷◌, ◌++◌, [], cond, length, IfSome};
    ghost use Rattle.coset_label.specs.Words.{most_letters};
    ghost use Rattle.coset_table.specs.Seats.{numbers_of, offers_of, IsSeatOf};
    ghost use Rattle.level_store.specs.Filling.{height_of, IsFilling, TellsNew};
    ghost use Rattle.level_store.specs.Hands.{IsHand};
    ghost use Rattle.level_store.specs.Partners.{IsBeside, letters_beside};
    ghost use Rattle.level_store.specs.Stored.{qubits_of_all, levels_of, IsStoredWord};

    /// Marks the candidate of a letter before a word, offers it where its coset is new, and with it another word of the same
    /// channel, if there is one, which has the same mark. The answer is whether it is new.
    fn offer_if_new(
        &self,
        hand: &mut Hand,
        letter: Pauli,
        word: Word,
        partner: Option<Word>,
    ) -> bool
        requires filling { IsFilling self.now.table.now self.now.levels.now }
        requires hand { IsHand (qubits_of_all self.now.levels.now) hand.old }
        requires seat { IsSeatOf self.now.table.now hand.old.seat }
        requires letter { letter.qubits ≡ qubits_of_all self.now.levels.now }
        requires other { letter.code ≢ 0 }
        requires word { IsStoredWord (qubits_of_all self.now.levels.now) (height_of self.now.levels.now) word }
        requires room { length word.letters < most_letters (qubits_of_all self.now.levels.now) }
        requires partner { IfSome partner (IsBeside (qubits_of_all self.now.levels.now) (length (levels_of self.now.levels.now)) (letter.code ∷ word.letters)) }
        ensures hand { IsHand (qubits_of_all self.now.levels.now) hand.new }
        ensures seat { IsSeatOf self.now.table.now hand.new.seat }
        ensures name { numbers_of hand.new.seat ≡ numbers_of hand.old.seat }
        ensures new { TellsNew self.now.levels.now (letter.code ∷ word.letters) result }
        ensures offers { offers_of hand.new.seat ≡ offers_of hand.old.seat ++ cond result ((letter.code ∷ word.letters) ∷ letters_beside partner) [] }
    {
        hand.suffix.turn_to(word);
        let mark = hand.suffix.mark_with(letter, &mut hand.label);
        let candidate = word.push_front(letter);
        if !self.levels.is_new(candidate, mark, &mut hand.room) {
            return false;
        }
        self.table
            .offer(&mut hand.seat, candidate, mark, &mut hand.room);
        if let Some(other) = partner {
            self.table
                .offer(&mut hand.seat, other, mark, &mut hand.room);
        }
        true
    }
}

impl Levels {
    /// The last level.
    fn last(&self) -> &Level
        ensures number { IsLevelOf (qubits_of_all self.now) (height_of self.now) result.now }
        ensures letters { letters_in result.now ≡ last_letters self.now }
    {
        self.level(self.height())
    }

    /// The number of letters that a word may begin with.
    fn letters(&self) -> u64
        ensures { result + 1 ≡ 4 ^ qubits_of_all self.now }
    {
        (1 << (2 * self.n)) - 1
    }

    /// The number of positions of the last level's candidates.
    fn positions(&self) -> u64
        requires room { length (levels_of self.now) ≤ most_letters (qubits_of_all self.now) }
        ensures value { result ≡ position_count self.now }
        ensures few { result < 2 ^ 24 }
    {
        self.last().count() * self.letters()
    }

    /// The candidate at a position, in its two parts: a letter, and the word of the last level that it stands before.
    fn parts_at(&self, position: u64) -> (Pauli, Word)
        requires room { length (levels_of self.now) ≤ most_letters (qubits_of_all self.now) }
        requires position { position < position_count self.now }
        ensures letter { result.0.qubits ≡ qubits_of_all self.now }
        ensures other { result.0.code ≢ 0 }
        ensures word { IsStoredWord (qubits_of_all self.now) (height_of self.now) result.1 }
        ensures room { length result.1.letters < most_letters (qubits_of_all self.now) }
        ensures is { result.0.code ∷ result.1.letters ≡ candidate_at (qubits_of_all self.now) (last_letters self.now) position }
    {
        let letters = self.letters();
        let Some(letter) = Pauli::new(self.n, (position % letters + 1) as u8) else {
            unreachable!()
        };
        (letter, self.last().word(position / letters))
    }

    /// What the turn of a position makes, whose candidate's parts are given.
    fn turn_at(&self, position: u64, letter: Pauli, word: Word) -> Turn
        requires room { length (levels_of self.now) ≤ most_letters (qubits_of_all self.now) }
        requires position { position < position_count self.now }
        requires letter { letter.qubits ≡ qubits_of_all self.now }
        requires other { letter.code ≢ 0 }
        requires word { IsStoredWord (qubits_of_all self.now) (height_of self.now) word }
        requires is { letter.code ∷ word.letters ≡ candidate_at (qubits_of_all self.now) (last_letters self.now) position }
        ensures { Makes (qubits_of_all self.now) (last_letters self.now) position result }
    {
        turn_of(self.last(), self.letters(), position, letter, word)
    }

    /// Whether the coset of a word stands neither in the last level nor in the one below.
    fn is_new(&self, word: Word, mark: Mark, room: &mut Narrow) -> bool
        requires qubits { word.qubits ≡ qubits_of_all self.now }
        requires mark { IsMarkOf word.qubits word.letters mark }
        requires room { room.old.qubits ≡ word.qubits }
        ensures room { room.new.qubits ≡ room.old.qubits }
        ensures new { TellsNew self.now word.letters result }
    {
        if self.last().find_word(word, mark, room).is_some() {
            return false;
        }
        let top = self.height();
        top == 0 || self.level(top - 1).find_word(word, mark, room).is_none()
    }

    /// The buckets of a table that workers filled with the candidates of the last level. While they fill it, nothing is taken
    /// from an allocator.
    pub(crate) fn fill<H: Threads + Sync, G: Turnstile + Sync>(
        &self,
        th: &H,
        alloc: Global,
        workers: u32,
        gate: &G,
    ) -> Result<Buckets, AllocError>
        requires room { length (levels_of self.now) ≤ most_letters (qubits_of_all self.now) }
        requires some { 1 ≤ workers }
        requires few { workers ≤ 8 }
        ensures filled { IfOk result (IsFilled self.now) }
        ensures seats { IfOk result (λ b. length (counts_in b) ≡ workers) }
        ensures sum { IfOk result (OffersAdd self.now) }
    {
        let (table, seats) = start_table(alloc, self.n, self.list.len() as u8, workers)?;
        let hands = hands_of(alloc, self.n, seats)?;
        let mut shares = deal(alloc, self.positions(), BLOCK, hands)?;
        let filling = Filling {
            table: &table,
            levels: self,
        };
        for_each(th, &mut shares, &filling, gate);
        let seats = seats_of(alloc, settle(shares).loads())?;
        table.close(alloc, seats)
    }
}

// The word at hand, and the marks of words with one letter more before it.
ghost use Rattle.std.specs.Prelude.{◌≡◌, ◌≢◌, ℕ, ◌+◌, ◌*◌, ◌%◌, ◌^◌, ◌<◌, ◌≤◌, ◌∷◌, [], nat_lt, if◌then◌else◌, Bool, List, IfOk, IfSome, length};
ghost use Rattle.channel_rep.specs.Cells.{scaled, table_of, IsReduced};
ghost use Rattle.channel_rep.specs.Tables.{SurdTable, IsBuiltOf};
ghost use Rattle.coset_label.specs.Words.{RotationWord, IsShortWord, most_letters, word_steps};
ghost use Rattle.coset_words.specs.Marks.{IsMarkOf};
ghost use Rattle.quick_label.specs.Classes.{IsClassRoom, IsClass};
ghost use Rattle.quick_label.specs.Columns.{HoldsColumns};
ghost use Rattle.quick_label.specs.Folds.{AreFolds};
ghost use Rattle.quick_label.specs.FrontRooms.{IsFrontRoom, AreFrontSums};
ghost use Rattle.quick_label.specs.Spans.{AreSpan};
ghost use Rattle.quick_label.specs.Weights.{IsLetterOf};

use crate::before::{Folds, take_before};
use crate::blocks::Blocks;
use crate::classes::{Class, new_classes, take_classes};
use crate::columns::Columns;
use crate::front::{Front, find_leads, number_columns};
use crate::parities::Parities;
use crate::places::{find_places, place_powers, placed_sum, tag_of_sum, top_power};
use crate::slow::mark_by_label;
use crate::spans::{codes, empty_span, widen};
use crate::sums::weigh_columns;
use crate::turns::Turns;
use channel_rep::{Channel, Narrow};
use coset_label::{Scratch, Word, narrow_of_word};
use coset_words::Mark;
use pauli_basis::Pauli;
use std::alloc::{AllocError, Global};
use std::marker::Model;

/// A word with what the marks of words with one letter more before it are made of. All of it is made once for the word.
///
/// No memory is taken but by `new`.
#[derive(Drop)]
pub struct Suffix {
    word: Word,
    /// The word's channel, with its least exponent.
    narrow: Narrow,
    columns: Columns,
    parities: Parities,
    span: Vec<bool>,
    /// The blocks of the span.
    blocks: Blocks,
    /// The classes of letters before the word, each at the home of its letters.
    classes: Vec<Class>,
    turns: Turns,
    folds: Folds,
    powers: Vec<u64>,
    top: u64,
    front: Front,
    /// Room for the word's channel where a mark is made the slow way.
    slow: Channel,
}

impl Model for Suffix {
    ghost use Rattle.coset_label.specs.Words.{RotationWord};

    ghost Value = { RotationWord };

    ghost view = { λ s. s.word };

    ghost use Rattle.quick_label.specs.Suffixes.{IsSuffix};

    ghost invariant = { λ s. IsSuffix (record {
      word = s.word;
      narrow = s.narrow;
      columns = s.columns;
      parities = s.parities;
      span = s.span.items;
      blocks = s.blocks;
      classes = s.classes.items;
      turns = s.turns;
      folds = s.folds;
      powers = s.powers.items;
      top = s.top;
      front = s.front;
      slow = s.slow;
    }) };
}

/// Makes `span` the span of a word's letters, in room for one span more.
fn span_of(word: Word, span: &mut [bool], room: &mut [bool])
    requires span { length span.old ≡ 4 ^ word.qubits }
    requires room { length room.old ≡ 4 ^ word.qubits }
    ensures span { AreSpan word.qubits word.letters span.new }
    ensures room { length room.new ≡ length room.old }
    ensures valid { IsShortWord word }
{
    empty_span(span);
    let mut left = word.len();
    while left > 0 {
        left -= 1;
        widen(span, word.letter(left).code() as usize, room);
        span.copy_from_slice(room);
    }
}

/// The most that the exponent behind a letter may be for the quick way. Where it is divided the sums are doubled, so the numbers
/// have to be smaller.
fn most_exponent_behind(divisions: u8) -> u32
    ensures { result ≡ (if nat_lt 0 divisions then 5 else 6) }
{
    if divisions > 0 { 5 } else { 6 }
}

/// Writes the sums of the word's columns, by the weights of the fold and of the digits before a letter.
fn weigh_front(
    n: u8,
    columns: &Columns,
    folds: &Folds,
    class: &Class,
    commuting: &[bool],
    negative: &[bool],
    p: usize,
    divisions: u8,
    front: &mut Front,
)
    requires room { IsFrontRoom n front.old }
    requires columns { columns.now.size ≡ 4 ^ n }
    requires folds { AreFolds n folds.now }
    requires class { IsClassRoom n class.now }
    requires letter { p < 4 ^ n }
    requires commuting { length commuting.now ≡ 4 ^ n }
    requires negative { length negative.now ≡ 4 ^ n }
    ensures room { IsFrontRoom n front.new }
    ensures sums { (m : SurdTable) (letters : List ℕ) → IsLetterOf n p commuting.now negative.now → HoldsColumns (4 ^ n) m columns.now
        → IsClass n letters class.now
        → AreFrontSums n p divisions class.now.span.items m front.new.folds.items front.new.highs.items front.new.lows.items }
{
    take_before(
        n,
        &class.high,
        commuting,
        negative,
        p,
        divisions,
        &mut front.high_before,
    );
    take_before(
        n,
        &class.low,
        commuting,
        negative,
        p,
        divisions,
        &mut front.low_before,
    );
    if divisions == 1 {
        take_before(
            n,
            &folds.plain,
            commuting,
            negative,
            p,
            divisions,
            &mut front.fold_before,
        );
        weigh_columns(
            columns,
            &front.fold_before,
            &front.high_before,
            &front.low_before,
            &mut front.folds,
            &mut front.highs,
            &mut front.lows,
        );
        return;
    }
    weigh_columns(
        columns,
        &folds.before[p],
        &front.high_before,
        &front.low_before,
        &mut front.folds,
        &mut front.highs,
        &mut front.lows,
    );
}

impl Suffix {
    /// The empty word on n qubits.
    pub fn new(alloc: Global, n: u8) -> Result<Suffix, AllocError>
        requires some { 0 < n }
        requires few { n ≤ 3 }
        ensures { IfOk result (λ s. s ≡ record { qubits = n; letters = [] }) }
    {
        let narrow = Narrow::new(alloc, n)?;
        let slow = Channel::identity(alloc, n)?;
        let mut span = vec![in alloc; false; codes(n)]?;
        empty_span(&mut span);
        let mut blocks = Blocks::new(alloc, n)?;
        blocks.take(&span);
        let mut parities = Parities::new(alloc, n)?;
        parities.take_within(&narrow, &blocks);
        let mut columns = Columns::new(alloc, n)?;
        columns.take(&narrow, &blocks);
        let mut classes = new_classes(alloc, n)?;
        take_classes(n, &span, &blocks, &mut classes);
        let turns = Turns::new(alloc, n)?;
        let folds = Folds::new(alloc, n, &turns)?;
        Ok(Suffix {
            word: Word::empty(n),
            narrow,
            columns,
            parities,
            span,
            blocks,
            classes,
            turns,
            folds,
            powers: place_powers(alloc, n)?,
            top: top_power(n),
            front: Front::new(alloc, n)?,
            slow,
        })
    }

    /// The word at hand.
    pub fn word(&self) -> Word
        ensures { result ≡ self.now }
    {
        self.word
    }

    /// Turns to a word. Nothing is made where it is the word at hand.
    pub fn turn_to(&mut self, word: Word)
        requires { word.qubits ≡ self.old.qubits }
        ensures { self.new ≡ word }
    {
        if self.word == word {
            return;
        }
        narrow_of_word(word, &mut self.narrow);
        self.narrow.reduce();
        span_of(word, &mut self.span, &mut self.front.span);
        self.blocks.take(&self.span);
        self.parities.take_within(&self.narrow, &self.blocks);
        self.columns.take(&self.narrow, &self.blocks);
        take_classes(word.qubits(), &self.span, &self.blocks, &mut self.classes);
        self.word = word;
    }

    /// The mark of the word with a letter before its first, or `None` where it has to be made the slow way.
    pub fn quick_mark(&mut self, letter: Pauli) -> Option<Mark>
        requires same { letter.qubits ≡ self.old.qubits }
        requires other { letter.code ≢ 0 }
        ensures word { self.new ≡ self.old }
        ensures mark { IfSome result (IsMarkOf self.old.qubits (letter.code ∷ self.old.letters)) }
    {
        let p = letter.code() as usize;
        let commuting = self.turns.commuting(p);
        let divisions = self.parities.divisions(commuting, letter);
        let exponent = self.narrow.exponent() + 1 - divisions as u32;
        if exponent > most_exponent_behind(divisions) {
            return None;
        }
        let class = &self.classes[self.blocks.home(p)];
        if !class.small {
            return None;
        }
        let front = &mut self.front;
        let negative = self.turns.negative(p);
        weigh_front(
            self.word.qubits(),
            &self.columns,
            &self.folds,
            class,
            commuting,
            negative,
            p,
            divisions,
            front,
        );
        number_columns(&front.highs, &front.lows, divisions > 0, &mut front.numbers);
        if !find_leads(&front.numbers, &class.blocks, &mut front.leads) {
            return None;
        }
        find_places(&front.numbers, &front.leads, &mut front.places);
        let sum = placed_sum(0, &front.folds, &front.numbers, &front.places, &self.powers);
        let tag = tag_of_sum(exponent, sum, divisions > 0, self.top);
        Some(Mark { exponent, tag })
    }

    /// The mark of the word with one letter more before its first. `label` is room for the slow way, which is taken only where
    /// numbers grow too large for the quick one.
    pub fn mark_with(&mut self, letter: Pauli, label: &mut Scratch) -> Mark
        requires same { letter.qubits ≡ self.old.qubits }
        requires other { letter.code ≢ 0 }
        requires room { label.old.qubits ≡ self.old.qubits }
        ensures word { self.new ≡ self.old }
        ensures room { label.new.qubits ≡ label.old.qubits }
        ensures mark { IsMarkOf self.old.qubits (letter.code ∷ self.old.letters) result }
    {
        if let Some(mark) = self.quick_mark(letter) {
            return mark;
        }
        mark_by_label(&self.narrow, letter, &mut self.slow, label)
    }
}

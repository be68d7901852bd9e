// Labels of cosets, in room of their own.
ghost use Rattle.std.specs.Prelude.{◌≡◌, ◌≢◌, ℕ, ◌+◌, ◌^◌, ◌<◌, ◌≤◌, ◌↔◌, List, [], ◌∷◌, length, IsTrue, IfOk};
ghost use Rattle.channel_rep.specs.Cells.{scaled, most_exponent, IsReduced};
ghost use Rattle.channel_rep.specs.Tables.{ScaledTable, IsBuiltOf, IsCircuitChannel};
ghost use Rattle.channel_rep.specs.Words.{IsWord};
ghost use Rattle.coset_label.specs.Cosets.{SameCoset, SameCosetWords};
ghost use Rattle.coset_label.specs.Labels.{IsLabelOf, IsLabelOfWord};
ghost use Rattle.coset_label.specs.Laws.{TellsCosets};
ghost use Rattle.coset_label.specs.Tags.{tag_of};
ghost use Rattle.coset_label.specs.Scratch.{IsScratch, kept_label};
ghost use Rattle.coset_label.specs.Words.{IsShortWord, word_steps, word_channel};

use crate::Word;
use crate::columns::{columns_of, find_leads, sort_columns};
use crate::same::same_columns;
use crate::sums::{label_fold, mix};
use channel_rep::{Channel, Narrow};
use pauli_basis::Pauli;
use std::alloc::{AllocError, Global};
use std::marker::Model;

/// Room for one channel and its label, on one to three qubits. It holds a label at all times.
///
/// The label is kept by indexes: the channel's cells stay where they are, beside the order of the columns and their signs.
#[derive(Drop)]
pub struct Scratch {
    channel: Channel,
    leads: Vec<u8>,
    negative: Vec<bool>,
    order: Vec<u8>,
}

impl Model for Scratch {
    ghost use Rattle.coset_label.specs.Scratch.{HeldLabel, IsScratch, kept_label};

    ghost Value = { HeldLabel };

    ghost view = { λ s. record { qubits = s.channel.qubits; label = kept_label s.channel s.negative.items s.order.items } };

    ghost invariant = { λ s. IsScratch s.channel s.leads.items s.negative.items s.order.items };
}

/// Finds the signs and the order of a channel's columns.
fn put_in_order(channel: &Channel, leads: &mut [u8], negative: &mut [bool], order: &mut [u8])
    requires reduced { IsReduced channel.now }
    requires leads { length leads.old ≡ 4 ^ channel.now.qubits }
    requires signs { length negative.old ≡ 4 ^ channel.now.qubits }
    requires places { length order.old ≡ 4 ^ channel.now.qubits }
    ensures kept { IsScratch channel.now leads.new negative.new order.new }
    ensures label { IsLabelOf channel.now.qubits (scaled channel.now)
        (kept_label channel.now negative.new order.new) }
{
    let size = columns_of(channel.qubits());
    find_leads(channel, size, leads, negative);
    sort_columns(channel, size, leads, negative, order);
}

/// Makes the channel into that of a word's product, with one factor 1/√2 for each letter. The last letter acts first.
pub fn channel_of_word(word: Word, channel: &mut Channel)
    requires { word.qubits ≡ channel.old.qubits }
    ensures qubits { channel.new.qubits ≡ channel.old.qubits }
    ensures built { IsBuiltOf channel.old.qubits (word_steps word.letters) (scaled channel.new) }
    ensures exponent { channel.new.exponent ≡ length word.letters }
    ensures valid { IsShortWord word }
{
    channel.make_identity();
    let mut left = word.len();
    while left > 0 {
        left -= 1;
        channel.left_rotation(word.letter(left));
    }
}

/// The same in narrow rows.
pub fn narrow_of_word(word: Word, narrow: &mut Narrow)
    requires { word.qubits ≡ narrow.old.qubits }
    ensures qubits { narrow.new.qubits ≡ narrow.old.qubits }
    ensures built { IsBuiltOf narrow.old.qubits (word_steps word.letters) (scaled narrow.new) }
    ensures exponent { narrow.new.exponent ≡ length word.letters }
    ensures valid { IsShortWord word }
{
    narrow.make_identity();
    let mut left = word.len();
    while left > 0 {
        left -= 1;
        narrow.left_rotation(word.letter(left));
    }
}

/// Makes the channel into that of a word with one more letter before its first, with the least exponent, where `suffix` is
/// the channel of the word.
fn channel_of_front(suffix: &Channel, letter: Pauli, channel: &mut Channel)
    requires same { suffix.now.qubits ≡ channel.old.qubits }
    requires letter { letter.qubits ≡ suffix.now.qubits }
    requires other { letter.code ≢ 0 }
    requires room { suffix.now.exponent < most_exponent }
    ensures qubits { channel.new.qubits ≡ channel.old.qubits }
    ensures built { (w : List ℕ) → IsBuiltOf channel.old.qubits (word_steps w) (scaled suffix.now)
        → IsBuiltOf channel.old.qubits (word_steps (letter.code ∷ w)) (scaled channel.new) }
    ensures reduced { IsReduced channel.new }
    ensures exponent { channel.new.exponent ≤ 1 + suffix.now.exponent }
{
    channel.copy_from(suffix);
    channel.left_rotation(letter);
    channel.reduce();
}

impl Scratch {
    /// Room for labels on n qubits. It holds that of the identity.
    pub fn new(alloc: Global, n: u8) -> Result<Scratch, AllocError>
        requires some { 0 < n }
        requires few { n ≤ 3 }
        ensures qubits { IfOk result (λ s. s.qubits ≡ n) }
        ensures label { IfOk result (λ s. IsLabelOfWord n [] s.label) }
    {
        let size = columns_of(n);
        let channel = Channel::identity(alloc, n)?;
        let mut leads = vec![in alloc; 0u8; size]?;
        let mut negative = vec![in alloc; false; size]?;
        let mut order = vec![in alloc; 0u8; size]?;
        put_in_order(&channel, &mut leads, &mut negative, &mut order);
        Ok(Scratch {
            channel,
            leads,
            negative,
            order,
        })
    }

    /// The number of qubits, 1 to 3.
    pub fn qubits(&self) -> u8
        ensures value { result ≡ self.now.qubits }
        ensures some { 0 < result }
        ensures few { result ≤ 3 }
    {
        self.channel.qubits()
    }

    /// The exponent of the label: the power of √2 by which every number of it is divided.
    pub fn exponent(&self) -> u32
        ensures value { result ≡ self.now.label.exponent }
        ensures low { result ≤ most_exponent }
    {
        self.channel.exponent()
    }
}

/// Makes `s` hold the label of a channel that has the least exponent.
pub fn label_into(c: &Channel, s: &mut Scratch)
    requires same { c.now.qubits ≡ s.old.qubits }
    requires reduced { IsReduced c.now }
    ensures qubits { s.new.qubits ≡ s.old.qubits }
    ensures label { IsLabelOf c.now.qubits (scaled c.now) s.new.label }
{
    s.channel.copy_from(c);
    put_in_order(&s.channel, &mut s.leads, &mut s.negative, &mut s.order);
}

/// Makes `s` hold the label of a channel in narrow rows that has the least exponent: the one that a [`Channel`] of the same
/// value has.
pub fn label_narrow(c: &Narrow, s: &mut Scratch)
    requires same { c.now.qubits ≡ s.old.qubits }
    requires reduced { IsReduced c.now }
    ensures qubits { s.new.qubits ≡ s.old.qubits }
    ensures label { IsLabelOf c.now.qubits (scaled c.now) s.new.label }
{
    s.channel.copy_from_narrow(c);
    put_in_order(&s.channel, &mut s.leads, &mut s.negative, &mut s.order);
}

/// Makes `s` hold the label of a word's product.
pub fn label_of_word(w: Word, s: &mut Scratch)
    requires { w.qubits ≡ s.old.qubits }
    ensures qubits { s.new.qubits ≡ s.old.qubits }
    ensures label { IsLabelOfWord w.qubits w.letters s.new.label }
    ensures exponent { s.new.label.exponent ≤ length w.letters }
    ensures valid { IsShortWord w }
{
    channel_of_word(w, &mut s.channel);
    s.channel.reduce();
    put_in_order(&s.channel, &mut s.leads, &mut s.negative, &mut s.order);
}

/// Makes `s` hold the label of a word with one more letter before its first, where the channel is that of the word. So what
/// words that differ in their first letter share is made once.
pub fn label_of_front(suffix: &Channel, letter: Pauli, s: &mut Scratch)
    requires same { suffix.now.qubits ≡ s.old.qubits }
    requires letter { letter.qubits ≡ suffix.now.qubits }
    requires other { letter.code ≢ 0 }
    requires room { suffix.now.exponent < most_exponent }
    ensures qubits { s.new.qubits ≡ s.old.qubits }
    ensures label { (w : List ℕ) → IsBuiltOf s.old.qubits (word_steps w) (scaled suffix.now)
        → IsLabelOfWord s.old.qubits (letter.code ∷ w) s.new.label }
    ensures exponent { s.new.label.exponent ≤ 1 + suffix.now.exponent }
{
    channel_of_front(suffix, letter, &mut s.channel);
    put_in_order(&s.channel, &mut s.leads, &mut s.negative, &mut s.order);
}

/// Whether two labels are equal. They are on one to three qubits.
fn equal_labels(a: &Scratch, b: &Scratch) -> bool
    requires { a.now.qubits ≡ b.now.qubits }
    ensures equal { IsTrue result ↔ (a.now.label ≡ b.now.label) }
    ensures some { 0 < a.now.qubits }
    ensures few { a.now.qubits ≤ 3 }
{
    a.channel.exponent() == b.channel.exponent()
        && same_columns(
            &a.channel,
            &a.negative,
            &a.order,
            &b.channel,
            &b.negative,
            &b.order,
        )
}

/// Whether two labels are equal, which of circuits' channels they are exactly where the channels lie in one coset.
pub fn same_label(a: &Scratch, b: &Scratch) -> bool
    requires { a.now.qubits ≡ b.now.qubits }
    ensures equal { IsTrue result ↔ (a.now.label ≡ b.now.label) }
    ensures cosets { TellsCosets a.now.qubits a.now.label b.now.label result }
{
    equal_labels(a, b)
}

/// Whether a word lies in the coset whose label is given. What `other` holds afterwards is left open: it is room for the
/// test.
pub fn lies_in(label: &Scratch, word: Word, other: &mut Scratch) -> bool
    requires label { label.now.qubits ≡ word.qubits }
    requires other { other.old.qubits ≡ word.qubits }
    ensures other { other.new.qubits ≡ other.old.qubits }
    ensures words { (v : List ℕ) → IsWord word.qubits v → IsLabelOfWord word.qubits v label.now.label
        → IsTrue result ↔ SameCosetWords word.qubits word.letters v }
    ensures channels { (m : ScaledTable) → IsCircuitChannel word.qubits m → IsLabelOf word.qubits m label.now.label
        → IsTrue result ↔ SameCoset word.qubits m (word_channel word.qubits word.letters) }
    ensures label { IsTrue result ↔ IsLabelOfWord word.qubits word.letters label.now.label }
{
    label_of_word(word, other);
    equal_labels(label, other)
}

/// The tag of a label, a number of 38 bits: equal labels have equal tags, and others mostly don't.
pub fn tag(s: &Scratch) -> u64
    ensures value { result ≡ tag_of s.now.label }
    ensures low { result < 2 ^ 38 }
{
    mix(label_fold(&s.channel, &s.negative, &s.order))
}

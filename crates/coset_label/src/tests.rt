ghost use Rattle.std.specs.Prelude.{◌≡◌, ◌≢◌, ◌+◌, ◌<◌, ◌≤◌, length, IfOk};
ghost use Rattle.channel_rep.specs.Cells.{most_exponent};
ghost use Rattle.coset_label.specs.Words.{most_letters};

use crate::{
    Scratch, Word, channel_of_word, label_into, label_narrow, label_of_front, label_of_word,
    lies_in, narrow_of_word, same_label, tag,
};
use channel_rep::{Channel, Narrow};
use pauli_basis::Pauli;
use std::alloc::{AllocError, Global};
use std::process::Abort;
use std::test::Fail;

/// A Pauli other than the identity.
fn pauli(n: u8, code: u8) -> Result<Pauli, &'static str>
    ensures qubits { IfOk result (λ p. p.qubits ≡ n) }
    ensures other { IfOk result (λ p. p.code ≢ 0) }
{
    match Pauli::new(n, code) {
        Some(p) if p.code() != 0 => Ok(p),
        _ => Err("no such Pauli"),
    }
}

/// How many letters a word keeps at most.
fn room(n: u8) -> u8
    ensures { result ≡ most_letters n }
{
    match n {
        1 => 9,
        2 => 6,
        _ => 4,
    }
}

/// A word of these letters.
fn word(n: u8, codes: &[u8]) -> Result<Word, &'static str>
    requires some { 0 < n }
    requires few { n ≤ 3 }
    ensures { IfOk result (λ w. w.qubits ≡ n) }
{
    let mut w = Word::empty(n);
    for code in codes {
        if w.len() >= room(n) {
            return Err("too many letters");
        }
        w = w.push_back(pauli(n, *code)?);
    }
    Ok(w)
}

/// The letters of a word, from the first to the last, and the order of two words.
#[test]
fn letters_stand_in_order(rt: HostRuntime) -> Result<(), Fail> {
    let zz = pauli(2, 15)?;
    let iz = pauli(2, 3)?;
    let w = Word::empty(2).push_back(zz).push_back(iz);
    assert_eq!(rt; w.letters(), 243);
    assert_eq!(rt; w.qubits(), 2);
    assert_eq!(rt; w.len(), 2);
    assert_eq!(rt; w.letter(0).code(), 15);
    assert_eq!(rt; w.letter(1).code(), 3);
    let back = Word::empty(2).push_front(zz).push_front(iz);
    assert_eq!(rt; back.letters(), 63);
    assert!(rt; back.before(&w));
    assert!(rt; !w.before(&w));
    assert!(rt; w == Word::empty(2).push_front(iz).push_front(zz));
    assert!(rt; w != back);
    Ok(())
}

/// Words, their exponents and their tags.
#[test]
fn words_have_these_exponents_and_tags(rt: HostRuntime) -> Result<(), Fail> {
    // Qubits, letters, exponent and tag, by complex matrices and the plain fold outside this program.
    let rows: [(u8, &[u8], u32, u64); 14] = [
        (1, &[], 0, 146324906256),
        (2, &[], 0, 3140346581),
        (3, &[], 0, 167312936019),
        (1, &[3], 1, 70201673963),
        (1, &[3, 3], 0, 146324906256),
        (1, &[1, 3], 2, 131779219126),
        (1, &[1, 2, 3, 1, 2, 3, 1, 2, 3], 9, 165351431703),
        (2, &[15, 3], 2, 216091606719),
        (2, &[3, 15], 2, 216091606719),
        (2, &[1, 3], 2, 95058180414),
        (2, &[3, 1], 2, 125499302284),
        (2, &[1, 6, 11, 12, 7, 9], 6, 232785570628),
        (3, &[27, 54], 2, 115606003082),
        (3, &[27, 27, 54], 1, 263531717110),
    ];
    for (n, codes, exponent, number) in rows {
        if 0 < n && n <= 3 {
            let mut s = Scratch::new(rt.alloc(), n)?;
            label_of_word(word(n, codes)?, &mut s);
            assert_eq!(rt; s.qubits(), n);
            assert_eq!(rt; s.exponent(), exponent, "of {codes:?}");
            assert_eq!(rt; tag(&s), number, "of {codes:?}");
        }
    }
    Ok(())
}

/// Words of the same letters lie in one coset where the letters commute.
#[test]
fn letters_that_commute_may_change_places(rt: HostRuntime) -> Result<(), Fail> {
    let rows: [(&[u8], &[u8], bool); 2] = [(&[15, 3], &[3, 15], true), (&[1, 3], &[3, 1], false)];
    for (codes, others, equal) in rows {
        let mut s = Scratch::new(rt.alloc(), 2)?;
        let mut t = Scratch::new(rt.alloc(), 2)?;
        label_of_word(word(2, codes)?, &mut s);
        label_of_word(word(2, others)?, &mut t);
        assert_eq!(rt; same_label(&s, &t), equal, "{codes:?} and {others:?}");
    }
    Ok(())
}

/// A word's label is that of the channel that its letters make.
#[test]
fn a_channel_has_the_label_of_its_word(rt: HostRuntime) -> Result<(), Fail> {
    let mut c = Channel::identity(rt.alloc(), 3)?;
    c.left_rotation(pauli(3, 54)?);
    c.left_rotation(pauli(3, 27)?);
    c.reduce();
    let mut s = Scratch::new(rt.alloc(), 3)?;
    let mut other = Scratch::new(rt.alloc(), 3)?;
    label_into(&c, &mut s);
    assert!(rt; !same_label(&s, &other));
    label_of_word(word(3, &[27, 54])?, &mut other);
    assert!(rt; same_label(&s, &other));
    Ok(())
}

/// A narrow channel has the label of the channel that it was made from.
#[test]
fn narrow_rows_have_the_label_of_their_channel(rt: HostRuntime) -> Result<(), Fail> {
    let z = pauli(1, 3)?;
    let mut c = Channel::identity(rt.alloc(), 1)?;
    c.left_rotation(z);
    c.reduce();
    let mut m = Narrow::new(rt.alloc(), 1)?;
    m.left_rotation(z);
    m.reduce();
    let mut s = Scratch::new(rt.alloc(), 1)?;
    let mut t = Scratch::new(rt.alloc(), 1)?;
    label_into(&c, &mut s);
    label_narrow(&m, &mut t);
    assert!(rt; same_label(&s, &t));
    assert_eq!(rt; (tag(&t), t.exponent()), (tag(&s), s.exponent()));
    Ok(())
}

/// A narrow channel of rotations has the label of their word.
#[test]
fn narrow_rows_have_the_label_of_their_word(rt: HostRuntime) -> Result<(), Fail> {
    let rows: [(u8, &[u8]); 5] = [
        (1, &[]),
        (1, &[1, 2, 3, 1, 2, 3, 1, 2, 3]),
        (2, &[1, 6, 11, 12, 7, 9]),
        (2, &[5, 5]),
        (3, &[1, 4, 16, 21]),
    ];
    for (n, codes) in rows {
        if 0 < n && n <= 3 {
            let w = word(n, codes)?;
            let mut m = Narrow::new(rt.alloc(), n)?;
            narrow_of_word(w, &mut m);
            assert_eq!(rt; m.exponent(), w.len() as u32);
            m.reduce();
            let mut s = Scratch::new(rt.alloc(), n)?;
            let mut t = Scratch::new(rt.alloc(), n)?;
            label_of_word(w, &mut s);
            label_narrow(&m, &mut t);
            assert!(rt; same_label(&s, &t), "{codes:?}");
        }
    }
    Ok(())
}

/// A word is told by its packed letters.
#[test]
fn letters_make_their_word(rt: HostRuntime) -> Result<(), Fail> {
    let w = Word::from_letters(2, 2, 243);
    assert!(rt; w == word(2, &[15, 3])?);
    assert!(rt; w != word(2, &[3, 15])?);
    Ok(())
}

/// Whether a word with one more letter before its first has the label that is made of the word's channel.
fn front_agrees(alloc: Global, w: Word, c: &Channel, letter: Pauli) -> Result<bool, AllocError>
    requires qubits { w.qubits ≡ 2 }
    requires room { length w.letters < 6 }
    requires channel { c.now.qubits ≡ 2 }
    requires low { c.now.exponent < most_exponent }
    requires letter { letter.qubits ≡ 2 }
    requires other { letter.code ≢ 0 }
{
    let mut s = Scratch::new(alloc, 2)?;
    let mut t = Scratch::new(alloc, 2)?;
    label_of_front(c, letter, &mut s);
    label_of_word(w.push_front(letter), &mut t);
    Ok(same_label(&s, &t))
}

/// The label of a word behind a channel.
#[test]
fn a_front_has_the_label_of_its_word(rt: HostRuntime) -> Result<(), Fail> {
    let rows: [(&[u8], u8); 4] = [
        (&[], 15),
        (&[3], 15),
        (&[15, 3], 15),
        (&[1, 6, 11, 12, 7], 9),
    ];
    for (codes, code) in rows {
        let w = word(2, codes)?;
        let letter = pauli(2, code)?;
        let mut c = Channel::identity(rt.alloc(), 2)?;
        channel_of_word(w, &mut c);
        if w.len() < 6 {
            assert!(rt;
                front_agrees(rt.alloc(), w, &c, letter)?,
                "{code} before {codes:?}"
            );
        }
    }
    Ok(())
}

/// Pairs of words, and whether they lie in one coset.
#[test]
fn words_lie_in_these_cosets(rt: HostRuntime) -> Result<(), Fail> {
    let rows: [(&[u8], &[u8], bool); 4] = [
        (&[15, 3], &[3, 15], true),
        (&[1, 3], &[3, 1], false),
        (&[3], &[3, 3, 3], true),
        (&[3], &[12], false),
    ];
    for (codes, others, same) in rows {
        let mut s = Scratch::new(rt.alloc(), 2)?;
        let mut t = Scratch::new(rt.alloc(), 2)?;
        label_of_word(word(2, codes)?, &mut s);
        assert_eq!(rt;
            lies_in(&s, word(2, others)?, &mut t),
            same,
            "{codes:?} and {others:?}"
        );
    }
    Ok(())
}

/// Whether a column of one table is a column of the other, or its negative.
fn same_column(a: &Channel, x: usize, b: &Channel, y: usize, negative: bool) -> bool
    requires a { a.now.qubits ≡ 2 }
    requires b { b.now.qubits ≡ 2 }
    requires x { x < 16 }
    requires y { y < 16 }
{
    for row in 0..16usize {
        let p = a.cell(row, x);
        let q = b.cell(row, y);
        let (q_a, q_b) = if negative {
            (q.a.wrapping_neg(), q.b.wrapping_neg())
        } else {
            (q.a, q.b)
        };
        if p.a != q_a || p.b != q_b {
            return false;
        }
    }
    true
}

/// Whether a column of one table is, up to sign, a column of the other.
fn has_column(a: &Channel, x: usize, b: &Channel) -> bool
    requires a { a.now.qubits ≡ 2 }
    requires b { b.now.qubits ≡ 2 }
    requires x { x < 16 }
{
    for y in 0..16usize {
        if same_column(a, x, b, y, false) || same_column(a, x, b, y, true) {
            return true;
        }
    }
    false
}

/// Whether each column of one table is, up to sign, a column of the other. Both have the least exponent, so tables with
/// other exponents aren't of one coset.
fn has_columns(a: &Channel, b: &Channel) -> bool
    requires a { a.now.qubits ≡ 2 }
    requires b { b.now.qubits ≡ 2 }
{
    if a.exponent() != b.exponent() {
        return false;
    }
    for x in 0..16usize {
        if !has_column(a, x, b) {
            return false;
        }
    }
    true
}

/// Asserts that two labels are equal exactly where the channels' columns agree up to order and signs.
fn agree(rt: &impl Abort, a: &Channel, s: &Scratch, b: &Channel, t: &Scratch) -> bool {
    if a.qubits() != 2 || b.qubits() != 2 || s.qubits() != t.qubits() {
        return false;
    }
    let one_coset = has_columns(a, b) && has_columns(b, a);
    assert_eq!(rt; same_label(s, t), one_coset);
    assert!(rt; !one_coset || tag(s) == tag(t));
    one_coset
}

/// The channel of a word of two letters, with the least exponent.
fn channel_of(alloc: Global, p: Pauli, q: Pauli) -> Result<Channel, AllocError>
    requires p_qubits { p.qubits ≡ 2 }
    requires p_other { p.code ≢ 0 }
    requires q_qubits { q.qubits ≡ 2 }
    requires q_other { q.code ≢ 0 }
{
    let mut c = Channel::identity(alloc, 2)?;
    c.left_rotation(q);
    c.left_rotation(p);
    c.reduce();
    Ok(c)
}

/// Among all words of two letters, equal labels mean one coset.
#[test]
fn labels_of_two_letters_tell_cosets(rt: HostRuntime) -> Result<(), Fail> {
    let alloc = rt.alloc();
    let mut channels = Vec::new(alloc);
    let mut labels = Vec::new(alloc);
    for code in 0..225u8 {
        let p = pauli(2, code / 15 + 1)?;
        let q = pauli(2, code % 15 + 1)?;
        channels.push(channel_of(alloc, p, q)?)?;
        let mut s = Scratch::new(alloc, 2)?;
        label_of_word(Word::empty(2).push_back(p).push_back(q), &mut s);
        labels.push(s)?;
    }
    let mut pairs = 0u64;
    for (a, s) in channels.iter().zip(&labels) {
        for (b, t) in channels.iter().zip(&labels) {
            pairs = pairs.wrapping_add(agree(&rt, a, s, b, t) as u64);
        }
    }
    assert_eq!(rt; pairs, 525);
    Ok(())
}

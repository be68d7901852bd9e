ghost use Rattle.std.specs.Prelude.{◌≡◌, ◌<◌, ◌≤◌};

use super::words::{letter, room, word};
use crate::Suffix;
use coset_label::{Scratch, Word, label_of_word};
use coset_words::{Mark, mark_of};
use std::alloc::Global;
use std::test::Fail;

/// Qubits, a word, the letter before it, exponent and tag, by complex matrices and the plain fold outside this program.
const MARKS: [(u8, &[u8], u8, u32, u64); 10] = [
    (1, &[], 3, 1, 70201673963),
    (1, &[3], 3, 0, 146324906256),
    (1, &[3], 1, 2, 131779219126),
    (1, &[2, 3, 1, 2, 3, 1, 2, 3], 1, 9, 165351431703),
    (2, &[3], 15, 2, 216091606719),
    (2, &[15], 3, 2, 216091606719),
    (2, &[3], 1, 2, 95058180414),
    (2, &[6, 11, 12, 7, 9], 1, 6, 232785570628),
    (3, &[54], 27, 2, 115606003082),
    (3, &[27, 54], 27, 1, 263531717110),
];

/// What marks of letters before words have shown.
#[derive(Clone, Copy)]
struct Seen {
    /// How many letters were before words.
    letters: u32,
    /// Whether a mark was other than that by the longer word's label or in the table, or a suffix had another word at hand.
    other: bool,
    /// Whether a mark was made the slow way.
    slow: bool,
    /// Whether the least exponent has fallen, stayed and risen.
    fallen: bool,
    same: bool,
    risen: bool,
}

impl Seen {
    /// Before any letter.
    fn nothing() -> Seen {
        Seen {
            letters: 0,
            other: false,
            slow: false,
            fallen: false,
            same: false,
            risen: false,
        }
    }

    /// With one letter more: the marks by the quick way, by both, and by the label, and the exponent without the letter.
    fn with(self, quick: Option<Mark>, mark: Mark, expected: Mark, exponent: u32) -> Seen {
        Seen {
            letters: self.letters.saturating_add(1),
            other: self.other | (mark != expected),
            slow: self.slow | quick.is_none(),
            fallen: self.fallen | (mark.exponent < exponent),
            same: self.same | (mark.exponent == exponent),
            risen: self.risen | (mark.exponent > exponent),
        }
    }
}

/// Makes the marks of all letters before a word, and again by the labels of the longer words.
fn look_before(
    suffix: &mut Suffix,
    w: Word,
    label: &mut Scratch,
    seen: Seen,
) -> Result<Seen, &'static str>
    requires word { w.qubits ≡ suffix.old.qubits }
    requires label { label.old.qubits ≡ suffix.old.qubits }
    ensures suffix { suffix.new.qubits ≡ suffix.old.qubits }
    ensures label { label.new.qubits ≡ label.old.qubits }
{
    if w.len() >= room(w.qubits()) {
        return Err("too many letters");
    }
    label_of_word(w, label);
    let exponent = label.exponent();
    suffix.turn_to(w);
    let mut more = seen;
    more.other |= suffix.word().letters() != w.letters();
    for code in 1..64u8 {
        if let Ok(p) = letter(w.qubits(), code) {
            let quick = suffix.quick_mark(p);
            let mark = suffix.mark_with(p, label);
            label_of_word(w.push_front(p), label);
            more = more.with(quick, mark, mark_of(label), exponent);
        }
    }
    Ok(more)
}

/// Makes the marks of the table's words on n qubits.
fn look_at_table(
    suffix: &mut Suffix,
    n: u8,
    label: &mut Scratch,
    seen: Seen,
) -> Result<Seen, &'static str>
    requires some { 0 < n }
    requires few { n ≤ 3 }
    requires suffix { suffix.old.qubits ≡ n }
    requires label { label.old.qubits ≡ n }
    ensures suffix { suffix.new.qubits ≡ n }
    ensures label { label.new.qubits ≡ n }
{
    let mut more = seen;
    for row in MARKS {
        let (qubits, codes, code, exponent, tag) = row;
        if qubits == n {
            suffix.turn_to(word(n, codes)?);
            let mark = suffix.mark_with(letter(n, code)?, label);
            more.other |= mark != Mark { exponent, tag };
        }
    }
    Ok(more)
}

/// A number that seems random (the mixing step of SplitMix64).
fn mix(number: u64) -> u64 {
    let mut z = number.wrapping_mul(0x9e37_79b9_7f4a_7c15);
    z = (z ^ (z >> 30)).wrapping_mul(0xbf58_476d_1ce4_e5b9);
    z = (z ^ (z >> 27)).wrapping_mul(0x94d0_49bb_1331_11eb);
    z ^ (z >> 31)
}

/// Codes of up to eight letters on one qubit, where 0 stands for none. Mostly neighbours differ.
fn long_codes(number: u64) -> [u8; 8] {
    let mut codes = [0u8; 8];
    let mut left = mix(number);
    let count = (left % 16) as usize;
    let mut code = 0u8;
    for place in 0..8usize {
        left /= 4;
        code = code.wrapping_add(1 + (left % 4) as u8) % 3;
        if place <= count {
            codes[place] = code + 1;
        }
    }
    codes
}

/// Codes of up to two letters on two qubits: for the numbers below 256 all there are.
fn all_codes(number: u64) -> [u8; 8] {
    [
        (number / 16 % 16) as u8,
        (number % 16) as u8,
        0,
        0,
        0,
        0,
        0,
        0,
    ]
}

/// Codes of up to three letters on three qubits. Often the last is that of the first letter, or of its product with the second.
fn short_codes(number: u64) -> [u8; 8] {
    let random = mix(number);
    let first = (random % 64) as u8;
    let second = (random / 64 % 64) as u8;
    let third = match random / 4096 % 4 {
        0 => first,
        1 => first ^ second,
        _ => (random / 16384 % 64) as u8,
    };
    [first, second, third, 0, 0, 0, 0, 0]
}

/// The codes of the letters of a word on n qubits, by its number.
fn codes_by(n: u8, number: u64) -> [u8; 8] {
    match n {
        1 => long_codes(number),
        2 => all_codes(number),
        _ => short_codes(number),
    }
}

/// Looks before the table's words and before so many others on n qubits.
fn look_before_words(alloc: Global, n: u8, words: u64) -> Result<Seen, Fail>
    requires some { 0 < n }
    requires few { n ≤ 3 }
{
    let mut suffix = Suffix::new(alloc, n)?;
    let mut label = Scratch::new(alloc, n)?;
    let mut seen = look_at_table(&mut suffix, n, &mut label, Seen::nothing())?;
    for number in 0..words {
        let w = word(n, &codes_by(n, number))?;
        seen = look_before(&mut suffix, w, &mut label, seen)?;
    }
    Ok(seen)
}

/// Before long words on one qubit both ways are taken, and the marks are those of labels.
#[test]
fn letters_before_long_words_have_marks_of_labels(rt: HostRuntime) -> Result<(), Fail> {
    let seen = look_before_words(rt.alloc(), 1, 200)?;
    assert_eq!(rt; seen.letters, 600);
    assert!(rt; !seen.other);
    assert!(rt; seen.slow);
    assert!(rt; seen.fallen & seen.risen);
    Ok(())
}

/// Before all words of up to two letters on two qubits the quick way is taken, and its marks are those of labels.
#[test]
fn letters_before_short_words_have_marks_of_labels(rt: HostRuntime) -> Result<(), Fail> {
    let seen = look_before_words(rt.alloc(), 2, 256)?;
    assert_eq!(rt; seen.letters, 3840);
    assert!(rt; !seen.other);
    assert!(rt; !seen.slow);
    assert!(rt; seen.fallen & seen.same & seen.risen);
    Ok(())
}

/// Before words on three qubits the quick way is taken, and its marks are those of labels.
#[test]
fn letters_before_words_on_three_qubits_have_marks_of_labels(rt: HostRuntime) -> Result<(), Fail> {
    let seen = look_before_words(rt.alloc(), 3, 100)?;
    assert_eq!(rt; seen.letters, 6300);
    assert!(rt; !seen.other);
    assert!(rt; !seen.slow);
    assert!(rt; seen.fallen & seen.same & seen.risen);
    Ok(())
}

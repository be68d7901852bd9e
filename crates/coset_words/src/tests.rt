ghost use Rattle.std.specs.Prelude.{◌≡◌, ◌≢◌, ◌<◌, ◌≤◌, length, IfOk};
ghost use Rattle.coset_label.specs.Words.{most_letters};

use crate::{Mark, exchanges, mark_of, of_one_coset};
use channel_rep::Narrow;
use coset_label::{Scratch, Word, label_of_word, same_label};
use pauli_basis::Pauli;
use std::alloc::Global;
use std::test::Fail;

/// A Pauli other than the identity.
fn pauli(n: u8, code: u8) -> Result<Pauli, &'static str>
    ensures qubits { IfOk result (λ p. p.qubits ≡ n) }
    ensures other { IfOk result (λ p. p.code ≢ 0) }
{
    match Pauli::new(n, code) {
        Some(p) if p.code() != 0 => Ok(p),
        _ => Err("no such Pauli"),
    }
}

/// How many letters a word keeps at most.
fn room(n: u8) -> u8
    ensures { result ≡ most_letters n }
{
    match n {
        1 => 9,
        2 => 6,
        _ => 4,
    }
}

/// A word of these letters.
fn word(n: u8, codes: &[u8]) -> Result<Word, &'static str>
    requires some { 0 < n }
    requires few { n ≤ 3 }
    ensures { IfOk result (λ w. w.qubits ≡ n) }
{
    let mut w = Word::empty(n);
    for code in codes {
        if w.len() >= room(n) {
            return Err("too many letters");
        }
        w = w.push_back(pauli(n, *code)?);
    }
    Ok(w)
}

/// Pairs of words, and whether they lie in one coset.
#[test]
fn words_lie_in_one_coset(rt: HostRuntime) -> Result<(), Fail> {
    // Qubits, two words, whether one comes of the other by exchanges of neighbours that commute, and whether the product of
    // one and the other's inverse is a Clifford operator, by complex matrices outside this program.
    let rows: [(u8, &[u8], &[u8], bool, bool); 22] = [
        (1, &[], &[], true, true),
        (1, &[3], &[3, 3, 3], false, true),
        (1, &[1, 1], &[2, 2], false, true),
        (1, &[1, 2], &[2, 1], false, false),
        (1, &[1, 3], &[1, 3], true, true),
        (1, &[1, 2, 3], &[1, 2, 3, 3, 3], false, true),
        (1, &[1, 3, 3], &[2, 2, 1], false, false),
        (1, &[3, 3, 1], &[2], false, true),
        (1, &[3, 3, 1], &[1], false, false),
        (1, &[1, 2, 3, 1, 2, 3, 1, 2, 3], &[3], false, false),
        (2, &[15, 3], &[3, 15], true, true),
        (2, &[1, 3], &[3, 1], false, false),
        (2, &[3], &[12], false, false),
        (2, &[3, 12, 1], &[12, 1, 3], false, false),
        (2, &[3, 12, 15], &[15, 12, 3], true, true),
        (2, &[1, 6, 11, 12, 7, 9], &[1, 6, 11, 12, 7, 9], true, true),
        (2, &[], &[5, 5], false, true),
        (3, &[27, 54], &[54, 27], false, false),
        (3, &[27, 27, 54], &[54], false, false),
        (3, &[48, 12, 3, 63], &[3, 63, 48, 12], true, true),
        (3, &[1, 4, 16, 21], &[21, 16, 4, 1], true, true),
        (3, &[1, 4, 16, 21], &[21, 16, 4, 2], false, false),
    ];
    for (n, codes, others, exchanged, same) in rows {
        if 0 < n && n <= 3 {
            let v = word(n, codes)?;
            let w = word(n, others)?;
            let mut room = Narrow::new(rt.alloc(), n)?;
            assert_eq!(rt; exchanges(v, w), exchanged, "{codes:?} and {others:?}");
            assert_eq!(rt;
                of_one_coset(v, w, &mut room),
                same,
                "{codes:?} and {others:?}"
            );
        }
    }
    Ok(())
}

/// The answers agree with a comparison of labels.
#[test]
fn words_of_one_coset_have_equal_labels(rt: HostRuntime) -> Result<(), Fail> {
    for pair in 0..81u8 {
        let mut room = Narrow::new(rt.alloc(), 1)?;
        let mut label = Scratch::new(rt.alloc(), 1)?;
        let mut other = Scratch::new(rt.alloc(), 1)?;
        let v = word(1, &[pair % 3 + 1, pair / 3 % 3 + 1])?;
        let w = word(1, &[pair / 9 % 3 + 1, pair / 27 + 1])?;
        label_of_word(v, &mut label);
        label_of_word(w, &mut other);
        assert_eq!(rt;
            of_one_coset(v, w, &mut room),
            same_label(&label, &other),
            "{pair}"
        );
    }
    Ok(())
}

/// The mark of a word on one qubit.
fn mark(codes: &[u8], alloc: Global) -> Result<Mark, Fail> {
    let mut label = Scratch::new(alloc, 1)?;
    label_of_word(word(1, codes)?, &mut label);
    Ok(mark_of(&label))
}

/// Words of one coset have equal marks.
#[test]
fn words_of_one_coset_have_one_mark(rt: HostRuntime) -> Result<(), Fail> {
    // Two words on one qubit, the least exponents of their channels, and whether they lie in one coset.
    let rows: [(&[u8], &[u8], u32, u32, bool); 5] = [
        (&[], &[2, 2], 0, 0, true),
        (&[3], &[3, 3, 3], 1, 1, true),
        (&[3], &[1], 1, 1, false),
        (&[1, 2, 3], &[1, 2, 3, 3, 3], 3, 3, true),
        (&[1, 2], &[3], 2, 1, false),
    ];
    for (codes, others, exponent, other_exponent, same) in rows {
        let own = mark(codes, rt.alloc())?;
        let other = mark(others, rt.alloc())?;
        assert_eq!(rt; own.exponent, exponent, "{codes:?}");
        assert_eq!(rt; other.exponent, other_exponent, "{others:?}");
        assert_eq!(rt; own == other, same, "{codes:?} and {others:?}");
        assert_eq!(rt; own.tag == other.tag, same, "{codes:?} and {others:?}");
    }
    Ok(())
}

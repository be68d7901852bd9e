// Words and their channels, for tests.
ghost use Rattle.std.specs.Prelude.{◌≡◌, ◌≢◌, ◌<◌, ◌≤◌, length, IfOk};
ghost use Rattle.coset_label.specs.Words.{most_letters};

use crate::blocks::Blocks;
use crate::columns::Columns;
use channel_rep::Narrow;
use coset_label::{Word, narrow_of_word};
use pauli_basis::Pauli;
use std::alloc::{AllocError, Global};

/// The Pauli of a code.
pub fn pauli(n: u8, code: u8) -> Result<Pauli, &'static str>
    ensures { IfOk result (λ p. p.qubits ≡ n) }
{
    Pauli::new(n, code).ok_or("no such Pauli")
}

/// A Pauli other than the identity.
pub fn letter(n: u8, code: u8) -> Result<Pauli, &'static str>
    ensures qubits { IfOk result (λ p. p.qubits ≡ n) }
    ensures other { IfOk result (λ p. p.code ≢ 0) }
{
    match Pauli::new(n, code) {
        Some(p) if p.code() != 0 => Ok(p),
        _ => Err("no such letter"),
    }
}

/// How many letters a word keeps at most.
pub fn room(n: u8) -> u8
    ensures { result ≡ most_letters n }
{
    match n {
        1 => 9,
        2 => 6,
        _ => 4,
    }
}

/// The word of these letters, where 0 stands for none.
pub fn word(n: u8, codes: &[u8]) -> Result<Word, &'static str>
    requires some { 0 < n }
    requires few { n ≤ 3 }
    ensures { IfOk result (λ w. w.qubits ≡ n) }
{
    let mut w = Word::empty(n);
    for code in codes {
        if w.len() >= room(n) {
            return Err("too many letters");
        }
        if *code != 0 {
            w = w.push_back(letter(n, *code)?);
        }
    }
    Ok(w)
}

/// The channel of a word, with the least exponent.
pub fn channel_of(alloc: Global, word: Word) -> Result<Narrow, AllocError>
    ensures { IfOk result (λ m. m.qubits ≡ word.qubits) }
{
    let mut narrow = Narrow::new(alloc, word.qubits())?;
    narrow_of_word(word, &mut narrow);
    narrow.reduce();
    Ok(narrow)
}

/// The columns of the channel of a word on one qubit whose letters are Z.
pub fn columns_of(alloc: Global, word: Word) -> Result<Columns, AllocError>
    requires { word.qubits ≡ 1 }
    ensures { IfOk result (λ columns. columns.size ≡ 4) }
{
    let mut blocks = Blocks::new(alloc, 1)?;
    blocks.take(&[true, false, false, true]);
    let narrow = channel_of(alloc, word)?;
    let mut columns = Columns::new(alloc, 1)?;
    columns.take(&narrow, &blocks);
    Ok(columns)
}

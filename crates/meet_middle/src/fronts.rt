// The fronts of a total.
ghost use Rattle.std.specs.Prelude.{◌≡◌, ◌≢◌, ◌-◌, ◌^◌, ◌<◌, ◌≤◌, ◌++◌, IfSome};
ghost use Rattle.channel_rep.specs.Words.{IsWord};
ghost use Rattle.level_store.specs.InOrder.{IsLevelOf};
ghost use Rattle.level_store.specs.Stored.{letters_in};
ghost use Rattle.meet_middle.specs.Fronts.{front_of, fronts_of, number_of, middle_of};
ghost use Rattle.meet_middle.specs.Halves.{middle_letters};

use coset_label::Word;
use level_store::Level;
use pauli_basis::Pauli;

/// The number of letters on n qubits.
fn letter_count(n: u8) -> u64
    requires some { 0 < n }
    requires few { n ≤ 3 }
    ensures value { result ≡ 4 ^ n - 1 }
    ensures small { (0 < result) × (result ≤ 63) }
{
    match n {
        1 => 3,
        2 => 15,
        _ => 63,
    }
}

/// The front of a position: the number of its word in the level, and at an odd total the letter behind the word.
pub fn front(n: u8, odd: bool, position: u64) -> (u64, Option<Pauli>)
    requires some { 0 < n }
    requires few { n ≤ 3 }
    ensures number { result.0 ≡ number_of n odd position }
    ensures middle { IfSome result.1 (λ p. (p.qubits ≡ n) × (p.code < 4 ^ n) × (p.code ≢ 0)) }
    ensures letters { middle_letters result.1 ≡ middle_of n odd position }
{
    if odd {
        let letters = letter_count(n);
        let Some(middle) = Pauli::new(n, (position % letters) as u8 + 1) else {
            unreachable!()
        };
        (position / letters, Some(middle))
    } else {
        (position, None)
    }
}

/// A word without its last letter, and that letter; the empty word has none.
fn split_last(word: Word) -> (Word, Option<Pauli>)
    ensures qubits { result.0.qubits ≡ word.qubits }
    ensures last { IfSome result.1 (λ p. (p.qubits ≡ word.qubits) × (p.code < 4 ^ word.qubits) × (p.code ≢ 0)) }
    ensures letters { result.0.letters ++ middle_letters result.1 ≡ word.letters }
{
    if word.len() == 0 {
        return (word, None);
    }
    let end = word.len() - 1;
    let n = word.qubits();
    let before = Word::from_letters(n, end, word.letters() >> (2 * n));
    (before, Some(word.letter(end)))
}

/// The front of a position as a prefix, which neighbours mostly share, and its last letter: the letter behind the word, or the
/// word's own last one.
pub fn split_front(
    level: &Level,
    n: u8,
    half: u8,
    odd: bool,
    position: u64,
) -> (Word, Option<Pauli>)
    requires some { 0 < n }
    requires few { n ≤ 3 }
    requires number { IsLevelOf n half level.now }
    requires below { position < fronts_of n (letters_in level.now) odd }
    ensures qubits { result.0.qubits ≡ n }
    ensures word { IsWord n result.0.letters }
    ensures last { IfSome result.1 (λ p. (p.qubits ≡ n) × (p.code < 4 ^ n) × (p.code ≢ 0)) }
    ensures front { result.0.letters ++ middle_letters result.1 ≡ front_of n (letters_in level.now) odd position }
{
    let (number, middle) = front(n, odd, position);
    let word = level.word(number);
    match middle {
        Some(letter) => (word, Some(letter)),
        None => split_last(word),
    }
}

/// The number of fronts of a total.
pub fn front_count(level: &Level, n: u8, half: u8, odd: bool) -> u64
    requires some { 0 < n }
    requires few { n ≤ 3 }
    requires number { IsLevelOf n half level.now }
    ensures value { result ≡ fronts_of n (letters_in level.now) odd }
    ensures few { result < 2 ^ 30 }
{
    let count = level.count();
    if odd { count * letter_count(n) } else { count }
}

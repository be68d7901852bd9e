//! Circuits that a seed makes, and what `bench` answers to one.
ghost use Rattle.std.specs.Prelude.{◌≡◌, ◌≢◌, ℕ, ◌+◌, ◌-◌, ◌*◌, ◌^◌, ◌<◌, ◌≤◌, ◌++◌, All, IfOk, OnOk, length, string_bytes};
ghost use Rattle.tc_circuit.specs.Model.{t_count_of};
ghost use Rattle.circuit_writer.specs.Shown.{letter_texts, word_text};
ghost use Rattle.tcount_top.specs.Bench.{code_by, drawn, made_word, made_gates, bench_head, found_end, above_end, BenchOut};
ghost use Rattle.tcount_top.specs.Out.{most_bound};
ghost use Rattle.tcount_top.specs.Printed.{codes_of};

use crate::Status;
use crate::print::{blocks_of, letters_of, push_all};
use crate::search::search;
use channel_rep::laws::tables_compare;
use coset_label::laws::tables_are_classes;
use meet_laws::laws::least_counts_are_lengths;
use meet_middle::Answer;
use pauli_basis::Pauli;
use std::alloc::{AllocError, Global};
use std::fmt::Write;
use std::thread::Threads;
use steal_sweep::Turnstile;
use tc_circuit::Circuit;

/// Draws numbers that seem random, each from the state that the one before left: a linear congruential generator with the
/// constants of the C standard's example of rand.
#[derive(Drop)]
pub struct Generator {
    state: u64,
    ghost small: { state < 2 ^ 31 },
}

impl Generator {
    ghost use Rattle.tcount_top.specs.Bench.{next_state};

    /// The generator of a seed, which has drawn nothing.
    pub fn new(seed: u32) -> Generator
        requires { seed < 2 ^ 31 }
        ensures { result.state ≡ seed }
    {
        Generator { state: seed as u64 }
    }

    /// The next number, below 32,768.
    pub fn draw(&mut self) -> u64
        ensures state { self.new.state ≡ next_state self.old.state }
        ensures number { result ≡ drawn self.new.state }
    {
        self.state = (self.state * 1_103_515_245 + 12_345) % (1 << 31);
        self.state >> 16
    }
}

/// The number of letters on n qubits.
fn letter_count(n: u8) -> u64
    requires some { 1 ≤ n }
    requires few { n ≤ 3 }
    ensures value { result ≡ 4 ^ n - 1 }
    ensures small { (0 < result) × (result ≤ 63) }
{
    match n {
        1 => 3,
        2 => 15,
        _ => 63,
    }
}

/// The letter that a number draws on n qubits, which is not the identity.
fn letter_by(n: u8, number: u64) -> Pauli
    requires some { 1 ≤ n }
    requires few { n ≤ 3 }
    ensures qubits { result.qubits ≡ n }
    ensures code { result.code ≡ code_by n number }
{
    let Some(letter) = Pauli::new(n, 1 + (number % letter_count(n)) as u8) else {
        unreachable!()
    };
    letter
}

/// The letters of the word that a seed makes.
fn made_letters(alloc: Global, n: u8, t: u8, seed: u32) -> Result<Vec<Pauli>, AllocError>
    requires some { 1 ≤ n }
    requires few { n ≤ 3 }
    requires seed { seed < 2 ^ 31 }
    ensures qubits { IfOk result (λ v. All (λ p. p.qubits ≡ n) v.items) }
    ensures other { IfOk result (λ v. All (λ p. p.code ≢ 0) v.items) }
    ensures codes { IfOk result (λ v. codes_of v.items ≡ made_word n t seed) }
    ensures long { IfOk result (λ v. length v.items ≡ t) }
{
    let mut letters = Vec::with_capacity(alloc, t as usize)?;
    let mut generator = Generator::new(seed);
    for _ in 0..t {
        letters.push(letter_by(n, generator.draw()))?;
    }
    Ok(letters)
}

/// The circuit that a seed makes: the blocks of `t` letters on `n` qubits that it draws, the last letter's first. It has a T
/// gate for each letter.
///
/// # Errors
/// Want of memory.
pub fn bench_circuit(alloc: Global, n: u8, t: u8, seed: u32) -> Result<Circuit, AllocError>
    requires some { 1 ≤ n }
    requires few { n ≤ 3 }
    requires letters { t ≤ 44 }
    requires seed { seed < 2 ^ 31 }
    ensures qubits { IfOk result (λ c. c.qubits ≡ n) }
    ensures gates { IfOk result (λ c. c.gates ≡ made_gates n t seed) }
    ensures t_gates { IfOk result (λ c. t_count_of c.gates ≡ t) }
{
    let letters = made_letters(alloc, n, t, seed)?;
    let blocks = blocks_of(alloc, n, &letters)?;
    let mut circuit = Circuit::new(alloc, n);
    push_all(&mut circuit, &blocks)?;
    Ok(circuit)
}

/// The beginning of the line.
#[tactic(auto, unfolding(crate::specs::Bench::bench_head))]
fn head(alloc: Global, n: u8, t: u8, seed: u32, gates: usize) -> Result<String, AllocError>
    ensures { IfOk result (λ line. string_bytes line ≡ bench_head n t seed gates) }
{
    format!(in alloc; "bench {n} {t} {seed} gates {gates}")
}

/// Appends a space and its text for each letter.
fn push_letters(line: &mut String, letters: &[Pauli]) -> Result<(), AllocError>
    ensures { OnOk result (string_bytes line.new
        ≡ string_bytes line.old ++ word_text (letter_texts letters.now)) }
{
    for letter in letters {
        write!(line, " {letter}")?;
    }
    Ok(())
}

/// Appends the end of the line of a least word.
#[tactic(auto, unfolding(crate::specs::Bench::found_end))]
fn push_found(line: &mut String, letters: &[Pauli]) -> Result<(), AllocError>
    ensures { OnOk result (string_bytes line.new
        ≡ string_bytes line.old ++ found_end (length letters.now) (letter_texts letters.now)) }
{
    write!(line, " t-count {} word", letters.len())?;
    push_letters(line, letters)?;
    line.push_str("\n")
}

/// Appends the end of the line of a least T-count above the bound.
#[tactic(auto, unfolding(crate::specs::Bench::above_end))]
fn push_above(line: &mut String, bound: u8) -> Result<(), AllocError>
    ensures { OnOk result (string_bytes line.new ≡ string_bytes line.old ++ above_end bound) }
{
    writeln!(line, " above {bound}")?;
    Ok(())
}

/// The status and the bytes of the outcome for the circuit of `t` letters on `n` qubits that a seed makes, and a bound: its
/// least word is looked for by so many workers.
pub fn bench<H: Threads + Sync, G: Turnstile + Sync>(
    th: &H,
    alloc: Global,
    n: u8,
    t: u8,
    seed: u32,
    bound: u8,
    workers: u32,
    gate: &G,
) -> Result<(Status, Vec<u8>), AllocError>
    requires some { 1 ≤ n }
    requires few { n ≤ 3 }
    requires letters { t ≤ 44 }
    requires seed { seed < 2 ^ 31 }
    requires bound { bound ≤ most_bound n }
    requires any { 1 ≤ workers }
    requires crew { workers ≤ 8 }
    ensures { IfOk result (λ r. BenchOut n t seed bound r.0 r.1.items) }
{
    // Called for their contracts: the channel of the circuit is its word's, and the least word has as many letters as the
    // least T-count.
    tables_compare();
    tables_are_classes();
    least_counts_are_lengths();
    let circuit = bench_circuit(alloc, n, t, seed)?;
    let gates = circuit.gates();
    let mut line = head(alloc, n, t, seed, gates.len())?;
    let (_, answer) = search(th, alloc, &circuit, bound, workers, gate)?;
    match answer {
        Answer::Least(word) => {
            let letters = letters_of(alloc, &word)?;
            push_found(&mut line, &letters)?;
            Ok((Status::Found, line.into_bytes()))
        }
        Answer::Above => {
            push_above(&mut line, bound)?;
            Ok((Status::Above, line.into_bytes()))
        }
    }
}

//! What `synth` answers to a text.
ghost use Rattle.std.specs.Prelude.{◌≤◌, ℕ, List, IfOk, length};
ghost use Rattle.tc_circuit.specs.Model.{t_count_of};
ghost use Rattle.qasm_reader.specs.Limits.{most_t_gates};
ghost use Rattle.qasm_reader.specs.Read.{Reads};
ghost use Rattle.tcount_top.specs.Out.{SynthOut, longest, most_bound};

use crate::Status;
use crate::command::most_letters;
use crate::lines::{above, past_limit, refusal};
use crate::print::printed;
use crate::search::search;
use meet_laws::laws::least_counts_are_lengths;
use meet_middle::Answer;
use qasm_reader::{ReadFault, read, read_circuits_are_small};
use std::alloc::{AllocError, Global};
use std::thread::Threads;
use steal_sweep::Turnstile;
use tc_circuit::Circuit;

/// The outcome for a circuit and a bound within its limit.
fn answer_within<H: Threads + Sync, G: Turnstile + Sync>(
    th: &H,
    alloc: Global,
    circuit: &Circuit,
    bound: u8,
    workers: u32,
    gate: &G,
) -> Result<(Status, Vec<u8>), AllocError>
    requires few_t { t_count_of circuit.now.gates ≤ most_t_gates }
    requires bound { bound ≤ most_bound circuit.now.qubits }
    requires some { 1 ≤ workers }
    requires few { workers ≤ 8 }
    ensures { IfOk result (λ r. (text : List ℕ) → length text ≤ longest → Reads text circuit.now
        → SynthOut bound text r.0 r.1.items) }
{
    // Called for their contracts: the least word has as many letters as the least T-count, and a text that reads stays within
    // the limits.
    least_counts_are_lengths();
    read_circuits_are_small();
    let (channel, answer) = search(th, alloc, circuit, bound, workers, gate)?;
    match answer {
        Answer::Least(word) => {
            let bytes = printed(alloc, &channel, &word)?;
            Ok((Status::Found, bytes))
        }
        Answer::Above => {
            let line = above(alloc, bound)?;
            Ok((Status::Above, line))
        }
    }
}

/// The outcome for a circuit and a bound.
fn answer_for<H: Threads + Sync, G: Turnstile + Sync>(
    th: &H,
    alloc: Global,
    circuit: &Circuit,
    bound: u64,
    workers: u32,
    gate: &G,
) -> Result<(Status, Vec<u8>), AllocError>
    requires few_t { t_count_of circuit.now.gates ≤ most_t_gates }
    requires some { 1 ≤ workers }
    requires few { workers ≤ 8 }
    ensures { IfOk result (λ r. (text : List ℕ) → length text ≤ longest → Reads text circuit.now
        → SynthOut bound text r.0 r.1.items) }
{
    let limit = 2 * most_letters(circuit.qubits());
    if bound > limit as u64 {
        let line = past_limit(alloc, bound, limit)?;
        return Ok((Status::Refused, line));
    }
    answer_within(th, alloc, circuit, bound as u8, workers, gate)
}

/// The status and the bytes of the outcome for a text of at most 65,536 bytes and a bound.
pub fn synth<H: Threads + Sync, G: Turnstile + Sync>(
    th: &H,
    alloc: Global,
    text: &[u8],
    bound: u64,
    workers: u32,
    gate: &G,
) -> Result<(Status, Vec<u8>), AllocError>
    requires short { length text.now ≤ longest }
    requires some { 1 ≤ workers }
    requires few { workers ≤ 8 }
    ensures { IfOk result (λ r. SynthOut bound text.now r.0 r.1.items) }
{
    // Called for its contract: what a text reads as has few T gates.
    read_circuits_are_small();
    match read(alloc, text) {
        Ok(circuit) => answer_for(th, alloc, &circuit, bound, workers, gate),
        Err(ReadFault::Refused { number, place }) => {
            let line = refusal(alloc, number, place)?;
            Ok((Status::Refused, line))
        }
        Err(ReadFault::Memory) => Err(AllocError),
    }
}

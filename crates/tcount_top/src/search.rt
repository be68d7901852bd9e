//! The least word of a circuit.
ghost use Rattle.std.specs.Prelude.{◌≡◌, ◌≤◌, IfOk};
ghost use Rattle.tc_circuit.specs.Model.{t_count_of};
ghost use Rattle.channel_rep.specs.Cells.{scaled, most_exponent, IsReduced};
ghost use Rattle.channel_rep.specs.Tables.{IsBuiltOf, IsCircuitChannel};
ghost use Rattle.tc_bridge.specs.Steps.{steps_of};
ghost use Rattle.meet_middle.specs.Answers.{IsAnswer};
ghost use Rattle.tcount_top.specs.Out.{most_bound};

use channel_rep::Channel;
use level_store::Levels;
use meet_middle::{Answer, least_word};
use std::alloc::{AllocError, Global};
use std::thread::Threads;
use steal_sweep::Turnstile;
use tc_bridge::channel_of;
use tc_circuit::Circuit;

/// A circuit's channel, and the least word of its coset where that has at most `bound` letters, which so many workers look
/// for.
pub fn search<H: Threads + Sync, G: Turnstile + Sync>(
    th: &H,
    alloc: Global,
    circuit: &Circuit,
    bound: u8,
    workers: u32,
    gate: &G,
) -> Result<(Channel, Answer), AllocError>
    requires few_t { t_count_of circuit.now.gates ≤ most_exponent }
    requires bound { bound ≤ most_bound circuit.now.qubits }
    requires some { 1 ≤ workers }
    requires few { workers ≤ 8 }
    ensures qubits { IfOk result (λ r. r.0.qubits ≡ circuit.now.qubits) }
    ensures built { IfOk result (λ r. IsBuiltOf circuit.now.qubits (steps_of circuit.now.gates) (scaled r.0)) }
    ensures circuit { IfOk result (λ r. IsCircuitChannel r.0.qubits (scaled r.0)) }
    ensures reduced { IfOk result (λ r. IsReduced r.0) }
    ensures answer { IfOk result (λ r. IsAnswer r.0.qubits (scaled r.0) bound r.1) }
{
    let channel = channel_of(alloc, circuit)?;
    let mut levels = Levels::start(alloc, circuit.qubits())?;
    let answer = least_word(th, alloc, &mut levels, &channel, bound, workers, gate)?;
    Ok((channel, answer))
}

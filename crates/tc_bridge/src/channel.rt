// The channel of a circuit.
ghost use Rattle.std.specs.Prelude.{◌≡◌, ◌≤◌, IfOk};
ghost use Rattle.tc_circuit.specs.Model.{matrix_of, t_count_of};
ghost use Rattle.channel_rep.specs.Cells.{scaled, most_exponent, IsReduced};
ghost use Rattle.channel_rep.specs.Tables.{IsBuiltOf, IsCircuitChannel};
ghost use Rattle.tc_bridge.specs.Channel.{IsChannel};
ghost use Rattle.tc_bridge.specs.Steps.{steps_of};
ghost use Rattle.tc_bridge.specs.Laws.{IsWordThenClifford};

use crate::progress::Progress;
use channel_rep::Channel;
use std::alloc::{AllocError, Global};
use tc_circuit::Circuit;

/// The channel of a circuit's matrix, with the least exponent. It takes memory for that channel and for a
/// second one. Its time is a pass over all cells for each T gate, and a few nanoseconds for each Clifford gate.
pub fn channel_of(alloc: Global, c: &Circuit) -> Result<Channel, AllocError>
    requires { t_count_of c.now.gates ≤ most_exponent }
    ensures qubits { IfOk result (λ m. m.qubits ≡ c.now.qubits) }
    ensures channel { IfOk result (λ m. IsChannel c.now.qubits (matrix_of c.now.qubits c.now.gates).table (scaled m)) }
    ensures built { IfOk result (λ m. IsBuiltOf c.now.qubits (steps_of c.now.gates) (scaled m)) }
    ensures of_a_circuit { IfOk result (λ m. IsCircuitChannel c.now.qubits (scaled m)) }
    ensures reduced { IfOk result IsReduced }
    ensures low { IfOk result (λ m. m.exponent ≤ t_count_of c.now.gates) }

    // The circuit is a word of as many letters as it has T gates behind a circuit without any.
    ensures word { IsWordThenClifford c.now.qubits c.now.gates }
{
    let gates = c.gates();
    let mut progress = Progress::start(alloc, c.qubits())?;
    for gate in gates {
        progress.take(*gate);
    }
    let mut channel = progress.finish();
    channel.reduce();
    Ok(channel)
}

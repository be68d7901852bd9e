//! The line of a gate.
ghost use Rattle.std.specs.Prelude.{◌≡◌, ◌<◌, ◌++◌, OnOk, codes, string_bytes};
ghost use Rattle.tc_circuit.specs.Gate.{Fits};
ghost use Rattle.circuit_writer.specs.Shown.{qubit_text, gate_line};

use std::alloc::AllocError;
use tc_circuit::Gate;

/// The most bytes that a gate's line has: `cx q[0],q[1];` and a line feed.
pub const LONGEST_LINE: usize = 14;

/// A qubit of the register q.
fn qubit_name(qubit: u8) -> &'static str
    requires { qubit < 3 }
    ensures { result.now ≡ qubit_text qubit }
{
    match qubit {
        0 => "q[0]",
        1 => "q[1]",
        _ => "q[2]",
    }
}

/// Appends the line of a gate on one qubit, of which the name comes with a space behind it.
fn push_single(out: &mut String, name: &str, qubit: u8) -> Result<(), AllocError>
    requires { qubit < 3 }
    ensures { OnOk result (string_bytes out.new
        ≡ string_bytes out.old ++ (name.now ++ qubit_text qubit ++ codes ";\n")) }
{
    out.push_str(name)?;
    out.push_str(qubit_name(qubit))?;
    out.push_str(";\n")
}

/// Appends the line of a controlled not.
fn push_cx(out: &mut String, control: u8, target: u8) -> Result<(), AllocError>
    requires control { control < 3 }
    requires target { target < 3 }
    ensures { OnOk result (string_bytes out.new
        ≡ string_bytes out.old
        ++ (codes "cx " ++ qubit_text control ++ codes "," ++ qubit_text target ++ codes ";\n")) }
{
    out.push_str("cx ")?;
    out.push_str(qubit_name(control))?;
    out.push_str(",")?;
    out.push_str(qubit_name(target))?;
    out.push_str(";\n")
}

/// Appends the line of a gate.
#[tactic(auto, unfolding(crate::specs::Shown::gate_line))]
pub fn push_gate(out: &mut String, gate: Gate) -> Result<(), AllocError>
    requires { Fits 3 gate }
    ensures { OnOk result (string_bytes out.new ≡ string_bytes out.old ++ gate_line gate) }
{
    match gate {
        Gate::H(q) => push_single(out, "h ", q),
        Gate::S(q) => push_single(out, "s ", q),
        Gate::Sdg(q) => push_single(out, "sdg ", q),
        Gate::T(q) => push_single(out, "t ", q),
        Gate::Tdg(q) => push_single(out, "tdg ", q),
        Gate::Cx(control, target) => push_cx(out, control, target),
    }
}

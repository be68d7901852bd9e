ghost use Rattle.std.specs.Prelude.{◌≡◌, ◌<◌, ◌≤◌, All, IfOk};

use crate::text;
use pauli_basis::Pauli;
use std::alloc::Global;
use std::test::Fail;
use tc_circuit::{Circuit, Gate};

/// The circuit of these gates, which have to fit.
fn circuit(alloc: Global, n: u8, gates: &[Gate]) -> Result<Circuit, Fail>
    requires some { 0 < n }
    requires few { n ≤ 3 }
    ensures { IfOk result (λ c. c.qubits ≡ n) }
{
    let mut circuit = Circuit::new(alloc, n);
    for gate in gates {
        if !gate.fits(n) {
            Err("no such gate")?;
        } else {
            circuit.push(*gate)?;
        }
    }
    Ok(circuit)
}

/// The word of the letters of these codes.
fn word(alloc: Global, n: u8, codes: &[u8]) -> Result<Vec<Pauli>, Fail>
    ensures { IfOk result (λ word. All (λ letter. letter.qubits ≡ n) word.items) }
{
    let mut word = Vec::new(alloc);
    for code in codes {
        word.push(Pauli::new(n, *code).ok_or("no such Pauli")?)?;
    }
    Ok(word)
}

/// Circuits with their prints, written by hand.
#[test]
fn prints(rt: HostRuntime) -> Result<(), Fail> {
    let every_gate = [
        Gate::H(0),
        Gate::S(1),
        Gate::Sdg(2),
        Gate::T(0),
        Gate::Tdg(1),
        Gate::Cx(2, 0),
        Gate::Cx(0, 1),
    ];
    let every_line = "// t-count 2
// word XYZ IIX
OPENQASM 2.0;
include \"qelib1.inc\";
qreg q[3];
h q[0];
s q[1];
sdg q[2];
t q[0];
tdg q[1];
cx q[2],q[0];
cx q[0],q[1];
";
    let three_turns = [
        Gate::H(1),
        Gate::S(1),
        Gate::H(1),
        Gate::S(1),
        Gate::S(0),
        Gate::S(0),
        Gate::Cx(0, 1),
        Gate::H(1),
        Gate::S(0),
        Gate::Cx(0, 1),
        Gate::T(1),
        Gate::Cx(0, 1),
        Gate::T(1),
        Gate::T(0),
    ];
    let three_lines = "// t-count 3
// word IZ ZI ZZ
OPENQASM 2.0;
include \"qelib1.inc\";
qreg q[2];
h q[1];
s q[1];
h q[1];
s q[1];
s q[0];
s q[0];
cx q[0],q[1];
h q[1];
s q[0];
cx q[0],q[1];
t q[1];
cx q[0],q[1];
t q[1];
t q[0];
";
    let one_turn = [
        Gate::H(0),
        Gate::Cx(0, 1),
        Gate::H(0),
        Gate::H(0),
        Gate::T(1),
    ];
    let one_line = "// t-count 1
// word ZI
OPENQASM 2.0;
include \"qelib1.inc\";
qreg q[2];
h q[0];
cx q[0],q[1];
h q[0];
h q[0];
t q[1];
";
    let nothing = "// t-count 0
// word
OPENQASM 2.0;
include \"qelib1.inc\";
qreg q[1];
";
    let prints = [
        (3, every_gate.as_slice(), [27, 1].as_slice(), every_line),
        (
            2,
            three_turns.as_slice(),
            [3, 12, 15].as_slice(),
            three_lines,
        ),
        (2, one_turn.as_slice(), [12].as_slice(), one_line),
        (1, [].as_slice(), [].as_slice(), nothing),
    ];
    for (n, gates, codes, lines) in prints {
        assert!(rt; 0 < n && n <= 3);
        let circuit = circuit(rt.alloc(), n, gates)?;
        let word = word(rt.alloc(), n, codes)?;
        let bytes = text(rt.alloc(), &circuit, &word)?;
        assert!(rt; bytes.as_slice() == lines.as_bytes(), "at {n} qubits");
    }
    Ok(())
}

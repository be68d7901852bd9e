// The circuit of a rotation by a Pauli operator.
ghost use Rattle.std.specs.Prelude.{◌≡◌, ◌≢◌, ℕ, ◌+◌, ◌-◌, ◌^◌, ◌<◌, ◌≤◌, [], ◌∷◌, ◌++◌, length, vec_len, vec_capacity};
ghost use Rattle.pauli_basis.specs.Pauli.{IsPauliCode};
ghost use Rattle.tc_circuit.specs.Model.{matrix_of, IsCircuit, t_count_of};
ghost use Rattle.tc_bridge.specs.Rotation.{AreEqual, rotation};
ghost use Rattle.tc_bridge.specs.Laws.{WordsHaveCircuits};
ghost use Rattle.tc_bridge.specs.Block.{as_gates, undone, to_z, gather, rising, highest as highest_of, block, Appends};

use pauli_basis::Pauli;
use tc_circuit::Gate;

/// The highest qubit that the Pauli touches, whose letter is not I.
fn highest(p: &Pauli) -> u8
    ensures value { result ≡ highest_of p.now.qubits p.now.code }
    ensures valid { IsPauliCode p.now.qubits p.now.code }
{
    let mut top = 0;
    for qubit in 0..p.qubits() {
        if p.letter(qubit) != 0 {
            top = qubit;
        }
    }
    top
}

/// Appends the gates that take the letter on a qubit to Z: h for X, and sdg and then h for Y.
fn push_to_z(p: &Pauli, q: u8, out: &mut Vec<Gate>)
    requires qubit { q < p.now.qubits }
    requires room { vec_len out.old + 2 ≤ vec_capacity out.old }
    ensures { Appends out.old out.new (as_gates (to_z p.now.code q)) }
{
    match p.letter(q) {
        1 => out.push_reserved(Gate::H(q)),
        2 => {
            out.push_reserved(Gate::Sdg(q));
            out.push_reserved(Gate::H(q));
        }
        _ => {}
    }
}

/// Appends the gates that take Z back to the letter: h for X, and h and then s for Y.
fn push_from_z(p: &Pauli, q: u8, out: &mut Vec<Gate>)
    requires qubit { q < p.now.qubits }
    requires room { vec_len out.old + 2 ≤ vec_capacity out.old }
    ensures { Appends out.old out.new (as_gates (undone (to_z p.now.code q))) }
{
    match p.letter(q) {
        1 => out.push_reserved(Gate::H(q)),
        2 => {
            out.push_reserved(Gate::H(q));
            out.push_reserved(Gate::S(q));
        }
        _ => {}
    }
}

/// Appends a cx onto `z` from a qubit that the Pauli touches, where it isn't `z`.
fn push_gather(p: &Pauli, z: u8, q: u8, out: &mut Vec<Gate>)
    requires qubit { q < p.now.qubits }
    requires room { vec_len out.old + 1 ≤ vec_capacity out.old }
    ensures { Appends out.old out.new (as_gates (gather z p.now.code q)) }
{
    if p.letter(q) != 0 && q != z {
        out.push_reserved(Gate::Cx(q, z));
    }
}

/// Takes each letter to Z, in rising order of the qubits.
fn push_all_to_z(p: &Pauli, out: &mut Vec<Gate>)
    requires { vec_len out.old + 6 ≤ vec_capacity out.old }
    ensures { Appends out.old out.new (as_gates (rising (to_z p.now.code) p.now.qubits 0)) }
{
    for q in 0..p.qubits() {
        push_to_z(p, q, out);
    }
}

/// Takes each Z back to its letter, in falling order.
fn push_all_from_z(p: &Pauli, out: &mut Vec<Gate>)
    requires { vec_len out.old + 6 ≤ vec_capacity out.old }
    ensures { Appends out.old out.new (as_gates (undone (rising (to_z p.now.code) p.now.qubits 0))) }
{
    for q in (0..p.qubits()).rev() {
        push_from_z(p, q, out);
    }
}

/// Gathers the touched qubits onto `z`, in rising order.
fn push_all_gathers(p: &Pauli, z: u8, out: &mut Vec<Gate>)
    requires { vec_len out.old + 3 ≤ vec_capacity out.old }
    ensures { Appends out.old out.new (as_gates (rising (gather z p.now.code) p.now.qubits 0)) }
{
    for control in 0..p.qubits() {
        push_gather(p, z, control, out);
    }
}

/// Undoes that, in falling order.
fn push_gathers_back(p: &Pauli, z: u8, out: &mut Vec<Gate>)
    requires { vec_len out.old + 3 ≤ vec_capacity out.old }
    ensures { Appends out.old out.new (as_gates (undone (rising (gather z p.now.code) p.now.qubits 0))) }
{
    for control in (0..p.qubits()).rev() {
        push_gather(p, z, control, out);
    }
}

/// Appends the block of a Pauli operator other than the identity: a circuit whose matrix is the rotation R(p), with one T
/// gate and at most 17 gates. The vector needs room for 17 more, and its memory stays where it is.
pub fn rotation_gates(p: Pauli, out: &mut Vec<Gate>)
    requires other { p.code ≢ 0 }
    requires room { vec_len out.old + 17 ≤ vec_capacity out.old }
    ensures appended { out.new.items ≡ out.old.items ++ block p.qubits p.code }
    ensures matrix { AreEqual (2 ^ p.qubits) (matrix_of p.qubits (block p.qubits p.code)) (rotation p.qubits p.code) }
    ensures one_t { t_count_of (block p.qubits p.code) ≡ 1 }
    ensures circuit { IsCircuit p.qubits (block p.qubits p.code) }
    ensures short { length (block p.qubits p.code) ≤ 17 }
    ensures room { vec_capacity out.new ≡ vec_capacity out.old }

    // So each word has a circuit with a T gate for each of its letters: the blocks of the letters, the last one's first.
    ensures words { WordsHaveCircuits }
{
    let z = highest(&p);
    push_all_to_z(&p, out);
    push_all_gathers(&p, z, out);
    out.push_reserved(Gate::T(z));
    push_gathers_back(&p, z, out);
    push_all_from_z(&p, out);
}

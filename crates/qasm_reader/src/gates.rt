// The gates that a text may name.
ghost use Rattle.std.specs.Prelude.{◌≡◌, drop, option_map};
ghost use Rattle.qasm_reader.specs.Known.{look_up, table, known, turn, turned};
ghost use Rattle.qasm_reader.specs.View.{known_gate};

use qasm_angle::AngleValue;
use tc_circuit::Gate;

/// How many arguments a gate takes, and the gates that it stands for, whose qubits are the numbers of its arguments.
#[derive(Clone, Copy)]
pub struct Known<'a> {
    pub arity: usize,
    pub gates: &'a [Gate],
}

/// How many arguments a gate takes, how many gates it stands for, and how many of them are T gates.
#[derive(Clone, Copy)]
pub struct Size {
    pub arity: usize,
    pub length: usize,
    pub t_count: usize,
}

const X: [Gate; 4] = [Gate::H(0), Gate::S(0), Gate::S(0), Gate::H(0)];

const Z: [Gate; 2] = [Gate::S(0), Gate::S(0)];

// z, and then x.
const Y: [Gate; 6] = [
    Gate::S(0),
    Gate::S(0),
    Gate::H(0),
    Gate::S(0),
    Gate::S(0),
    Gate::H(0),
];

const CZ: [Gate; 3] = [Gate::H(1), Gate::Cx(0, 1), Gate::H(1)];

const SWAP: [Gate; 3] = [Gate::Cx(0, 1), Gate::Cx(1, 0), Gate::Cx(0, 1)];

const CCX: [Gate; 15] = [
    Gate::H(2),
    Gate::Cx(1, 2),
    Gate::Tdg(2),
    Gate::Cx(0, 2),
    Gate::T(2),
    Gate::Cx(1, 2),
    Gate::Tdg(2),
    Gate::Cx(0, 2),
    Gate::T(1),
    Gate::T(2),
    Gate::H(2),
    Gate::Cx(0, 1),
    Gate::T(0),
    Gate::Tdg(1),
    Gate::Cx(0, 1),
];

const CH: [Gate; 7] = [
    Gate::S(1),
    Gate::H(1),
    Gate::T(1),
    Gate::Cx(0, 1),
    Gate::Tdg(1),
    Gate::H(1),
    Gate::Sdg(1),
];

const CY: [Gate; 3] = [Gate::Sdg(1), Gate::Cx(0, 1), Gate::S(1)];

// ccx between two cx from the third qubit to the second.
const CSWAP: [Gate; 17] = [
    Gate::Cx(2, 1),
    Gate::H(2),
    Gate::Cx(1, 2),
    Gate::Tdg(2),
    Gate::Cx(0, 2),
    Gate::T(2),
    Gate::Cx(1, 2),
    Gate::Tdg(2),
    Gate::Cx(0, 2),
    Gate::T(1),
    Gate::T(2),
    Gate::H(2),
    Gate::Cx(0, 1),
    Gate::T(0),
    Gate::Tdg(1),
    Gate::Cx(0, 1),
    Gate::Cx(2, 1),
];

/// A gate of so many arguments.
fn on(arity: usize, gates: &[Gate]) -> Known<'_>
    ensures { known_gate result ≡ record { arity = arity; gates = gates.now } }
{
    Known { arity, gates }
}

/// The gate of the name, if it takes more than one argument.
fn wide_by_name(name: &[u8]) -> Option<Known<'static>>
    ensures { option_map known_gate result ≡ look_up (drop 9 table) name.now }
{
    if name == b"cx".as_slice() {
        return Some(on(2, &[Gate::Cx(0, 1)]));
    }
    if name == b"cz".as_slice() {
        return Some(on(2, &CZ));
    }
    if name == b"swap".as_slice() {
        return Some(on(2, &SWAP));
    }
    if name == b"ccx".as_slice() {
        return Some(on(3, &CCX));
    }
    if name == b"ch".as_slice() {
        return Some(on(2, &CH));
    }
    if name == b"cy".as_slice() {
        return Some(on(2, &CY));
    }
    if name == b"cswap".as_slice() {
        return Some(on(3, &CSWAP));
    }
    None
}

/// The gate of the name.
#[tactic(auto, unfolding(crate::specs::Known::known))]
pub fn known_by_name(name: &[u8]) -> Option<Known<'static>>
    ensures { option_map known_gate result ≡ known name.now }
{
    if name == b"h".as_slice() {
        return Some(on(1, &[Gate::H(0)]));
    }
    if name == b"s".as_slice() {
        return Some(on(1, &[Gate::S(0)]));
    }
    if name == b"sdg".as_slice() {
        return Some(on(1, &[Gate::Sdg(0)]));
    }
    if name == b"t".as_slice() {
        return Some(on(1, &[Gate::T(0)]));
    }
    if name == b"tdg".as_slice() {
        return Some(on(1, &[Gate::Tdg(0)]));
    }
    if name == b"id".as_slice() {
        return Some(on(1, &[]));
    }
    if name == b"x".as_slice() {
        return Some(on(1, &X));
    }
    if name == b"z".as_slice() {
        return Some(on(1, &Z));
    }
    if name == b"y".as_slice() {
        return Some(on(1, &Y));
    }
    wide_by_name(name)
}

/// The gates of diag(1, ω^j), where ω is e^(iπ/4), for j from 0 to 7.
fn turn(j: u8) -> &'static [Gate]
    ensures { result.now ≡ turn j }
{
    match j {
        1 => &[Gate::T(0)],
        2 => &[Gate::S(0)],
        3 => &[Gate::S(0), Gate::T(0)],
        4 => &[Gate::S(0), Gate::S(0)],
        5 => &[Gate::S(0), Gate::S(0), Gate::T(0)],
        6 => &[Gate::Sdg(0)],
        7 => &[Gate::Tdg(0)],
        _ => &[],
    }
}

/// The gate of an angle, if it is exact.
pub fn known_by_value(value: AngleValue) -> Option<Known<'static>>
    ensures { option_map known_gate result ≡ turned value }
{
    match value {
        AngleValue::Eighths(j) => Some(on(1, turn(j))),
        _ => None,
    }
}

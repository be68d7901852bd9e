// What the statements so far say.
ghost use Rattle.std.specs.Prelude.{◌≡◌, ◌+◌, ◌≤◌, ◌&&◌, IsTrue, nat_lt, nat_le};
ghost use Rattle.std.specs.List.{list_all};
ghost use Rattle.std.specs.Option.{ForSome, ForNone};
ghost use Rattle.tc_circuit.specs.Model.{t_count_of};
ghost use Rattle.qasm_reader.specs.Limits.{most_qubits, most_t_gates, most_statements};

use crate::forms::Definition;
use crate::gates::Size;
use crate::pieces::Piece;
use std::collections::{BTreeMap, BTreeSet};
use tc_circuit::Circuit;

/// A register of qubits: its first qubit, and how many it has.
#[derive(Clone, Copy)]
pub struct Register<'a> {
    pub name: &'a [u8],
    pub first: u8,
    pub size: u8,
    ghost small: { first + size ≤ most_qubits },
}

/// A definition with the size of its gate, and the pieces that it is made of, on the places of its names. There are none where it has
/// more than three names, since its gate can be applied to no qubits then.
#[derive(Drop)]
pub struct Defined<'a> {
    pub definition: Definition<'a>,
    pub size: Size,
    pub pieces: Vec<Piece>,
}

/// The definitions so far in order, and the places of their names among them.
#[derive(Drop)]
pub struct Definitions<'a> {
    pub list: Vec<Defined<'a>>,
    pub places: BTreeMap<&'a [u8], usize>,
}

/// There is a circuit once a gate was applied; its gates are those of the statements so far, and `t_count` counts their T gates.
#[derive(Drop)]
pub struct Scan<'a> {
    pub registers: Vec<Register<'a>>,
    pub names: BTreeSet<&'a [u8]>,
    pub definitions: Definitions<'a>,
    pub qubits: u8,
    pub circuit: Option<Circuit>,
    pub t_count: usize,
    pub count: usize,
    ghost few: { qubits ≤ most_qubits },
    ghost inside: { IsTrue (list_all (λ r. nat_lt 0 r.size && nat_le (r.first + r.size) qubits) registers.items) },
    ghost on_all: { ForSome circuit (λ c. c.qubits ≡ qubits) },
    ghost t_is: { ForSome circuit (λ c. t_count ≡ t_count_of c.gates) },
    ghost t_none: { ForNone circuit (t_count ≡ 0) },
    ghost t_few: { t_count ≤ most_t_gates },
    ghost short: { count ≤ most_statements },
}

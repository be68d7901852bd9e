// The gates that are known behind definitions.
ghost use Rattle.std.specs.Prelude.{◌≡◌, ◌≤◌, ◌++◌, ◌∷◌, [], ℕ, List, Some, cond, OnOk, IfSome, IfNone, option_map};
ghost use Rattle.std.specs.Str.{bytes_eq};
ghost use Rattle.qasm_reader.specs.Known.{known, turned};
ghost use Rattle.qasm_reader.specs.View.{size_of, gate_of, place_of, IsPlaced, IsKept, known_behind, meanings_behind, AreKept, IsDefinedAs, known_gate};
ghost use Rattle.qasm_reader.specs.Limits.{most_qubits};
ghost use Rattle.qasm_reader.specs.Pieces.{gates_of, gates_of_pieces, AreSound, IsSource};
ghost use Rattle.qasm_reader.specs.Known.{Known as KnownGate};
ghost use Rattle.qasm_reader.specs.declared.scan.Defined.{Defined as DefinedGate};
ghost use Rattle.tc_circuit.specs.Model.{t_count_of};

use crate::circuits::t_count;
use crate::gates::{Known, Size, known_by_name, known_by_value};
use crate::pieces::Source;
use crate::scan::{Defined, Definitions};
use qasm_angle::AngleValue;
use std::alloc::AllocError;
use std::collections::BTreeMap;
use tc_circuit::Gate;

/// The place of the definition of the name, if there is one.
pub fn place_of<'a>(places: &BTreeMap<&'a [u8], usize>, name: &'a [u8]) -> Option<usize>
    ensures { result ≡ place_of places.now name.now }
{
    places.get(&name).copied()
}

/// The definition of the gate of the name, if it was defined.
pub fn definition_of<'b, 'a>(list: &'b Definitions<'a>, name: &'a [u8]) -> Option<&'b Defined<'a>>
    requires { AreKept list.now }
    ensures none { IfNone result (known_behind known list.now.list.items name.now ≡ known name.now) }
    ensures some { IfSome result (λ d. IsDefinedAs (known_behind known list.now.list.items name.now) d.now) }
{
    match place_of(&list.places, name) {
        Some(place) => Some(&list.list[place]),
        None => None,
    }
}

/// Notes the place of a name.
fn add_place<'a>(
    places: &mut BTreeMap<&'a [u8], usize>,
    name: &'a [u8],
    place: usize,
) -> Result<(), AllocError>
    ensures { OnOk result ((other : List ℕ) → place_of places.new other ≡ cond (bytes_eq other name.now) (Some place) (place_of places.old other)) }
{
    places.insert(name, place)?;
    Ok(())
}

/// One definition more.
pub fn push_definition<'a>(
    list: &mut Definitions<'a>,
    defined: Defined<'a>,
) -> Result<(), AllocError>
    requires kept { AreKept list.old }
    requires fits { IsKept (gate_of (known_behind known list.old.list.items) defined) defined }
    requires sound { AreSound (meanings_behind known list.old.list.items) list.old.list.items defined.pieces.items }
    requires gates { (gate_of (known_behind known list.old.list.items) defined).arity ≤ most_qubits → gates_of_pieces (meanings_behind known list.old.list.items) defined.pieces.items ≡ (gate_of (known_behind known list.old.list.items) defined).gates }
    ensures items { OnOk result (list.new.list.items ≡ list.old.list.items ++ defined.entry ∷ []) }
    ensures kept { OnOk result (AreKept list.new) }
{
    add_place(&mut list.places, defined.definition.name, list.list.len())?;
    list.list.push(defined)?;
    Ok(())
}

/// The size of a gate.
fn size_of(gate: Known) -> Size
    ensures { result ≡ size_of (known_gate gate.entry) }
{
    Size {
        arity: gate.arity,
        length: gate.gates.len(),
        t_count: t_count(gate.gates),
    }
}

/// The size of the gate of the name, if it is known from the start.
fn first_size(name: &[u8]) -> Option<Size>
    ensures { result ≡ option_map size_of (known name.now) }
{
    match known_by_name(name) {
        Some(gate) => Some(size_of(gate)),
        None => None,
    }
}

/// The size of the gate of the name, if it is known.
pub fn size_by_name<'a>(list: &Definitions<'a>, name: &'a [u8]) -> Option<Size>
    requires { AreKept list.now }
    ensures { result ≡ option_map size_of (known_behind known list.now.list.items name.now) }
{
    match definition_of(list, name) {
        Some(defined) => Some(defined.size),
        None => first_size(name),
    }
}

/// The gates of the gate of the name, if it is known from the start.
fn first_gates(name: &[u8]) -> &'static [Gate]
    ensures { result.now ≡ gates_of (known name.now) }
{
    match known_by_name(name) {
        Some(gate) => gate.gates,
        None => &[],
    }
}

/// The size of the gate of an angle, if it is exact.
pub fn size_by_value(value: AngleValue) -> Option<Size>
    ensures { result ≡ option_map size_of (turned value) }
{
    match known_by_value(value) {
        Some(gate) => Some(size_of(gate)),
        None => None,
    }
}

/// The gates of the gate of an angle; none where it isn't exact.
pub fn gates_by_value(value: AngleValue) -> &'static [Gate]
    ensures { result.now ≡ gates_of (turned value) }
{
    match known_by_value(value) {
        Some(gate) => gate.gates,
        None => &[],
    }
}

/// A gate that may be known: its size, if it is, and the source of its gates.
#[derive(Clone, Copy)]
pub struct Found {
    pub size: Option<Size>,
    pub source: Source,
}

/// The gate of the name, looked up once.
pub fn found_by_name<'a>(list: &Definitions<'a>, name: &'a [u8]) -> Found
    requires { AreKept list.now }
    ensures size { result.size ≡ option_map size_of (known_behind known list.now.list.items name.now) }
    ensures source { IsSource (meanings_behind known list.now.list.items) list.now.list.items (known_behind known list.now.list.items name.now) result.source }
{
    match place_of(&list.places, name) {
        Some(place) => Found {
            size: Some(list.list[place].size),
            source: Source::Defined(place),
        },
        None => Found {
            size: first_size(name),
            source: Source::Listed(first_gates(name)),
        },
    }
}

/// The gate of an angle.
pub fn found_by_value(value: AngleValue) -> Found
    ensures size { result.size ≡ option_map size_of (turned value) }
    ensures source { (gs : List KnownGate) (ds : List DefinedGate) → IsSource gs ds (turned value) result.source }
{
    Found {
        size: size_by_value(value),
        source: Source::Listed(gates_by_value(value)),
    }
}

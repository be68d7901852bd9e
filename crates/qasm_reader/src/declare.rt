// What a statement adds to the scan.
ghost use Rattle.std.specs.Prelude.{◌≡◌, ◌+◌, ◌<◌, ◌≤◌, true, false, [], ◌∷◌, ◌++◌, length, IfOk, Option, option_map};
ghost use Rattle.std.specs.List.{list_any};
ghost use Rattle.qasm_reader.specs.Forms.{Define};
ghost use Rattle.qasm_reader.specs.Known.{known};
ghost use Rattle.qasm_reader.specs.Rows.{is_bad_entry};
ghost use Rattle.std.specs.Option.{ForSome};
ghost use Rattle.qasm_reader.specs.Limits.{most_qubits, most_statements};
ghost use Rattle.qasm_reader.specs.State.{value, start, with_name, defined, declared, after};
ghost use Rattle.qasm_reader.specs.Run.{IsTakeable, AreAddable};
ghost use Rattle.qasm_reader.specs.View.{form, name_list, entries, counted_size, gates_with, known_behind, meanings_behind, gates_made, IsBehind, HasSource, AreKept, state};
ghost use Rattle.qasm_reader.specs.Pieces.{source_gates, gates_of_pieces, AreSound};

use crate::bodies::pieces_of_definition;
use crate::circuits::{push_gates, t_count_at};
use crate::definitions::push_definition;
use crate::finding::{add_name, small_value};
use crate::forms::{Definition, Form};
use crate::gates::Size;
use crate::limits::MOST_QUBITS;
use crate::pieces::{Piece, Source};
use crate::scan::{Defined, Definitions, Register, Scan};
use crate::statements::Statement;
use crate::writing::gates_from;
use std::alloc::{AllocError, Global};
use std::collections::{BTreeMap, BTreeSet};
use tc_circuit::Circuit;

/// Before the first statement.
pub fn new_scan<'a>(alloc: Global) -> Scan<'a>
    ensures value { state result ≡ start }
    ensures kept { AreKept result.definitions }
{
    Scan {
        registers: Vec::new(alloc),
        names: BTreeSet::new(alloc),
        definitions: Definitions {
            list: Vec::new(alloc),
            places: BTreeMap::new(alloc),
        },
        qubits: 0,
        circuit: None,
        t_count: 0,
        count: 0,
    }
}

/// One statement more.
fn count_statement<'a>(scan: Scan<'a>) -> Scan<'a>
    requires { scan.count < most_statements }
    ensures value { state result ≡ record (state scan.entry) { count = (state scan.entry).count + 1 } }
    ensures kept { result.definitions ≡ scan.entry.definitions }
{
    let mut scan = scan;
    scan.count += 1;
    scan
}

/// One register of bits more, of which only the name is kept.
fn with_creg<'a>(scan: Scan<'a>, name: &'a [u8]) -> Result<Scan<'a>, AllocError>
    ensures value { IfOk result (λ s. state s ≡ record (state scan.entry) { named = with_name name.now (state scan.entry).named }) }
    ensures kept { IfOk result (λ s. s.definitions ≡ scan.entry.definitions) }
{
    let mut scan = scan;
    add_name(&mut scan.names, name)?;
    Ok(scan)
}

/// One register of qubits more.
fn with_qreg<'a>(scan: Scan<'a>, name: &'a [u8], size: &[u8]) -> Result<Scan<'a>, AllocError>
    requires first { (state scan).began ≡ false }
    requires some { 0 < value size.now }
    requires few { scan.qubits + value size.now ≤ most_qubits }
    ensures value { IfOk result (λ s. state s ≡ record (state scan.entry) {
      registers = (state scan.entry).registers ++ record { name = name.now; first = (state scan.entry).qubits; size = value size.now } ∷ [];
      named = with_name name.now (state scan.entry).named;
      qubits = (state scan.entry).qubits + value size.now;
    }) }
    ensures kept { IfOk result (λ s. s.definitions ≡ scan.entry.definitions) }
{
    let mut scan = scan;
    let size = small_value(size);
    let first = scan.qubits;
    add_name(&mut scan.names, name)?;
    scan.registers.push(Register { name, first, size })?;
    scan.qubits += size;
    Ok(scan)
}

/// The circuit so far, which has no gates where there is none yet.
fn circuit_so_far(alloc: Global, n: u8, circuit: Option<Circuit>) -> Circuit
    requires some { 0 < n }
    requires few { n ≤ most_qubits }
    requires on_all { ForSome circuit (λ c. c.qubits ≡ n) }
    ensures qubits { result.qubits ≡ n }
    ensures gates { result.gates ≡ gates_made circuit }
{
    match circuit {
        Some(circuit) => circuit,
        None => Circuit::new(alloc, n),
    }
}

/// The gates of a gate of this size, which may be known, on these qubits more.
fn with_gates<'a>(
    alloc: Global,
    scan: Scan<'a>,
    source: Source,
    size: Option<Size>,
    qubits: &[u8],
) -> Result<Scan<'a>, AllocError>
    requires kept { AreKept scan.definitions }
    requires addable { AreAddable (state scan) (meanings_behind known scan.definitions.list.items) scan.definitions.list.items source size qubits.now }
    ensures value { IfOk result (λ s. state s ≡ record (state scan.entry) {
      began = true;
      gates = (state scan.entry).gates ++ gates_with size (source_gates (meanings_behind known scan.entry.definitions.list.items) source) qubits.now;
    }) }
    ensures kept { IfOk result (λ s. s.definitions ≡ scan.entry.definitions) }
{
    let Scan {
        registers,
        names,
        definitions,
        qubits: n,
        circuit,
        t_count,
        count,
    } = scan;
    let mut circuit = circuit_so_far(alloc, n, circuit);
    let gates = gates_from(alloc, &definitions, source)?;
    push_gates(&mut circuit, size, &gates, qubits)?;
    Ok(Scan {
        registers,
        names,
        definitions,
        qubits: n,
        circuit: Some(circuit),
        t_count: t_count + t_count_at(size, qubits),
        count,
    })
}

/// The pieces of a definition that are kept: all, if it has at most three names.
fn keep_pieces<'a>(
    alloc: Global,
    list: &Definitions<'a>,
    definition: &Definition<'a>,
) -> Result<Vec<Piece>, AllocError>
    requires kept { AreKept list.now }
    requires good { list_any (is_bad_entry (known_behind known list.now.list.items) (name_list definition.now.names.items)) (entries definition.now.body.items) ≡ false }
    ensures sound { IfOk result (λ v. AreSound (meanings_behind known list.now.list.items) list.now.list.items v.items) }
    ensures gates { IfOk result (λ v. length definition.now.names.items ≤ most_qubits → gates_of_pieces (meanings_behind known list.now.list.items) v.items ≡ (defined (known_behind known list.now.list.items) (name_list definition.now.names.items) (entries definition.now.body.items)).gates) }
{
    if definition.names.len() <= usize::from(MOST_QUBITS) {
        pieces_of_definition(alloc, list, definition)
    } else {
        Ok(Vec::new(alloc))
    }
}

/// One defined gate more.
fn with_definition<'a>(
    alloc: Global,
    scan: Scan<'a>,
    definition: Definition<'a>,
    size: Size,
) -> Result<Scan<'a>, AllocError>
    requires kept { AreKept scan.definitions }
    requires fits { IsTakeable (state scan) (Some (Define definition.name.now (name_list definition.names.items) (entries definition.body.items))) }
    requires size { size ≡ counted_size (defined (state scan).known (name_list definition.names.items) (entries definition.body.items)) }
    ensures value { IfOk result (λ s. state s ≡ declared (state scan.entry) (Some (Define definition.entry.name.now (name_list definition.entry.names.items) (entries definition.entry.body.items)))) }
    ensures kept { IfOk result (λ s. AreKept s.definitions) }
{
    let pieces = keep_pieces(alloc, &scan.definitions, &definition)?;
    let mut scan = scan;
    let defined = Defined {
        definition,
        size,
        pieces,
    };
    push_definition(&mut scan.definitions, defined)?;
    Ok(scan)
}

/// What a form adds.
fn with_form<'a>(
    alloc: Global,
    scan: Scan<'a>,
    statement: Statement<'_, 'a>,
) -> Result<Scan<'a>, AllocError>
    requires kept { AreKept scan.definitions }
    requires fits { IsTakeable (state scan) (option_map form statement.form) }
    requires behind { IsBehind (state scan) statement }
    requires source { HasSource scan.definitions (state scan).known statement }
    ensures value { IfOk result (λ s. state s ≡ declared (state scan.entry) (option_map form statement.entry.form)) }
    ensures kept { IfOk result (λ s. AreKept s.definitions) }
{
    let Statement {
        lexemes: _,
        form,
        size,
        source,
        qubits,
        has_bad_body: _,
        body,
    } = statement;
    match form {
        Some(Form::Qreg(name, digits)) => with_qreg(scan, name, digits),
        Some(Form::Creg(name, _)) => with_creg(scan, name),
        Some(Form::Apply(_, _)) => with_gates(alloc, scan, source, size, &qubits),
        Some(Form::Turn(_, _)) => with_gates(alloc, scan, source, size, &qubits),
        Some(Form::Define(definition)) => with_definition(alloc, scan, definition, body),
        _ => Ok(scan),
    }
}

/// The scan behind a statement to which no row applies.
pub fn with_statement<'a>(
    alloc: Global,
    scan: Scan<'a>,
    statement: Statement<'_, 'a>,
) -> Result<Scan<'a>, AllocError>
    requires kept { AreKept scan.definitions }
    requires fits { IsTakeable (state scan) (option_map form statement.form) }
    requires behind { IsBehind (state scan) statement }
    requires source { HasSource scan.definitions (state scan).known statement }
    requires short { scan.count < most_statements }
    ensures value { IfOk result (λ s. state s ≡ after (state scan.entry) (option_map form statement.entry.form)) }
    ensures kept { IfOk result (λ s. AreKept s.definitions) }
{
    let next = with_form(alloc, scan, statement)?;
    Ok(count_statement(next))
}

// A statement with what its names stand for.
ghost use Rattle.std.specs.Prelude.{◌≡◌, ◌+◌, IfOk, Option, option_map};
ghost use Rattle.qasm_reader.specs.State.{gate_in};
ghost use Rattle.qasm_reader.specs.Rows.{has_bad_body as has_bad_body_in};
ghost use Rattle.qasm_reader.specs.Parse.{form_of};
ghost use Rattle.qasm_reader.specs.View.{lexemes, form, size_of, gate_defined, counted_size, meanings_behind, IsBehind, HasSource, AreKept, state};
ghost use Rattle.qasm_reader.specs.Known.{known};
ghost use Rattle.qasm_reader.specs.Pieces.{IsSource};

use crate::bodies::{NOTHING, body_size, has_bad_body};
use crate::definitions::{Found, found_by_name, found_by_value};
use crate::expand::gate_qubits;
use crate::forms::{Form, form_of};
use crate::gates::Size;
use crate::lexemes::Lexeme;
use crate::pieces::Source;
use crate::scan::Scan;
use std::alloc::{AllocError, Global};

/// A statement: its tokens, the form that it has, if it has one, the size and the source of the gate that the form applies, if it is
/// known, the qubits that the gate's arguments name, one after another, and of the gate that the form defines, whether its body is bad, and
/// its size, where gates are counted up to one more than the most.
#[derive(Drop)]
pub struct Statement<'b, 'a> {
    pub lexemes: &'b [Lexeme<'a>],
    pub form: Option<Form<'a>>,
    pub size: Option<Size>,
    pub source: Source,
    pub qubits: Vec<u8>,
    pub has_bad_body: bool,
    pub body: Size,
}

/// The gate that a form applies, or no gate where it applies none that is known.
fn gate_of<'a>(scan: &Scan<'a>, found: &Form<'a>) -> Found
    requires { AreKept scan.now.definitions }
    ensures size { result.size ≡ option_map size_of (gate_in (state scan.now).known (Some (form found.now))) }
    ensures source { IsSource (meanings_behind known scan.now.definitions.list.items) scan.now.definitions.list.items (gate_in (state scan.now).known (Some (form found.now))) result.source }
{
    match found {
        Form::Apply(name, _) => found_by_name(&scan.definitions, name),
        Form::Turn(rotation, _) => found_by_value(rotation.value),
        _ => Found {
            size: None,
            source: Source::Listed(&[]),
        },
    }
}

/// The gate that a form applies, if there is a form.
fn gate_in<'a>(scan: &Scan<'a>, found: &Option<Form<'a>>) -> Found
    requires { AreKept scan.now.definitions }
    ensures size { result.size ≡ option_map size_of (gate_in (state scan.now).known (option_map form found.now)) }
    ensures source { IsSource (meanings_behind known scan.now.definitions.list.items) scan.now.definitions.list.items (gate_in (state scan.now).known (option_map form found.now)) result.source }
{
    match found {
        Some(form) => gate_of(scan, form),
        None => Found {
            size: None,
            source: Source::Listed(&[]),
        },
    }
}

/// Whether a form defines a gate with a bad body.
fn bad_body_in<'a>(
    alloc: Global,
    scan: &Scan<'a>,
    found: &Option<Form<'a>>,
) -> Result<bool, AllocError>
    requires { AreKept scan.now.definitions }
    ensures { IfOk result (λ bad. bad ≡ has_bad_body_in (state scan.now) (option_map form found.now)) }
{
    match found {
        Some(Form::Define(definition)) => has_bad_body(alloc, &scan.definitions, definition),
        _ => Ok(false),
    }
}

/// The size of the gate that a form defines.
fn body_in<'a>(scan: &Scan<'a>, found: &Option<Form<'a>>) -> Size
    requires { AreKept scan.now.definitions }
    ensures { result ≡ counted_size (gate_defined (state scan.now) (option_map form found.now)) }
{
    match found {
        Some(Form::Define(definition)) => body_size(&scan.definitions, definition),
        _ => NOTHING,
    }
}

/// The statement of these tokens, behind what was scanned.
pub fn statement_behind<'b, 'a>(
    alloc: Global,
    scan: &Scan<'a>,
    ws: &'b [Lexeme<'a>],
) -> Result<Statement<'b, 'a>, AllocError>
    requires { AreKept scan.now.definitions }
    ensures lexemes { IfOk result (λ p. p.lexemes.now ≡ ws.now) }
    ensures form { IfOk result (λ p. option_map form p.form ≡ form_of (lexemes ws.now)) }
    ensures behind { IfOk result (IsBehind (state scan.now)) }
    ensures source { IfOk result (HasSource scan.now.definitions (state scan.now).known) }
{
    let form = form_of(alloc, ws)?;
    let qubits = gate_qubits(alloc, scan, &form)?;
    let has_bad_body = bad_body_in(alloc, scan, &form)?;
    let Found { size, source } = gate_in(scan, &form);
    Ok(Statement {
        lexemes: ws,
        size,
        source,
        body: body_in(scan, &form),
        form,
        qubits,
        has_bad_body,
    })
}

// The rows by which a statement is refused.
ghost use Rattle.tc_circuit.specs.Model.{t_count_of};
ghost use Rattle.std.specs.Prelude.{◌≡◌, ◌+◌, min, Option, option_map, is_none, is_some, length};
ghost use Rattle.std.specs.Str.{bytes_eq};
ghost use Rattle.std.specs.List.{list_any};
ghost use Rattle.qasm_reader.specs.State.{find_register, gates_in};
ghost use Rattle.qasm_reader.specs.Rows.{ends, is_foreign, is_call, is_beyond_bodies, is_definition, is_wide_definition, is_turn, defines, is_outside_profile, takes_other, has_other_arity, is_no_statement, takes_bare, has_bare, includes_other, is_not_in_profile, withheld, is_taken, is_unknown, is_exact, is_inexact_entry, has_inexact_angle, arguments_of, names_twice, has_no_register, is_outside, is_empty_size, has_bad_index, has_too_many_qubits, has_too_many_t, has_too_many_gates, applies, row_of};
ghost use Rattle.qasm_reader.specs.View.{lexeme, lexemes, entry, entries, form, argument, arguments, register, registers, statement_of, IsBehind, AreKept, state};

use crate::circuits::{length_at, t_count_at};
use crate::definitions::size_by_name;
use crate::expand::has_twins;
use crate::finding::{contains_name, find_register, small_value};
use crate::forms::{Argument, Entry, Form, is_rotation};
use crate::gates::Size;
use crate::lexemes::{Lexeme, closer, is_ident, is_kind, is_name};
use crate::limits::{MOST_GATES, MOST_GATES_DEFINED, MOST_QUBITS, MOST_STATEMENTS, MOST_T_GATES};
use crate::refusal::Refusal;
use crate::scan::{Register, Scan};
use crate::statements::Statement;
use qasm_angle::AngleValue;
use qasm_lex::Kind;
use std::slice::from_ref;

/// Whether the last token is the one that ends a statement with this first token.
fn ends(statement: &[Lexeme]) -> bool
    ensures { result ≡ ends (lexemes statement.now) }
{
    match statement.split_last() {
        Some((last, _)) => is_kind(last, closer(&statement[0])),
        None => false,
    }
}

/// Whether the first token begins a statement of OpenQASM 2.0 outside the profile.
fn is_foreign(statement: &[Lexeme]) -> bool
    ensures { result ≡ is_foreign (lexemes statement.now) }
{
    match statement {
        [] => false,
        [first, ..] => {
            is_ident(first, b"measure".as_slice())
                || is_ident(first, b"reset".as_slice())
                || is_ident(first, b"if".as_slice())
                || is_ident(first, b"opaque".as_slice())
                || is_ident(first, b"U".as_slice())
                || is_ident(first, b"CX".as_slice())
        }
    }
}

/// Whether the first two tokens are a name and a parenthesis.
fn is_call(statement: &[Lexeme]) -> bool
    ensures { result ≡ is_call (lexemes statement.now) }
{
    match statement {
        [first, second, ..] => is_name(first) && is_kind(second, Kind::LeftParen),
        _ => false,
    }
}

/// Whether the token is a parenthesis, or a word of the standard's own gates.
fn is_beyond_bodies(w: &Lexeme) -> bool
    ensures { result ≡ is_beyond_bodies (lexeme w.now) }
{
    is_kind(w, Kind::LeftParen) || is_ident(w, b"U".as_slice()) || is_ident(w, b"CX".as_slice())
}

/// Whether one of the tokens is a parenthesis, or a word of the standard's own gates.
fn any_beyond_bodies(ws: &[Lexeme]) -> bool
    ensures { result ≡ list_any (λ w. is_beyond_bodies (lexeme w)) ws.now }
{
    ws.iter().any(|w| is_beyond_bodies(w))
}

/// Whether a statement has such a token.
fn has_beyond_bodies(ws: &[Lexeme]) -> bool
    ensures { result ≡ list_any is_beyond_bodies (lexemes ws.now) }
{
    any_beyond_bodies(ws)
}

/// Whether it begins with the word of a definition.
fn is_definition(statement: &[Lexeme]) -> bool
    ensures { result ≡ is_definition (lexemes statement.now) }
{
    match statement {
        [] => false,
        [first, ..] => is_ident(first, b"gate".as_slice()),
    }
}

/// Whether it is a definition of a gate with a parenthesis in it, or a word of the standard's own gates.
fn is_wide_definition(statement: &[Lexeme]) -> bool
    ensures { result ≡ is_wide_definition (lexemes statement.now) }
{
    is_definition(statement) && has_beyond_bodies(statement)
}

/// Whether the form is that of a gate of an angle.
fn is_turn(found: &Option<Form>) -> bool
    ensures { result ≡ is_turn (option_map form found.now) }
{
    match found {
        Some(Form::Turn(_, _)) => true,
        _ => false,
    }
}

/// Whether the form is that of a definition.
fn defines(found: &Option<Form>) -> bool
    ensures { result ≡ defines (option_map form found.now) }
{
    match found {
        Some(Form::Define(_)) => true,
        _ => false,
    }
}

/// Whether it is a statement of OpenQASM 2.0 outside the profile, by its tokens and where it has none of the forms that begin so.
fn is_outside_profile(statement: &Statement) -> bool
    ensures { result ≡ is_outside_profile (statement_of statement.now) }
{
    let ws = statement.lexemes;
    is_foreign(ws)
        || is_call(ws) && !is_turn(&statement.form)
        || is_wide_definition(ws) && !defines(&statement.form)
}

/// Whether a gate of this size takes another number of arguments than n.
fn takes_other(size: Option<Size>, n: usize) -> bool
    ensures { result ≡ takes_other (option_map (λ z. z.arity) size) n }
{
    match size {
        Some(size) => size.arity != n,
        None => false,
    }
}

/// Whether the form is a gate of this size on another number of arguments than it takes.
fn has_other_arity(size: Option<Size>, found: &Option<Form>) -> bool
    ensures { result ≡ has_other_arity (option_map (λ z. z.arity) size) (option_map form found.now) }
{
    match found {
        Some(Form::Apply(_, list)) => takes_other(size, list.len()),
        _ => false,
    }
}

/// Whether an argument has no index.
fn is_bare(a: &Argument) -> bool
    ensures { result ≡ is_none (argument a.now).index }
{
    match a.index {
        Some(_) => false,
        None => true,
    }
}

/// Whether one of these arguments has none.
fn any_bare(list: &[Argument]) -> bool
    ensures { result ≡ list_any (λ a. is_none (argument a).index) list.now }
{
    list.iter().any(|a| is_bare(a))
}

/// Whether an argument of a gate has none.
fn has_no_index(list: &[Argument]) -> bool
    ensures { result ≡ list_any (λ a. is_none a.index) (arguments list.now) }
{
    any_bare(list)
}

/// Whether a gate of this size takes two or more arguments, as many as these, of which one has no index.
fn takes_bare(size: Option<Size>, list: &[Argument]) -> bool
    ensures { result ≡ takes_bare (option_map (λ z. z.arity) size) (arguments list.now) }
{
    match size {
        Some(size) => size.arity > 1 && size.arity == list.len() && has_no_index(list),
        None => false,
    }
}

/// Whether the form is such a gate.
fn has_bare(size: Option<Size>, found: &Option<Form>) -> bool
    ensures { result ≡ has_bare (option_map (λ z. z.arity) size) (option_map form found.now) }
{
    match found {
        Some(Form::Apply(_, list)) => takes_bare(size, list),
        _ => false,
    }
}

/// Whether the form includes another text than `qelib1.inc`.
fn includes_other(found: &Option<Form>) -> bool
    ensures { result ≡ includes_other (option_map form found.now) }
{
    match found {
        Some(Form::Include(text)) => *text != b"\"qelib1.inc\"".as_slice(),
        _ => false,
    }
}

/// The arguments of a barrier or a gate.
fn arguments_of<'b, 'a>(found: &'b Option<Form<'a>>) -> &'b [Argument<'a>]
    ensures { arguments result.now ≡ arguments_of (option_map form found.now) }
{
    match found {
        Some(Form::Barrier(list)) => list,
        Some(Form::Apply(_, list)) => list,
        Some(Form::Turn(_, argument)) => from_ref(argument),
        _ => &[],
    }
}

/// Whether the argument is of no register of qubits.
fn is_unfound(list: &[Register], a: &Argument) -> bool
    ensures { result ≡ is_none (find_register (registers list.now) a.now.name.now) }
{
    match find_register(list, a.name) {
        Some(_) => false,
        None => true,
    }
}

/// Whether one of these arguments is of none.
fn any_unfound(list: &[Register], args: &[Argument]) -> bool
    ensures { result ≡ list_any (λ a. is_none (find_register (registers list.now) (argument a).name)) args.now }
{
    args.iter().any(|a| is_unfound(list, a))
}

/// Whether an argument of a barrier or a gate is of none.
fn has_no_register(scan: &Scan, found: &Option<Form>) -> bool
    ensures { result ≡ has_no_register (state scan.now) (option_map form found.now) }
{
    any_unfound(&scan.registers, arguments_of(found))
}

/// Whether the index isn't below the size of the register, where both are there.
fn is_outside(place: Option<Register>, index: Option<&[u8]>) -> bool
    ensures { result ≡ is_outside (option_map register place.entry) (option_map (λ b. b.now) index.entry) }
{
    match (place, index) {
        (Some(r), Some(digits)) => r.size <= small_value(digits),
        _ => false,
    }
}

/// Whether the argument's index isn't below its register's size.
fn is_outside_in(list: &[Register], a: &Argument) -> bool
    ensures { result ≡ is_outside (find_register (registers list.now) a.now.name.now) (argument a.now).index }
{
    is_outside(find_register(list, a.name), a.index)
}

/// Whether one of these arguments' isn't.
fn any_outside(list: &[Register], args: &[Argument]) -> bool
    ensures { result ≡ list_any (λ a. is_outside (find_register (registers list.now) (argument a).name) (argument a).index) args.now }
{
    args.iter().any(|a| is_outside_in(list, a))
}

/// Whether an argument of a barrier or a gate has such an index.
fn has_outside(scan: &Scan, found: &Option<Form>) -> bool
    ensures { result ≡ list_any (λ a. is_outside (find_register (state scan.now).registers a.name) a.index) (arguments_of (option_map form found.now)) }
{
    any_outside(&scan.registers, arguments_of(found))
}

/// Whether the form declares a register of size 0.
fn is_empty_size(found: &Option<Form>) -> bool
    ensures { result ≡ is_empty_size (option_map form found.now) }
{
    match found {
        Some(Form::Qreg(_, size)) => small_value(size) == 0,
        Some(Form::Creg(_, size)) => small_value(size) == 0,
        _ => false,
    }
}

/// Whether the form declares a register of size 0, or has an index outside its register.
fn has_bad_index(scan: &Scan, found: &Option<Form>) -> bool
    ensures { result ≡ has_bad_index (state scan.now) (option_map form found.now) }
{
    is_empty_size(found) || has_outside(scan, found)
}

/// Whether no text may define a gate of the name, though it isn't known.
fn is_withheld(name: &[u8]) -> bool
    ensures { result ≡ list_any (bytes_eq name.now) withheld }
{
    is_rotation(name)
}

/// Whether the gate of the name is known.
fn is_known<'a>(scan: &Scan<'a>, name: &'a [u8]) -> bool
    requires { AreKept scan.now.definitions }
    ensures { result ≡ is_some ((state scan.now).known name.now) }
{
    size_by_name(&scan.definitions, name).is_some()
}

/// Whether the form declares a name that is taken, or qubits behind a gate.
fn is_taken<'a>(scan: &Scan<'a>, found: &Option<Form<'a>>) -> bool
    requires { AreKept scan.now.definitions }
    ensures { result ≡ is_taken (state scan.now) (option_map form found.now) }
{
    match found {
        Some(Form::Qreg(name, _)) => contains_name(&scan.names, name) || scan.circuit.is_some(),
        Some(Form::Creg(name, _)) => contains_name(&scan.names, name),
        Some(Form::Define(definition)) => is_known(scan, definition.name)
            || is_withheld(definition.name),
        _ => false,
    }
}

/// Whether the form applies a gate that isn't known.
fn is_unknown(size: Option<Size>, found: &Option<Form>) -> bool
    ensures { result ≡ is_unknown (option_map (λ z. z.arity) size) (option_map form found.now) }
{
    match found {
        Some(Form::Apply(_, _)) => size.is_none(),
        _ => false,
    }
}

/// Whether an angle is a whole number of eighths of a full turn.
fn is_exact(value: AngleValue) -> bool
    ensures { result ≡ is_exact value }
{
    match value {
        AngleValue::Eighths(_) => true,
        _ => false,
    }
}

/// Whether an entry is a gate of an angle that isn't exact.
fn is_inexact_entry(line: &Entry) -> bool
    ensures { result ≡ is_inexact_entry (entry line.now) }
{
    match line {
        Entry::Spin(rotation, _) => !is_exact(rotation.value),
        _ => false,
    }
}

/// Whether an entry of these is.
fn any_inexact(body: &[Entry]) -> bool
    ensures { result ≡ list_any (λ e. is_inexact_entry (entry e)) body.now }
{
    body.iter().any(|line| is_inexact_entry(line))
}

/// Whether an entry of a body is.
fn has_inexact_entry(body: &[Entry]) -> bool
    ensures { result ≡ list_any is_inexact_entry (entries body.now) }
{
    any_inexact(body)
}

/// Whether a form applies a gate of an angle that isn't exact, or its body does.
fn has_inexact_angle(found: &Option<Form>) -> bool
    ensures { result ≡ has_inexact_angle (option_map form found.now) }
{
    match found {
        Some(Form::Turn(rotation, _)) => !is_exact(rotation.value),
        Some(Form::Define(definition)) => has_inexact_entry(&definition.body),
        _ => false,
    }
}

/// Whether two arguments of a gate name one qubit.
fn names_twice(scan: &Scan, statement: &Statement) -> bool
    requires { IsBehind (state scan.now) statement.now }
    ensures { result ≡ names_twice (state scan.now) (option_map form statement.now.form) }
{
    match &statement.form {
        Some(Form::Apply(_, _)) => has_twins(&statement.qubits),
        _ => false,
    }
}

/// Whether there are more than three qubits with those that the form declares.
fn has_too_many_qubits(scan: &Scan, found: &Option<Form>) -> bool
    ensures { result ≡ has_too_many_qubits (state scan.now) (option_map form found.now) }
{
    match found {
        Some(Form::Qreg(_, size)) => scan.qubits + small_value(size) > MOST_QUBITS,
        _ => false,
    }
}

/// How many T gates there are with those of the statement, or the greatest number where there are more.
fn t_count_with(scan: &Scan, statement: &Statement) -> usize
    requires { IsBehind (state scan.now) statement.now }
    ensures { result ≡ min (t_count_of (state scan.now).gates + t_count_of (gates_in (state scan.now) (option_map form statement.now.form))) usize.MAX }
{
    scan.t_count
        .saturating_add(t_count_at(statement.size, &statement.qubits))
}

/// Whether there are more than 120 T gates with those of the statement.
fn has_too_many_t(scan: &Scan, statement: &Statement) -> bool
    requires { IsBehind (state scan.now) statement.now }
    ensures { result ≡ has_too_many_t (state scan.now) (option_map form statement.now.form) }
{
    match &statement.form {
        Some(Form::Apply(_, _) | Form::Turn(_, _)) => t_count_with(scan, statement) > MOST_T_GATES,
        _ => false,
    }
}

/// How many gates there are so far.
fn length_of(scan: &Scan) -> usize
    ensures { result ≡ length (state scan.now).gates }
{
    match &scan.circuit {
        Some(circuit) => circuit.gates().len(),
        None => 0,
    }
}

/// How many gates there are with those of the statement, or the greatest number where there are more.
fn length_with(scan: &Scan, statement: &Statement) -> usize
    requires { IsBehind (state scan.now) statement.now }
    ensures { result ≡ min (length (state scan.now).gates + length (gates_in (state scan.now) (option_map form statement.now.form))) usize.MAX }
{
    length_of(scan).saturating_add(length_at(statement.size, &statement.qubits))
}

/// Whether a defined gate stands for more than 10,000 gates, or there are more than 100,000 with those of the statement.
fn has_too_many_gates(scan: &Scan, statement: &Statement) -> bool
    requires { IsBehind (state scan.now) statement.now }
    ensures { result ≡ has_too_many_gates (state scan.now) (option_map form statement.now.form) }
{
    match &statement.form {
        Some(Form::Define(_)) => statement.body.length > MOST_GATES_DEFINED,
        Some(Form::Apply(_, _) | Form::Turn(_, _)) => length_with(scan, statement) > MOST_GATES,
        _ => false,
    }
}

/// Whether it hasn't its end or no form, or a gate has another number of arguments than it takes.
#[tactic(auto, unfolding(crate::specs::Rows::is_no_statement))]
fn is_no_statement(statement: &Statement) -> bool
    ensures { result ≡ is_no_statement (option_map (λ z. z.arity) statement.now.size) (statement_of statement.now) }
{
    !ends(statement.lexemes)
        || statement.form.is_none() && !is_outside_profile(statement)
        || has_other_arity(statement.size, &statement.form)
}

/// Whether it is a statement of OpenQASM 2.0 that this reader leaves out.
#[tactic(auto, unfolding(crate::specs::Rows::is_not_in_profile))]
fn is_not_in_profile(statement: &Statement) -> bool
    ensures { result ≡ is_not_in_profile (option_map (λ z. z.arity) statement.now.size) (statement_of statement.now) }
{
    ends(statement.lexemes) && is_outside_profile(statement)
        || includes_other(&statement.form)
        || has_bare(statement.size, &statement.form)
}

// The reasons in the order of their rows.
const ORDER: [Refusal; 13] = [
    Refusal::Statement,
    Refusal::NotInProfile,
    Refusal::TwoNames,
    Refusal::Body,
    Refusal::UnknownGate,
    Refusal::Angle,
    Refusal::UnknownRegister,
    Refusal::Index,
    Refusal::SameQubit,
    Refusal::Qubits,
    Refusal::TooManyT,
    Refusal::TooManyGates,
    Refusal::TooLong,
];

/// Whether the row of a reason applies.
fn applies<'a>(scan: &Scan<'a>, statement: &Statement<'_, 'a>, why: Refusal) -> bool
    requires kept { AreKept scan.now.definitions }
    requires behind { IsBehind (state scan.now) statement.now }
    ensures { result ≡ applies (state scan.now) (statement_of statement.now) why }
{
    match why {
        Refusal::Header | Refusal::BadByte => false,
        Refusal::Statement => is_no_statement(statement),
        Refusal::NotInProfile => is_not_in_profile(statement),
        Refusal::TwoNames => is_taken(scan, &statement.form),
        Refusal::Body => statement.has_bad_body,
        Refusal::UnknownGate => is_unknown(statement.size, &statement.form),
        Refusal::Angle => has_inexact_angle(&statement.form),
        Refusal::UnknownRegister => has_no_register(scan, &statement.form),
        Refusal::Index => has_bad_index(scan, &statement.form),
        Refusal::SameQubit => names_twice(scan, statement),
        Refusal::Qubits => has_too_many_qubits(scan, &statement.form),
        Refusal::TooManyT => has_too_many_t(scan, statement),
        Refusal::TooManyGates => has_too_many_gates(scan, statement),
        Refusal::TooLong => scan.count >= MOST_STATEMENTS,
    }
}

/// The first row that applies, if one does.
#[tactic(auto, unfolding(crate::specs::Rows::row_of))]
pub fn first_row<'a>(scan: &Scan<'a>, statement: &Statement<'_, 'a>) -> Option<Refusal>
    requires kept { AreKept scan.now.definitions }
    requires behind { IsBehind (state scan.now) statement.now }
    ensures { result ≡ row_of (state scan.now) (statement_of statement.now) }
{
    for why in ORDER {
        if applies(scan, statement, why) {
            return Some(why);
        }
    }
    None
}

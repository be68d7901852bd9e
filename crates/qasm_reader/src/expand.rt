// The qubits that arguments name.
ghost use Rattle.std.specs.Prelude.{◌≡◌, ◌+◌, ◌≤◌, ◌==◌, ◌∷◌, [], ◌++◌, List, ℕ, OnOk, IfOk, Option, option_map};
ghost use Rattle.std.specs.List.{flat_map, list_any, range_with_len};
ghost use Rattle.qasm_reader.specs.State.{qubits_in, qubits_of, gate_qubits};
ghost use Rattle.qasm_reader.specs.Rows.{has_twins};
ghost use Rattle.qasm_reader.specs.Limits.{most_qubits};
ghost use Rattle.qasm_reader.specs.View.{argument, arguments, register, registers, form, state};

use crate::finding::{find_register, small_value};
use crate::forms::{Argument, Form};
use crate::scan::{Register, Scan};
use std::alloc::{AllocError, Global};
use std::slice::from_ref;

/// Adds the qubits of a register.
fn push_register(found: &mut Vec<u8>, first: u8, size: u8) -> Result<(), AllocError>
    requires { first + size ≤ most_qubits }
    ensures { OnOk result (found.new.items ≡ found.old.items ++ range_with_len first size) }
{
    for i in 0..size {
        found.push(first + i)?;
    }
    Ok(())
}

/// Adds the qubits that an argument names in a register.
fn push_in(found: &mut Vec<u8>, r: Register, index: Option<&[u8]>) -> Result<(), AllocError>
    ensures { OnOk result (found.new.items ≡ found.old.items ++ qubits_in (register r.entry) (option_map (λ b. b.now) index.entry)) }
{
    match index {
        None => push_register(found, r.first, r.size),
        Some(digits) => {
            let value = small_value(digits);
            if value < r.size {
                found.push(r.first + value)?;
            }
            Ok(())
        }
    }
}

/// Adds the qubits that an argument names.
fn push_qubits(found: &mut Vec<u8>, list: &[Register], a: &Argument) -> Result<(), AllocError>
    ensures { OnOk result (found.new.items ≡ found.old.items ++ qubits_of (registers list.now) (argument a.now)) }
{
    match find_register(list, a.name) {
        None => Ok(()),
        Some(r) => push_in(found, r, a.index),
    }
}

/// The qubits that the arguments name, one after another.
fn qubits_of(alloc: Global, list: &[Register], args: &[Argument]) -> Result<Vec<u8>, AllocError>
    ensures { IfOk result (λ v. v.items ≡ flat_map (qubits_of (registers list.now)) (arguments args.now)) }
{
    let mut found = Vec::new(alloc);
    for a in args {
        push_qubits(&mut found, list, a)?;
    }
    Ok(found)
}

/// The qubits that the arguments of a gate name.
pub fn gate_qubits(alloc: Global, scan: &Scan, found: &Option<Form>) -> Result<Vec<u8>, AllocError>
    ensures { IfOk result (λ v. v.items ≡ gate_qubits (state scan.now) (option_map form found.now)) }
{
    match found {
        Some(Form::Apply(_, list)) => qubits_of(alloc, &scan.registers, list),
        Some(Form::Turn(_, argument)) => qubits_of(alloc, &scan.registers, from_ref(argument)),
        _ => Ok(Vec::new(alloc)),
    }
}

/// Whether a qubit is among the qubits.
fn holds(qubits: &[u8], q: u8) -> bool
    ensures { result ≡ list_any (λ r. r == q) qubits.now }
{
    qubits.iter().any(|r| *r == q)
}

/// Whether a qubit stands twice in the list.
pub fn has_twins(qubits: &[u8]) -> bool
    ensures { result ≡ has_twins qubits.now }
{
    for i in 0..qubits.len() {
        if holds(&qubits[i + 1..], qubits[i]) {
            return true;
        }
    }
    false
}

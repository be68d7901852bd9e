// Numbers, names and registers.
ghost use Rattle.std.specs.Prelude.{◌≡◌, ℕ, ◌+◌, List, min, OnOk, option_map};
ghost use Rattle.qasm_reader.specs.Limits.{most_qubits};
ghost use Rattle.qasm_reader.specs.State.{value, find_register, with_name};
ghost use Rattle.qasm_reader.specs.View.{register, registers, names};

use crate::limits::MOST_QUBITS;
use crate::scan::Register;
use std::alloc::AllocError;
use std::collections::BTreeSet;

/// The number that digits write, or one more than the most qubits where it is greater than these.
pub fn small_value(digits: &[u8]) -> u8
    ensures { result ≡ min (value digits.now) (most_qubits + 1) }
{
    let mut n = 0;
    for digit in digits {
        n = (n * 10 + digit.saturating_sub(b'0')).min(MOST_QUBITS + 1);
    }
    n
}

/// Whether the set has the name.
pub fn contains_name<'a>(set: &BTreeSet<&'a [u8]>, name: &'a [u8]) -> bool
    ensures { result ≡ names set.now name.now }
{
    set.contains(&name)
}

/// Adds a name.
pub fn add_name<'a>(set: &mut BTreeSet<&'a [u8]>, name: &'a [u8]) -> Result<(), AllocError>
    ensures { OnOk result ((other : List ℕ) → names set.new other ≡ with_name name.now (names set.old) other) }
{
    set.insert(name)?;
    Ok(())
}

/// The register of the name.
pub fn find_register<'a>(list: &[Register<'a>], name: &[u8]) -> Option<Register<'a>>
    ensures { option_map register result ≡ find_register (registers list.now) name.now }
{
    for r in list {
        if r.name == name {
            return Some(*r);
        }
    }
    None
}

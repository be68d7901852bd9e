//! What `check` answers to a text.
ghost use Rattle.std.specs.Prelude.{◌≡◌, ◌≤◌, ℕ, IfOk, IfErr, drop, take, length};
ghost use Rattle.tc_circuit.specs.Circuit.{Gates};
ghost use Rattle.qasm_reader.specs.Halves.{HasHalves};
ghost use Rattle.qasm_reader.specs.Read.{Reads};
ghost use Rattle.tcount_top.specs.Out.{CheckOut, longest};
ghost use Rattle.tcount_top.specs.Compared.{IsVerdict, IsReason, unread, unchecked};

use crate::Status;
use crate::lines::{DIFFERENT, NO_HALVES, SAME, many_h, refusal};
use count_checker::{CheckFault, same};
use qasm_reader::{ReadFault, halves, read, read_circuits_are_small, refusals_stand_in_texts};
use std::alloc::{AllocError, Global};
use tc_circuit::Circuit;

/// Why the two programs of a text are not compared.
#[derive(Drop)]
pub enum NotCompared {
    /// The text isn't two programs.
    NoHalves,
    /// A byte is bad, or a program is refused.
    Refused {
        /// The number of the reason.
        number: u8,
        /// The place in the text.
        place: usize,
    },
    /// A circuit has more than 120 h gates.
    TooManyH {
        /// How many h gates the first such circuit has.
        count: u32,
    },
    /// Memory was wanting.
    Memory,
}

impl From<ReadFault> for NotCompared {
    ghost from_gives = { λ fault why. why ≡ unread fault };

    /// A text that is refused isn't compared.
    fn from(fault: ReadFault) -> NotCompared {
        match fault {
            ReadFault::Refused { number, place } => NotCompared::Refused { number, place },
            ReadFault::Memory => NotCompared::Memory,
        }
    }
}

impl From<CheckFault> for NotCompared {
    ghost from_gives = { λ fault why. why ≡ unchecked fault };

    /// Circuits that the checker refuses aren't compared.
    fn from(fault: CheckFault) -> NotCompared {
        match fault {
            CheckFault::TooManyH { count } => NotCompared::TooManyH { count },
            CheckFault::Memory => NotCompared::Memory,
        }
    }
}

/// The circuit of the second program of a text, which begins at the cut. Places count from the text's first byte.
fn second_of(alloc: Global, text: &[u8], cut: usize) -> Result<Circuit, NotCompared>
    requires short { length text.now ≤ longest }
    requires within { cut ≤ length text.now }
    ensures ok { IfOk result (Reads (drop cut text.now)) }
    ensures err { IfErr result (λ why. (c : Gates) → HasHalves text.now cut → Reads (take cut text.now) c → IsReason text.now why) }
{
    // Called for its contract: the place of a refusal stands in the text.
    refusals_stand_in_texts();
    match read(alloc, &text[cut..]) {
        Ok(circuit) => Ok(circuit),
        Err(ReadFault::Refused { number, place }) => Err(NotCompared::Refused {
            number,
            place: cut + place,
        }),
        Err(ReadFault::Memory) => Err(NotCompared::Memory),
    }
}

/// Whether the two programs of a text are the same.
fn is_same(alloc: Global, text: &[u8]) -> Result<bool, NotCompared>
    requires short { length text.now ≤ longest }
    ensures ok { IfOk result (IsVerdict text.now) }
    ensures err { IfErr result (IsReason text.now) }
{
    // Called for its contract: what a text reads as is on one to three qubits.
    read_circuits_are_small();
    let Some(cut) = halves(alloc, text)? else {
        return Err(NotCompared::NoHalves);
    };
    let first = read(alloc, &text[..cut])?;
    let second = second_of(alloc, text, cut)?;
    let is_same = same(alloc, &first, &second)?;
    Ok(is_same)
}

/// The status and the bytes of the outcome for a text of at most 65,536 bytes.
pub fn check(alloc: Global, text: &[u8]) -> Result<(Status, Vec<u8>), AllocError>
    requires short { length text.now ≤ longest }
    ensures { IfOk result (λ r. CheckOut text.now r.0 r.1.items) }
{
    match is_same(alloc, text) {
        Ok(true) => Ok((Status::Found, Vec::from_slice(alloc, SAME)?)),
        Ok(false) => Ok((Status::Above, Vec::from_slice(alloc, DIFFERENT)?)),
        Err(NotCompared::NoHalves) => Ok((Status::Refused, Vec::from_slice(alloc, NO_HALVES)?)),
        Err(NotCompared::Refused { number, place }) => {
            Ok((Status::Refused, refusal(alloc, number, place)?))
        }
        Err(NotCompared::TooManyH { count }) => Ok((Status::Refused, many_h(alloc, count)?)),
        Err(NotCompared::Memory) => Err(AllocError),
    }
}

// Why a text is not read.
ghost use Rattle.std.specs.Prelude.{◌≡◌};
ghost use Rattle.qasm_reader.specs.declared.fault.ReadFault.TheVariants.{Memory, Refused};
ghost use Rattle.qasm_reader.specs.Refusals.{number_of, fault_of};

use crate::refusal::Refusal;
use qasm_lex::LexFault;
use std::alloc::{AllocError, AllocFailed};

/// Why [`read`](crate::read) gave no circuit.
#[derive(Debug, PartialEq, Eq, Drop)]
pub enum ReadFault {
    /// The text is refused.
    Refused {
        /// The reason.
        ///
        /// | number | the text is refused because |
        /// |---|---|
        /// | 1 | it doesn't begin with the header `OPENQASM 2.0;` |
        /// | 2 | a byte is neither skipped nor in a token |
        /// | 3 | a statement hasn't its end or no form, or a gate has another number of arguments than it takes |
        /// | 4 | a gate isn't known |
        /// | 5 | an argument of a barrier or a gate is of no register of qubits |
        /// | 6 | a register's size is 0, or an index isn't below its register's size |
        /// | 7 | two arguments of a gate name one qubit |
        /// | 8 | there are more than three qubits, or none |
        /// | 9 | there are more than 120 T gates |
        /// | 10 | there are more than 4,096 statements behind the header |
        /// | 11 | a statement is one of OpenQASM 2.0 that this reader leaves out |
        /// | 12 | a register's name was declared before, qubits are declared behind a gate, or a gate's name is known, or `u1` or `rz` |
        /// | 17 | a definition's names hold one twice, or an entry of its body holds another name or misuses a gate |
        /// | 18 | a defined gate stands for more than 10,000 gates, or there are more than 100,000 |
        /// | 20 | an angle is no whole number of eighths of a full turn, which are multiples of pi/4 |
        number: u8,
        /// The place in the text, counted from 0: of the bad byte for number 2, of the first token or the end for number 1, the
        /// end where there is no qubit, and else of the statement's first token.
        place: usize,
    },
    /// Memory was wanting.
    Memory,
}

/// The fault of a text that is refused for the reason at the place.
pub fn refusal_at(why: Refusal, place: usize) -> ReadFault
    ensures { result ≡ Refused (number_of why) place }
{
    ReadFault::Refused {
        number: why.number(),
        place,
    }
}

impl From<AllocError> for ReadFault {
    ghost from_gives = { λ _ e. e ≡ Memory };

    /// Want of memory is a fault of its own.
    fn from(_: AllocError) -> ReadFault {
        ReadFault::Memory
    }
}

impl<T: Drop> From<AllocFailed<T>> for ReadFault {
    ghost from_gives = { λ _ e. e ≡ Memory };

    /// So it is where a value was handed back.
    fn from(_: AllocFailed<T>) -> ReadFault {
        ReadFault::Memory
    }
}

impl From<LexFault> for ReadFault {
    ghost from_gives = { λ fault e. e ≡ fault_of fault };

    /// A bad byte is a reason for refusal, and want of memory stays so.
    fn from(fault: LexFault) -> ReadFault {
        match fault {
            LexFault::BadByte(place) => refusal_at(Refusal::BadByte, place),
            LexFault::Memory => ReadFault::Memory,
        }
    }
}

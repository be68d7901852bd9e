// Why a text has no tokens.
ghost use Rattle.std.specs.Prelude.{◌≡◌};
ghost use Rattle.qasm_lex.specs.declared.fault.LexFault.TheVariants.{Memory};

use std::alloc::AllocFailed;

/// Why [`lex`](crate::lex) gave no tokens.
#[derive(Debug, PartialEq, Eq, Drop)]
pub enum LexFault {
    /// The byte at this place is the first that is neither skipped nor in a token.
    BadByte(usize),
    /// Memory was wanting.
    Memory,
}

impl<T: Drop> From<AllocFailed<T>> for LexFault {
    ghost from_gives = { λ _ e. e ≡ Memory };

    /// Of why an allocation failed, only that it did.
    fn from(_: AllocFailed<T>) -> LexFault {
        LexFault::Memory
    }
}

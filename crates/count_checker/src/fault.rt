// Why two circuits are not compared.
ghost use Rattle.std.specs.Prelude.{◌≡◌};
ghost use Rattle.count_checker.specs.declared.fault.CheckFault.TheVariants.{Memory};

use std::alloc::AllocError;

/// Why [`same`](crate::same) gave no answer.
#[derive(Debug, PartialEq, Eq, Drop)]
pub enum CheckFault {
    /// A circuit has more than 120 h gates.
    TooManyH {
        /// How many h gates the first such circuit has.
        count: u32,
    },
    /// Memory was wanting.
    Memory,
}

impl From<AllocError> for CheckFault {
    ghost from_gives = { λ _ e. e ≡ Memory };

    /// Want of memory is what the checker answers where none can be had.
    fn from(_: AllocError) -> CheckFault {
        CheckFault::Memory
    }
}

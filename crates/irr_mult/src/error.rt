// Why a call on representations of a group has no answer.
ghost use Rattle.std.specs.Prelude.{◌≡◌};
ghost use Rattle.irr_mult.specs.declared.error.WorkError.TheVariants.{Memory};

use thiserror::Error;

/// Why a call on representations of a space group has no answer.
#[derive(Clone, Copy, Debug, PartialEq, Eq, Error)]
pub enum WorkError {
    /// The order, the exponent of the group times a period, is above `ORDER_LIMIT`.
    #[error("the order {0} is above 12000")]
    OrderTooLarge(u64),
    /// No memory was found.
    #[error("out of memory")]
    Memory,
}

impl From<irr_memory::Memory> for WorkError {
    ghost from_gives = { λ _ e. e ≡ Memory };

    fn from(_error: irr_memory::Memory) -> WorkError {
        WorkError::Memory
    }
}

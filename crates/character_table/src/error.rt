// Why there is no table.
ghost use Rattle.std.specs.Prelude.{◌≡◌};
ghost use Rattle.character_table.specs.declared.error.TableError.TheVariants.{Memory as wanting};

use irr_memory::Memory;
use std::alloc::{AllocError, AllocFailed};
use thiserror::Error;

/// Why there is no table.
#[derive(Clone, Copy, Debug, PartialEq, Eq, Error)]
pub enum TableError {
    /// A generator is no triplet of an operation.
    #[error("a generator is no triplet")]
    Triplet,
    /// The generators generate no group within the limits.
    #[error("no group within the limits")]
    Group,
    /// The wave vector is none.
    #[error("no wave vector")]
    Wave,
    /// The order of the numbers is above the limit.
    #[error("the order {0} is above 12000")]
    Order(u64),
    /// No memory was found.
    #[error("out of memory")]
    Memory,
}

impl From<Memory> for TableError {
    ghost from_gives = { λ _ r. r ≡ wanting };

    fn from(_error: Memory) -> TableError {
        TableError::Memory
    }
}

impl From<AllocError> for TableError {
    ghost from_gives = { λ _ r. r ≡ wanting };

    fn from(_error: AllocError) -> TableError {
        TableError::Memory
    }
}

impl<T: Drop> From<AllocFailed<T>> for TableError {
    ghost from_gives = { λ _ r. r ≡ wanting };

    fn from(_error: AllocFailed<T>) -> TableError {
        TableError::Memory
    }
}

//! The space group that generators generate.
#![tactic(auto)]

ghost use Rattle.std.specs.Prelude.{◌≡◌};
ghost use Rattle.irr_close.specs.declared.CloseError.TheVariants.{Memory};

mod canonical;
mod centring;
mod closing;
mod denominator;
mod distinct;
mod exponent;
mod generation;
mod group;
mod laws;
mod rotation;

pub use generation::close;
pub use group::Group;
pub use irr_memory::Memory;
pub use laws::{generated_groups, groups_of_generators};
use std::alloc::{AllocError, AllocFailed};
use thiserror::Error;

/// Why generators are refused.
#[derive(Clone, Copy, Debug, PartialEq, Eq, Error)]
pub enum CloseError {
    /// More than 48 rotations are generated, or an entry of one is above 9 in absolute value.
    #[error("more than 48 rotations, or an entry above 9")]
    Rotations,
    /// The least common denominator of the generators' vectors is above 100,000.
    #[error("a common denominator above 100000")]
    Denominator,
    /// The translations modulo the whole ones are more than 32.
    #[error("more than 32 centrings")]
    Centrings,
    /// No memory was found.
    #[error("out of memory")]
    Memory,
}

impl From<AllocError> for CloseError {
    ghost from_gives = { λ _ r. r ≡ Memory };

    fn from(_error: AllocError) -> CloseError {
        CloseError::Memory
    }
}

impl<T: Drop> From<AllocFailed<T>> for CloseError {
    ghost from_gives = { λ _ r. r ≡ Memory };

    fn from(_error: AllocFailed<T>) -> CloseError {
        CloseError::Memory
    }
}

//! Stars of wave vectors, little groups and their factor systems.
#![tactic(auto)]

ghost use Rattle.std.specs.Prelude.{◌≡◌};
ghost use Rattle.irr_little.specs.declared.LittleError.TheVariants.{Memory};

mod arms;
mod line;
mod phase;
mod places;
mod product;
mod steps;
mod table;

pub use arms::{Arm, Arms, star};
pub use line::line_group;
pub use phase::theta;
pub use places::little_places;
pub use steps::step_phase;
pub use table::little;
use thiserror::Error;

/// Why a little group has no table.
#[derive(Clone, Copy, Debug, PartialEq, Eq, Error)]
pub enum LittleError {
    /// The order, the exponent of the group times the period of the wave vector, is above `ORDER_LIMIT`.
    #[error("the order {0} is above 12000")]
    OrderTooLarge(u64),
    /// No memory was found.
    #[error("out of memory")]
    Memory,
}

impl From<irr_memory::Memory> for LittleError {
    ghost from_gives = { λ _ r. r ≡ Memory };

    fn from(_error: irr_memory::Memory) -> LittleError {
        LittleError::Memory
    }
}

#[cfg(test)]
mod tests;

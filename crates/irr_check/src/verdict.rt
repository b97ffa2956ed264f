// Verdicts.
ghost use Rattle.std.specs.Prelude.{◌≡◌};
ghost use Rattle.irr_check.specs.declared.verdict.CheckError.TheVariants.{Memory};

use thiserror::Error;

/// What a report is tried for, in this order; from `Unit` to `Reducible` one representation after another.
#[derive(Clone, Copy, Debug, PartialEq, Eq)]
pub enum Clause {
    /// The order is that of the wave vector.
    Order,
    /// The operations are the canonical ones of the little group, in their order.
    Ops,
    /// The matrix of the identity is the unit matrix.
    Unit,
    /// The matrices multiply by the factor system.
    Multiply,
    /// The characters are the traces.
    Char,
    /// The representation has no invariant subspace over any order.
    Reducible,
    /// No two representations are equivalent.
    Equivalent,
    /// Each irreducible small representation is equivalent to one of the list.
    Missing,
}

/// What is wrong first in a report. All numbers count from 1.
#[derive(Clone, Copy, Debug, PartialEq, Eq)]
pub enum Verdict {
    /// Nothing is.
    Yes,
    /// The first clause that fails, with the representation, or 0, and two numbers, or 0: the right order for
    /// `Order`, operations for `Ops`, `Multiply` and `Char`, and the second representation for `Equivalent`
    /// in the place of `i`.
    No {
        clause: Clause,
        rep: u32,
        i: u32,
        j: u32,
    },
}

/// Why there is no verdict.
#[derive(Clone, Copy, Debug, PartialEq, Eq, Error)]
pub enum CheckError {
    /// The order of the wave vector, the exponent of the group times the period, is above `ORDER_LIMIT`.
    #[error("the order {0} is above 12000")]
    OrderTooLarge(u64),
    /// No memory was found.
    #[error("out of memory")]
    Memory,
}

impl From<irr_memory::Memory> for CheckError {
    ghost from_gives = { λ _ e. e ≡ Memory };

    fn from(_error: irr_memory::Memory) -> CheckError {
        CheckError::Memory
    }
}

ghost use Rattle.std.specs.Prelude.{ℕ, ◌≡◌, All, IfOk, IfErr};
ghost use Rattle.irr_climb.specs.declared.complete.ClimbError.TheVariants.{Memory};
ghost use Rattle.irr_rep.specs.Twisted.{phase_table, place_count};
ghost use Rattle.irr_chain.specs.NormalSubgroup.{HasSteps};
ghost use Rattle.irr_climb.specs.Lists.{IsSmallList};
ghost use Rattle.irr_climb.specs.Refusals.{IsRefusal};
ghost use Rattle.irr_climb.specs.Sizes.{HasSharpSizes, HasSmallNumbers};

use crate::climb::full_list;
use crate::order::in_order;
use irr_chain::{ChainError, chain};
use irr_cyc::Scalar;
use irr_rep::{Family, Twisted};
use std::alloc::Global;
use thiserror::Error;

/// Why there is no list of small representations.
#[derive(Debug, Drop, Error)]
pub enum ClimbError {
    /// The list is a subgroup of more than one element that has no normal subgroup of index 2 or 3.
    #[error("a subgroup of {} elements has no normal subgroup of index 2 or 3", .0.len())]
    Unchained(Vec<u32>),
    /// No memory was found.
    #[error("out of memory")]
    Memory,
}

impl From<irr_memory::Memory> for ClimbError {
    ghost from_gives = { λ _ e. e ≡ Memory };

    fn from(_error: irr_memory::Memory) -> ClimbError {
        ClimbError::Memory
    }
}

/// A complete list of the small representations of a table of phases, in the canonical order of their characters: every
/// irreducible one, over each order that the table's order divides, is equivalent to exactly one member, and only the
/// multiples of one matrix intertwine a member with itself (Bradley and Cracknell, sections 3.7 and 4.4). The matrices have
/// numbers of the table's own order, and all entries and traces of a member are sums of at most 13,824 powers of z over one
/// denominator of at most 2^11, over which the size of each is at most 2^28.
///
/// `Unchained` comes only where the list is a subgroup of more than one element that has no normal subgroup of index 2 or 3;
/// never where each subgroup of more than one element has one, as in a table of a little group.
pub fn small_reps<S: Scalar>(alloc: Global, t: &Twisted) -> Result<Vec<Family<S>>, ClimbError>
    requires { S.admits (phase_table t.now).order }
    ensures list { IfOk result (λ fs. IsSmallList (phase_table t.now) fs.items) }
    ensures sizes { IfOk result (λ fs. All (HasSharpSizes (phase_table t.now).order (place_count t.now)) fs.items) }
    ensures numbers { IfOk result (λ fs. All (HasSmallNumbers (phase_table t.now).order (place_count t.now)) fs.items) }
    ensures refusal { IfErr result (IsRefusal (phase_table t.now)) }
    ensures complete { HasSteps (phase_table t.now) → IfErr result (λ e. e ≡ ClimbError.Memory) }
{
    match chain(alloc, t) {
        Ok(series) => {
            let families = full_list(alloc, t, series.levels.as_slice())?;
            let ordered = in_order(alloc, t, families)?;
            Ok(ordered)
        }
        Err(ChainError::Unchained(members)) => Err(ClimbError::Unchained(members)),
        Err(ChainError::Memory) => Err(ClimbError::Memory),
    }
}

ghost use Rattle.std.specs.Prelude.{ℕ, ◌≡◌, [], ◌∷◌, IfOk, IfErr, vec_len};
ghost use Rattle.irr_chain.specs.declared.series.ChainError.TheVariants.{Memory};
ghost use Rattle.irr_rep.specs.Twisted.{phase_table, place_count};
ghost use Rattle.irr_chain.specs.NormalSubgroup.{HasSteps};
ghost use Rattle.irr_chain.specs.Series.{IsSeries, IsRefusal};

use crate::level::level_below;
use irr_rep::Twisted;
use std::alloc::{AllocError, AllocFailed, Global};
use thiserror::Error;

/// A normal subgroup of index `p`, 2 or 3, in the subgroup that its members and `g` generate. The members
/// stand in increasing order.
#[derive(Debug, Drop)]
pub struct Level {
    pub members: Vec<u32>,
    pub p: u32,
    pub g: u32,
}

/// A chain of subgroups from the unit to the whole table: each level's members and `g` generate the next
/// one's members, and the last one's the whole table.
#[derive(Debug, Drop)]
pub struct Series {
    pub levels: Vec<Level>,
}

/// Why there is no chain.
#[derive(Debug, Drop, Error)]
pub enum ChainError {
    /// The list is a subgroup of more than one element that has no normal subgroup of index 2 or 3.
    #[error("a subgroup of {} elements has no normal subgroup of index 2 or 3", .0.len())]
    Unchained(Vec<u32>),
    /// No memory was found.
    #[error("out of memory")]
    Memory,
}

impl From<irr_memory::Memory> for ChainError {
    ghost from_gives = { λ _ e. e ≡ Memory };

    fn from(_error: irr_memory::Memory) -> ChainError {
        ChainError::Memory
    }
}

impl From<AllocError> for ChainError {
    ghost from_gives = { λ _ e. e ≡ Memory };

    fn from(_error: AllocError) -> ChainError {
        ChainError::Memory
    }
}

impl<T: Drop> From<AllocFailed<T>> for ChainError {
    ghost from_gives = { λ _ e. e ≡ Memory };

    fn from(_error: AllocFailed<T>) -> ChainError {
        ChainError::Memory
    }
}

/// A chain of subgroups from the unit to the whole table, each a normal subgroup of index 2 or 3 in the
/// next. It is found from the top: a normal subgroup of index p is a largest one that has all p-th powers
/// and commutators. `Unchained` comes only where there is no such subgroup, and never where each subgroup
/// of more than one element has one.
pub fn chain(alloc: Global, t: &Twisted) -> Result<Series, ChainError>
    ensures series { IfOk result (λ s. IsSeries (phase_table t.now) (0 ∷ []) s.levels.items) }
    ensures refusal { IfErr result (IsRefusal (phase_table t.now)) }
    ensures complete { HasSteps (phase_table t.now) → IfErr result (λ e. e ≡ ChainError.Memory) }
    ensures one_place { place_count t.now ≡ 1 → IfOk result (λ s. vec_len s.levels ≡ 0) }
{
    let mut members = Vec::with_capacity(alloc, t.len() as usize)?;
    for i in 0..t.len() {
        members.push(i)?;
    }
    let mut levels = Vec::new(alloc);
    while members.len() > 1 {
        match level_below(alloc, t, &members)? {
            Some(level) => {
                members = Vec::from_slice(alloc, &level.members)?;
                levels.insert(0, level)?;
            }
            None => return Err(ChainError::Unchained(members)),
        }
    }
    Ok(Series { levels })
}

#[cfg(test)]
mod tests;

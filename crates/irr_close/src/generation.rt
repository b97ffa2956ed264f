// The group that generators generate.
ghost use Rattle.std.specs.Prelude.{ℕ, ◌≡◌, ◌<◌, ◌↔◌, length, IfOk, IfErr, unsigned_abs};
ghost use Rattle.std.specs.List.{All};
ghost use Rattle.irr_space.specs.Operation.{Operation};
ghost use Rattle.irr_space.specs.SpaceGroup.{Generated};
ghost use Rattle.irr_seitz.specs.OperationMeaning.{operation, AreWithin};
ghost use Rattle.irr_seitz.specs.Rotation.{determinant};
ghost use Rattle.irr_close.specs.Limits.{operations};
ghost use Rattle.irr_close.specs.Closing.{IsGenerator};
ghost use Rattle.irr_close.specs.Bare.{AreBare};
ghost use Rattle.irr_close.specs.StandsFor.{stands_for, IsAccepted, IsRefusal};

use crate::centring::close_centrings;
use crate::closing::{close_rotations, first_of_each};
use crate::denominator::have_small_denominator;
use crate::distinct::distinct;
use crate::group::Group;
use crate::{CloseError, rotation};
use irr_seitz::{Op, Phase};
use std::alloc::Global;

// The operations with the vector 0.
fn without_vectors(alloc: Global, ops: &[Op]) -> Result<Vec<Op>, CloseError>
    ensures bare { IfOk result (λ bare. AreBare ops.now bare.items (length ops.now)) }
    ensures memory { IfErr result (λ e. e ≡ CloseError.Memory) }
{
    let mut made = Vec::new(alloc);
    for op in ops {
        made.push(rotation::bare(op))?;
    }
    Ok(made)
}

// The group that operations and the unit translations generate.
fn close_distinct(alloc: Global, generators: &[Op], phase: Phase) -> Result<Group, CloseError>
    requires generators { All IsGenerator generators.now }
    requires unimodular { All (λ s. unsigned_abs (determinant (operation s).rotation) ≡ 1) generators.now }
    ensures group { IfOk result (λ group. (g : Operation) → stands_for group g ↔ Generated (operations generators.now) g) }
    ensures phase { IfOk result (λ group. group.phase ≡ phase) }
    ensures accepted { IfOk result (λ _. IsAccepted generators.now) }
    ensures refused { IfErr result (IsRefusal generators.now) }
{
    let seeds = first_of_each(alloc, generators)?;
    if !have_small_denominator(generators) {
        let bare = without_vectors(alloc, &seeds)?;
        let _ops = close_rotations(alloc, &bare)?;
        return Err(CloseError::Denominator);
    }
    let ops = close_rotations(alloc, &seeds)?;
    let centrings = close_centrings(alloc, generators, &seeds, &ops)?;
    let group = Group::new(alloc, ops.as_slice(), centrings, phase)?;
    Ok(group)
}

/// The group that operations and the unit translations generate (International Tables A, section 1.4; Bradley
/// and Cracknell, section 1.5). An operation that differs by a whole translation from one before it costs one
/// look-up.
pub fn close(alloc: Global, generators: &[Op], phase: Phase) -> Result<Group, CloseError>
    requires generators { All IsGenerator generators.now }
    requires unimodular { All (λ s. unsigned_abs (determinant (operation s).rotation) ≡ 1) generators.now }
    ensures group { IfOk result (λ group. (g : Operation) → stands_for group g ↔ Generated (operations generators.now) g) }
    ensures phase { IfOk result (λ group. group.phase ≡ phase) }
    ensures accepted { IfOk result (λ _. IsAccepted generators.now) }
    ensures refused { IfErr result (IsRefusal generators.now) }
{
    let operations = distinct(alloc, generators)?;
    let group = close_distinct(alloc, operations.as_slice(), phase)?;
    Ok(group)
}

#[cfg(test)]
mod tests;

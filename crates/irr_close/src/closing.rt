// The closing of generators under products, one operation for each rotation.
ghost use Rattle.std.specs.Prelude.{ℕ, ◌≡◌, ◌≤◌, ◌<◌, ◌+◌, length, slice_index_or, IfSome, IsNone, IfErr, OnOk, IfOk};
ghost use Rattle.std.specs.List.{All, HoldsAt};
ghost use Rattle.std.specs.Int.{◌∣◌};
ghost use Rattle.irr_algebra.specs.Matrix.{◌·◌, ◌⊖◌};
ghost use Rattle.irr_space.specs.Operation.{◌⊙◌, identity};
ghost use Rattle.irr_space.specs.CanonicalOperation.{IsInCell};
ghost use Rattle.irr_seitz.specs.OperationMeaning.{operation};
ghost use Rattle.irr_seitz.specs.Rotation.{rotation_of, IsWithin};
ghost use Rattle.irr_rat.specs.Lcm.{IsLcm};
ghost use Rattle.irr_close.specs.Limits.{HasSmallDenominator};
ghost use Rattle.irr_close.specs.Whole.{IsWholeVector};
ghost use Rattle.irr_close.specs.Closing.{IsGenerator, IsKept, HasRotation, HasProducts, IsPartial, IsLonger, IsWithNew, IsKeepRefusal, IsClosingRefusal, AreSeeds};

use crate::{CloseError, rotation};
use irr_seitz::Op;
use std::alloc::Global;

/// The first operation with a rotation.
pub fn place(ops: &[Op], rot: &[[i16; 3]; 3]) -> Option<usize>
    ensures within { IfSome result (λ k. k < length ops.now) }
    ensures found { IfSome result (λ k. HoldsAt (λ g. (operation g).rotation ≡ rotation_of rot.now) ops.now k) }
    ensures none { IsNone result → ¬ (HasRotation ops.now (rotation_of rot.now)) }
{
    for (k, op) in ops.iter().enumerate() {
        if rotation::same(&op.rot, rot) {
            return Some(k);
        }
    }
    None
}

/// The operation that leaves each point.
pub fn identity_operation() -> Op
    ensures identity { operation result ≡ identity }
    ensures denominator { result.den ≡ 1 }
{
    Op {
        rot: [[1, 0, 0], [0, 1, 0], [0, 0, 1]],
        num: [0, 0, 0],
        den: 1,
    }
}

/// The product in the unit cell.
pub fn product(op: &Op, generator: &Op) -> Op
    requires within { IsWithin 9 (operation op.now).rotation }
    requires in_cell { IsInCell (operation op.now).vector }
    requires generator { IsGenerator generator.now }
    requires small { op.now.den ≤ 100000 }
    requires denominator { (m : ℕ) → IsLcm op.now.den generator.now.den m → m ≤ 100000 }
    ensures rotation { (operation result).rotation ≡ (operation op.now).rotation · (operation generator.now).rotation }
    ensures in_cell { IsInCell (operation result).vector }
    ensures divides { (D : ℕ) → 0 < D → op.now.den ∣ D → generator.now.den ∣ D → result.den ∣ D }
    ensures whole { IsWholeVector ((operation op.now ⊙ operation generator.now).vector ⊖ (operation result).vector) }
{
    op.compose(generator).reduce()
}

/// Keeps an operation where its rotation is new.
pub fn keep(ops: &mut Vec<Op>, op: Op) -> Result<(), CloseError>
    ensures kept { OnOk result (IsWithNew ops.old.items op ops.new.items) }
    ensures refused { IfErr result (IsKeepRefusal ops.old.items op) }
{
    if place(ops, &op.rot).is_some() {
        return Ok(());
    }
    if ops.len() >= 48 || !rotation::is_small(&op.rot) {
        return Err(CloseError::Rotations);
    }
    ops.push(op)?;
    Ok(())
}

// Keeps the products of the operation at i and the generators.
fn multiply(ops: &mut Vec<Op>, generators: &[Op], i: usize) -> Result<(), CloseError>
    requires place { i < length ops.old.items }
    requires generators { All IsGenerator generators.now }
    requires denominator { HasSmallDenominator generators.now }
    requires partial { IsPartial generators.now ops.old.items }
    ensures longer { OnOk result (IsLonger ops.old.items ops.new.items) }
    ensures partial { OnOk result (IsPartial generators.now ops.new.items) }
    ensures products { OnOk result (HoldsAt (λ g. HasProducts ops.new.items (operation g).rotation generators.now (length generators.now)) ops.new.items i) }
    ensures refused { IfErr result (IsClosingRefusal generators.now) }
{
    let op = ops[i];
    for generator in generators {
        keep(ops, product(&op, generator))?;
    }
    Ok(())
}

/// One operation for each rotation that the generators generate, the identity first.
pub fn close_rotations(alloc: Global, generators: &[Op]) -> Result<Vec<Op>, CloseError>
    requires generators { All IsGenerator generators.now }
    requires denominator { HasSmallDenominator generators.now }
    ensures partial { IfOk result (λ ops. IsPartial generators.now ops.items) }
    ensures products { IfOk result (λ ops. All (λ g. HasProducts ops.items (operation g).rotation generators.now (length generators.now)) ops.items) }
    ensures refused { IfErr result (IsClosingRefusal generators.now) }
{
    let mut ops = Vec::new(alloc);
    ops.push(identity_operation())?;
    let mut i = 0;
    while i < ops.len() {
        multiply(&mut ops, generators, i)?;
        i += 1;
    }
    Ok(ops)
}

/// The first generator with each rotation of a generator.
pub fn first_of_each(alloc: Global, generators: &[Op]) -> Result<Vec<Op>, CloseError>
    ensures seeds { IfOk result (λ seeds. AreSeeds generators.now seeds.items (length generators.now)) }
    ensures refused { IfErr result (IsClosingRefusal generators.now) }
{
    let mut seeds = Vec::new(alloc);
    for generator in generators {
        keep(&mut seeds, *generator)?;
    }
    Ok(seeds)
}

// The translations of a group modulo the whole ones.
ghost use Rattle.std.specs.Prelude.{ℕ, ◌≡◌, ◌≤◌, ◌<◌, ◌+◌, length, slice_index_or, IfErr, OnOk, IfOk, IfSome, IsNone, IsTrue, ◌↔◌, List, [], ◌∷◌};
ghost use Rattle.std.specs.List.{All, HoldsAt};
ghost use Rattle.std.specs.Int.{◌∣◌};
ghost use Rattle.irr_algebra.specs.Matrix.{◌·◌, ◌⊖◌, unit, null};
ghost use Rattle.irr_number.specs.Integers.{integers};
ghost use Rattle.irr_space.specs.Operation.{◌⊙◌, translation};
ghost use Rattle.irr_space.specs.CanonicalOperation.{IsInCell};
ghost use Rattle.irr_rat.specs.Lcm.{IsLcm};
ghost use Rattle.irr_rat.specs.VectorMeaning.{vector};
ghost use Rattle.irr_seitz.specs.OperationMeaning.{operation};
ghost use Rattle.irr_seitz.specs.Rotation.{rotation_of, IsWithin};
ghost use Rattle.irr_close.specs.Limits.{HasSmallDenominator};
ghost use Rattle.irr_close.specs.Whole.{IsWholeVector};
ghost use Rattle.irr_close.specs.Closing.{IsGenerator, IsKept, IsOneOf, HasProducts, HasRotation, IsLonger};
ghost use Rattle.irr_close.specs.Centring.{IsReducedOperation, AreInvertible, AreInCell, AreOverOne, HasBothDifferences, IsSettled, IsGatherRefusal, IsSubtractRefusal, IsTurnRefusal, AreOver, AreFrom, IsQuotient, IsFactor, IsCentring, HasTranslation, HasVector, HasQuotient, IsPartialLattice, IsWithCentring, IsAddRefusal, IsLatticeRefusal};

use crate::CloseError;
use crate::closing::{place, product};
use irr_rat::Vec3;
use irr_seitz::Op;
use std::alloc::Global;
use std::cmp::Ordering;

/// The difference in the unit cell.
pub fn difference(a: &Vec3, b: &Vec3) -> Vec3
    requires small { a.now.den ≤ 100000 }
    requires other_small { b.now.den ≤ 100000 }
    requires in_cell { IsInCell (vector a.now) }
    requires other_in_cell { IsInCell (vector b.now) }
    requires denominator { (m : ℕ) → IsLcm a.now.den b.now.den m → m ≤ 100000 }
    ensures in_cell { IsInCell (vector result) }
    ensures divides { (D : ℕ) → 0 < D → a.now.den ∣ D → b.now.den ∣ D → result.den ∣ D }
    ensures whole { IsWholeVector ((vector a.now ⊖ vector b.now) ⊖ vector result) }
{
    a.sub(b).reduce()
}

/// The vector of an operation.
pub fn shift(op: &Op) -> Vec3
    ensures vector { vector result ≡ (operation op.now).vector }
    ensures denominator { result.den ≡ op.now.den }
{
    let num = op.num;
    Vec3 { num, den: op.den }
}

/// The translation by a vector.
pub fn translation_by(v: &Vec3) -> Op
    ensures translation { operation result ≡ translation (vector v.now) }
    ensures denominator { result.den ≡ v.now.den }
{
    let num = v.num;
    Op {
        rot: [[1, 0, 0], [0, 1, 0], [0, 0, 1]],
        num,
        den: v.den,
    }
}

fn is_same(a: &Vec3, b: &Vec3) -> bool
    ensures { IsTrue result ↔ (vector a.now ≡ vector b.now) }
{
    match a.cmp(b) {
        Ordering::Equal => true,
        Ordering::Less => false,
        Ordering::Greater => false,
    }
}

/// Whether a list has a vector.
pub fn has(centrings: &[Vec3], v: &Vec3) -> bool
    ensures { IsTrue result ↔ HasVector centrings.now (vector v.now) }
{
    for c in centrings {
        if is_same(c, v) {
            return true;
        }
    }
    false
}

/// Whether two vectors of the unit cell differ by a translation of the list.
pub fn is_apart(centrings: &[Vec3], a: &Vec3, b: &Vec3) -> bool
    requires in_cell { IsInCell (vector a.now) }
    requires other_in_cell { IsInCell (vector b.now) }
    requires small { a.now.den ≤ 100000 }
    requires centrings { All (λ c. IsInCell (vector c)) centrings.now }
    requires denominators { All (λ c. c.den ≤ 100000) centrings.now }
    requires common { All (λ c. (m : ℕ) → IsLcm a.now.den c.den m → m ≤ 100000) centrings.now }
    ensures { IsTrue result ↔ HasTranslation centrings.now (vector a.now ⊖ vector b.now) }
{
    for centring in centrings {
        if is_same(&difference(a, centring), b) {
            return true;
        }
    }
    false
}

/// Keeps a vector where it is new.
pub fn add(centrings: &mut Vec<Vec3>, v: Vec3) -> Result<(), CloseError>
    ensures kept { OnOk result (IsWithCentring centrings.old.items v centrings.new.items) }
    ensures refused { IfErr result (IsAddRefusal centrings.old.items v) }
{
    if has(centrings, &v) {
        return Ok(());
    }
    if centrings.len() >= 32 {
        return Err(CloseError::Centrings);
    }
    centrings.push(v)?;
    Ok(())
}

/// The translation in the unit cell that comes after a kept operation in a product.
pub fn quotient(kept: &[Op], op: &Op, factor: &Op) -> Vec3
    requires kept { All IsReducedOperation kept.now }
    requires op { IsReducedOperation op.now }
    requires factor { IsGenerator factor.now }
    requires denominator { AreOver kept.now op.now (factor.now ∷ []) }
    requires rotation { HasRotation kept.now ((operation op.now).rotation · (operation factor.now).rotation) }
    ensures is { IsQuotient kept.now (operation op.now) (operation factor.now) (vector result) }
    ensures in_cell { IsInCell (vector result) }
    ensures divides { (D : ℕ) → 0 < D → All (λ g. g.den ∣ D) kept.now → op.now.den ∣ D → factor.now.den ∣ D → result.den ∣ D }
{
    let made = product(op, factor);
    match place(kept, &made.rot) {
        Some(k) => difference(&shift(&made), &shift(&kept[k])),
        None => unreachable!(),
    }
}

/// Keeps the translations that come after kept operations in the products of one operation and some factors.
pub fn gather(
    centrings: &mut Vec<Vec3>,
    kept: &[Op],
    op: &Op,
    factors: &[Op],
) -> Result<(), CloseError>
    requires kept { All IsReducedOperation kept.now }
    requires op { IsReducedOperation op.now }
    requires factors { All IsGenerator factors.now }
    requires denominator { AreOver kept.now op.now factors.now }
    requires rotations { All (λ s. HasRotation kept.now ((operation op.now).rotation · (operation s).rotation)) factors.now }
    ensures longer { OnOk result (IsLonger centrings.old.items centrings.new.items) }
    ensures quotients { OnOk result (All (λ s. HasQuotient kept.now centrings.new.items (operation op.now) (operation s)) factors.now) }
    ensures lattice { OnOk result ((gs : List Op) → AreFrom gs kept.now op.now factors.now → IsPartialLattice gs centrings.old.items → IsPartialLattice gs centrings.new.items) }
    ensures refused { IfErr result (IsGatherRefusal kept.now op.now factors.now centrings.old.items) }
{
    for factor in factors {
        add(centrings, quotient(kept, op, factor))?;
    }
    Ok(())
}

/// Keeps the differences, both ways, of the translation at i and those up to it.
pub fn subtract(centrings: &mut Vec<Vec3>, i: usize) -> Result<(), CloseError>
    requires place { i < length centrings.old.items }
    requires in_cell { AreInCell centrings.old.items }
    ensures longer { OnOk result (IsLonger centrings.old.items centrings.new.items) }
    ensures differences { OnOk result (HoldsAt (λ a. (j : ℕ) → j ≤ i → HoldsAt (λ b. HasBothDifferences centrings.new.items a b) centrings.old.items j) centrings.old.items i) }
    ensures lattice { OnOk result ((gs : List Op) → AreInvertible gs → IsPartialLattice gs centrings.old.items → IsPartialLattice gs centrings.new.items) }
    ensures refused { IfErr result (IsSubtractRefusal centrings.old.items) }
{
    let chosen = centrings[i];
    for j in 0..i + 1 {
        let other = centrings[j];
        add(centrings, difference(&chosen, &other))?;
        add(centrings, difference(&other, &chosen))?;
    }
    Ok(())
}

/// Keeps the translation at i turned by each rotation.
pub fn turn(centrings: &mut Vec<Vec3>, kept: &[Op], i: usize) -> Result<(), CloseError>
    requires place { i < length centrings.old.items }
    requires in_cell { AreInCell centrings.old.items }
    requires kept { All IsReducedOperation kept.now }
    requires denominator { AreOverOne kept.now centrings.old.items }
    ensures longer { OnOk result (IsLonger centrings.old.items centrings.new.items) }
    ensures turned { OnOk result (HoldsAt (λ c. All (λ g. HasQuotient kept.now centrings.new.items (operation g) (translation (vector c))) kept.now) centrings.old.items i) }
    ensures lattice { OnOk result ((gs : List Op) → AreInvertible gs → All (IsKept gs) kept.now → IsPartialLattice gs centrings.old.items → IsPartialLattice gs centrings.new.items) }
    ensures refused { IfErr result (IsTurnRefusal kept.now centrings.old.items) }
{
    let chosen = [translation_by(&centrings[i])];
    for op in kept {
        gather(centrings, kept, op, &chosen)?;
    }
    Ok(())
}

/// The vector 0.
pub fn zero() -> Vec3
    ensures vector { vector result ≡ null }
    ensures denominator { result.den ≡ 1 }
{
    Vec3 {
        num: [0, 0, 0],
        den: 1,
    }
}

/// The translations of the generated group modulo the whole ones, 0 first, where the kept operations have
/// each generated rotation once, and the seeds are generators of which one has each generator's rotation: those
/// after kept operations in the products of these and the seeds, closed under differences and rotations (Schreier's
/// lemma).
pub fn close_centrings(
    alloc: Global,
    generators: &[Op],
    seeds: &[Op],
    kept: &[Op],
) -> Result<Vec<Vec3>, CloseError>
    requires generators { All IsGenerator generators.now }
    requires invertible { AreInvertible generators.now }
    requires denominator { HasSmallDenominator generators.now }
    requires seeds { All (IsOneOf generators.now) seeds.now }
    requires nonempty { 0 < length kept.now }
    requires kept { All (IsKept generators.now) kept.now }
    requires rotations { HoldsAt (λ g. All (λ s. HasRotation kept.now ((operation g).rotation · (operation s).rotation)) generators.now) kept.now 0 }
    requires products { All (λ g. HasProducts kept.now (operation g).rotation seeds.now (length seeds.now)) kept.now }
    ensures lattice { IfOk result (λ cs. IsPartialLattice generators.now cs.items) }
    ensures settled { IfOk result (λ cs. IsSettled generators.now seeds.now kept.now cs.items (length cs.items)) }
    ensures refused { IfErr result (IsLatticeRefusal generators.now) }
{
    let mut centrings = Vec::new(alloc);
    centrings.push(zero())?;
    gather(&mut centrings, kept, &kept[0], generators)?;
    for op in kept {
        gather(&mut centrings, kept, op, seeds)?;
    }
    let mut i = 0;
    while i < centrings.len() {
        subtract(&mut centrings, i)?;
        turn(&mut centrings, kept, i)?;
        i += 1;
    }
    Ok(centrings)
}

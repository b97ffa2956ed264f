// The canonical form of kept operations and translations: least vectors, the numbering, the order of translations.
ghost use Rattle.std.specs.Prelude.{ℕ, ◌≡◌, ◌<◌, ◌≤◌, ◌⊎◌, length, IfOk, IfErr};
ghost use Rattle.std.specs.List.{All};
ghost use Rattle.std.specs.Int.{◌∣◌};
ghost use Rattle.irr_rational.specs.Order.{IsAtMost};
ghost use Rattle.irr_space.specs.Operation.{component};
ghost use Rattle.irr_space.specs.CanonicalOperation.{IsInCell};
ghost use Rattle.irr_rat.specs.VectorMeaning.{vector};
ghost use Rattle.irr_seitz.specs.OperationMeaning.{operation};
ghost use Rattle.irr_close.specs.Centring.{IsReducedOperation, AreInCell, AreOverOne};
ghost use Rattle.irr_close.specs.Canonical.{IsLeastVector, IsCanonicalOf, AreCanonicalOf, IsNumberedFrom, IsSortedFrom};

use crate::centring::{difference, shift};
use crate::{CloseError, rotation};
use irr_rat::Vec3;
use irr_seitz::Op;
use std::alloc::Global;
use std::cmp::Ordering;

// The lexicographically lesser vector.
fn lesser(a: Vec3, b: Vec3) -> Vec3
    ensures one { (result ≡ a) ⊎ (result ≡ b) }
    ensures at_most { IsAtMost (component (vector result)) (component (vector a)) }
    ensures at_most_other { IsAtMost (component (vector result)) (component (vector b)) }
{
    match a.cmp(&b) {
        Ordering::Less => a,
        Ordering::Equal => a,
        Ordering::Greater => b,
    }
}

// The lexicographically least vector of the unit cell that differs from that of an operation by a translation
// of the list.
fn least_vector(op: &Op, centrings: &[Vec3]) -> Vec3
    requires nonempty { 0 < length centrings.now }
    requires op { IsInCell (operation op.now).vector }
    requires small { op.now.den ≤ 100000 }
    requires centrings { AreInCell centrings.now }
    requires denominator { (D : ℕ) × (0 < D) × (D ≤ 100000) × (op.now.den ∣ D) × All (λ c. c.den ∣ D) centrings.now }
    ensures least { IsLeastVector centrings.now (operation op.now) (vector result) }
    ensures divides { (D : ℕ) → 0 < D → op.now.den ∣ D → All (λ c. c.den ∣ D) centrings.now → result.den ∣ D }
{
    let shift = shift(op);
    let mut least = difference(&shift, &centrings[0]);
    for centring in centrings {
        least = lesser(least, difference(&shift, centring));
    }
    least
}

// The operation with the least vector of its kind.
fn canonical_operation(op: &Op, centrings: &[Vec3]) -> Op
    requires nonempty { 0 < length centrings.now }
    requires op { IsInCell (operation op.now).vector }
    requires small { op.now.den ≤ 100000 }
    requires centrings { AreInCell centrings.now }
    requires denominator { (D : ℕ) × (0 < D) × (D ≤ 100000) × (op.now.den ∣ D) × All (λ c. c.den ∣ D) centrings.now }
    ensures { IsCanonicalOf centrings.now op.now result }
{
    let rot = op.rot;
    let least = least_vector(op, centrings);
    let num = least.num;
    Op {
        rot,
        num,
        den: least.den,
    }
}

// The operations with their least vectors.
fn canonical_operations(
    alloc: Global,
    ops: &[Op],
    centrings: &[Vec3],
) -> Result<Vec<Op>, CloseError>
    requires nonempty { 0 < length centrings.now }
    requires ops { All IsReducedOperation ops.now }
    requires centrings { AreInCell centrings.now }
    requires denominator { AreOverOne ops.now centrings.now }
    ensures canonical { IfOk result (λ made. AreCanonicalOf centrings.now ops.now made.items (length ops.now)) }
    ensures memory { IfErr result (λ e. e ≡ CloseError.Memory) }
{
    let mut made = Vec::new(alloc);
    for op in ops {
        made.push(canonical_operation(op, centrings))?;
    }
    Ok(made)
}

/// The operations with their least vectors, numbered.
pub fn number(alloc: Global, ops: &[Op], centrings: &[Vec3]) -> Result<Vec<Op>, CloseError>
    requires nonempty { 0 < length centrings.now }
    requires ops { All IsReducedOperation ops.now }
    requires centrings { AreInCell centrings.now }
    requires denominator { AreOverOne ops.now centrings.now }
    ensures numbered { IfOk result (λ new. IsNumberedFrom centrings.now ops.now new.items) }
    ensures memory { IfErr result (λ e. e ≡ CloseError.Memory) }
{
    let mut numbered = canonical_operations(alloc, ops, centrings)?;
    numbered.sort_by(|a, b| rotation::compare(a, b))?;
    Ok(numbered)
}

/// The vectors in lexicographic order.
pub fn sort(vectors: Vec<Vec3>) -> Result<Vec<Vec3>, CloseError>
    ensures sorted { IfOk result (λ new. IsSortedFrom vectors.items new.items) }
    ensures memory { IfErr result (λ e. e ≡ CloseError.Memory) }
{
    let mut sorted = vectors;
    sorted.sort_by(|a, b| a.cmp(b))?;
    Ok(sorted)
}

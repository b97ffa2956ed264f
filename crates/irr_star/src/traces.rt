// Traces of full representations, and their parts on the arms.
ghost use Rattle.std.specs.Prelude.{ℕ, ◌≡◌, ◌<◌, ◌*◌, IfOk, length};
ghost use Rattle.std.specs.Int.{◌∣◌};
ghost use Rattle.irr_algebra.specs.Fin.{Fin, to_nat};
ghost use Rattle.irr_algebra.specs.Matrix.{Matrix, trace};
ghost use Rattle.irr_algebra.specs.Pair.{times};
ghost use Rattle.irr_number.specs.Number.{numbers, root_power};
ghost use Rattle.irr_canonical.specs.RootSum.{IsRootSum};
ghost use Rattle.irr_theory.specs.FactorSystem.{Representation};
ghost use Rattle.irr_space.specs.Operation.{Operation, WaveVector};
ghost use Rattle.irr_space.specs.PhaseTable.{phases_over};
ghost use Rattle.irr_seitz.specs.OperationMeaning.{operation};
ghost use Rattle.irr_seitz.specs.PhaseMeaning.{sign_of};
ghost use Rattle.irr_close.specs.StandsFor.{stands_for};
ghost use Rattle.irr_close.specs.declared.group.Group.{Group};
ghost use Rattle.irr_full.specs.Star.{Star};
ghost use Rattle.irr_full.specs.Full.{IsFullOf, block};
ghost use Rattle.irr_star.specs.Sizes.{HasSmallVector};
ghost use Rattle.irr_star.specs.Induced.{IsInduced, IsFullRepresentation};

use crate::full::Full;
use crate::lists::Block;
use crate::matrices::turned;
use irr_cyc::Scalar;
use irr_memory::Memory;
use irr_seitz::Op;
use std::alloc::Global;

impl<S: Scalar> Full<S> {
    // The trace of a block that is not 0.
    fn block_trace(&self, alloc: Global, block: &Block) -> Result<S, Memory>
        requires induced { IsFullRepresentation self.now }
        requires place { block.now.place < length self.now.family.mats.items }
        requires exponent { block.now.exponent < self.now.order.n }
        ensures order { IfOk result (λ x. S.order_of x ≡ self.now.order.n) }
        ensures trace { (group : Group) (k : WaveVector) (U : Star (sign_of group.phase) (stands_for group) k)
            (M : ℕ) (v : U.table.order ∣ M)
            (d : ℕ) (D : Representation (phases_over U.table M v) d) → IsInduced group U M v D self.now
            → (p : Fin U.places) → to_nat p ≡ block.now.place
            → IfOk result (λ x. S.value M x ≡ (numbers M).mul (root_power M block.now.exponent) (trace (D.at p))) }
    {
        let matrix = &self.family.mats[block.place as usize];
        let sum = matrix.trace(alloc)?;
        turned(alloc, &self.order, block.exponent, &sum)
    }

    /// The trace at an operation of the group whose vector has no component above 100,000: a sum of as many powers of
    /// z as there are rows. The error is want of memory.
    pub fn trace(&self, alloc: Global, op: &Op) -> Result<S, Memory>
        requires induced { IsFullRepresentation self.now }
        requires member { stands_for self.now.group (operation op.now) }
        requires small { HasSmallVector op.now }
        ensures order { IfOk result (λ x. S.order_of x ≡ self.now.order.n) }
        ensures trace { (group : Group) (k : WaveVector) (U : Star (sign_of group.phase) (stands_for group) k)
            (M : ℕ) (v : U.table.order ∣ M)
            (d : ℕ) (D : Representation (phases_over U.table M v) d) → IsInduced group U M v D self.now
            → (A : Operation → Matrix (numbers M) (times U.arms d) (times U.arms d)) → IsFullOf U M v D A
            → IfOk result (λ x. S.value M x ≡ trace (A (operation op.now))) }
        ensures size { (group : Group) (k : WaveVector) (U : Star (sign_of group.phase) (stands_for group) k)
            (M : ℕ) (v : U.table.order ∣ M)
            (d : ℕ) (D : Representation (phases_over U.table M v) d) → IsInduced group U M v D self.now
            → IfOk result (λ x. IsRootSum M (U.arms * d) 1 (S.value M x)) }
    {
        let mut sum = S::zero(alloc, &self.order)?;
        for arm in 0..self.arms() {
            let part = arm_part(alloc, self, arm, op)?;
            sum = sum.add(alloc, &part)?;
        }
        Ok(sum)
    }
}

/// The trace of the block in the row and the column of an arm, at an operation of the group whose vector has no
/// component above 100,000: a sum of as many powers of z as the small representation has rows, and 0 where the operation
/// moves the arm. The error is want of memory.
pub fn arm_part<S: Scalar>(alloc: Global, full: &Full<S>, arm: u32, op: &Op) -> Result<S, Memory>
    requires induced { IsFullRepresentation full.now }
    requires member { stands_for full.now.group (operation op.now) }
    requires small { HasSmallVector op.now }
    requires arm { arm < length full.now.arms.items }
    ensures order { IfOk result (λ x. S.order_of x ≡ full.now.order.n) }
    ensures trace { (group : Group) (k : WaveVector) (U : Star (sign_of group.phase) (stands_for group) k)
        (M : ℕ) (v : U.table.order ∣ M)
        (d : ℕ) (D : Representation (phases_over U.table M v) d) → IsInduced group U M v D full.now
        → (A : Operation → Matrix (numbers M) (times U.arms d) (times U.arms d)) → IsFullOf U M v D A → (i : Fin U.arms)
        → to_nat i ≡ arm
        → IfOk result (λ x. S.value M x ≡ trace (block d (A (operation op.now)) i i)) }
    ensures size { (group : Group) (k : WaveVector) (U : Star (sign_of group.phase) (stands_for group) k)
        (M : ℕ) (v : U.table.order ∣ M)
        (d : ℕ) (D : Representation (phases_over U.table M v) d) → IsInduced group U M v D full.now
        → IfOk result (λ x. IsRootSum M d 1 (S.value M x)) }
{
    let block = full.block(op, arm);
    if block.row != arm {
        let none = S::zero(alloc, &full.order)?;
        return Ok(none);
    }
    let part = full.block_trace(alloc, &block)?;
    Ok(part)
}

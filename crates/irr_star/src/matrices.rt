// The matrices of a full representation.
ghost use Rattle.std.specs.Prelude.{ℕ, ◌≡◌, ◌<◌, ◌≤◌, ◌*◌, ◌^◌, IfOk, length};
ghost use Rattle.std.specs.Int.{◌∣◌};
ghost use Rattle.irr_algebra.specs.Fin.{Fin, to_nat};
ghost use Rattle.irr_algebra.specs.Matrix.{Matrix, scale};
ghost use Rattle.irr_algebra.specs.Pair.{times};
ghost use Rattle.irr_number.specs.Number.{numbers, root_power};
ghost use Rattle.irr_canonical.specs.Coefficient.{denominator, size};
ghost use Rattle.irr_theory.specs.FactorSystem.{Representation};
ghost use Rattle.irr_space.specs.Operation.{Operation, WaveVector};
ghost use Rattle.irr_space.specs.PhaseTable.{phases_over};
ghost use Rattle.irr_seitz.specs.OperationMeaning.{operation};
ghost use Rattle.irr_seitz.specs.PhaseMeaning.{sign_of};
ghost use Rattle.irr_mat.specs.Entries.{IsEntry};
ghost use Rattle.irr_mat.specs.Size.{IsWithin};
ghost use Rattle.irr_rep.specs.Defects.{IsMatrix};
ghost use Rattle.irr_close.specs.StandsFor.{stands_for};
ghost use Rattle.irr_close.specs.declared.group.Group.{Group};
ghost use Rattle.irr_full.specs.Star.{Star};
ghost use Rattle.irr_full.specs.Full.{IsFullOf};
ghost use Rattle.irr_star.specs.Sizes.{HasSmallVector};
ghost use Rattle.irr_star.specs.Blocks.{AreBlocksAt};
ghost use Rattle.irr_star.specs.Induced.{IsInduced, IsFullRepresentation};

use crate::full::Full;
use crate::lists::Block;
use irr_cyc::{Order, Scalar};
use irr_mat::Mat;
use irr_memory::Memory;
use irr_seitz::Op;
use std::alloc::Global;

/// z^e times a number. The error is want of memory.
pub(crate) fn turned<S: Scalar>(alloc: Global, order: &Order, e: u32, x: &S) -> Result<S, Memory>
    requires order { S.order_of x.now ≡ order.now.n }
    requires below { e < order.now.n }
    requires denominator { let n = order.now.n in denominator n (S.value n x.now) ≤ 2 ^ 60 }
    requires size { let n = order.now.n in size n (S.value n x.now) ≤ 2 ^ 80 }
    ensures order { IfOk result (λ y. S.order_of y ≡ order.now.n) }
    ensures value { let n = order.now.n in IfOk result
        (λ y. S.value n y ≡ (numbers n).mul (root_power n e) (S.value n x.now)) }
{
    if e == 0 {
        return x.copy(alloc);
    }
    if x.is_zero() {
        return x.copy(alloc);
    }
    let root = S::root(alloc, order, e)?;
    root.mul(alloc, x)
}

impl<S: Scalar> Full<S> {
    /// The entry in row i and column j of a block that is not 0. The error is want of memory.
    pub fn block_entry(&self, alloc: Global, block: &Block, i: u32, j: u32) -> Result<S, Memory>
        requires induced { IsFullRepresentation self.now }
        requires place { block.now.place < length self.now.family.mats.items }
        requires exponent { block.now.exponent < self.now.order.n }
        requires row { i < self.now.family.dim }
        requires column { j < self.now.family.dim }
        ensures order { IfOk result (λ x. S.order_of x ≡ self.now.order.n) }
        ensures entry { (group : Group) (k : WaveVector) (U : Star (sign_of group.phase) (stands_for group) k)
            (M : ℕ) (v : U.table.order ∣ M)
            (d : ℕ) (D : Representation (phases_over U.table M v) d) → IsInduced group U M v D self.now
            → (p : Fin U.places) → to_nat p ≡ block.now.place
            → IfOk result (λ x. IsEntry (scale (numbers M) (root_power M block.now.exponent) (D.at p)) i j
            (S.value M x)) }
    {
        let matrix = &self.family.mats[block.place as usize];
        turned(alloc, &self.order, block.exponent, matrix.at(i, j))
    }

    // The entry in row i and column j of the matrix with these blocks.
    fn entry(&self, alloc: Global, blocks: &[Block], i: u32, j: u32) -> Result<S, Memory>
        requires induced { IsFullRepresentation self.now }
        requires blocks { (group : Group) (k : WaveVector) (U : Star (sign_of group.phase) (stands_for group) k)
            (M : ℕ) (v : U.table.order ∣ M)
            (d : ℕ) (D : Representation (phases_over U.table M v) d) → IsInduced group U M v D self.now
            → (g : Operation) × AreBlocksAt U M g blocks.now }
        requires row { i < length self.now.arms.items * self.now.family.dim }
        requires column { j < length self.now.arms.items * self.now.family.dim }
        ensures order { IfOk result (λ x. S.order_of x ≡ self.now.order.n) }
        ensures entry { (group : Group) (k : WaveVector) (U : Star (sign_of group.phase) (stands_for group) k)
            (M : ℕ) (v : U.table.order ∣ M)
            (d : ℕ) (D : Representation (phases_over U.table M v) d) → IsInduced group U M v D self.now
            → (A : Operation → Matrix (numbers M) (times U.arms d) (times U.arms d)) → IsFullOf U M v D A
            → (g : Operation) → stands_for group g → AreBlocksAt U M g blocks.now
            → IfOk result (λ x. IsEntry (A g) i j (S.value M x)) }
    {
        let block = blocks[(j / self.family.dim) as usize];
        if block.row != i / self.family.dim {
            let none = S::zero(alloc, &self.order)?;
            return Ok(none);
        }
        let entry = self.block_entry(alloc, &block, i % self.family.dim, j % self.family.dim)?;
        Ok(entry)
    }

    /// The matrix at an operation of the group whose vector has no component above 100,000. Its entries are sums of at
    /// most 13,824 powers of z over the denominator of the small representation. The error is want of memory.
    pub fn matrix(&self, alloc: Global, op: &Op) -> Result<Mat<S>, Memory>
        requires induced { IsFullRepresentation self.now }
        requires member { stands_for self.now.group (operation op.now) }
        requires small { HasSmallVector op.now }
        ensures { (group : Group) (k : WaveVector) (U : Star (sign_of group.phase) (stands_for group) k)
            (M : ℕ) (v : U.table.order ∣ M)
            (d : ℕ) (D : Representation (phases_over U.table M v) d) → IsInduced group U M v D self.now
            → (A : Operation → Matrix (numbers M) (times U.arms d) (times U.arms d)) → IsFullOf U M v D A
            → IfOk result (IsMatrix M (times U.arms d) (A (operation op.now))) }
    {
        let blocks = self.blocks(alloc, op)?;
        let size = self.dim();
        let mut entries = Vec::new(alloc);
        for i in 0..size {
            for j in 0..size {
                let entry = self.entry(alloc, &blocks, i, j)?;
                entries.push(entry)?;
            }
        }
        Ok(Mat::from_entries(size, size, entries))
    }
}

// Full representations.
ghost use Rattle.std.specs.Prelude.{ℕ, ◌≡◌, ◌<◌, ◌≤◌, ◌*◌, ◌↔◌, IfOk, IsTrue, length, unsigned_abs};
ghost use Rattle.std.specs.Int.{◌∣◌};
ghost use Rattle.irr_algebra.specs.Fin.{Fin, to_nat};
ghost use Rattle.irr_theory.specs.FactorSystem.{Representation};
ghost use Rattle.irr_space.specs.Operation.{WaveVector};
ghost use Rattle.irr_space.specs.PhaseTable.{phases_over};
ghost use Rattle.irr_seitz.specs.OperationMeaning.{operation};
ghost use Rattle.irr_seitz.specs.PhaseMeaning.{sign_of};
ghost use Rattle.irr_close.specs.StandsFor.{stands_for};
ghost use Rattle.irr_close.specs.declared.group.Group.{Group};
ghost use Rattle.irr_full.specs.Star.{Star};
ghost use Rattle.irr_star.specs.Sizes.{HasSmallVector};
ghost use Rattle.irr_star.specs.Blocks.{AreBlocksAt, IsBlockAt};
ghost use Rattle.irr_star.specs.Induced.{IsInduced, IsFullRepresentation};

use crate::lists::{Block, Product};
use crate::shifts::{are_all, difference, with_rotation};
use irr_close::Group;
use irr_cyc::{Order, Scalar};
use irr_little::{Arm, theta};
use irr_memory::Memory;
use irr_rep::Family;
use irr_seitz::Op;
use std::alloc::Global;

/// The full representation that a small one D of the little group of k induces (Bradley and Cracknell, sections 3.7
/// and 3.8): at g = (R|v) its block in the row of the arm i and the column of the arm j is D(n), where
/// g h_j = h_i n with n in the little group, and 0 where there is none; h are the operations of the arms, and
/// D((1|t) g_p) = theta_k(t) D(g_p).
#[derive(Drop)]
pub struct Full<S: Scalar> {
    pub(crate) group: Group,
    pub(crate) order: Order,
    pub(crate) arms: Vec<Arm>,
    pub(crate) products: Vec<Product>,
    pub(crate) family: Family<S>,
}

impl<S: Scalar> Full<S> {
    /// Whether the group has an operation.
    pub fn contains(&self, op: &Op) -> bool
        ensures { IsTrue result ↔ stands_for self.now.group (operation op.now) }
    {
        self.group.contains(op)
    }

    /// The number of arms.
    pub fn arms(&self) -> u32
        requires { IsFullRepresentation self.now }
        ensures count { result ≡ length self.now.arms.items }
        ensures arms { (group : Group) (k : WaveVector) (U : Star (sign_of group.phase) (stands_for group) k)
            (M : ℕ) (v : U.table.order ∣ M)
            (d : ℕ) (D : Representation (phases_over U.table M v) d) → IsInduced group U M v D self.now
            → result ≡ U.arms }
    {
        self.arms.len() as u32
    }

    /// The number of rows: of the small representation, times the number of arms.
    pub fn dim(&self) -> u32
        requires { IsFullRepresentation self.now }
        ensures positive { 0 < result }
        ensures rows { result ≡ length self.now.arms.items * self.now.family.dim }
        ensures dim { (group : Group) (k : WaveVector) (U : Star (sign_of group.phase) (stands_for group) k)
            (M : ℕ) (v : U.table.order ∣ M)
            (d : ℕ) (D : Representation (phases_over U.table M v) d) → IsInduced group U M v D self.now
            → result ≡ U.arms * d }
    {
        self.arms() * self.family.dim
    }

    /// The matrices of the small representation, by place.
    pub fn family(&self) -> &Family<S>
        ensures { result.now ≡ self.now.family }
    {
        &self.family
    }

    /// The block that is not 0 in the column of an arm, at an operation of the group whose vector has no component
    /// above 100,000.
    pub fn block(&self, op: &Op, column: u32) -> Block
        requires induced { IsFullRepresentation self.now }
        requires member { stands_for self.now.group (operation op.now) }
        requires small { HasSmallVector op.now }
        requires column { column < length self.now.arms.items }
        ensures row { result.row < length self.now.arms.items }
        ensures place { result.place < length self.now.family.mats.items }
        ensures exponent { result.exponent < self.now.order.n }
        ensures block { (group : Group) (k : WaveVector) (U : Star (sign_of group.phase) (stands_for group) k)
            (M : ℕ) (v : U.table.order ∣ M)
            (d : ℕ) (D : Representation (phases_over U.table M v) d) → IsInduced group U M v D self.now
            → (j : Fin U.arms) → to_nat j ≡ column → IsBlockAt U M (operation op.now) j result }
    {
        let ops = self.group.ops();
        let number = self.arms[column as usize].op;
        let both = op.compose(&ops[number as usize]);
        let product = with_rotation(&self.products, &both.rot);
        let shift = difference(&both, &product.op);
        let arm = self.arms[product.arm as usize];
        let exponent = theta(&self.group, self.order.n(), &arm.wave, &shift);
        Block {
            row: product.arm,
            place: product.place,
            exponent,
        }
    }

    /// The blocks that are not 0, column by column. The error is want of memory.
    pub fn blocks(&self, alloc: Global, op: &Op) -> Result<Vec<Block>, Memory>
        requires induced { IsFullRepresentation self.now }
        requires member { stands_for self.now.group (operation op.now) }
        requires small { HasSmallVector op.now }
        ensures count { IfOk result (λ bs. length bs.items ≡ length self.now.arms.items) }
        ensures blocks { (group : Group) (k : WaveVector) (U : Star (sign_of group.phase) (stands_for group) k)
            (M : ℕ) (v : U.table.order ∣ M)
            (d : ℕ) (D : Representation (phases_over U.table M v) d) → IsInduced group U M v D self.now
            → IfOk result (λ bs. AreBlocksAt U M (operation op.now) bs.items) }
    {
        let mut blocks = Vec::new(alloc);
        for column in 0..self.arms() {
            blocks.push(self.block(op, column))?;
        }
        Ok(blocks)
    }
}

// Whether a number is at most a limit in absolute value.
fn is_at_most(number: i64, limit: u64) -> bool
    ensures { IsTrue result ↔ (unsigned_abs number ≤ limit) }
{
    number.unsigned_abs() <= limit
}

/// Whether no component of the vector of an operation is above 100,000 in absolute value.
pub fn has_small_vector(op: &Op) -> bool
    ensures { IsTrue result ↔ HasSmallVector op.now }
{
    let limit = 100_000 * u64::from(op.den);
    are_all(
        is_at_most(op.num[0], limit),
        is_at_most(op.num[1], limit),
        is_at_most(op.num[2], limit),
    )
}

// The sum of the traces at squares.
ghost use Rattle.std.specs.Prelude.{ℕ, ◌≡◌, ◌<◌, IfOk};
ghost use Rattle.irr_algebra.specs.Fin.{Fin, to_nat};
ghost use Rattle.irr_algebra.specs.Matrix.{Matrix, trace};
ghost use Rattle.irr_number.specs.Number.{numbers, root_power};
ghost use Rattle.irr_canonical.specs.RootSum.{IsRootSum};
ghost use Rattle.irr_kvec.specs.WaveMeaning.{wave_vector};
ghost use Rattle.irr_kvec.specs.Centrings.{IsWithinLimits};
ghost use Rattle.irr_rep.specs.Twisted.{operation_places, phase_table, place_count};
ghost use Rattle.irr_little.specs.Table.{IsLittleTable};
ghost use Rattle.irr_real.specs.Families.{IsFamilyOf, IsSmallFamily};
ghost use Rattle.irr_real.specs.Squares.{IsReversalSum};

use crate::places::reversing_places;
use crate::squares::{PhasedPlace, square};
use irr_close::Group;
use irr_cyc::{Order, Scalar};
use irr_kvec::Wave;
use irr_memory::Memory;
use irr_rep::{Family, Twisted};
use std::alloc::Global;

// The trace of the matrix at a square.
fn square_trace<S: Scalar>(
    alloc: Global,
    order: &Order,
    t: &Twisted,
    f: &Family<S>,
    square: PhasedPlace,
) -> Result<S, Memory>
    requires family { IsSmallFamily (phase_table t.now) order.now.n f.now }
    requires place { square.place < place_count t.now }
    requires exponent { square.exponent < order.now.n }
    ensures order { IfOk result (λ x. S.order_of x ≡ order.now.n) }
    ensures few { let n = order.now.n in IfOk result (λ x. IsRootSum n 48 1 (S.value n x)) }
    ensures trace { let n = order.now.n in (h d : ℕ) (D : Fin h → Matrix (numbers n) d d) → IsFamilyOf n D f.now
        → (i : Fin h) → to_nat i ≡ square.place
        → IfOk result (λ x. S.value n x ≡ (numbers n).mul (root_power n square.exponent) (trace (D i))) }
{
    let matrix = &f.mats[square.place as usize];
    let phase = S::root(alloc, order, square.exponent)?;
    let sum = matrix.trace(alloc)?;
    let product = phase.mul(alloc, &sum)?;
    Ok(product)
}

/// The sum of tr D(g g) over the canonical operations g of the group that carry k to a vector equivalent to -k, for the
/// small representation D of the table t of the little group of k. The error is want of memory.
pub(crate) fn square_sum<S: Scalar>(
    alloc: Global,
    order: &Order,
    group: &Group,
    k: &Wave,
    t: &Twisted,
    f: &Family<S>,
) -> Result<S, Memory>
    requires limits { IsWithinLimits k.now }
    requires table { IsLittleTable group.now (wave_vector k.now) (operation_places t.now) (phase_table t.now) }
    requires family { IsSmallFamily (phase_table t.now) order.now.n f.now }
    ensures order { IfOk result (λ x. S.order_of x ≡ order.now.n) }
    ensures few { let n = order.now.n in IfOk result (λ x. IsRootSum n 2304 1 (S.value n x)) }
    ensures sum { let n = order.now.n in (h d : ℕ) (D : Fin h → Matrix (numbers n) d d) → IsFamilyOf n D f.now
        → IfOk result (λ x. IsReversalSum group.now (wave_vector k.now) t.now n D (S.value n x)) }
{
    let places = reversing_places(alloc, group, k)?;
    let mut sum = S::zero(alloc, order)?;
    for i in 0..places.len() {
        let square = square(group, k, t, order.n(), places[i] as usize);
        let term = square_trace(alloc, order, t, f, square)?;
        sum = sum.add(alloc, &term)?;
    }
    Ok(sum)
}

// Types of full representations.
ghost use Rattle.std.specs.Prelude.{ℕ, ◌≡◌, ◌<◌, ◌≤◌, IfOk};
ghost use Rattle.std.specs.Int.{◌∣◌};
ghost use Rattle.irr_algebra.specs.Action.{IsSimple};
ghost use Rattle.irr_algebra.specs.Ring.{whole};
ghost use Rattle.irr_number.specs.Number.{numbers};
ghost use Rattle.irr_canonical.specs.RootSum.{IsRootSum};
ghost use Rattle.irr_theory.specs.FactorSystem.{Representation};
ghost use Rattle.irr_space.specs.PhaseTable.{phases_at, phases_over};
ghost use Rattle.irr_space.specs.CompleteList.{over};
ghost use Rattle.irr_seitz.specs.PhaseMeaning.{sign_of};
ghost use Rattle.irr_kvec.specs.WaveMeaning.{wave_vector};
ghost use Rattle.irr_kvec.specs.Centrings.{IsWithinLimits};
ghost use Rattle.irr_rep.specs.Twisted.{operation_places, phase_table};
ghost use Rattle.irr_close.specs.StandsFor.{stands_for};
ghost use Rattle.irr_little.specs.Table.{IsLittleTable};
ghost use Rattle.irr_full.specs.Star.{Star};
ghost use Rattle.irr_forms.specs.Form.{FormType, type_integer, type_number};
ghost use Rattle.irr_real.specs.Families.{IsFamilyOf, IsSmallFamily};
ghost use Rattle.irr_real.specs.Answer.{IsTypeOf, IsTypeOverEach};

use crate::sums::square_sum;
use irr_close::Group;
use irr_cyc::{Order, Scalar};
use irr_kvec::Wave;
use irr_memory::Memory;
use irr_rep::{Family, Twisted};
use std::alloc::Global;

// A count as a number.
fn as_number<S: Scalar>(alloc: Global, order: &Order, count: u32) -> Result<S, Memory>
    requires admitted { S.admits order.now.n }
    requires within { count ≤ 48 }
    ensures order { IfOk result (λ x. S.order_of x ≡ order.now.n) }
    ensures value { let n = order.now.n in IfOk result (λ x. S.value n x ≡ whole (numbers n) count) }
{
    let one = S::one(alloc, order)?;
    let number = one.scale(alloc, i64::from(count), 1)?;
    Ok(number)
}

// The type whose number times `count` is the sum: 1, -1 or 0.
fn type_of_sum<S: Scalar>(alloc: Global, order: &Order, sum: &S, count: u32) -> Result<i8, Memory>
    requires order { S.order_of sum.now ≡ order.now.n }
    requires few { let n = order.now.n in IsRootSum n 2304 1 (S.value n sum.now) }
    requires positive { 0 < count }
    requires within { count ≤ 48 }
    ensures { let n = order.now.n in (x : FormType)
        → S.value n sum.now ≡ (numbers n).mul (whole (numbers n) count) (type_number (numbers n) x)
        → IfOk result (λ r. r ≡ type_integer x) }
{
    let whole = as_number(alloc, order, count)?;
    let less = sum.sub(alloc, &whole)?;
    if less.is_zero() {
        return Ok(1);
    }
    let more = sum.add(alloc, &whole)?;
    if more.is_zero() {
        return Ok(-1);
    }
    Ok(0)
}

/// The type of the full representation of a small one over the whole group (Bradley and Cracknell, sections 4.6 and
/// 7.6): 1 where it has an invariant symmetric form, -1 where it has an invariant antisymmetric one, and 0 where it
/// has none. `t` is the table of the little group of k, and `f` a small representation of it, of at most 48 rows and
/// over an order that the order of t divides, such that only multiples of one matrix intertwine it with itself. The type
/// is found by Herring's sum of tr D(g g) over the canonical operations g = (R|v) with kR equivalent to -k: the sum is
/// this number times the number of operations of the little group. The error is want of memory.
pub fn reality<S: Scalar>(
    alloc: Global,
    group: &Group,
    k: &Wave,
    t: &Twisted,
    f: &Family<S>,
) -> Result<i8, Memory>
    requires limits { IsWithinLimits k.now }
    requires table { IsLittleTable group.now (wave_vector k.now) (operation_places t.now) (phase_table t.now) }
    requires family { (M : ℕ) × IsSmallFamily (phase_table t.now) M f.now }
    ensures type_of { (U : Star (sign_of group.now.phase) (stands_for group.now) (wave_vector k.now))
        (M : ℕ) (v : U.table.order ∣ M) (d : ℕ) (D : Representation (phases_over U.table M v) d)
        → IsFamilyOf M D.at f.now → IsSimple D.at
        → IfOk result (IsTypeOf U M v D) }
    ensures every_order { (U : Star (sign_of group.now.phase) (stands_for group.now) (wave_vector k.now))
        (M : ℕ) (v : U.table.order ∣ M) (d : ℕ) (D : Representation (phases_at U.table) d)
        → IsFamilyOf M (over U.table M v D).at f.now → IsSimple D.at
        → IfOk result (IsTypeOverEach U M v D) }
{
    let order = Order::new(alloc, f.mats[0].at(0, 0).order())?;
    let sum = square_sum(alloc, &order, group, k, t, f)?;
    let answer = type_of_sum(alloc, &order, &sum, t.len())?;
    Ok(answer)
}

// Direct products.
ghost use Rattle.std.specs.Prelude.{◌≤◌, ◌*◌, IfOk, IfErr, length, map};
ghost use Rattle.irr_space.specs.Operation.{WaveVector};
ghost use Rattle.irr_seitz.specs.PhaseMeaning.{sign_of};
ghost use Rattle.irr_cyc.specs.declared.orders.TheConstants.{ORDER_LIMIT};
ghost use Rattle.irr_kvec.specs.Centrings.{IsWithinLimits};
ghost use Rattle.irr_kvec.specs.WaveMeaning.{wave_vector};
ghost use Rattle.irr_close.specs.StandsFor.{stands_for};
ghost use Rattle.irr_product.specs.Meetings.{AreEntries, AreSidesOf, HasSums};
ghost use Rattle.irr_product.specs.Products.{AreProducts, AreProductsAt, IsPairOrder, IsRefused, pair_content};

use crate::meetings::meetings;
use crate::orders::pair_order;
use crate::pairs::pairs;
use crate::sums::arm_sums;
use irr_close::Group;
use irr_cyc::{Lift, Order};
use irr_kvec::Wave;
use irr_mult::{Memory, PairParts, WorkError, characters_at, is_same, representatives};
use irr_side::{Side, side_of};
use std::alloc::Global;

/// The direct products of the full representations at two wave vectors (Bradley and Cracknell, section 4.7): for each
/// pair of labels, in the order (1,1), (1,2), .., the product of the two numbers of rows, and the full representations
/// that stand in the direct product, by wave vector and label. The error is that the exponent of the group times the
/// period of the first wave vector, or times the least common multiple of both periods, is above `ORDER_LIMIT`, or want
/// of memory.
pub fn product<S: Lift>(
    alloc: Global,
    group: &Group,
    k1: &Wave,
    k2: &Wave,
) -> Result<Vec<PairParts>, WorkError>
    requires limits { IsWithinLimits k1.now }
    requires other_limits { IsWithinLimits k2.now }
    ensures products { IfOk result (λ pairs.
        AreProductsAt group.now (wave_vector k1.now) (wave_vector k2.now) pairs.items) }
    ensures refused { IfErr result (IsRefused (stands_for group.now) (wave_vector k1.now) (wave_vector k2.now)) }
{
    let n = pair_order(group, k1, k2)?;
    let pairs = products_at::<S>(alloc, group, n, k1, k2)?;
    Ok(pairs)
}

// Those over the order n of both wave vectors.
fn products_at<S: Lift>(
    alloc: Global,
    group: &Group,
    n: u32,
    k1: &Wave,
    k2: &Wave,
) -> Result<Vec<PairParts>, Memory>
    requires limits { IsWithinLimits k1.now }
    requires other_limits { IsWithinLimits k2.now }
    requires order { IsPairOrder (stands_for group.now) (wave_vector k1.now) (wave_vector k2.now) n }
    requires within { n ≤ ORDER_LIMIT }
    ensures { IfOk result (λ pairs. AreProducts (sign_of group.now.phase) (stands_for group.now)
        (wave_vector k1.now) (wave_vector k2.now) n (map pair_content pairs.items)) }
{
    let order = Order::new(alloc, n)?;
    let left = side_of::<S>(alloc, group, k1)?;
    if is_same(k1, k2) {
        let squares = products_between(alloc, group, &order, &left, &left)?;
        return Ok(squares);
    }
    let right = side_of::<S>(alloc, group, k2)?;
    let entries = products_between(alloc, group, &order, &left, &right)?;
    Ok(entries)
}

// Those of two sides.
fn products_between<S: Lift>(
    alloc: Global,
    group: &Group,
    order: &Order,
    left: &Side<S>,
    right: &Side<S>,
) -> Result<Vec<PairParts>, Memory>
    requires { (k : WaveVector) × (l : WaveVector) × AreSidesOf group.now k l order.now.n left.now right.now }
    ensures { (k l : WaveVector) → AreSidesOf group.now k l order.now.n left.now right.now
        → IfOk result (λ pairs. AreProducts (sign_of group.now.phase) (stands_for group.now) k l order.now.n
        (map pair_content pairs.items)) }
{
    let arms = left.star.arms.as_slice();
    let others = right.star.arms.as_slice();
    let sums = arm_sums(alloc, group, order.n(), arms, others)?;
    let entries = products_of(alloc, group, order, left, right, sums.as_slice())?;
    Ok(entries)
}

// Those of two sides, with the sums of the arms.
fn products_of<S: Lift>(
    alloc: Global,
    group: &Group,
    order: &Order,
    left: &Side<S>,
    right: &Side<S>,
    sums: &[Wave],
) -> Result<Vec<PairParts>, Memory>
    requires { (k : WaveVector) × (l : WaveVector)
        × HasSums group.now k l order.now.n left.now right.now sums.now }
    ensures { (k l : WaveVector) (s : HasSums group.now k l order.now.n left.now right.now sums.now)
        → IfOk result (λ pairs. AreEntries order.now.n s.left s.right
        (length left.now.fulls.items * length right.now.fulls.items) pairs.items) }
{
    let found = representatives(alloc, group, sums)?;
    let waves = found.as_slice();
    let made = characters_at::<S>(alloc, group, waves, order)?;
    let stars = made.as_slice();
    let met = meetings(alloc, group, order, left, right, sums, stars)?;
    let entries = pairs(alloc, order, left, right, stars, met.as_slice())?;
    Ok(entries)
}

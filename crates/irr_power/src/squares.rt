// Squares of full representations.
ghost use Rattle.std.specs.Prelude.{◌≡◌, ◌≤◌, ◌*◌, ◌^◌, IfOk, IfErr, length, map};
ghost use Rattle.irr_space.specs.Operation.{WaveVector};
ghost use Rattle.irr_space.specs.Reciprocal.{IsOrder};
ghost use Rattle.irr_seitz.specs.PhaseMeaning.{sign_of};
ghost use Rattle.irr_kvec.specs.Centrings.{IsWithinLimits};
ghost use Rattle.irr_kvec.specs.WaveMeaning.{wave_vector};
ghost use Rattle.irr_close.specs.StandsFor.{stands_for};
ghost use Rattle.irr_cyc.specs.declared.orders.TheConstants.{ORDER_LIMIT};
ghost use Rattle.irr_power.specs.Meetings.{AreEntries, HasArmSums};
ghost use Rattle.irr_power.specs.Squares.{AreSquares, AreSquaresAt, IsRefused, square_entry};

use crate::entries::entries;
use crate::meetings::meetings;
use crate::orders::wave_order;
use crate::parts::SquareParts;
use irr_close::Group;
use irr_cyc::{Lift, Order};
use irr_kvec::Wave;
use irr_memory::Memory;
use irr_mult::{WorkError, characters_at, representatives};
use irr_product::arm_sums;
use irr_side::{Side, side_of};
use std::alloc::Global;

/// The symmetric and the antisymmetric square of each full representation at a wave vector (Bradley and Cracknell,
/// section 4.7), by label: their numbers of rows, and the full representations that stand in them, by wave vector and
/// label. The error is that the exponent of the group times the period of the wave vector is above `ORDER_LIMIT`, or
/// want of memory.
pub fn square<S: Lift>(
    alloc: Global,
    group: &Group,
    k: &Wave,
) -> Result<Vec<SquareParts>, WorkError>
    requires limits { IsWithinLimits k.now }
    ensures squares { IfOk result (λ squares. AreSquaresAt group.now (wave_vector k.now) squares.items) }
    ensures refused { IfErr result (IsRefused (stands_for group.now) (wave_vector k.now)) }
{
    let n = wave_order(group, k)?;
    let squares = squares_at::<S>(alloc, group, n, k)?;
    Ok(squares)
}

// Those over the order n of the wave vector.
fn squares_at<S: Lift>(
    alloc: Global,
    group: &Group,
    n: u32,
    k: &Wave,
) -> Result<Vec<SquareParts>, Memory>
    requires limits { IsWithinLimits k.now }
    requires order { IsOrder (stands_for group.now) (wave_vector k.now) n }
    requires within { n ≤ ORDER_LIMIT }
    ensures { IfOk result (λ squares. AreSquares (sign_of group.now.phase) (stands_for group.now)
        (wave_vector k.now) n (map square_entry squares.items)) }
{
    let order = Order::new(alloc, n)?;
    let side = side_of::<S>(alloc, group, k)?;
    let arms = side.star.arms.as_slice();
    let sums = arm_sums(alloc, group, n, arms, arms)?;
    let squares = squares_of(alloc, group, &order, &side, sums.as_slice())?;
    Ok(squares)
}

// Those of a side, with the sums of its arms.
fn squares_of<S: Lift>(
    alloc: Global,
    group: &Group,
    order: &Order,
    side: &Side<S>,
    sums: &[Wave],
) -> Result<Vec<SquareParts>, Memory>
    requires { (k : WaveVector) × HasArmSums group.now k order.now.n side.now sums.now }
    ensures { (k : WaveVector) (s : HasArmSums group.now k order.now.n side.now sums.now)
        → IfOk result (λ squares. AreEntries order.now.n s.is_side (length side.now.fulls.items) squares.items) }
{
    let found = representatives(alloc, group, sums)?;
    let waves = found.as_slice();
    let made = characters_at::<S>(alloc, group, waves, order)?;
    let stars = made.as_slice();
    let met = meetings(alloc, group, sums, stars)?;
    let squares = entries(alloc, order, side, stars, met.as_slice())?;
    Ok(squares)
}

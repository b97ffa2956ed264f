// Restrictions of full representations to a subgroup.
ghost use Rattle.std.specs.Prelude.{◌≤◌, IfOk, IfErr, List, length, map};
ghost use Rattle.irr_space.specs.Operation.{Operation, WaveVector};
ghost use Rattle.irr_space.specs.Reciprocal.{IsOrder};
ghost use Rattle.irr_seitz.specs.PhaseMeaning.{sign_of};
ghost use Rattle.irr_seitz.specs.declared.op.Op.{Op};
ghost use Rattle.irr_cyc.specs.declared.orders.TheConstants.{ORDER_LIMIT};
ghost use Rattle.irr_kvec.specs.Centrings.{IsWithinLimits};
ghost use Rattle.irr_kvec.specs.WaveMeaning.{wave_vector};
ghost use Rattle.irr_close.specs.StandsFor.{stands_for};
ghost use Rattle.irr_subduce.specs.Meetings.{AreEntries, HasWaves};
ghost use Rattle.irr_subduce.specs.Restrictions.{AreRestrictions, AreRestrictionsAt, IsOrderRefused, rep_content};
ghost use Rattle.irr_subduce.specs.Subgroup.{IsSub};

use crate::Sub;
use crate::entries::entries;
use crate::meetings::meetings;
use crate::orders::order_at;
use crate::waves::arm_waves;
use irr_close::Group;
use irr_cyc::{Lift, Order};
use irr_kvec::Wave;
use irr_mult::{Memory, RepParts, WorkError, characters_at, representatives};
use irr_side::{Side, side_of};
use std::alloc::Global;

/// The restrictions of the full representations at a wave vector to a subgroup (Bradley and Cracknell, section 4.1): for each
/// label the number of rows, and the full representations of the subgroup that stand in the restriction, by wave vector in the
/// basis of the subgroup and label. The error is that the order of the wave vector is above `ORDER_LIMIT`, or want of memory.
pub fn subduce<S: Lift>(
    alloc: Global,
    group: &Group,
    sub: &Sub,
    k: &Wave,
) -> Result<Vec<RepParts>, WorkError>
    requires limits { IsWithinLimits k.now }
    requires sub { (gens : List Op) × IsSub group.now sub.now.setting gens sub.now }
    ensures restrictions { IfOk result (λ reps. AreRestrictionsAt group.now sub.now (wave_vector k.now) reps.items) }
    ensures refused { IfErr result (IsOrderRefused (stands_for group.now) (wave_vector k.now)) }
{
    let n = order_at(group, k)?;
    let reps = restrictions_at::<S>(alloc, group, sub, n, k)?;
    Ok(reps)
}

// Those over the order n of the wave vector.
fn restrictions_at<S: Lift>(
    alloc: Global,
    group: &Group,
    sub: &Sub,
    n: u32,
    k: &Wave,
) -> Result<Vec<RepParts>, Memory>
    requires limits { IsWithinLimits k.now }
    requires sub { (gens : List Op) × IsSub group.now sub.now.setting gens sub.now }
    requires order { IsOrder (stands_for group.now) (wave_vector k.now) n }
    requires within { n ≤ ORDER_LIMIT }
    ensures { (gens : List Op) (s : IsSub group.now sub.now.setting gens sub.now) → IfOk result (λ reps.
        AreRestrictions (sign_of group.now.phase) (stands_for group.now) (stands_for sub.now.group) s.image
        (wave_vector k.now) n (map rep_content reps.items)) }
{
    let order = Order::new(alloc, n)?;
    let side = side_of::<S>(alloc, group, k)?;
    let arms = side.star.arms.as_slice();
    let waves = arm_waves(alloc, sub, arms)?;
    let entries = restrictions_of(alloc, group, sub, &order, &side, waves.as_slice())?;
    Ok(entries)
}

// Those of a side, with the wave vectors of its arms.
fn restrictions_of<S: Lift>(
    alloc: Global,
    group: &Group,
    sub: &Sub,
    order: &Order,
    side: &Side<S>,
    waves: &[Wave],
) -> Result<Vec<RepParts>, Memory>
    requires sub { (gens : List Op) × IsSub group.now sub.now.setting gens sub.now }
    requires waves { (image : Operation → Operation) × (k : WaveVector)
        × HasWaves group.now sub.now image k order.now.n side.now waves.now }
    ensures { (image : Operation → Operation) (k : WaveVector)
        (s : HasWaves group.now sub.now image k order.now.n side.now waves.now) → IfOk result (λ reps.
        AreEntries sub.now image order.now.n s.is_side (length side.now.fulls.items) reps.items) }
{
    let inner = sub.group();
    let found = representatives(alloc, inner, waves)?;
    let made = characters_at::<S>(alloc, inner, found.as_slice(), order)?;
    let stars = made.as_slice();
    let met = meetings(alloc, group, sub, waves, stars)?;
    let entries = entries(alloc, order, side, stars, met.as_slice())?;
    Ok(entries)
}

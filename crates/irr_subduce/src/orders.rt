// The order of the numbers at a wave vector.
ghost use Rattle.std.specs.Prelude.{◌≡◌, ◌≤◌, ◌*◌, ◌^◌, IfOk, IfErr};
ghost use Rattle.irr_space.specs.Reciprocal.{IsOrder};
ghost use Rattle.irr_kvec.specs.Centrings.{IsWithinLimits};
ghost use Rattle.irr_kvec.specs.WaveMeaning.{wave_vector};
ghost use Rattle.irr_close.specs.StandsFor.{stands_for};
ghost use Rattle.irr_cyc.specs.declared.orders.TheConstants.{ORDER_LIMIT};
ghost use Rattle.irr_subduce.specs.Restrictions.{IsOrderRefused};

use irr_close::Group;
use irr_cyc::ORDER_LIMIT;
use irr_kvec::{Wave, period};
use irr_mult::WorkError;

/// The order of the numbers at a wave vector: the exponent of the group times the period of the wave vector. The error is
/// that it is above `ORDER_LIMIT`.
pub fn order_at(group: &Group, k: &Wave) -> Result<u32, WorkError>
    requires limits { IsWithinLimits k.now }
    ensures order { IfOk result (IsOrder (stands_for group.now) (wave_vector k.now)) }
    ensures within { IfOk result (λ n. n ≤ ORDER_LIMIT) }
    ensures refused { IfErr result (IsOrderRefused (stands_for group.now) (wave_vector k.now)) }
{
    let order = own_order(group, k);
    if order > u64::from(ORDER_LIMIT) {
        return Err(WorkError::OrderTooLarge(order));
    }
    Ok(order as u32)
}

fn own_order(group: &Group, k: &Wave) -> u64
    requires limits { IsWithinLimits k.now }
    ensures { IsOrder (stands_for group.now) (wave_vector k.now) result }
{
    u64::from(group.exponent()) * u64::from(period(group.centrings(), k))
}

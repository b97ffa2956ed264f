// The order of the numbers at a wave vector.
ghost use Rattle.std.specs.Prelude.{◌≡◌, ◌≤◌, ◌*◌, ◌^◌, IfOk, IfErr};
ghost use Rattle.irr_space.specs.Reciprocal.{IsOrder, IsPeriod};
ghost use Rattle.irr_kvec.specs.Centrings.{IsWithinLimits};
ghost use Rattle.irr_kvec.specs.WaveMeaning.{wave_vector};
ghost use Rattle.irr_close.specs.StandsFor.{stands_for};
ghost use Rattle.irr_cyc.specs.declared.orders.TheConstants.{ORDER_LIMIT};
ghost use Rattle.irr_power.specs.Squares.{IsRefused};

use irr_close::Group;
use irr_cyc::ORDER_LIMIT;
use irr_kvec::{Wave, period};
use irr_mult::WorkError;

/// The order of the numbers at a wave vector: the exponent of the group times the period of the wave vector. The error is
/// that it is above `ORDER_LIMIT`.
pub fn wave_order(group: &Group, k: &Wave) -> Result<u32, WorkError>
    requires limits { IsWithinLimits k.now }
    ensures order { IfOk result (IsOrder (stands_for group.now) (wave_vector k.now)) }
    ensures within { IfOk result (λ n. n ≤ ORDER_LIMIT) }
    ensures refused { IfErr result (IsRefused (stands_for group.now) (wave_vector k.now)) }
{
    let exponent = group.exponent();
    let period = period_at(group, k);
    let order = multiple(exponent, period);
    if order > u64::from(ORDER_LIMIT) {
        return Err(WorkError::OrderTooLarge(order));
    }
    Ok(order as u32)
}

// The period of a wave vector.
fn period_at(group: &Group, k: &Wave) -> u32
    requires limits { IsWithinLimits k.now }
    ensures period { IsPeriod (stands_for group.now) (wave_vector k.now) result }
{
    period(group.centrings(), k)
}

// A multiple of a number.
fn multiple(factor: u32, number: u32) -> u64
    requires few { factor ≤ 48 }
    ensures { result ≡ factor * number }
{
    u64::from(factor) * u64::from(number)
}

// The order of the numbers for two wave vectors.
ghost use Rattle.std.specs.Prelude.{◌≡◌, ◌<◌, ◌≤◌, ◌*◌, ◌^◌, IfOk, IfErr};
ghost use Rattle.irr_rat.specs.Lcm.{IsLcm};
ghost use Rattle.irr_kvec.specs.Centrings.{IsWithinLimits};
ghost use Rattle.irr_kvec.specs.WaveMeaning.{wave_vector};
ghost use Rattle.irr_close.specs.StandsFor.{stands_for};
ghost use Rattle.irr_cyc.specs.declared.orders.TheConstants.{ORDER_LIMIT};
ghost use Rattle.irr_space.specs.Reciprocal.{IsPeriod};
ghost use Rattle.irr_product.specs.Products.{IsPairOrder, IsRefused};

use irr_close::Group;
use irr_cyc::ORDER_LIMIT;
use irr_kvec::{Wave, period};
use irr_mult::WorkError;
use irr_rat::lcm_checked;

/// The order of the numbers for direct products at two wave vectors: the exponent of the group times the least common
/// multiple of the periods p and q of the wave vectors. The error is that the exponent times p, or else this order, is
/// above `ORDER_LIMIT`.
pub fn pair_order(group: &Group, k1: &Wave, k2: &Wave) -> Result<u32, WorkError>
    requires limits { IsWithinLimits k1.now }
    requires other_limits { IsWithinLimits k2.now }
    ensures order { IfOk result (IsPairOrder (stands_for group.now) (wave_vector k1.now) (wave_vector k2.now)) }
    ensures within { IfOk result (λ n. n ≤ ORDER_LIMIT) }
    ensures refused { IfErr result (IsRefused (stands_for group.now) (wave_vector k1.now) (wave_vector k2.now)) }
{
    let exponent = group.exponent();
    let first = period_at(group, k1);
    let own = multiple(exponent, u64::from(first));
    if own > u64::from(ORDER_LIMIT) {
        return Err(WorkError::OrderTooLarge(own));
    }
    let second = period_at(group, k2);
    let order = multiple(exponent, common_multiple(first, second));
    if order > u64::from(ORDER_LIMIT) {
        return Err(WorkError::OrderTooLarge(order));
    }
    Ok(order as u32)
}

// The period of a wave vector.
fn period_at(group: &Group, k: &Wave) -> u32
    requires limits { IsWithinLimits k.now }
    ensures period { IsPeriod (stands_for group.now) (wave_vector k.now) result }
{
    period(group.centrings(), k)
}

// A multiple of a number.
fn multiple(factor: u32, number: u64) -> u64
    requires few { factor ≤ 48 }
    requires small { number ≤ 2 ^ 50 }
    ensures { result ≡ factor * number }
{
    u64::from(factor) * number
}

// The least common multiple.
fn common_multiple(p: u32, q: u32) -> u64
    requires first { 0 < p }
    requires second { 0 < q }
    requires small { p ≤ ORDER_LIMIT }
    ensures common { IsLcm p q result }
    ensures small { result ≤ 2 ^ 50 }
{
    match lcm_checked(u64::from(p), u64::from(q)) {
        Some(common) => common,
        None => unreachable!(),
    }
}

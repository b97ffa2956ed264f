// The table of a little group.
ghost use Rattle.std.specs.Prelude.{ℕ, ◌≡◌, ◌<◌, ◌≤◌, ◌*◌, IfOk, IfErr, length, slice_index, Contains};
ghost use Rattle.irr_space.specs.Reciprocal.{IsOrder};
ghost use Rattle.irr_cocycle.specs.SubgroupTable.{IsOrderAt};
ghost use Rattle.irr_cyc.specs.declared.orders.TheConstants.{ORDER_LIMIT};
ghost use Rattle.irr_rep.specs.declared.table.TheConstants.{PLACES_LIMIT};
ghost use Rattle.irr_rep.specs.Table.{AreEntries};
ghost use Rattle.irr_rep.specs.Twisted.{phase_table, operation_places};
ghost use Rattle.irr_kvec.specs.WaveMeaning.{wave_vector};
ghost use Rattle.irr_kvec.specs.Centrings.{IsWithinLimits};
ghost use Rattle.irr_close.specs.StandsFor.{stands_for};
ghost use Rattle.irr_little.specs.Places.{AreLittlePlaces};
ghost use Rattle.irr_little.specs.Table.{IsLittleTable, IsLittleRefusal};
ghost use Rattle.irr_little.specs.Entries.{AreClosed, IsProductEntry, IsPhaseEntry};

use crate::LittleError;
use crate::phase::theta;
use crate::places::little_places;
use crate::product::product;
use irr_close::Group;
use irr_cyc::ORDER_LIMIT;
use irr_kvec::{Wave, period};
use irr_memory::Memory;
use irr_rep::Twisted;
use std::alloc::Global;

/// The table of phases of the little group of a wave vector (Bradley and Cracknell, section 3.7): the product
/// of the canonical operations g_i and g_j is (1|t) g_l, and z^x = exp(2 pi i s k.t) for the group's sign s.
/// The order of z is the exponent of the group times the period of the wave vector. The places are the
/// numbers of the operations in `Group::ops`.
pub fn little(alloc: Global, group: &Group, k: &Wave) -> Result<Twisted, LittleError>
    requires limits { IsWithinLimits k.now }
    ensures table { IfOk result (λ t. IsLittleTable group.now (wave_vector k.now) (operation_places t) (phase_table t)) }
    ensures accepted { IfOk result (λ t. (phase_table t).order ≤ ORDER_LIMIT) }
    ensures refused { IfErr result (IsLittleRefusal group.now (wave_vector k.now)) }
{
    let order = order(group, k);
    if order > u64::from(ORDER_LIMIT) {
        return Err(LittleError::OrderTooLarge(order));
    }
    let places = little_places(alloc, group, k)?;
    let t = table(alloc, group, k, order as u32, places)?;
    Ok(t)
}

// The exponent of the group times the period of the wave vector.
fn order(group: &Group, k: &Wave) -> u64
    requires limits { IsWithinLimits k.now }
    ensures { IsOrder (stands_for group.now) (wave_vector k.now) result }
{
    u64::from(group.exponent()) * u64::from(period(group.centrings(), k))
}

// The table of the operations of the little group.
fn table(
    alloc: Global,
    group: &Group,
    k: &Wave,
    order: u32,
    places: Vec<u32>,
) -> Result<Twisted, Memory>
    requires limits { IsWithinLimits k.now }
    requires order { IsOrder (stands_for group.now) (wave_vector k.now) order }
    requires within { order ≤ ORDER_LIMIT }
    requires places { AreLittlePlaces group.now (wave_vector k.now) places.items }
    ensures { IfOk result (λ t. IsLittleTable group.now (wave_vector k.now) (operation_places t) (phase_table t)) }
{
    let (products, exponents) = entries(alloc, group, k, order, &places)?;
    let t = Twisted::new(alloc, order, products, exponents, places)?;
    Ok(t)
}

/// The products, as positions among the places, and the exponents of their phases over a multiple of the order of the wave
/// vector, row by row.
pub(crate) fn entries(
    alloc: Global,
    group: &Group,
    k: &Wave,
    order: u32,
    places: &[u32],
) -> Result<(Vec<u32>, Vec<u32>), Memory>
    requires limits { IsWithinLimits k.now }
    requires order { IsOrderAt (stands_for group.now) (wave_vector k.now) order }
    requires within { order ≤ ORDER_LIMIT }
    requires closed { AreClosed group.now places.now }
    ensures products { IfOk result (λ v. AreEntries (length places.now) (IsProductEntry group.now places.now) v.0.items) }
    ensures exponents { IfOk result (λ v.
        AreEntries (length places.now) (IsPhaseEntry group.now (wave_vector k.now) order places.now) v.1.items) }
    ensures full { IfOk result (λ v. length v.0.items ≡ length places.now * length places.now) }
    ensures all_exponents { IfOk result (λ v. length v.1.items ≡ length places.now * length places.now) }
{
    let mut products = Vec::new(alloc);
    let mut exponents = Vec::new(alloc);
    for &i in places {
        for &j in places {
            let both = product(group, i as usize, j as usize);
            products.push(position(places, both.op))?;
            exponents.push(theta(group, order, k, &both.shift))?;
        }
    }
    Ok((products, exponents))
}

// The first position of a value in a list.
fn position(list: &[u32], value: u32) -> u32
    requires short { length list.now ≤ PLACES_LIMIT }
    requires inside { Contains list.now value }
    ensures within { result < length list.now }
    ensures value { slice_index list.now result ≡ value }
{
    list.iter().position(|entry| *entry == value).unwrap() as u32
}

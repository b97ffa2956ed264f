// The table of a site group.
ghost use Rattle.std.specs.Prelude.{ℕ, ◌≡◌, ◌<◌, ◌≤◌, ◌*◌, IfOk, length, slice_index, Contains};
ghost use Rattle.std.specs.Int.{◌∣◌};
ghost use Rattle.irr_space.specs.Operation.{Vector};
ghost use Rattle.irr_space.specs.SpaceGroup.{IsExponent};
ghost use Rattle.irr_seitz.specs.declared.op.Op.{Op};
ghost use Rattle.irr_cyc.specs.declared.orders.TheConstants.{ORDER_LIMIT};
ghost use Rattle.irr_rep.specs.declared.table.TheConstants.{PLACES_LIMIT};
ghost use Rattle.irr_rep.specs.Table.{AreEntries};
ghost use Rattle.irr_rep.specs.Twisted.{phase_table, operation_places};
ghost use Rattle.irr_close.specs.StandsFor.{stands_for};
ghost use Rattle.irr_orbit.specs.SiteTable.{IsSiteTable};
ghost use Rattle.irr_site.specs.Orbits.{fixing_at};
ghost use Rattle.irr_site.specs.Points.{AreSitePlaces};
ghost use Rattle.irr_site.specs.Products.{AreProducts};
ghost use Rattle.irr_site.specs.Tables.{IsPlaceProduct};

use crate::products::read;
use irr_close::Group;
use irr_memory::Memory;
use irr_rep::Twisted;
use std::alloc::Global;

// The first position of a number in a list.
fn position(list: &[u32], number: u32) -> u32
    requires short { length list.now ≤ PLACES_LIMIT }
    requires inside { Contains list.now number }
    ensures within { result < length list.now }
    ensures number { slice_index list.now result ≡ number }
{
    list.iter().position(|entry| *entry == number).unwrap() as u32
}

// The products of the operations with these numbers, as positions among them, and exponents 0, row by row.
fn entries(
    alloc: Global,
    group: &Group,
    products: &[u32],
    places: &[u32],
) -> Result<(Vec<u32>, Vec<u32>), Memory>
    requires products { AreProducts group.now products.now }
    requires places { (x : Vector) × AreSitePlaces group.now x places.now }
    ensures full { IfOk result (λ v. length v.0.items ≡ length places.now * length places.now) }
    ensures all_exponents { IfOk result (λ v. length v.1.items ≡ length places.now * length places.now) }
    ensures products { IfOk result (λ v. AreEntries (length places.now) (IsPlaceProduct group.now places.now) v.0.items) }
    ensures exponents { IfOk result (λ v. AreEntries (length places.now) (λ a b x. x ≡ 0) v.1.items) }
{
    let mut table = Vec::new(alloc);
    let mut exponents = Vec::new(alloc);
    for &i in places {
        for &j in places {
            let number = read(group, products, i as usize, j as usize);
            table.push(position(places, number as u32))?;
            exponents.push(0)?;
        }
    }
    Ok((table, exponents))
}

/// The table of a site group, whose operations have the rotations of these numbers, with no phases, of an order that
/// the exponent of the group divides. The error is want of memory.
pub(crate) fn site_table(
    alloc: Global,
    group: &Group,
    order: u32,
    products: &[u32],
    places: Vec<u32>,
) -> Result<Twisted, Memory>
    requires products { AreProducts group.now products.now }
    requires places { (x : Vector) × AreSitePlaces group.now x places.items }
    requires positive { 0 < order }
    requires within { order ≤ ORDER_LIMIT }
    requires divides { (e : ℕ) × IsExponent (stands_for group.now) e × (e ∣ order) }
    ensures places { IfOk result (λ t. operation_places t ≡ places.items) }
    ensures table { (x : Vector) → AreSitePlaces group.now x places.items
        → IfOk result (λ t. (d : Op) → IsSiteTable order (fixing_at group.now x places.items d) (phase_table t)) }
{
    let (table, exponents) = entries(alloc, group, products, &places)?;
    let t = Twisted::new(alloc, order, table, exponents, places)?;
    Ok(t)
}

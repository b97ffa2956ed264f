// What is left of an operation that carries a site to itself: an operation of the site group, and a phase.
ghost use Rattle.std.specs.Prelude.{ℕ, ◌≡◌, ◌<◌, ◌≤◌, ◌*◌, ◌+◌, All, IfOk, IfSome, IsNone, length, slice_index, slice_index_or, unsigned_abs};
ghost use Rattle.irr_algebra.specs.Fin.{Fin, to_nat};
ghost use Rattle.irr_algebra.specs.Matrix.{◌·◌, ◌⊕◌, ◌⊖◌};
ghost use Rattle.irr_rational.specs.Integer.{whole_matrix};
ghost use Rattle.irr_rational.specs.Rational.{rationals};
ghost use Rattle.irr_rational.specs.Ratio.{entry};
ghost use Rattle.irr_space.specs.Operation.{◌⊙◌};
ghost use Rattle.irr_space.specs.Reciprocal.{IsOrder};
ghost use Rattle.irr_rat.specs.VectorMeaning.{Fits, vector};
ghost use Rattle.irr_seitz.specs.OperationMeaning.{operation};
ghost use Rattle.irr_seitz.specs.PhaseMeaning.{sign_of};
ghost use Rattle.irr_seitz.specs.declared.op.Op.{Op};
ghost use Rattle.irr_kvec.specs.Centrings.{IsWithinLimits};
ghost use Rattle.irr_kvec.specs.WaveMeaning.{wave_vector};
ghost use Rattle.irr_cyc.specs.declared.orders.TheConstants.{ORDER_LIMIT};
ghost use Rattle.irr_rep.specs.Twisted.{operation_places, place_count};
ghost use Rattle.irr_little.specs.Table.{listed_operations};
ghost use Rattle.irr_close.specs.StandsFor.{stands_for};
ghost use Rattle.irr_orbit.specs.Site.{Orbit, carrier as carrier_of};
ghost use Rattle.irr_site.specs.Orbits.{HasPlaces, HasSites};
ghost use Rattle.irr_site.specs.Numbers.{AreNumbers};
ghost use Rattle.irr_site.specs.Points.{AreSitePlaces, IsPoint};
ghost use Rattle.irr_site.specs.Products.{AreProducts, rotation_at};
ghost use Rattle.irr_site.specs.Rests.{AreAllRests, AreRests, IsConjugate, IsRestAt};

use crate::coordinates::{shift, turned};
use crate::products::read;
use crate::rest::{Numbers, Rest};
use irr_close::Group;
use irr_kvec::Wave;
use irr_little::theta;
use irr_memory::Memory;
use irr_rat::Vec3;
use irr_rep::Twisted;
use irr_seitz::Op;
use std::alloc::Global;

// The place of the site group whose rotation S has R_a S = R R_a, for the rotation R of the operation `op` and that of
// the carrier, R_a; none where there is none.
fn rest_place(
    group: &Group,
    products: &[u32],
    places: &[u32],
    op: usize,
    carrier: usize,
) -> Option<u32>
    requires products { AreProducts group.now products.now }
    requires places { All (λ p. p < length group.now.ops.items) places.now }
    requires short { length places.now ≤ 48 }
    requires left { op < length group.now.ops.items }
    requires right { carrier < length group.now.ops.items }
    ensures some { IfSome result (λ n. (n < length places.now)
        × IsConjugate group.now op carrier (slice_index places.now n)) }
    ensures none { IsNone result → (n : ℕ) → n < length places.now
        → IsConjugate group.now op carrier (slice_index places.now n) → ⊥ }
{
    let moved = read(group, products, op, carrier);
    for n in 0..places.len() {
        if read(group, products, carrier, places[n] as usize) == moved {
            return Some(n as u32);
        }
    }
    None
}

// The vector of g h_a less that of h_a, for the operations with the numbers `op` and `carrier`.
fn moved_shift(group: &Group, op: usize, carrier: usize) -> Vec3
    requires left { op < length group.now.ops.items }
    requires right { carrier < length group.now.ops.items }
    ensures vector { (d : Op) → let g = operation (slice_index_or group.now.ops.items op d) in
        let h = operation (slice_index_or group.now.ops.items carrier d) in
        vector result ≡ (g ⊙ h).vector ⊖ h.vector }
    ensures small { (i : Fin 3) → unsigned_abs (entry result.num i) ≤ 29 * result.den }
    ensures denominator { result.den ≤ 100000 }
{
    let ops = group.ops();
    let both = ops[op].compose(&ops[carrier]);
    difference(&both, &ops[carrier])
}

// The difference of the vectors of two operations.
fn difference(g: &Op, h: &Op) -> Vec3
    requires { Fits ((operation g.now).vector ⊖ (operation h.now).vector) }
    ensures { vector result ≡ (operation g.now).vector ⊖ (operation h.now).vector }
{
    shift(g).sub(&shift(h))
}

// A point after the rotation of an operation, less that after the rotation of another one.
fn turned_difference(group: &Group, x: &Vec3, op: usize, other: usize) -> Vec3
    requires point { IsPoint x.now }
    requires left { op < length group.now.ops.items }
    requires right { other < length group.now.ops.items }
    ensures vector { (d : Op) → vector result ≡ (whole_matrix rationals (rotation_at group.now op d) · vector x.now)
        ⊖ (whole_matrix rationals (rotation_at group.now other d) · vector x.now) }
    ensures small { (i : Fin 3) → unsigned_abs (entry result.num i) ≤ 54000000 * result.den }
    ensures denominator { result.den ≤ 1000 }
{
    let ops = group.ops();
    turned(&ops[op], x).sub(&turned(&ops[other], x))
}

// The vector t with g x_a = x_a + t, for the operation g with the number `op`, the site to which that with the number
// `carrier` carries x, and the number of the product of their rotations.
fn translation_at(group: &Group, x: &Vec3, op: usize, carrier: usize, both: usize) -> Vec3
    requires point { IsPoint x.now }
    requires left { op < length group.now.ops.items }
    requires right { carrier < length group.now.ops.items }
    requires both { both < length group.now.ops.items }
    ensures vector { (d : Op) → let g = operation (slice_index_or group.now.ops.items op d) in
        let h = operation (slice_index_or group.now.ops.items carrier d) in
        vector result ≡ ((g ⊙ h).vector ⊖ h.vector)
        ⊕ ((whole_matrix rationals (rotation_at group.now both d) · vector x.now) ⊖ (whole_matrix rationals h.rotation · vector x.now)) }
    ensures small { (i : Fin 3) → unsigned_abs (entry result.num i) ≤ 54000029 * result.den }
{
    moved_shift(group, op, carrier).add(&turned_difference(group, x, both, carrier))
}

// What is left of an operation at the site to which the operation with the number `carrier` carries the point.
fn rest(
    group: &Group,
    k: &Wave,
    x: &Vec3,
    order: u32,
    products: &[u32],
    places: &[u32],
    op: usize,
    carrier: usize,
) -> Option<Rest>
    requires limits { IsWithinLimits k.now }
    requires point { IsPoint x.now }
    requires order { IsOrder (stands_for group.now) (wave_vector k.now) order }
    requires within { order ≤ ORDER_LIMIT }
    requires products { AreProducts group.now products.now }
    requires places { AreSitePlaces group.now (vector x.now) places.now }
    requires orbit { (O : Orbit (stands_for group.now) (vector x.now)) × HasPlaces group.now places.now O
        × (a : Fin O.sites) × ((d : Op) → carrier_of O a ≡ operation (slice_index_or group.now.ops.items carrier d)) }
    requires left { op < length group.now.ops.items }
    requires right { carrier < length group.now.ops.items }
    ensures { (O : Orbit (stands_for group.now) (vector x.now)) → HasPlaces group.now places.now O → (a : Fin O.sites)
        → ((d : Op) → carrier_of O a ≡ operation (slice_index_or group.now.ops.items carrier d)) → (d : Op)
        → IsRestAt (sign_of group.now.phase) (wave_vector k.now) order O (operation (slice_index_or group.now.ops.items op d)) a result }
{
    let Some(place) = rest_place(group, products, places, op, carrier) else {
        return None;
    };
    let both = read(group, products, op, carrier);
    let shift = translation_at(group, x, op, carrier, both);
    let exponent = theta(group, order, k, &shift);
    Some(Rest { place, exponent })
}

// What is left of an operation at each site. The error is want of memory.
fn rests(
    alloc: Global,
    group: &Group,
    k: &Wave,
    x: &Vec3,
    order: u32,
    numbers: &Numbers,
    op: usize,
) -> Result<Vec<Option<Rest>>, Memory>
    requires limits { IsWithinLimits k.now }
    requires point { IsPoint x.now }
    requires order { IsOrder (stands_for group.now) (wave_vector k.now) order }
    requires within { order ≤ ORDER_LIMIT }
    requires numbers { AreNumbers group.now (vector x.now) numbers.now }
    requires orbit { (O : Orbit (stands_for group.now) (vector x.now))
        × HasPlaces group.now numbers.now.places.items O × HasSites group.now numbers.now.sites.items O }
    requires left { op < length group.now.ops.items }
    ensures { (O : Orbit (stands_for group.now) (vector x.now)) → HasPlaces group.now numbers.now.places.items O
        → HasSites group.now numbers.now.sites.items O → (d : Op)
        → IfOk result (λ rs. AreRests (sign_of group.now.phase) (wave_vector k.now) order O
        (operation (slice_index_or group.now.ops.items op d)) rs.items) }
{
    let products = numbers.products.as_slice();
    let places = numbers.places.as_slice();
    let mut rests = Vec::new(alloc);
    for &site in numbers.sites.as_slice() {
        rests.push(rest(group, k, x, order, products, places, op, site as usize))?;
    }
    Ok(rests)
}

/// What is left of each operation of the little group at each site. The error is want of memory.
pub(crate) fn all_rests(
    alloc: Global,
    group: &Group,
    k: &Wave,
    x: &Vec3,
    order: u32,
    numbers: &Numbers,
    t: &Twisted,
) -> Result<Vec<Vec<Option<Rest>>>, Memory>
    requires limits { IsWithinLimits k.now }
    requires point { IsPoint x.now }
    requires order { IsOrder (stands_for group.now) (wave_vector k.now) order }
    requires within { order ≤ ORDER_LIMIT }
    requires little { All (λ p. p < length group.now.ops.items) (operation_places t.now) }
    requires numbers { AreNumbers group.now (vector x.now) numbers.now }
    requires orbit { (O : Orbit (stands_for group.now) (vector x.now))
        × HasPlaces group.now numbers.now.places.items O × HasSites group.now numbers.now.sites.items O }
    ensures { (O : Orbit (stands_for group.now) (vector x.now)) → HasPlaces group.now numbers.now.places.items O
        → HasSites group.now numbers.now.sites.items O → (d : Op)
        → IfOk result (λ rows. AreAllRests (sign_of group.now.phase) (wave_vector k.now) order O {h = place_count t.now}
        (listed_operations group.now (place_count t.now) (operation_places t.now) d) rows.items) }
{
    let mut rows = Vec::new(alloc);
    for i in 0..t.len() {
        let row = rests(alloc, group, k, x, order, numbers, t.place(i) as usize)?;
        rows.push(row)?;
    }
    Ok(rows)
}

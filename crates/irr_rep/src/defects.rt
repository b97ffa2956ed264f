// Where a family first fails to be a small representation.
ghost use Rattle.std.specs.Prelude.{ℕ, ◌≡◌, ◌<◌, ◌≤◌, ◌*◌, ◌/◌, ◌↔◌, All, Contains, IfOk, IsTrue};
ghost use Rattle.std.specs.Int.{◌∣◌};
ghost use Rattle.irr_algebra.specs.Fin.{Fin, to_nat};
ghost use Rattle.irr_algebra.specs.Matrix.{scale, unit};
ghost use Rattle.irr_algebra.specs.Ring.{whole};
ghost use Rattle.irr_number.specs.Number.{numbers};
ghost use Rattle.irr_space.specs.PhaseTable.{phases_over};
ghost use Rattle.irr_cyc.specs.declared.orders.TheConstants.{ORDER_LIMIT};
ghost use Rattle.irr_mat.specs.Entries.{first_order};
ghost use Rattle.irr_rep.specs.Family.{matrix_at};
ghost use Rattle.irr_rep.specs.Twisted.{place_count, phase_table};
ghost use Rattle.irr_rep.specs.Defects.{IsCheckable, IsFirstDefect, IsFirstFailure, IsMatrix, MultipliesBy};

use crate::cleared::{common_denominator, multiple_of_power, multiples};
use crate::family::{Defect, Family};
use crate::generators::generators;
use crate::table::Twisted;
use irr_cyc::{Order, Scalar};
use irr_mat::Mat;
use irr_memory::Memory;
use std::alloc::Global;

/// Where a family first fails to be a small representation of a table: None exactly where it is one, `Unit`
/// exactly where the matrix at the unit is not the unit matrix, and else the first pair of places, row by row,
/// whose product is not the phase times the matrix at their product.
///
/// Where the products in the rows of generators of the table are right, all are, by the cocycle law. So a small
/// representation costs as many products of matrices as there are places, for each of at most 5 generators. Only
/// another family is searched, row by row, over the pairs up to the first wrong one.
///
/// The family has a square matrix of at most 48 rows for each place, whose entries have an order that the
/// table's order divides. Over one denominator up to 4096, each entry is a sum of at most 2^30 powers of z with
/// signs. The error is want of memory.
pub fn first_defect<S: Scalar>(
    alloc: Global,
    t: &Twisted,
    f: &Family<S>,
) -> Result<Option<Defect>, Memory>
    requires { IsCheckable (phase_table t.now) f.now.dim f.now.mats.items }
    ensures { IfOk result (λ defect. (p : IsCheckable (phase_table t.now) f.now.dim f.now.mats.items)
        → IsFirstDefect (phase_table t.now) p.n p.divides f.now.dim f.now.mats.items defect) }
{
    if !has_unit(alloc, t, f)? {
        return Ok(Some(Defect::Unit));
    }
    let number = common_denominator(alloc, f)?;
    let mats = multiples(alloc, f, number)?;
    let cleared = Family { dim: f.dim, mats };
    let places = generators(alloc, t)?;
    if rows_multiply(alloc, t, &cleared, number, places.as_slice())? {
        return Ok(None);
    }
    for i in 0..t.len() {
        if let Some(j) = first_wrong(alloc, t, &cleared, number, i)? {
            return Ok(Some(Defect::Product { i, j }));
        }
    }
    Ok(None)
}

// Whether the matrix at the unit is the unit matrix.
fn has_unit<S: Scalar>(alloc: Global, t: &Twisted, f: &Family<S>) -> Result<bool, Memory>
    requires { IsCheckable (phase_table t.now) f.now.dim f.now.mats.items }
    ensures { IfOk result (λ holds. (p : IsCheckable (phase_table t.now) f.now.dim f.now.mats.items)
        → IsTrue holds ↔ (matrix_at p.n f.now.dim f.now.mats.items (phase_table t.now).start ≡ unit (numbers p.n) f.now.dim)) }
{
    let first = &f.mats[0];
    let order = Order::new(alloc, first.at(0, 0).order())?;
    let unit = Mat::unit(alloc, &order, f.dim)?;
    Ok(first.equal(&unit))
}

// Whether the products in the rows of some places are right, in a family times a number.
fn rows_multiply<S: Scalar>(
    alloc: Global,
    t: &Twisted,
    f: &Family<S>,
    number: u32,
    places: &[u32],
) -> Result<bool, Memory>
    requires checkable { IsCheckable (phase_table t.now) f.now.dim f.now.mats.items }
    requires positive { 0 < number }
    requires limited { number ≤ 4096 }
    requires below { All (λ i. i < place_count t.now) places.now }
    ensures { IfOk result (λ right. (p : IsCheckable (phase_table t.now) f.now.dim f.now.mats.items)
        → IsTrue right ↔ ((a b : Fin (place_count t.now)) → Contains places.now (to_nat a)
        → MultipliesBy (phase_table t.now) p.n p.divides f.now.dim f.now.mats.items number a b)) }
{
    for i in places {
        if first_wrong(alloc, t, f, number, *i)?.is_some() {
            return Ok(false);
        }
    }
    Ok(true)
}

// The first place j at which the product of the matrices at i and j is wrong, in a family times a number.
fn first_wrong<S: Scalar>(
    alloc: Global,
    t: &Twisted,
    f: &Family<S>,
    number: u32,
    i: u32,
) -> Result<Option<u32>, Memory>
    requires checkable { IsCheckable (phase_table t.now) f.now.dim f.now.mats.items }
    requires positive { 0 < number }
    requires limited { number ≤ 4096 }
    requires place { i < place_count t.now }
    ensures { IfOk result (λ wrong. (p : IsCheckable (phase_table t.now) f.now.dim f.now.mats.items) (a : Fin (place_count t.now)) → to_nat a ≡ i
        → IsFirstFailure (MultipliesBy (phase_table t.now) p.n p.divides f.now.dim f.now.mats.items number a) wrong) }
{
    for j in 0..t.len() {
        if !multiplies(alloc, t, f, number, i, j)? {
            return Ok(Some(j));
        }
    }
    Ok(None)
}

// Whether the product of the matrices at i and j is right, in a family times a number.
fn multiplies<S: Scalar>(
    alloc: Global,
    t: &Twisted,
    f: &Family<S>,
    number: u32,
    i: u32,
    j: u32,
) -> Result<bool, Memory>
    requires checkable { IsCheckable (phase_table t.now) f.now.dim f.now.mats.items }
    requires positive { 0 < number }
    requires limited { number ≤ 4096 }
    requires row { i < place_count t.now }
    requires column { j < place_count t.now }
    ensures { IfOk result (λ holds. (p : IsCheckable (phase_table t.now) f.now.dim f.now.mats.items) (a b : Fin (place_count t.now))
        → to_nat a ≡ i → to_nat b ≡ j
        → IsTrue holds ↔ MultipliesBy (phase_table t.now) p.n p.divides f.now.dim f.now.mats.items number a b) }
{
    let product = f.mats[i as usize].mul(alloc, &f.mats[j as usize])?;
    let expected = expected_product(alloc, t, f, number, i, j)?;
    Ok(product.equal(&expected))
}

// A number times the phase of places i and j times the matrix at their product.
fn expected_product<S: Scalar>(
    alloc: Global,
    t: &Twisted,
    f: &Family<S>,
    number: u32,
    i: u32,
    j: u32,
) -> Result<Mat<S>, Memory>
    requires checkable { IsCheckable (phase_table t.now) f.now.dim f.now.mats.items }
    requires positive { 0 < number }
    requires limited { number ≤ 4096 }
    requires row { i < place_count t.now }
    requires column { j < place_count t.now }
    ensures { IfOk result (λ m. (p : IsCheckable (phase_table t.now) f.now.dim f.now.mats.items) (a b : Fin (place_count t.now))
        → to_nat a ≡ i → to_nat b ≡ j
        → IsMatrix p.n f.now.dim (scale (numbers p.n) ((numbers p.n).mul (whole (numbers p.n) number) ((phases_over (phase_table t.now) p.n p.divides).phase a b))
        (matrix_at p.n f.now.dim f.now.mats.items ((phase_table t.now).product a b))) m) }
{
    let matrix = &f.mats[t.table(i, j) as usize];
    let order = Order::new(alloc, matrix.at(0, 0).order())?;
    let phase = multiple_of_power(alloc, &order, number, phase_exponent(t, order.n(), i, j))?;
    matrix.scale(alloc, &phase)
}

// The exponent of z of the order n in the phase of places i and j.
fn phase_exponent(t: &Twisted, n: u32, i: u32, j: u32) -> u32
    requires divides { (phase_table t.now).order ∣ n }
    requires positive { 0 < n }
    requires limited { n ≤ ORDER_LIMIT }
    requires row { i < place_count t.now }
    requires column { j < place_count t.now }
    ensures within { result < n }
    ensures exponent { (p q : Fin (place_count t.now)) → to_nat p ≡ i → to_nat q ≡ j
        → result ≡ (phase_table t.now).exponent p q * (n / (phase_table t.now).order) }
{
    t.phase(i, j) * (n / t.order())
}

#[cfg(test)]
mod tests;

// One extension of a family, from its traces.
ghost use Rattle.std.specs.Prelude.{ℕ, ◌≡◌, ◌<◌, List, IfOk, slice_index};
ghost use Rattle.irr_algebra.specs.Fin.{Fin, to_nat};
ghost use Rattle.irr_number.specs.Number.{root_power};
ghost use Rattle.irr_theory.specs.FactorSystem.{Representation};
ghost use Rattle.irr_rep.specs.Defects.{IsMatrix};
ghost use Rattle.irr_rep.specs.Twisted.{phase_table, place_count};
ghost use Rattle.irr_climb.specs.Extensions.{HasExtension, HasSmallProducts};
ghost use Rattle.irr_climb.specs.Families.{IsRead};
ghost use Rattle.irr_climb.specs.Steps.{IsStep, large};

use crate::extensions::multiples::{copied, multiple};
use crate::extensions::terms::{coset_matrix, root_exponent};
use crate::step::Step;
use irr_cyc::{Order, Scalar};
use irr_mat::Mat;
use irr_memory::Memory;
use irr_rep::Family;
use std::alloc::Global;

// The place g n for the member n.
fn coset_place(step: &Step, n: u32) -> u32
    requires step { (M : ℕ) × IsStep M step.now }
    requires member { n < place_count step.now.inner }
    ensures within { result < place_count step.now.outer }
    ensures coset { slice_index step.now.exponents.items result ≡ 1 }
    ensures place { (M : ℕ) (is : IsStep M step.now) (q : Fin (place_count step.now.inner)) → to_nat q ≡ n
        → result ≡ to_nat ((phase_table step.now.outer).product is.quotient.generator (is.part.place q)) }
{
    step.outer.table(step.generator, step.members[n as usize])
}

// The exponent of the inverse of the phase of g and a place.
fn inverse_exponent(order: &Order, step: &Step, y: u32) -> u32
    requires step { IsStep order.now.n step.now }
    requires place { y < place_count step.now.outer }
    ensures within { result < order.now.n }
    ensures value { let M = order.now.n in (is : IsStep M step.now) (p : Fin (place_count step.now.outer)) → to_nat p ≡ y
        → root_power M result ≡ ((large is).phase-invertible is.quotient.generator p).inverse }
{
    let n = step.outer.order();
    let opposite = (n - 1) * step.outer.phase(step.generator, y);
    root_exponent(opposite, n, order.n())
}

// The matrix at g y, from those at g and at y: their product, times the inverse of the phase of g and y.
fn product_matrix<S: Scalar>(
    alloc: Global,
    order: &Order,
    step: &Step,
    at_generator: &Mat<S>,
    y: u32,
    at_place: &Mat<S>,
) -> Result<Mat<S>, Memory>
    requires admitted { S.admits order.now.n }
    requires step { IsStep order.now.n step.now }
    requires place { y < place_count step.now.outer }
    requires factors { let M = order.now.n in (is : IsStep M step.now) × (d : ℕ) × (E : Representation (large is) d) × HasSmallProducts is E
        × IsMatrix M d (E.at is.quotient.generator) at_generator.now
        × ((p : Fin (place_count step.now.outer)) → to_nat p ≡ y → IsMatrix M d (E.at p) at_place.now) }
    ensures { let M = order.now.n in (is : IsStep M step.now) (d : ℕ) (E : Representation (large is) d) (p : Fin (place_count step.now.outer))
        → to_nat p ≡ y → IsMatrix M d (E.at is.quotient.generator) at_generator.now → IsMatrix M d (E.at p) at_place.now
        → IfOk result (IsMatrix M d (E.at ((phase_table step.now.outer).product is.quotient.generator p))) }
{
    let product = at_generator.mul(alloc, at_place)?;
    let exponent = inverse_exponent(order, step, y);
    multiple(alloc, order, exponent, &product)
}

// The matrix at g n for the member n: the product of that at g with that of the family.
fn member_product<S: Scalar>(
    alloc: Global,
    order: &Order,
    step: &Step,
    family: &Family<S>,
    at_generator: &Mat<S>,
    n: u32,
) -> Result<Mat<S>, Memory>
    requires admitted { S.admits order.now.n }
    requires extension { let M = order.now.n in (traces : List S) × (e : HasExtension M step.now family.now traces)
        × IsMatrix M e.d (e.E.at e.is.quotient.generator) at_generator.now }
    requires member { n < place_count step.now.inner }
    ensures { let M = order.now.n in (traces : List S) (e : HasExtension M step.now family.now traces)
        → IsMatrix M e.d (e.E.at e.is.quotient.generator) at_generator.now → (q : Fin (place_count step.now.inner)) → to_nat q ≡ n
        → IfOk result (IsMatrix M e.d (e.E.at ((phase_table step.now.outer).product e.is.quotient.generator (e.is.part.place q)))) }
{
    let y = step.members[n as usize];
    product_matrix(
        alloc,
        order,
        step,
        at_generator,
        y,
        &family.mats[n as usize],
    )
}

// The matrix at g^2 n for the member n: the product of that at g with that at g n.
fn square_matrix<S: Scalar>(
    alloc: Global,
    order: &Order,
    step: &Step,
    family: &Family<S>,
    at_generator: &Mat<S>,
    n: u32,
) -> Result<Mat<S>, Memory>
    requires admitted { S.admits order.now.n }
    requires extension { let M = order.now.n in (traces : List S) × (e : HasExtension M step.now family.now traces)
        × IsMatrix M e.d (e.E.at e.is.quotient.generator) at_generator.now }
    requires member { n < place_count step.now.inner }
    ensures { let M = order.now.n in (traces : List S) (e : HasExtension M step.now family.now traces)
        → IsMatrix M e.d (e.E.at e.is.quotient.generator) at_generator.now → (q : Fin (place_count step.now.inner)) → to_nat q ≡ n
        → let product = (phase_table step.now.outer).product e.is.quotient.generator in
        IfOk result (IsMatrix M e.d (e.E.at (product (product (e.is.part.place q))))) }
{
    let y = coset_place(step, n);
    let at_coset = member_product(alloc, order, step, family, at_generator, n)?;
    product_matrix(alloc, order, step, at_generator, y, &at_coset)
}

// The matrix at a place.
fn matrix_at_place<S: Scalar>(
    alloc: Global,
    order: &Order,
    step: &Step,
    family: &Family<S>,
    at_generator: &Mat<S>,
    x: u32,
) -> Result<Mat<S>, Memory>
    requires admitted { S.admits order.now.n }
    requires extension { let M = order.now.n in (traces : List S) × (e : HasExtension M step.now family.now traces)
        × IsMatrix M e.d (e.E.at e.is.quotient.generator) at_generator.now }
    requires place { x < place_count step.now.outer }
    ensures { let M = order.now.n in (traces : List S) (e : HasExtension M step.now family.now traces)
        → IsMatrix M e.d (e.E.at e.is.quotient.generator) at_generator.now → (p : Fin (place_count step.now.outer)) → to_nat p ≡ x
        → IfOk result (IsMatrix M e.d (e.E.at p)) }
{
    let exponent = step.exponents[x as usize];
    let n = step.parts[x as usize];
    if exponent == 0 {
        copied(alloc, &family.mats[n as usize])
    } else if exponent == 1 {
        member_product(alloc, order, step, family, at_generator, n)
    } else {
        square_matrix(alloc, order, step, family, at_generator, n)
    }
}

/// The extension of a family with given traces at g n. At a member its matrix is that of the family, at g it follows from
/// the traces, and at g n and g^2 n it is a product of that at g with one of these. The error is want of memory.
pub(crate) fn first_extension<S: Scalar>(
    alloc: Global,
    order: &Order,
    step: &Step,
    family: &Family<S>,
    traces: &[S],
) -> Result<Family<S>, Memory>
    requires admitted { S.admits order.now.n }
    requires extension { HasExtension order.now.n step.now family.now traces.now }
    ensures { let M = order.now.n in (e : HasExtension M step.now family.now traces.now) → IfOk result (IsRead M (large e.is) e.E) }
{
    let at_generator = coset_matrix(alloc, order, step, family, traces, step.generator)?;
    let mut mats = Vec::new(alloc);
    for x in 0..step.outer.len() {
        let matrix = matrix_at_place(alloc, order, step, family, &at_generator, x)?;
        mats.push(matrix)?;
    }
    Ok(Family {
        dim: family.dim,
        mats,
    })
}
